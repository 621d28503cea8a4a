// A first order.
ghost use Rattle.std.specs.Prelude.{◌≡◌, ◌≢◌, [], ◌∷◌, ◌++◌, length, IfOk, All};
ghost use Rattle.theory_rings.specs.Sum.{table};
ghost use Rattle.theory_rings.specs.Polynomial.{IsTrimmed};
ghost use Rattle.spl_field.specs.SmallField.{small_ops, small_laws};
ghost use Rattle.theory_fractions.specs.PolynomialLists.{IsPolynomialList};
ghost use Rattle.theory_fractions.specs.CommonDenominator.{as_fraction, Clears};
ghost use Rattle.spl_fraction.specs.Fractions.{field_of};
ghost use Rattle.spl_fraction.specs.FractionsOver.{fractions_over};
ghost use Rattle.theory_spaces.specs.Tuples.{IsTuple, tuple_scale, basis as basis_tuple};
ghost use Rattle.theory_tables.specs.Structure.{IsOver, IsAssociative};
ghost use Rattle.theory_tables.specs.Algebras.{IsIdentity};
ghost use Rattle.theory_bases.specs.TupleLattices.{SameTupleLattice, SpanOrder};
ghost use Rattle.theory_bases.specs.Bases.{IsBasis, IsPolynomialFraction, tuples_of};
ghost use Rattle.theory_bases.specs.StartOrders.{SpansStart};

use crate::basis::Basis;
use crate::lattice_bases::basis_of_lattice;
use crate::units::units_and;
use spl_algebra::algebra::Algebra;
use spl_field::field::NoMemory;
use spl_field::small::SmallField;
use spl_fraction::field::Fractions;
use spl_fraction::fraction::Fraction;
use spl_fraction::tuples::Tuple;
use spl_numerators::numerators::multiples_of;
use spl_poly::poly::Poly;
use std::alloc::Global;

/// A basis of the lattice of one and the multiples of n units by c, where d clears one.
fn start_basis(
    alloc: Global,
    f: &SmallField,
    c: &Poly,
    d: &Poly,
    n: usize,
    one: &[Fraction],
) -> Result<Basis, NoMemory>
    requires c { IsPolynomialList (small_ops f.now) c.now }
    requires c_nonzero { c.now ≢ [] }
    requires d { IsPolynomialList (small_ops f.now) d.now }
    requires d_nonzero { d.now ≢ [] }
    requires one { IsTuple (fractions_over f.now) n one.now }
    requires clears { All (Clears (small_ops f.now) d.now) one.now }
    ensures basis { IfOk result (IsBasis (small_ops f.now) (small_laws f.now) n) }
    ensures lattice { IfOk result (λ b. SameTupleLattice (fractions_over f.now) (IsPolynomialFraction (small_ops f.now))
        n (table n (λ i. tuple_scale (fractions_over f.now) n (as_fraction (small_ops f.now) c.now)
        (basis_tuple (fractions_over f.now) n i)) ++ one.now ∷ [])
        (tuples_of (small_ops f.now) (small_laws f.now) b)) }
{
    let line = multiples_of(alloc, f, d, one)?;
    let scale = c.mul(alloc, f, d)?;
    let rows = units_and(alloc, f, &scale, n, line)?;
    let found = basis_of_lattice(alloc, f, d, &rows)?;
    Ok(found)
}

/// A first order over the polynomials in an algebra with one: a basis of the lattice of one and the basis elements times
/// the common denominator of all constants, which is closed under products. The one fault is want of memory. (Reiner,
/// Maximal Orders, section 8.)
pub fn start_order(
    alloc: Global,
    f: &Fractions,
    a: &Algebra<Fractions>,
    one: &Tuple,
) -> Result<Basis, NoMemory>
    requires over { IsOver (fractions_over (field_of f.now)) a.now }
    requires associative { IsAssociative (fractions_over (field_of f.now)) a.now }
    requires one { IsIdentity (fractions_over (field_of f.now)) a.now one.now }
    ensures basis { IfOk result (IsBasis (small_ops (field_of f.now)) (small_laws (field_of f.now)) a.now.dim) }
    ensures start { IfOk result (λ b. SpansStart (small_ops (field_of f.now)) (small_laws (field_of f.now)) a.now one.now
        (tuples_of (small_ops (field_of f.now)) (small_laws (field_of f.now)) b)) }
    ensures order { IfOk result (λ b. SpanOrder (fractions_over (field_of f.now)) a.now
        (IsPolynomialFraction (small_ops (field_of f.now)))
        (tuples_of (small_ops (field_of f.now)) (small_laws (field_of f.now)) b)) }
{
    let c = f.common_denominator(alloc, a.constants())?;
    let d = f.common_denominator(alloc, one.as_slice())?;
    let found = start_basis(alloc, f.field(), &c, &d, a.dim(), one.as_slice())?;
    Ok(found)
}
