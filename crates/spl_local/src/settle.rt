// Growth of an order at one finite place until nothing grows.
ghost use Rattle.std.specs.Prelude.{◌≡◌, ◌≢◌, ◌*◌, ◌%◌, ℕ, List, IfOk, IfSome, None, All};
ghost use Rattle.theory_rings.specs.Polynomial.{degree};
ghost use Rattle.theory_tables.specs.Structure.{IsOver, IsAssociative};
ghost use Rattle.theory_tables.specs.Algebras.{HasSmallCentre, SpansIdeal};
ghost use Rattle.theory_tables.specs.Traces.{IsNondegenerate};
ghost use Rattle.theory_places.specs.FractionPlaces.{IsMonicIrreducible};
ghost use Rattle.theory_bases.specs.TupleLattices.{SpanOrder};
ghost use Rattle.theory_bases.specs.Bases.{IsBasis, IsPolynomialFraction};
ghost use Rattle.theory_growth.specs.Growths.{GrowthBound};
ghost use Rattle.spl_field.specs.SmallField.{small_ops, small_laws, characteristic};
ghost use Rattle.spl_fraction.specs.Fractions.{field_of};
ghost use Rattle.spl_fraction.specs.FractionsOver.{fractions_over};
ghost use Rattle.spl_residue.specs.Residue.{residue_ops};
ghost use Rattle.spl_order.specs.Residues.{IsResidueAlgebra};
ghost use Rattle.spl_local.specs.Growth.{small_tuples, IsOverorder, IsGrown, DoesNotGrowBy, IsState, IsNextStep};
ghost use Rattle.spl_local.specs.Growth.{IsStateBy};

use crate::ideals::radical_and_ideals;
use spl_algebra::algebra::Algebra;
use spl_field::field::NoMemory;
use spl_fraction::field::Fractions;
use spl_matrix::subspace::Subspace;
use spl_order::basis::Basis;
use spl_order::forms::dual;
use spl_order::left_order::left_order;
use spl_order::lift_ideal::lift_ideal;
use spl_order::residue_algebra::{Residue, residue_algebra};
use spl_order::within::is_within;
use spl_poly::poly::Poly;
use spl_residue::field::ResidueField;
use std::alloc::Global;

/// What a settled order is at its place: its own dual for the trace, or ramified, with a basis of its radical.
#[derive(Drop)]
pub enum State {
    Unimodular,
    Ramified { radical: Basis },
}

/// An order at whose place nothing grows, and what it is there.
#[derive(Drop)]
pub struct Settled {
    pub order: Basis,
    pub state: State,
}

/// A larger order, or what the order is where nothing grows.
#[derive(Drop)]
pub(crate) enum Step {
    Grown { next: Basis },
    Still { state: State },
}

/// The product of a number and the degree of a polynomial.
fn times_degree(n: usize, c: &Poly) -> u128
    ensures { result ≡ n * degree c.now }
{
    let d = c.as_slice().len().saturating_sub(1);
    (n as u128) * (d as u128)
}

/// A bound on the number of orders that grow one after the other from an order at any one place.
fn growth_bound(
    alloc: Global,
    f: &Fractions,
    a: &Algebra<Fractions>,
    order: &Basis,
) -> Result<u128, NoMemory>
    requires over { IsOver (fractions_over (field_of f.now)) a.now }
    requires associative { IsAssociative (fractions_over (field_of f.now)) a.now }
    requires form { IsNondegenerate (fractions_over (field_of f.now)) a.now }
    requires basis { IsBasis (small_ops (field_of f.now)) (small_laws (field_of f.now)) a.now.dim order.now }
    requires order { SpanOrder (fractions_over (field_of f.now)) a.now
        (IsPolynomialFraction (small_ops (field_of f.now))) (small_tuples (field_of f.now) order.now) }
    ensures { IfOk result (λ b. (m : List ℕ) → IsMonicIrreducible (small_ops (field_of f.now)) m
        → GrowthBound (small_ops (field_of f.now)) (small_laws (field_of f.now)) a.now m
        (small_tuples (field_of f.now) order.now) b) }
{
    let duals = dual(alloc, f, a, order)?;
    let e = f.common_denominator(alloc, a.constants())?;
    let s = duals.denominator().mul(alloc, f.field(), &e)?;
    let c = s.mul(alloc, f.field(), &s)?;
    Ok(times_degree(a.dim(), &c))
}

/// The left order of the preimage of an ideal of the order modulo the place, where it is larger than the order.
fn larger_order(
    alloc: Global,
    f: &Fractions,
    a: &Algebra<Fractions>,
    order: &Basis,
    residue: &Residue,
    ideal: &Subspace<ResidueField>,
    place: &Poly,
) -> Result<Option<Basis>, NoMemory>
    requires over { IsOver (fractions_over (field_of f.now)) a.now }
    requires associative { IsAssociative (fractions_over (field_of f.now)) a.now }
    requires place { IsMonicIrreducible (small_ops (field_of f.now)) place.now }
    requires basis { IsBasis (small_ops (field_of f.now)) (small_laws (field_of f.now)) a.now.dim order.now }
    requires order { SpanOrder (fractions_over (field_of f.now)) a.now
        (IsPolynomialFraction (small_ops (field_of f.now))) (small_tuples (field_of f.now) order.now) }
    requires residue { IsResidueAlgebra (field_of f.now) a.now (small_tuples (field_of f.now) order.now) place.now
        residue.now.field residue.now.algebra }
    requires ideal { SpansIdeal (residue_ops residue.now.field) residue.now.algebra ideal.now.rows }
    ensures some { IfOk result (λ r. IfSome r (IsGrown (field_of f.now) a.now place.now order.now)) }
    ensures none { IfOk result (λ r. r ≡ None → DoesNotGrowBy (field_of f.now) a.now place.now order.now
        ideal.now.rows) }
{
    let preimage = lift_ideal(alloc, f, order, residue, ideal)?;
    let left = left_order(alloc, f, a, order, &preimage, place)?;
    if is_within(alloc, f, &left, order)? {
        return Ok(None);
    }
    Ok(Some(left))
}

/// The larger order by the first of the ideals that has one.
fn first_larger(
    alloc: Global,
    f: &Fractions,
    a: &Algebra<Fractions>,
    order: &Basis,
    residue: &Residue,
    ideals: &[Subspace<ResidueField>],
    place: &Poly,
) -> Result<Option<Basis>, NoMemory>
    requires over { IsOver (fractions_over (field_of f.now)) a.now }
    requires associative { IsAssociative (fractions_over (field_of f.now)) a.now }
    requires place { IsMonicIrreducible (small_ops (field_of f.now)) place.now }
    requires basis { IsBasis (small_ops (field_of f.now)) (small_laws (field_of f.now)) a.now.dim order.now }
    requires order { SpanOrder (fractions_over (field_of f.now)) a.now
        (IsPolynomialFraction (small_ops (field_of f.now))) (small_tuples (field_of f.now) order.now) }
    requires residue { IsResidueAlgebra (field_of f.now) a.now (small_tuples (field_of f.now) order.now) place.now
        residue.now.field residue.now.algebra }
    requires ideals { All (λ s. SpansIdeal (residue_ops residue.now.field) residue.now.algebra s.rows) ideals.now }
    ensures some { IfOk result (λ r. IfSome r (IsGrown (field_of f.now) a.now place.now order.now)) }
    ensures none { IfOk result (λ r. r ≡ None
        → All (λ s. DoesNotGrowBy (field_of f.now) a.now place.now order.now s.rows) ideals.now) }
{
    for i in 0..ideals.len() {
        if let Some(next) = larger_order(alloc, f, a, order, residue, &ideals[i], place)? {
            return Ok(Some(next));
        }
    }
    Ok(None)
}

/// Unimodular where the radical is 0, and else ramified with its preimage.
fn state_of(radical: &Subspace<ResidueField>, preimage: Basis) -> State
    ensures { IsStateBy radical.now.rows preimage result }
{
    if radical.dim() == 0 {
        return State::Unimodular;
    }
    State::Ramified { radical: preimage }
}

/// A larger order by the first maximal ideal over the place whose preimage has a larger left order; where there is
/// none, what the order is.
fn next_step(
    alloc: Global,
    f: &Fractions,
    a: &Algebra<Fractions>,
    order: &Basis,
    place: &Poly,
) -> Result<Step, NoMemory>
    requires over { IsOver (fractions_over (field_of f.now)) a.now }
    requires associative { IsAssociative (fractions_over (field_of f.now)) a.now }
    requires centre { HasSmallCentre (fractions_over (field_of f.now)) a.now }
    requires apart { a.now.dim % characteristic (field_of f.now) ≢ 0 }
    requires place { IsMonicIrreducible (small_ops (field_of f.now)) place.now }
    requires basis { IsBasis (small_ops (field_of f.now)) (small_laws (field_of f.now)) a.now.dim order.now }
    requires order { SpanOrder (fractions_over (field_of f.now)) a.now
        (IsPolynomialFraction (small_ops (field_of f.now))) (small_tuples (field_of f.now) order.now) }
    ensures { IfOk result (IsNextStep (field_of f.now) a.now place.now order.now) }
{
    let residue = residue_algebra(alloc, f, a, order, place)?;
    let found = radical_and_ideals(alloc, f.field(), &residue.field, &residue.algebra)?;
    let ideals = found.ideals.as_slice();
    match first_larger(alloc, f, a, order, &residue, ideals, place)? {
        Some(next) => Ok(Step::Grown { next }),
        None => {
            let preimage = lift_ideal(alloc, f, order, &residue, &found.radical)?;
            let state = state_of(&found.radical, preimage);
            Ok(Step::Still { state })
        }
    }
}

/// Growth of an order over the polynomials at a finite place until nothing grows, in an algebra whose centre is the
/// multiples of one and whose trace form is nondegenerate, in a characteristic that does not divide the dimension:
/// while some maximal ideal of the order over the place has a larger left order, that is the next order. The last one
/// holds the first, has the same lattice at each other finite place, and at this place it is its own dual for the
/// trace, or else ramified. The one fault is want of memory. (Reiner, Maximal Orders, sections 25 and 39.)
pub fn settle(
    alloc: Global,
    f: &Fractions,
    a: &Algebra<Fractions>,
    order: &Basis,
    place: &Poly,
) -> Result<Settled, NoMemory>
    requires over { IsOver (fractions_over (field_of f.now)) a.now }
    requires associative { IsAssociative (fractions_over (field_of f.now)) a.now }
    requires centre { HasSmallCentre (fractions_over (field_of f.now)) a.now }
    requires form { IsNondegenerate (fractions_over (field_of f.now)) a.now }
    requires apart { a.now.dim % characteristic (field_of f.now) ≢ 0 }
    requires place { IsMonicIrreducible (small_ops (field_of f.now)) place.now }
    requires basis { IsBasis (small_ops (field_of f.now)) (small_laws (field_of f.now)) a.now.dim order.now }
    requires order { SpanOrder (fractions_over (field_of f.now)) a.now
        (IsPolynomialFraction (small_ops (field_of f.now))) (small_tuples (field_of f.now) order.now) }
    ensures order { IfOk result (λ r. IsOverorder (field_of f.now) a.now place.now order.now r.order) }
    ensures state { IfOk result (λ r. IsState (field_of f.now) a.now place.now r.order r.state) }
{
    let mut left = growth_bound(alloc, f, a, order)?;
    let mut grown = order.copy(alloc, f)?;
    loop {
        match next_step(alloc, f, a, &grown, place)? {
            Step::Grown { next } => {
                grown = next;
                left -= 1;
            }
            Step::Still { state } => {
                return Ok(Settled {
                    order: grown,
                    state,
                });
            }
        }
    }
}
