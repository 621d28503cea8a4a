// Algebras and bases with 1/x put for x: what they are at infinity is what their images are at the place x.
ghost use Rattle.std.specs.Prelude.{◌≡◌, ℕ, IfOk, All};
ghost use Rattle.std.specs.List.{AllZip};
ghost use Rattle.theory_rings.specs.Ops.{IsElem};
ghost use Rattle.spl_field.specs.SmallField.{small_ops, small_laws};
ghost use Rattle.theory_fractions.specs.Fraction.{Pair};
ghost use Rattle.spl_fraction.specs.Fractions.{field_of};
ghost use Rattle.spl_fraction.specs.FractionsOver.{fractions_over};
ghost use Rattle.spl_fraction.specs.Valuation.{IsSwapped};
ghost use Rattle.theory_tables.specs.Structure.{IsOver};
ghost use Rattle.theory_bases.specs.Bases.{IsBasis, tuples_of};
ghost use Rattle.theory_swaps.specs.Involutions.{images, image_structure};
ghost use Rattle.theory_swaps.specs.FractionSwaps.{IsFractionSwap};

use crate::basis::Basis;
use spl_algebra::algebra::Algebra;
use spl_field::field::NoMemory;
use spl_fraction::field::Fractions;
use spl_fraction::fraction::Fraction;
use spl_fraction::tuples::{Tuple, Tuples};
use std::alloc::Global;

/// The fractions with 1/x put for x. The one fault is want of memory.
pub fn swapped_tuple(alloc: Global, f: &Fractions, items: &[Fraction]) -> Result<Tuple, NoMemory>
    requires { All (IsElem (fractions_over (field_of f.now))) items.now }
    ensures elems { IfOk result (All (IsElem (fractions_over (field_of f.now)))) }
    ensures value { IfOk result (AllZip (IsSwapped (small_ops (field_of f.now))) items.now) }
{
    let mut tuple = Tuple::new(alloc);
    for item in items {
        tuple.push(f.swap_infinity(alloc, item)?)?;
    }
    Ok(tuple)
}

/// The tuples with 1/x put for x. The one fault is want of memory.
pub fn swapped_tuples(alloc: Global, f: &Fractions, rows: &[Tuple]) -> Result<Tuples, NoMemory>
    requires { All (All (IsElem (fractions_over (field_of f.now)))) rows.now }
    ensures elems { IfOk result (All (All (IsElem (fractions_over (field_of f.now))))) }
    ensures value { IfOk result (AllZip (AllZip (IsSwapped (small_ops (field_of f.now)))) rows.now) }
{
    let mut tuples = Tuples::new(alloc);
    for row in rows {
        tuples.push(swapped_tuple(alloc, f, row.as_slice())?)?;
    }
    Ok(tuples)
}

/// The algebra whose constants have 1/x put for x. The one fault is want of memory.
pub fn swap_algebra(
    alloc: Global,
    f: &Fractions,
    a: &Algebra<Fractions>,
) -> Result<Algebra<Fractions>, NoMemory>
    requires { IsOver (fractions_over (field_of f.now)) a.now }
    ensures dim { IfOk result (λ b. b.dim ≡ a.now.dim) }
    ensures constants { IfOk result (λ b.
        AllZip (IsSwapped (small_ops (field_of f.now))) a.now.constants b.constants) }
    ensures over { IfOk result (IsOver (fractions_over (field_of f.now))) }
    ensures image { IfOk result (λ b. (s : Pair ℕ → Pair ℕ)
        → IsFractionSwap (small_ops (field_of f.now)) (small_laws (field_of f.now)) s
        → b ≡ image_structure s a.now) }
{
    let constants = swapped_tuple(alloc, f, a.constants())?;
    Ok(Algebra::new(alloc, f, a.dim(), constants)?)
}

/// The basis whose tuples have 1/x put for x. The one fault is want of memory.
pub fn swap_order(alloc: Global, f: &Fractions, order: &Basis) -> Result<Basis, NoMemory>
    requires { (n : ℕ) × IsBasis (small_ops (field_of f.now)) (small_laws (field_of f.now)) n order.now }
    ensures basis { IfOk result (λ b. (n : ℕ)
        → IsBasis (small_ops (field_of f.now)) (small_laws (field_of f.now)) n order.now
        → IsBasis (small_ops (field_of f.now)) (small_laws (field_of f.now)) n b) }
    ensures tuples { IfOk result (λ b. AllZip (AllZip (IsSwapped (small_ops (field_of f.now))))
        (tuples_of (small_ops (field_of f.now)) (small_laws (field_of f.now)) order.now)
        (tuples_of (small_ops (field_of f.now)) (small_laws (field_of f.now)) b)) }
    ensures image { IfOk result (λ b. (s : Pair ℕ → Pair ℕ)
        → IsFractionSwap (small_ops (field_of f.now)) (small_laws (field_of f.now)) s
        → tuples_of (small_ops (field_of f.now)) (small_laws (field_of f.now)) b
        ≡ images s (tuples_of (small_ops (field_of f.now)) (small_laws (field_of f.now)) order.now)) }
{
    let tuples = order.tuples(alloc, f)?;
    let swapped = swapped_tuples(alloc, f, tuples.as_slice())?;
    Ok(Basis::of(alloc, f, &swapped)?.unwrap())
}
