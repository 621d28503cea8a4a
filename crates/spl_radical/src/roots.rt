// Roots of the residues of traces.
ghost use Rattle.std.specs.Prelude.{◌≡◌, ℕ, ◌+◌, ◌*◌, ◌/◌, ◌%◌, ◌^◌, ◌≤◌, length, get_or, IfOk};
ghost use Rattle.theory_rings.specs.Ops.{IsElem};
ghost use Rattle.theory_rings.specs.Digits.{of_digits};
ghost use Rattle.theory_rings.specs.Power.{power_of};
ghost use Rattle.theory_rings.specs.Sum.{table};
ghost use Rattle.theory_tables.specs.Structure.{IsOver, IsElement};
ghost use Rattle.spl_residue.specs.Residue.{residue_ops};
ghost use Rattle.spl_radical.specs.LiftNumbers.{residues_of, level_of};
ghost use Rattle.spl_radical.specs.LiftRing.{prime_of, width_of};
ghost use Rattle.spl_radical.specs.Radical.{IsQuotientResidue, IsTraceRoot};

use crate::digits::power_of;
use crate::lift_ring::LiftRing;
use crate::trace_power::trace_power;
use spl_algebra::algebra::Algebra;
use spl_field::field::{Field, NoMemory};
use spl_field::list::{Codes, List, Vector};
use spl_poly::poly::Poly;
use spl_residue::elem::ResidueElem;
use spl_residue::field::ResidueField;
use std::alloc::Global;

/// The number whose digits to the base p are the numbers from place u·d on, divided by the power, modulo p.
fn coefficient_of(p: u64, d: usize, power: u64, numbers: &[u64], u: usize) -> u64
    requires base { 2 ≤ p }
    requires small { p ^ d ≤ 256 }
    requires power { 1 ≤ power }
    requires within { u * d + d ≤ length numbers.now }
    ensures { result ≡ of_digits p d (λ v. get_or numbers.now (u * d + v) 0 / power % p) }
{
    let mut sum = 0;
    let mut place = 1;
    for v in 0..d {
        sum = sum + numbers[u * d + v] / power % p * place;
        place = place * p;
    }
    sum
}

/// The e numbers whose digits these are.
fn coefficients_of(
    alloc: Global,
    p: u64,
    d: usize,
    e: usize,
    power: u64,
    numbers: &[u64],
) -> Result<Codes, NoMemory>
    requires base { 2 ≤ p }
    requires small { p ^ d ≤ 256 }
    requires power { 1 ≤ power }
    requires within { e * d ≤ length numbers.now }
    ensures { IfOk result (λ r. r ≡
        table e (λ u. of_digits p d (λ v. get_or numbers.now (u * d + v) 0 / power % p))) }
{
    let mut codes = List::new(alloc);
    for u in 0..e {
        codes.push(coefficient_of(p, d, power, numbers, u) as u8)?;
    }
    Ok(codes)
}

/// The residue of what has these numbers where it is taken p^i times.
fn quotient_residue(
    alloc: Global,
    k: &ResidueField,
    numbers: &[u64],
    i: u32,
) -> Result<ResidueElem, NoMemory>
    requires first { 1 ≤ i }
    requires fits { prime_of k.now ^ i ≤ 2 ^ 40 }
    requires count { length numbers.now ≡ width_of k.now }
    ensures elem { IfOk result (IsElem (residue_ops k.now)) }
    ensures value { (l : ℕ) → i ≤ l → IfOk result (IsQuotientResidue k.now l i numbers.now) }
{
    let f = k.field();
    let p = u64::from(f.p());
    let power = power_of(p, i - 1);
    let d = f.modulus().len();
    let e = k.modulus().as_slice().len() - 1;
    let codes = coefficients_of(alloc, p, d, e, power, numbers)?;
    let poly = Poly::from_slice(alloc, codes.as_slice())?;
    let residue = k.reduce_poly(alloc, &poly)?;
    Ok(residue)
}

/// The element whose p^i-th power is a.
fn iterated_root(
    alloc: Global,
    k: &ResidueField,
    a: ResidueElem,
    i: u32,
) -> Result<ResidueElem, NoMemory>
    requires { IsElem (residue_ops k.now) a }
    ensures elem { IfOk result (IsElem (residue_ops k.now)) }
    ensures value { IfOk result (λ r. power_of (residue_ops k.now) r (prime_of k.now ^ i) ≡ a) }
{
    let mut root = a;
    for _i in 0..i {
        root = k.frobenius_root(alloc, &root)?;
    }
    Ok(root)
}

/// The element whose p^i-th power is the residue of the trace of the p^i-th power of the lift of a, over p^i.
pub(crate) fn trace_root(
    alloc: Global,
    ring: &LiftRing,
    k: &ResidueField,
    b: &Algebra<ResidueField>,
    a: &Vector<ResidueField>,
    i: u32,
) -> Result<ResidueElem, NoMemory>
    requires same { residues_of ring.now ≡ k.now }
    requires over { IsOver (residue_ops k.now) b.now }
    requires element { IsElement (residue_ops k.now) b.now a.now }
    requires first { 1 ≤ i }
    requires exponent { i ≤ level_of ring.now }
    ensures elem { IfOk result (IsElem (residue_ops k.now)) }
    ensures root { IfOk result (IsTraceRoot k.now (level_of ring.now) b.now i a.now) }
{
    let trace = trace_power(alloc, ring, b, a, i)?;
    let residue = quotient_residue(alloc, k, trace.numbers(), i)?;
    let root = iterated_root(alloc, k, residue, i)?;
    Ok(root)
}
