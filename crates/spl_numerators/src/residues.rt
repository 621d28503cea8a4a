// The residues of the constants at an irreducible polynomial, and basis elements that generate the algebra with these.
ghost use Rattle.std.specs.Prelude.{◌≡◌, ℕ, ◌*◌, ◌^◌, ◌<◌, ◌≤◌, [], length, get_or, IfOk, IfSome};
ghost use Rattle.theory_tables.specs.Structure.{IsOver as IsStructureOver};
ghost use Rattle.theory_fractions.specs.PolynomialLists.{IsPolynomialList};
ghost use Rattle.spl_field.specs.SmallField.{small_ops};
ghost use Rattle.spl_poly.specs.Operations.{IsOver};
ghost use Rattle.spl_residue.specs.Residue.{field_of};
ghost use Rattle.spl_numerators.specs.Residues.{AreRemainders, GenerateResidues};

use spl_algebra::algebra::Algebra;
use spl_field::field::NoMemory;
use spl_field::list::{List, Vector};
use spl_field::small::SmallField;
use spl_generators::generators::generators;
use spl_matrix::matrix::Indices;
use spl_poly::poly::Poly;
use spl_residue::field::ResidueField;
use std::alloc::Global;

/// The residues of these polynomials.
fn residues_of(
    alloc: Global,
    k: &ResidueField,
    entries: &[Poly],
) -> Result<Vector<ResidueField>, NoMemory>
    requires { (p : ℕ) → p < length entries.now
        → IsPolynomialList (small_ops (field_of k.now)) (get_or entries.now p []) }
    ensures { IfOk result (AreRemainders k.now entries.now (length entries.now)) }
{
    let mut residues = List::new(alloc);
    for p in 0..entries.len() {
        residues.push(k.reduce_poly(alloc, &entries[p])?)?;
    }
    Ok(residues)
}

/// The algebra of dimension m whose constants are the residues of these polynomials. The one fault is want of
/// memory.
pub fn algebra_at(
    alloc: Global,
    k: &ResidueField,
    m: usize,
    entries: &[Poly],
) -> Result<Algebra<ResidueField>, NoMemory>
    requires positive { 1 ≤ m }
    requires count { length entries.now ≡ m * m * m }
    requires polynomials { (p : ℕ) → p < length entries.now
        → IsPolynomialList (small_ops (field_of k.now)) (get_or entries.now p []) }
    ensures dim { IfOk result (λ a. a.dim ≡ m) }
    ensures constants { IfOk result (λ a. AreRemainders k.now entries.now (m * m * m) a.constants) }
{
    let residues = residues_of(alloc, k, entries)?;
    Ok(Algebra::new(alloc, k, m, residues)?)
}

/// Basis elements that generate the algebra of dimension m whose constants are the residues of these polynomials.
pub(crate) fn generators_at(
    alloc: Global,
    k: &ResidueField,
    m: usize,
    entries: &[Poly],
) -> Result<Indices, NoMemory>
    requires positive { 1 ≤ m }
    requires fits { m * m * m < 2 ^ 64 }
    requires count { length entries.now ≡ m * m * m }
    requires polynomials { (p : ℕ) → p < length entries.now
        → IsPolynomialList (small_ops (field_of k.now)) (get_or entries.now p []) }
    ensures { IfOk result (GenerateResidues k.now entries.now m) }
{
    let algebra = algebra_at(alloc, k, m, entries)?;
    Ok(generators(alloc, k, &algebra)?)
}

/// The coefficients of a monic polynomial: the digits of the number to the base that is the size of the field, and 1.
fn coefficients(alloc: Global, f: &SmallField, number: u16) -> Result<Vec<u8>, NoMemory>
    ensures { IfOk result (λ c. IsOver (small_ops f.now) c.items) }
{
    let size = f.size();
    let mut digits = Vec::new(alloc);
    let mut rest = number;
    for digit in 0..16 {
        if rest == 0 && digit > 0 {
            digits.push(1)?;
            return Ok(digits);
        }
        digits.push((rest % size) as u8)?;
        rest = rest / size;
    }
    Ok(digits)
}

/// Whether c isn't 0 in the residue field.
fn stays(alloc: Global, c: &Poly, k: &ResidueField) -> Result<bool, NoMemory>
    requires { IsOver (small_ops (field_of k.now)) c.now }
{
    let residue = k.reduce_poly(alloc, c)?;
    Ok(!k.lift(alloc, &residue)?.is_zero())
}

/// The residue field of the polynomial of this number, where that is irreducible and doesn't divide c. The one fault is
/// want of memory.
pub fn place_at(
    alloc: Global,
    f: &SmallField,
    c: &Poly,
    number: u16,
) -> Result<Option<ResidueField>, NoMemory>
    requires { IsOver (small_ops f.now) c.now }
    ensures { IfOk result (λ r. IfSome r (λ k. small_ops (field_of k) ≡ small_ops f.now)) }
{
    let modulus = Poly::from_list(alloc, f, coefficients(alloc, f, number)?)?;
    let k = match ResidueField::new(alloc, f, &modulus)? {
        Some(k) => k,
        None => return Ok(None),
    };
    if !stays(alloc, c, &k)? {
        return Ok(None);
    }
    Ok(Some(k))
}

/// How many polynomials are tried.
const TRIES: u16 = 200;

/// The residue field of an irreducible polynomial that doesn't divide c, if one is among the first.
pub(crate) fn place(
    alloc: Global,
    f: &SmallField,
    c: &Poly,
) -> Result<Option<ResidueField>, NoMemory>
    requires { IsOver (small_ops f.now) c.now }
    ensures { IfOk result (λ r. IfSome r (λ k. small_ops (field_of k) ≡ small_ops f.now)) }
{
    for number in 0..TRIES {
        match place_at(alloc, f, c, number)? {
            Some(k) => return Ok(Some(k)),
            None => {}
        }
    }
    Ok(None)
}
