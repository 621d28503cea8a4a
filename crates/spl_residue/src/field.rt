// Residue fields.
ghost use Rattle.std.specs.Prelude.{◌≡◌, ◌<◌, length, IfOk, IfSome, MatchOption};
ghost use Rattle.theory_rings.specs.Ops.{IsElem};
ghost use Rattle.theory_rings.specs.Sum.{at};
ghost use Rattle.theory_rings.specs.Power.{power_of};
ghost use Rattle.theory_rings.specs.Polynomial.{IsTrimmed};
ghost use Rattle.theory_remainders.specs.Irreducible.{IsIrreducible};
ghost use Rattle.theory_remainders.proofs.IrreducibleLists.{IsIrreducible-prop};
ghost use Rattle.theory_remainders.specs.RemainderLaws.{IsRemainderOf};
ghost use Rattle.spl_field.specs.SmallField.{small_ops, characteristic, modulus_of};
ghost use Rattle.spl_poly.specs.Operations.{IsOver};
ghost use Rattle.spl_residue.specs.ResidueOver.{residues_over, residues_laws, residues_zero};

use crate::elem::ResidueElem;
use crate::inverse::{inverse_of, one, zero};
use crate::irreducible::is_irreducible;
use crate::remainder::{are_same, negated, product_of, rest_of, root_of, sum_of};
use spl_field::field::{Field, NoMemory};
use spl_field::small::SmallField;
use spl_poly::poly::Poly;
use std::alloc::Global;

/// The field of the remainders by an irreducible polynomial over a small field. Its elements are the polynomials of
/// smaller degree.
pub struct ResidueField {
    field: SmallField,
    modulus: Poly,
    ghost irreducible: { IsIrreducible (small_ops field) modulus } by { IsIrreducible-prop (small_ops field) modulus },
}

// (one proof for all functions that drop a field, in place of one in each)
impl Drop for ResidueField {
    fn drop(self) {
        let ResidueField { field, modulus } = self;
    }
}

impl Field for ResidueField {
    type Elem = ResidueElem;

    ghost ops = { λ k. residues_over k.field k.modulus k.irreducible };

    ghost laws = { λ k. residues_laws k.field k.modulus k.irreducible };

    ghost same_zero = { λ k l. residues_zero k.field l.field k.modulus l.modulus k.irreducible l.irreducible };

    fn zero(&self, alloc: Global) -> Result<ResidueElem, NoMemory> {
        Ok(ResidueElem::of(zero(alloc)?))
    }

    fn one(&self, alloc: Global) -> Result<ResidueElem, NoMemory> {
        Ok(ResidueElem::of(one(alloc)?))
    }

    fn add(
        &self,
        alloc: Global,
        a: &ResidueElem,
        b: &ResidueElem,
    ) -> Result<ResidueElem, NoMemory> {
        let sum = sum_of(alloc, &self.field, &self.modulus, a.poly(), b.poly())?;
        Ok(ResidueElem::of(sum))
    }

    fn neg(&self, alloc: Global, a: &ResidueElem) -> Result<ResidueElem, NoMemory> {
        let negative = negated(alloc, &self.field, a.poly())?;
        Ok(ResidueElem::of(negative))
    }

    fn mul(
        &self,
        alloc: Global,
        a: &ResidueElem,
        b: &ResidueElem,
    ) -> Result<ResidueElem, NoMemory> {
        let product = product_of(alloc, &self.field, &self.modulus, a.poly(), b.poly())?;
        Ok(ResidueElem::of(product))
    }

    fn inv(&self, alloc: Global, a: &ResidueElem) -> Result<Option<ResidueElem>, NoMemory> {
        if a.poly().is_zero() {
            return Ok(None);
        }
        let inverse = inverse_of(alloc, &self.field, &self.modulus, a.poly())?;
        Ok(Some(ResidueElem::of(inverse)))
    }

    fn copy(&self, alloc: Global, a: &ResidueElem) -> Result<ResidueElem, NoMemory> {
        let poly = a.poly().copy(alloc, &self.field)?;
        Ok(ResidueElem::of(poly))
    }

    fn eq(&self, a: &ResidueElem, b: &ResidueElem) -> bool {
        are_same(a.poly(), b.poly())
    }
}

impl ResidueField {
    ghost use Rattle.spl_residue.specs.Residue.{field_of, polynomial_of, residue_ops};

    /// The field of the remainders by the modulus, over a field equal to f; None exactly where the modulus is not
    /// irreducible. The one fault is want of memory.
    pub fn new(
        alloc: Global,
        f: &SmallField,
        modulus: &Poly,
    ) -> Result<Option<ResidueField>, NoMemory>
        requires { IsOver (small_ops f.now) modulus.now }
        ensures value { IfOk result (λ o. MatchOption o (IsIrreducible (small_ops f.now) modulus.now → ⊥)
            (λ k. IsIrreducible (small_ops f.now) modulus.now × (polynomial_of k ≡ modulus.now))) }
        ensures p { IfOk result (λ o. IfSome o (λ k. characteristic (field_of k) ≡ characteristic f.now)) }
        ensures modulus { IfOk result (λ o. IfSome o (λ k. modulus_of (field_of k) ≡ modulus_of f.now)) }
        ensures ops { IfOk result (λ o. IfSome o (λ k. small_ops (field_of k) ≡ small_ops f.now)) }
    {
        if !is_irreducible(alloc, f, modulus)? {
            return Ok(None);
        }
        let field = f.duplicate(alloc)?;
        let modulus = modulus.copy(alloc, f)?;
        Ok(Some(ResidueField { field, modulus }))
    }

    /// The irreducible polynomial by which the remainders are taken. It takes no memory.
    pub fn modulus(&self) -> &Poly
        ensures value { result.now ≡ polynomial_of self.now }
        ensures irreducible { IsIrreducible (small_ops (field_of self.now)) result.now }
    {
        &self.modulus
    }

    /// The field that the coefficients are elements of. It takes no memory.
    pub fn field(&self) -> &SmallField
        ensures { result.now ≡ field_of self.now }
    {
        &self.field
    }

    /// The remainder of a polynomial. The one fault is want of memory.
    pub fn reduce_poly(&self, alloc: Global, a: &Poly) -> Result<ResidueElem, NoMemory>
        requires { IsOver (small_ops (field_of self.now)) a.now }
        ensures elem { IfOk result (IsElem (residue_ops self.now)) }
        ensures value { IfOk result (IsRemainderOf (small_ops (field_of self.now))
            (at (small_ops (field_of self.now)) a.now) (polynomial_of self.now)) }
    {
        let copy = a.copy(alloc, &self.field)?;
        let rest = rest_of(alloc, &self.field, &self.modulus, copy)?;
        Ok(ResidueElem::of(rest))
    }

    /// The polynomial of an element, which is of smaller degree than the modulus. The one fault is want of memory.
    pub fn lift(&self, alloc: Global, a: &ResidueElem) -> Result<Poly, NoMemory>
        requires { IsElem (residue_ops self.now) a.now }
        ensures value { IfOk result (λ p. p ≡ a.now) }
        ensures over { IfOk result (IsOver (small_ops (field_of self.now))) }
        ensures trimmed { IfOk result (IsTrimmed 0) }
        ensures smaller { IfOk result (λ p. length p < length (polynomial_of self.now)) }
    {
        Ok(a.poly().copy(alloc, &self.field)?)
    }

    /// The element whose p-th power is a, for the characteristic p. The one fault is want of memory.
    pub fn frobenius_root(&self, alloc: Global, a: &ResidueElem) -> Result<ResidueElem, NoMemory>
        requires { IsElem (residue_ops self.now) a.now }
        ensures elem { IfOk result (IsElem (residue_ops self.now)) }
        ensures value { IfOk result
            (λ r. power_of (residue_ops self.now) r (characteristic (field_of self.now)) ≡ a.now) }
    {
        let root = root_of(alloc, &self.field, &self.modulus, a.poly())?;
        Ok(ResidueElem::of(root))
    }
}
