// The field of fractions.
ghost use Rattle.std.specs.Prelude.{◌≡◌, ◌≢◌, ◌↔◌, ℕ, List, [], ◌∷◌, ◌++◌, Some, IfOk, IfSome, IsTrue, MatchOption};
ghost use Rattle.std.specs.Prelude.{OnOk, OnErr};
ghost use Rattle.std.specs.Prelude.{All};
ghost use Rattle.theory_rings.specs.Ops.{IsElem};
ghost use Rattle.theory_rings.specs.Polynomial.{IsTrimmed};
ghost use Rattle.spl_field.specs.SmallField.{small_ops, characteristic, modulus_of};
ghost use Rattle.spl_poly.specs.Operations.{IsOver};
ghost use Rattle.theory_fractions.specs.Fraction.{Pair, IsLowestTerms, IsFraction, IsFractionSum, IsFractionProduct};
ghost use Rattle.theory_fractions.specs.Fraction.{IsFractionNegative, IsFractionInverse};
ghost use Rattle.theory_fractions.specs.CommonDenominator.{IsCommonDenominator};
ghost use Rattle.spl_fraction.specs.FractionsOver.{fractions_over, fractions_laws, fractions_zero};
ghost use Rattle.spl_fraction.specs.Valuation.{IsPlaceOver, HasValuation, IsSwapped};

use crate::arithmetic::{are_same, copy_of, inverse_of, negative_of, product_of, sum_of};
use crate::denominator::denominator_of;
use crate::fraction::Fraction;
use crate::place::Place;
use crate::reading::fraction_of_text;
use crate::reduction::{one_poly, reduced};
use crate::swap::swapped;
use crate::valuation::valuation_of;
use crate::writing::push_fraction;
use spl_field::field::{Field, NoMemory};
use spl_field::small::SmallField;
use spl_poly::poly::Poly;
use std::alloc::Global;

/// The field of rational functions in one variable over a small field: its elements are the fractions in lowest terms.
#[derive(Drop)]
pub struct Fractions {
    field: SmallField,
}

impl Field for Fractions {
    type Elem = Fraction;

    ghost ops = { λ k. fractions_over k.field };

    ghost laws = { λ k. fractions_laws k.field };

    ghost same_zero = { λ k l. fractions_zero k.field l.field };

    fn zero(&self, alloc: Global) -> Result<Fraction, NoMemory>
        ensures elem { IfOk result (IsElem (fractions_over self.now.field)) }
        ensures value { IfOk result (λ r. r ≡ (fractions_over self.now.field).zero) }
        ensures pair { IfOk result (λ r. r ≡ ([], 1 ∷ [])) }
    {
        let numerator = Poly::from_slice(alloc, &[])?;
        let one = one_poly(alloc)?;
        Ok(Fraction::of(numerator, one))
    }

    fn one(&self, alloc: Global) -> Result<Fraction, NoMemory>
        ensures elem { IfOk result (IsElem (fractions_over self.now.field)) }
        ensures value { IfOk result (λ r. r ≡ (fractions_over self.now.field).one) }
        ensures pair { IfOk result (λ r. r ≡ (1 ∷ [], 1 ∷ [])) }
    {
        let numerator = one_poly(alloc)?;
        let one = one_poly(alloc)?;
        Ok(Fraction::of(numerator, one))
    }

    fn add(&self, alloc: Global, a: &Fraction, b: &Fraction) -> Result<Fraction, NoMemory>
        requires left { IsElem (fractions_over self.now.field) a.now }
        requires right { IsElem (fractions_over self.now.field) b.now }
        ensures elem { IfOk result (IsElem (fractions_over self.now.field)) }
        ensures value { IfOk result (λ r. r ≡ (fractions_over self.now.field).add a.now b.now) }
        ensures sum { IfOk result (IsFractionSum (small_ops self.now.field) a.now b.now) }
    {
        Ok(sum_of(alloc, &self.field, a, b)?)
    }

    fn neg(&self, alloc: Global, a: &Fraction) -> Result<Fraction, NoMemory>
        requires { IsElem (fractions_over self.now.field) a.now }
        ensures elem { IfOk result (IsElem (fractions_over self.now.field)) }
        ensures value { IfOk result (λ r. r ≡ (fractions_over self.now.field).neg a.now) }
        ensures negative { IfOk result (IsFractionNegative (small_ops self.now.field) a.now) }
    {
        Ok(negative_of(alloc, &self.field, a)?)
    }

    fn mul(&self, alloc: Global, a: &Fraction, b: &Fraction) -> Result<Fraction, NoMemory>
        requires left { IsElem (fractions_over self.now.field) a.now }
        requires right { IsElem (fractions_over self.now.field) b.now }
        ensures elem { IfOk result (IsElem (fractions_over self.now.field)) }
        ensures value { IfOk result (λ r. r ≡ (fractions_over self.now.field).mul a.now b.now) }
        ensures product { IfOk result (IsFractionProduct (small_ops self.now.field) a.now b.now) }
    {
        Ok(product_of(alloc, &self.field, a, b)?)
    }

    fn inv(&self, alloc: Global, a: &Fraction) -> Result<Option<Fraction>, NoMemory>
        requires { IsElem (fractions_over self.now.field) a.now }
        ensures elem { IfOk result (λ o. IfSome o (IsElem (fractions_over self.now.field))) }
        ensures value { IfOk result (λ o. MatchOption o (a.now ≡ (fractions_over self.now.field).zero)
            (λ r. (a.now ≢ (fractions_over self.now.field).zero) × (r ≡ (fractions_over self.now.field).inv a.now))) }
        ensures inverse { IfOk result (λ o. MatchOption o (a.now.0 ≡ [])
            (λ r. (a.now.0 ≢ []) × IsFractionInverse (small_ops self.now.field) a.now r)) }
    {
        if a.numerator().is_zero() {
            return Ok(None);
        }
        Ok(Some(inverse_of(alloc, &self.field, a)?))
    }

    fn copy(&self, alloc: Global, a: &Fraction) -> Result<Fraction, NoMemory>
        requires { IsElem (fractions_over self.now.field) a.now }
        ensures elem { IfOk result (IsElem (fractions_over self.now.field)) }
        ensures value { IfOk result (λ r. r ≡ a.now) }
    {
        Ok(copy_of(alloc, &self.field, a)?)
    }

    fn eq(&self, a: &Fraction, b: &Fraction) -> bool
        requires left { IsElem (fractions_over self.now.field) a.now }
        requires right { IsElem (fractions_over self.now.field) b.now }
        ensures { IsTrue result ↔ (a.now ≡ b.now) }
    {
        are_same(a, b)
    }
}

impl Fractions {
    ghost use Rattle.spl_fraction.specs.Fractions.{field_of};
    ghost use Rattle.spl_fraction.specs.CanonicalText.{canonical_text, IsCanonicalText};

    /// The fractions over an equal field. The one fault is want of memory.
    pub fn over(alloc: Global, field: &SmallField) -> Result<Fractions, NoMemory>
        ensures p { IfOk result (λ k. characteristic (field_of k) ≡ characteristic field.now) }
        ensures modulus { IfOk result (λ k. modulus_of (field_of k) ≡ modulus_of field.now) }
        ensures ops { IfOk result (λ k. small_ops (field_of k) ≡ small_ops field.now) }
    {
        Ok(Fractions {
            field: field.duplicate(alloc)?,
        })
    }

    /// The field that the coefficients are elements of. It takes no memory.
    pub fn field(&self) -> &SmallField
        ensures { result.now ≡ field_of self.now }
    {
        &self.field
    }

    /// The fraction num / den in lowest terms; None exactly where den is 0. The one fault is want of memory.
    pub fn make(&self, alloc: Global, num: &Poly, den: &Poly) -> Result<Option<Fraction>, NoMemory>
        requires num_over { IsOver (small_ops (field_of self.now)) num.now }
        requires den_over { IsOver (small_ops (field_of self.now)) den.now }
        ensures elem { IfOk result (λ o. IfSome o (IsElem (fractions_over (field_of self.now)))) }
        ensures lowest { IfOk result (λ o. IfSome o (λ w. IsLowestTerms (small_ops (field_of self.now)) w.0 w.1)) }
        ensures value { IfOk result (λ o. MatchOption o (den.now ≡ [])
            (λ w. (den.now ≢ []) × IsFraction (small_ops (field_of self.now)) w num.now den.now)) }
    {
        if den.is_zero() {
            return Ok(None);
        }
        let num = num.copy(alloc, &self.field)?;
        let den = den.copy(alloc, &self.field)?;
        Ok(Some(reduced(alloc, &self.field, num, den)?))
    }

    /// The valuation of the fraction at a place, whose polynomial m is irreducible: where the fraction is
    /// (m^s·u)/(m^t·v), and m divides neither u nor v, it is s - t; at infinity it is the degree of the denominator
    /// less that of the numerator. None exactly where the fraction is 0. The one fault is want of memory. (Reiner,
    /// Maximal Orders, section 5; Stichtenoth, Algebraic Function Fields and Codes, section 1.2.)
    pub fn valuation(
        &self,
        alloc: Global,
        a: &Fraction,
        place: &Place,
    ) -> Result<Option<i64>, NoMemory>
        requires elem { IsElem (fractions_over (field_of self.now)) a.now }
        requires place { IsPlaceOver (small_ops (field_of self.now)) place.now }
        ensures none { IfOk result (λ o. (o ≡ None) ↔ (a.now.0 ≡ [])) }
        ensures value { IfOk result (λ o. IfSome o (HasValuation (small_ops (field_of self.now)) place.now a.now)) }
    {
        valuation_of(alloc, &self.field, a, place)
    }

    /// The fraction with 1/x put for x, written in x again: of u/v it is (x^n·u(1/x))/(x^n·v(1/x)). The one fault is
    /// want of memory.
    pub fn swap_infinity(&self, alloc: Global, a: &Fraction) -> Result<Fraction, NoMemory>
        requires { IsElem (fractions_over (field_of self.now)) a.now }
        ensures elem { IfOk result (IsElem (fractions_over (field_of self.now))) }
        ensures value { IfOk result (IsSwapped (small_ops (field_of self.now)) a.now) }
    {
        Ok(swapped(alloc, &self.field, a)?)
    }

    /// The monic polynomial of least degree that makes each of the list a polynomial: it divides each other with this
    /// property. The one fault is want of memory.
    pub fn common_denominator(&self, alloc: Global, list: &[Fraction]) -> Result<Poly, NoMemory>
        requires { All (IsElem (fractions_over (field_of self.now))) list.now }
        ensures value { IfOk result (IsCommonDenominator (small_ops (field_of self.now)) list.now) }
        ensures over { IfOk result (IsOver (small_ops (field_of self.now))) }
        ensures trimmed { IfOk result (IsTrimmed 0) }
    {
        denominator_of(alloc, &self.field, list)
    }

    /// The fraction whose canonical text this is; None exactly where it is that of none. The one fault is want of
    /// memory.
    pub fn read_fraction(&self, alloc: Global, text: &[u8]) -> Result<Option<Fraction>, NoMemory>
        ensures elem { IfOk result (λ o. IfSome o (IsElem (fractions_over (field_of self.now)))) }
        ensures value { IfOk result (λ o. MatchOption o
            ((w : Pair ℕ) → IsCanonicalText (small_ops (field_of self.now)) text.now w → ⊥)
            (IsCanonicalText (small_ops (field_of self.now)) text.now)) }
        ensures again { IfOk result (λ o. (w : Pair ℕ) → IsElem (fractions_over (field_of self.now)) w
            → text.now ≡ canonical_text w → o ≡ Some w) }
    {
        Ok(fraction_of_text(alloc, &self.field, text)?)
    }

    /// Writes the canonical text of the fraction behind what there is, which stays as it was where memory is wanting.
    pub fn write_fraction(
        &self,
        _alloc: Global,
        a: &Fraction,
        out: &mut Vec<u8>,
    ) -> Result<(), NoMemory>
        requires { IsElem (fractions_over (field_of self.now)) a.now }
        ensures ok { OnOk result (out.new.items ≡ out.old.items ++ canonical_text a.now) }
        ensures err { OnErr result (out.new.items ≡ out.old.items) }
    {
        push_fraction(a, out)
    }
}
