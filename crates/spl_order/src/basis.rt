// Bases of lattices, as rows of polynomials over one denominator.
ghost use Rattle.std.specs.Prelude.{◌≡◌, ℕ, ◌<◌, length, IfOk, IfSome, None};
ghost use Rattle.theory_rings.specs.Ops.{Ops, FieldLaws};
ghost use Rattle.spl_field.specs.SmallField.{small_ops, small_laws};
ghost use Rattle.spl_fraction.specs.Fractions.{field_of};
ghost use Rattle.spl_fraction.specs.FractionsOver.{fractions_over};
ghost use Rattle.theory_tables.specs.Matrix.{IsMatrix};
ghost use Rattle.theory_tables.specs.Subspace.{AreIndependent};
ghost use Rattle.theory_bases.specs.Bases.{BasisForm, IsBasis, IsDenominatorOf, tuples_of};

use crate::copies::copied_rows;
use crate::fractions::tuples_over;
use crate::numerators::{joined_fractions, numerator_rows};
use spl_field::field::NoMemory;
use spl_fraction::field::Fractions;
use spl_fraction::tuples::Tuples;
use spl_lattice::lattices::kernel;
use spl_lattice::matrix::PolyMatrix;
use spl_poly::poly::Poly;
use std::alloc::Global;
use std::marker::Model;

/// N independent tuples of N fractions, as N rows of N polynomials over one denominator. For a place it stands for the
/// lattice of their combinations with weights that are integral there, and for the polynomials for that of their
/// combinations with polynomials. Contracts see it as the denominator and the rows, of which `tuples_of` makes the
/// tuples; that these are a basis is a condition of the calls that take it (`IsBasis`).
pub struct Basis {
    pub(crate) denominator: Poly,
    pub(crate) numerators: PolyMatrix,
}

// (one proof for all functions that drop a basis, in place of one in each)
impl Drop for Basis {
    fn drop(self) {
        let Basis {
            denominator,
            numerators,
        } = self;
    }
}

impl Model for Basis {
    ghost use Rattle.std.specs.Prelude.{ℕ};
    ghost use Rattle.theory_bases.specs.Bases.{BasisForm};

    ghost Value = { BasisForm ℕ };

    ghost view = { λ b. record { denominator = b.denominator; numerators = b.numerators } };
}

impl Basis {
    /// The basis of these tuples, as many as each has fractions; None exactly where they are dependent. The one fault
    /// is want of memory.
    pub fn of(alloc: Global, f: &Fractions, tuples: &Tuples) -> Result<Option<Basis>, NoMemory>
        requires { IsMatrix (fractions_over (field_of f.now)) (length tuples.now) tuples.now }
        ensures none { IfOk result (λ r. r ≡ None
            → AreIndependent (fractions_over (field_of f.now)) (length tuples.now) tuples.now → ⊥) }
        ensures basis { IfOk result (λ r.
            IfSome r (IsBasis (small_ops (field_of f.now)) (small_laws (field_of f.now)) (length tuples.now))) }
        ensures tuples { IfOk result (λ r.
            IfSome r (λ b. tuples_of (small_ops (field_of f.now)) (small_laws (field_of f.now)) b ≡ tuples.now)) }
    {
        let list = joined_fractions(alloc, f, tuples.as_slice())?;
        let denominator = f.common_denominator(alloc, list.as_slice())?;
        let numerators = numerator_rows(alloc, f.field(), &denominator, tuples.as_slice())?;
        if kernel(alloc, f.field(), &numerators)?.is_empty() {
            return Ok(Some(Basis {
                denominator,
                numerators,
            }));
        }
        Ok(None)
    }

    /// An equal basis. The one fault is want of memory.
    pub fn copy(&self, alloc: Global, f: &Fractions) -> Result<Basis, NoMemory>
        requires { (n : ℕ) × IsBasis (small_ops (field_of f.now)) (small_laws (field_of f.now)) n self.now }
        ensures { IfOk result (λ r. r ≡ self.now) }
    {
        let numerators = copied_rows(alloc, f.field(), self.numerators.as_slice())?;
        let denominator = self.denominator.copy(alloc, f.field())?;
        Ok(Basis {
            denominator,
            numerators,
        })
    }

    /// The tuples, in their order. The one fault is want of memory.
    pub fn tuples(&self, alloc: Global, f: &Fractions) -> Result<Tuples, NoMemory>
        requires { (n : ℕ) × IsBasis (small_ops (field_of f.now)) (small_laws (field_of f.now)) n self.now }
        ensures { IfOk result (λ r.
            r ≡ tuples_of (small_ops (field_of f.now)) (small_laws (field_of f.now)) self.now) }
    {
        tuples_over(alloc, f, &self.denominator, self.numerators.as_slice())
    }

    /// The monic polynomial of least degree that makes each fraction of the basis a polynomial. It takes no memory.
    pub fn denominator(&self) -> &Poly
        ensures value { result.now ≡ self.now.denominator }
        ensures least { (o : Ops ℕ) (L : FieldLaws o) (n : ℕ) → IsBasis o L n self.now
            → IsDenominatorOf o (tuples_of o L self.now) result.now }
    {
        &self.denominator
    }

    /// Row by row the polynomials which, over the denominator, are the tuples. It takes no memory.
    pub fn numerators(&self) -> &PolyMatrix
        ensures { result.now ≡ self.now.numerators }
    {
        &self.numerators
    }
}
