// Algebras by their structure constants.
ghost use Rattle.std.specs.Prelude.{◌≡◌, ℕ, ◌*◌, ◌+◌, ◌^◌, ◌<◌, ◌≤◌, ◌↔◌, List, length, IfOk, IsTrue};
ghost use Rattle.theory_rings.specs.Ops.{Ops, IsElem};
ghost use Rattle.theory_tables.specs.Structure.{Structure, IsOver, IsElement, AssociatesAt, basis_of, product_of};
ghost use Rattle.theory_tables.specs.Claims.{IsBasisNumber};
ghost use Rattle.spl_algebra.specs.Entries.{AreEntries};

use crate::basis::{associates, row_of};
use crate::entries::{Entries, entries_of};
use crate::products::product_of_slices;
use spl_field::field::{Field, NoMemory};
use spl_field::list::{List, Vector};
use spl_matrix::rows::identity_row;
use std::alloc::Global;
use std::marker::Model;

/// The structure constants of an algebra of dimension m, m³ elements of a field: the one for the basis elements i, j
/// and k, counted from 0, stands at (i·m + j)·m + k.
pub type Constants<F> = Vector<F>;

/// An algebra over a field, by its dimension m, at least 1, and its m³ structure constants: the product of the basis
/// elements i and j is the sum over k of the constant at (i, j, k) times the basis element k. An element is a list of m
/// elements of the field. It need not be associative or have an identity. Beside the constants it keeps those that are
/// not 0, row by row.
pub struct Algebra<F: Field> {
    dim: usize,
    constants: Constants<F>,
    entries: List<Entries<F>>,
}

// (one proof for all functions that drop an algebra, in place of one in each)
impl<F: Field> Drop for Algebra<F> {
    fn drop(self) {
        let Algebra {
            dim,
            constants,
            entries,
        } = self;
    }
}

impl<F: Field> Model for Algebra<F> {
    ghost use Rattle.std.specs.Prelude.{◌≡◌, ◌*◌, ◌^◌, ◌<◌, ◌≤◌, length};
    ghost use Rattle.theory_tables.specs.Structure.{Structure};
    ghost use Rattle.spl_algebra.specs.Entries.{AreRowEntries};

    ghost Value = { Structure F.Elem };

    ghost view = { λ a. record { dim = a.dim; constants = a.constants } };

    ghost invariant = { λ a.
        (1 ≤ a.dim) × (length a.constants ≡ a.dim * a.dim * a.dim) × (a.dim * a.dim * a.dim < 2 ^ 64)
        × (length a.entries ≡ a.dim * a.dim)
        × ((f : F) → AreRowEntries (F.ops f) a.dim a.constants (a.dim * a.dim) a.entries) };
}

impl<F: Field> Algebra<F> {
    /// The algebra of dimension m with these constants.
    pub fn new(
        alloc: Global,
        f: &F,
        m: usize,
        constants: Constants<F>,
    ) -> Result<Algebra<F>, NoMemory>
        requires positive { 1 ≤ m }
        requires over { IsOver (F.ops f.now) (record { dim = m; constants = constants }) }
        ensures dim { IfOk result (λ a. a.dim ≡ m) }
        ensures constants { IfOk result (λ a. a.constants ≡ constants) }
    {
        let _ = constants.len();
        let entries = entries_of(alloc, f, m, constants.as_slice())?;
        Ok(Algebra {
            dim: m,
            constants,
            entries,
        })
    }

    /// The dimension.
    pub fn dim(&self) -> usize
        ensures dim { result ≡ self.now.dim }
        ensures positive { 1 ≤ result }
    {
        self.dim
    }

    /// The constants. It takes no memory.
    pub fn constants(&self) -> &[F::Elem]
        ensures value { result.now ≡ self.now.constants }
        ensures count { length result.now ≡ self.now.dim * self.now.dim * self.now.dim }
        ensures fits { self.now.dim * self.now.dim * self.now.dim < 2 ^ 64 }
    {
        let _ = self.dim;
        self.constants.as_slice()
    }

    /// The constants for the basis elements i and j, counted from 1, that are not 0. It takes no memory.
    pub fn entries(&self, i: usize, j: usize) -> &Entries<F>
        requires left { IsBasisNumber self.now.dim i }
        requires right { IsBasisNumber self.now.dim j }
        ensures { (f : F) → AreEntries (F.ops f) self.now i j result.now }
    {
        let row = (i - 1) * self.dim + (j - 1);
        &self.entries.as_slice()[row]
    }

    /// An equal algebra over f. The one fault is want of memory.
    pub fn copy(&self, alloc: Global, f: &F) -> Result<Self, NoMemory>
        requires { IsOver (F.ops f.now) self.now }
        ensures { IfOk result (λ a. a ≡ self.now) }
    {
        let constants = self.constants.copy(alloc, f)?;
        let copy = Algebra::new(alloc, f, self.dim, constants)?;
        Ok(copy)
    }

    /// The product of a and b.
    pub fn mul(
        &self,
        alloc: Global,
        f: &F,
        a: &Vector<F>,
        b: &Vector<F>,
    ) -> Result<Vector<F>, NoMemory>
        requires over { IsOver (F.ops f.now) self.now }
        requires left { IsElement (F.ops f.now) self.now a.now }
        requires right { IsElement (F.ops f.now) self.now b.now }
        ensures elem { IfOk result (IsElement (F.ops f.now) self.now) }
        ensures value { IfOk result (λ r. r ≡ product_of (F.ops f.now) self.now a.now b.now) }
    {
        product_of_slices(
            alloc,
            f,
            self.dim,
            self.constants.as_slice(),
            a.as_slice(),
            b.as_slice(),
        )
    }

    /// The basis element i.
    pub fn basis_element(&self, alloc: Global, f: &F, i: usize) -> Result<Vector<F>, NoMemory>
        requires { i < self.now.dim }
        ensures elem { IfOk result (IsElement (F.ops f.now) self.now) }
        ensures value { IfOk result (λ r. r ≡ basis_of (F.ops f.now) self.now i) }
    {
        identity_row(alloc, f, self.dim(), i)
    }

    /// The product of the basis elements i and j. It takes no memory, since it is a row of the constants.
    pub fn basis_product(&self, f: &F, i: usize, j: usize) -> &[F::Elem]
        requires over { IsOver (F.ops f.now) self.now }
        requires left { i < self.now.dim }
        requires right { j < self.now.dim }
        ensures elem { IsElement (F.ops f.now) self.now result.now }
        ensures value { result.now ≡ product_of (F.ops f.now) self.now
            (basis_of (F.ops f.now) self.now i) (basis_of (F.ops f.now) self.now j) }
    {
        row_of(f, self.dim, self.constants.as_slice(), i, j)
    }

    /// Whether (b_i·b_j)·b_k and b_i·(b_j·b_k) are the same, where b_i is the basis element i.
    pub fn associates_at(
        &self,
        alloc: Global,
        f: &F,
        i: usize,
        j: usize,
        k: usize,
    ) -> Result<bool, NoMemory>
        requires over { IsOver (F.ops f.now) self.now }
        requires first { i < self.now.dim }
        requires second { j < self.now.dim }
        requires third { k < self.now.dim }
        ensures { IfOk result (λ b. IsTrue b ↔ AssociatesAt (F.ops f.now) self.now i j k) }
    {
        associates(alloc, f, self.dim, self.constants.as_slice(), i, j, k)
    }
}
