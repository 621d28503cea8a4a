// Quotients by ideals.
ghost use Rattle.std.specs.Prelude.{◌≡◌, ◌+◌, ◌*◌, ◌/◌, ◌%◌, ◌^◌, ◌<◌, ◌≤◌, ◌++◌, ℕ, IfOk, OnOk, length, get_or, All};
ghost use Rattle.theory_rings.specs.Ops.{IsElem};
ghost use Rattle.theory_rings.specs.Sum.{table};
ghost use Rattle.theory_spaces.specs.Tuples.{IsTuple, basis};
ghost use Rattle.theory_tables.specs.Matrix.{IsMatrix, image};
ghost use Rattle.theory_tables.specs.Subspace.{IsSubspace};
ghost use Rattle.theory_tables.specs.Structure.{IsOver};
ghost use Rattle.theory_tables.specs.Algebras.{SpansIdeal, SpansAll};
ghost use Rattle.theory_tables.specs.Quotient.{IsQuotient};
ghost use Rattle.spl_algebra.specs.Quotients.{JoinsRows, image_row};

use crate::algebra::{Algebra, Constants};
use crate::basis::row_of;
use crate::products::contracted_item;
use spl_field::field::{Field, NoMemory};
use spl_field::list::{List, Vector};
use spl_matrix::matrix::Matrix;
use spl_matrix::rows::identity_row;
use spl_matrix::subspace::Subspace;
use std::alloc::Global;

/// An algebra modulo an ideal: the class of an element v is project·v, and row i of the lifts is an element of the
/// class that is the basis element i of the quotient.
pub struct Quotient<F: Field> {
    pub algebra: Algebra<F>,
    pub project: Matrix<F>,
    pub lifts: Matrix<F>,
}

/// Appends the items of project·v.
fn push_image<F: Field>(
    alloc: Global,
    f: &F,
    zero: &F::Elem,
    project: &[Vector<F>],
    v: &[F::Elem],
    items: &mut Vector<F>,
) -> Result<(), NoMemory>
    requires zero { zero.now ≡ (F.ops f.now).zero }
    requires shape { IsMatrix (F.ops f.now) (length v.now) project.now }
    requires vector { All (IsElem (F.ops f.now)) v.now }
    ensures { OnOk result (items.new ≡
        items.old ++ image (F.ops f.now) (length project.now) (length v.now) project.now v.now) }
{
    for i in 0..project.len() {
        items.push(contracted_item(alloc, f, zero, project[i].as_slice(), v, 0, 1)?)?;
    }
    Ok(())
}

/// The images of the products of the basis elements at two of the places, for all pairs of places.
fn image_rows<F: Field>(
    alloc: Global,
    f: &F,
    m: usize,
    constants: &[F::Elem],
    places: &[usize],
    project: &[Vector<F>],
) -> Result<Constants<F>, NoMemory>
    requires fits { m * m * m < 2 ^ 64 }
    requires over { IsTuple (F.ops f.now) (m * m * m) constants.now }
    requires shape { IsMatrix (F.ops f.now) m project.now }
    requires places { (s : ℕ) → s < length places.now → get_or places.now s 0 < m }
    requires few { length places.now * length places.now < 2 ^ 64 }
    ensures { IfOk result (JoinsRows (F.ops f.now) (length project.now) (length places.now * length places.now)
        (image_row (F.ops f.now) m constants.now places.now project.now)) }
{
    let zero = f.zero(alloc)?;
    let mut items = List::new(alloc);
    let n = places.len();
    for r in 0..n * n {
        let product = row_of(f, m, constants, places[r / n], places[r % n]);
        push_image(alloc, f, &zero, project, product, &mut items)?;
    }
    Ok(items)
}

/// The basis elements at these places.
fn unit_rows<F: Field>(
    alloc: Global,
    f: &F,
    m: usize,
    places: &[usize],
) -> Result<Matrix<F>, NoMemory>
    ensures shape { IfOk result (IsMatrix (F.ops f.now) m) }
    ensures value { IfOk result (λ r. r ≡ table (length places.now) (λ i.
        basis (F.ops f.now) m (get_or places.now i 0))) }
{
    let mut rows = Matrix::new(alloc);
    for i in 0..places.len() {
        rows.push(identity_row(alloc, f, m, places[i])?)?;
    }
    Ok(rows)
}

impl<F: Field> Algebra<F> {
    /// The quotient by an ideal that is not everything. Its basis is the classes of the basis elements at the pivots of
    /// the ideal's annihilator, which is the matrix that sends an element to its class.
    pub fn quotient(
        &self,
        alloc: Global,
        f: &F,
        ideal: &Subspace<F>,
    ) -> Result<Quotient<F>, NoMemory>
        requires over { IsOver (F.ops f.now) self.now }
        requires basis { IsSubspace (F.ops f.now) ideal.now }
        requires width { ideal.now.width ≡ self.now.dim }
        requires ideal { SpansIdeal (F.ops f.now) self.now ideal.now.rows }
        requires proper { SpansAll (F.ops f.now) self.now ideal.now.rows → ⊥ }
        ensures { IfOk result (λ q.
            IsQuotient (F.ops f.now) self.now ideal.now.rows q.algebra q.project q.lifts) }
    {
        let m = self.dim();
        let project = ideal.annihilator(alloc, f)?;
        let pivots = project.pivots(alloc, f)?;
        let places = pivots.as_slice();
        let constants = image_rows(
            alloc,
            f,
            m,
            self.constants(),
            places,
            project.rows().as_slice(),
        )?;
        let algebra = Algebra::new(alloc, f, places.len(), constants)?;
        let lifts = unit_rows(alloc, f, m, places)?;
        Ok(Quotient {
            algebra,
            project: project.into_rows(),
            lifts,
        })
    }
}
