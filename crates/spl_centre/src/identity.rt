// The identity of an algebra that has one, its multiples, and the first central element that is none of them.
ghost use Rattle.std.specs.Prelude.{◌≡◌, ◌≢◌, ◌↔◌, ◌<◌, ◌≤◌, ℕ, List, length, IfOk, MatchOption};
ghost use Rattle.theory_tables.specs.Subspace.{InSpan, IsSubspace};
ghost use Rattle.theory_tables.specs.Structure.{IsOver, IsAssociative, IsElement};
ghost use Rattle.spl_algebra.specs.Subspaces.{SpansCentre};
ghost use Rattle.theory_tables.specs.Algebras.{IsIdentity, HasIdentity, HasSmallCentre, IsMultiple};
ghost use Rattle.theory_tables.specs.Claims.{CentralClaim};

use spl_algebra::algebra::Algebra;
use spl_algebra::identity::One;
use spl_field::field::{Field, NoMemory};
use spl_field::list::Vector;
use spl_matrix::matrix::Matrix;
use spl_matrix::subspace::Subspace;
use std::alloc::Global;

/// The identity of an algebra that has one.
pub(crate) fn identity_of<F: Field>(
    alloc: Global,
    f: &F,
    a: &Algebra<F>,
) -> Result<Vector<F>, NoMemory>
    requires over { IsOver (F.ops f.now) a.now }
    requires identity { HasIdentity (F.ops f.now) a.now }
    ensures { IfOk result (IsIdentity (F.ops f.now) a.now) }
{
    match a.identity(alloc, f)? {
        One::Here { tuple } => Ok(tuple),
        One::Refuted { .. } => unreachable!(),
    }
}

/// The multiples of an element.
fn multiples_of<F: Field>(
    alloc: Global,
    f: &F,
    a: &Algebra<F>,
    element: &Vector<F>,
) -> Result<Subspace<F>, NoMemory>
    requires { IsElement (F.ops f.now) a.now element.now }
    ensures basis { IfOk result (IsSubspace (F.ops f.now)) }
    ensures width { IfOk result (λ s. s.width ≡ a.now.dim) }
    ensures members { IfOk result (λ s. (v : List F.Elem) → IsElement (F.ops f.now) a.now v
        → (InSpan (F.ops f.now) a.now.dim s.rows v ↔ IsMultiple (F.ops f.now) a.now element.now v)) }
{
    let mut rows = Matrix::new(alloc);
    rows.push(element.copy(alloc, f)?)?;
    let multiples = Subspace::span(alloc, f, a.dim(), &rows)?;
    Ok(multiples)
}

/// The first row of the basis of a centre of dimension 2 or more that is no multiple of the identity. It is one of the
/// first two.
fn outside<F: Field>(
    alloc: Global,
    f: &F,
    a: &Algebra<F>,
    one: &Vector<F>,
    centre: &Subspace<F>,
) -> Result<Vector<F>, NoMemory>
    requires over { IsOver (F.ops f.now) a.now }
    requires associative { IsAssociative (F.ops f.now) a.now }
    requires one { IsIdentity (F.ops f.now) a.now one.now }
    requires basis { IsSubspace (F.ops f.now) centre.now }
    requires width { centre.now.width ≡ a.now.dim }
    requires members { SpansCentre (F.ops f.now) a.now centre.now.rows }
    requires large { 2 ≤ length centre.now.rows }
    ensures { IfOk result (CentralClaim (F.ops f.now) a.now) }
{
    let multiples = multiples_of(alloc, f, a, one)?;
    let rows = centre.rows().as_slice();
    if multiples.contains(alloc, f, rows[0].as_slice())? {
        rows[1].copy(alloc, f)
    } else {
        rows[0].copy(alloc, f)
    }
}

/// A central element that is no multiple of the identity, which is handed in; None exactly where the centre is the
/// multiples of the identity.
pub(crate) fn fault_of<F: Field>(
    alloc: Global,
    f: &F,
    a: &Algebra<F>,
    one: &Vector<F>,
) -> Result<Option<Vector<F>>, NoMemory>
    requires over { IsOver (F.ops f.now) a.now }
    requires associative { IsAssociative (F.ops f.now) a.now }
    requires one { IsIdentity (F.ops f.now) a.now one.now }
    ensures { IfOk result (λ r. MatchOption r
        (HasSmallCentre (F.ops f.now) a.now)
        (CentralClaim (F.ops f.now) a.now)) }
{
    let _ = a.dim();
    let centre = a.centre(alloc, f)?;
    if centre.dim() < 2 {
        return Ok(None);
    }
    Ok(Some(outside(alloc, f, a, one, &centre)?))
}
