// Proper ideals by the values of a central element, and the sums of the ideals of two lists.
ghost use Rattle.std.specs.Prelude.{◌≡◌, ◌⊎◌, ◌+◌, ◌*◌, ◌<◌, ◌≤◌, ◌++◌, ◌∷◌, [], IfOk, OnOk, length, All};
ghost use Rattle.theory_rings.specs.Ops.{IsElem};
ghost use Rattle.theory_spaces.specs.Tuples.{IsTuple, tuple_scale};
ghost use Rattle.theory_tables.specs.Subspace.{IsSubspace};
ghost use Rattle.theory_tables.specs.Structure.{IsElement};
ghost use Rattle.theory_tables.specs.Algebras.{IsCentral, IsIdentity};
ghost use Rattle.spl_blocks.specs.Blocks.{IsUnital};
ghost use Rattle.spl_blocks.specs.Splits.{AreSplit, Refines, AreScalars, SpansMultiples, less_multiple, AreKept};
ghost use Rattle.spl_blocks.specs.Splits.{IsMultiples, IsSumOf, AreValues};

use crate::fixed::{columns_of, difference};
use spl_algebra::algebra::Algebra;
use spl_field::field::{Field, NoMemory};
use spl_field::list::{List, Vector};
use spl_matrix::subspace::Subspace;
use std::alloc::Global;

/// The multiple c·x.
pub(crate) fn scaled<F: Field>(
    alloc: Global,
    f: &F,
    c: &F::Elem,
    x: &[F::Elem],
) -> Result<Vector<F>, NoMemory>
    requires factor { IsElem (F.ops f.now) c.now }
    requires items { All (IsElem (F.ops f.now)) x.now }
    ensures elem { IfOk result (IsTuple (F.ops f.now) (length x.now)) }
    ensures value { IfOk result (λ r. r ≡ tuple_scale (F.ops f.now) (length x.now) c.now x.now) }
{
    let mut items = List::new(alloc);
    for k in 0..x.len() {
        items.push(f.mul(alloc, c, &x[k])?)?;
    }
    Ok(items)
}

/// The multiples y·w of an element, for all w.
fn multiples_of<F: Field>(
    alloc: Global,
    f: &F,
    a: &Algebra<F>,
    y: &Vector<F>,
) -> Result<Subspace<F>, NoMemory>
    requires unital { IsUnital (F.ops f.now) a.now }
    requires element { IsElement (F.ops f.now) a.now y.now }
    ensures basis { IfOk result (IsSubspace (F.ops f.now)) }
    ensures width { IfOk result (λ s. s.width ≡ a.now.dim) }
    ensures members { IfOk result (λ s. SpansMultiples (F.ops f.now) a.now y.now s.rows) }
{
    let m = a.dim();
    let matrix = a.left_matrix(alloc, f, y)?;
    let rows = columns_of(alloc, f, m, matrix.as_slice())?;
    let multiples = Subspace::span(alloc, f, m, &rows)?;
    Ok(multiples)
}

/// The multiples of t − c·1.
fn multiples_less<F: Field>(
    alloc: Global,
    f: &F,
    a: &Algebra<F>,
    one: &Vector<F>,
    t: &Vector<F>,
    c: &F::Elem,
) -> Result<Subspace<F>, NoMemory>
    requires unital { IsUnital (F.ops f.now) a.now }
    requires one { IsElement (F.ops f.now) a.now one.now }
    requires element { IsElement (F.ops f.now) a.now t.now }
    requires factor { IsElem (F.ops f.now) c.now }
    ensures basis { IfOk result (IsSubspace (F.ops f.now)) }
    ensures width { IfOk result (λ s. s.width ≡ a.now.dim) }
    ensures members { IfOk result (λ s.
        SpansMultiples (F.ops f.now) a.now (less_multiple (F.ops f.now) a.now one.now t.now c.now) s.rows) }
{
    let multiple = scaled(alloc, f, c, one.as_slice())?;
    let less = difference(alloc, f, t.as_slice(), multiple.as_slice())?;
    multiples_of(alloc, f, a, &less)
}

/// Appends the subspace if its dimension is less than m.
fn push_smaller<F: Field>(
    m: usize,
    s: Subspace<F>,
    out: &mut List<Subspace<F>>,
) -> Result<(), NoMemory>
    ensures { OnOk result (((length s.rows < m) × (out.new ≡ out.old ++ s ∷ []))
        ⊎ ((m ≤ length s.rows) × (out.new ≡ out.old))) }
{
    if s.dim() < m {
        out.push(s)?;
    }
    Ok(())
}

/// For each value c the multiples of t − c·1, where they are not everything.
fn kept_multiples<F: Field>(
    alloc: Global,
    f: &F,
    a: &Algebra<F>,
    one: &Vector<F>,
    t: &Vector<F>,
    constants: &[F::Elem],
) -> Result<List<Subspace<F>>, NoMemory>
    requires unital { IsUnital (F.ops f.now) a.now }
    requires one { IsElement (F.ops f.now) a.now one.now }
    requires element { IsElement (F.ops f.now) a.now t.now }
    requires constants { All (IsElem (F.ops f.now)) constants.now }
    ensures { IfOk result (AreKept (F.ops f.now) a.now (length constants.now)
        (IsMultiples (F.ops f.now) a.now one.now t.now constants.now)) }
{
    let m = a.dim();
    let mut out = List::new(alloc);
    for r in 0..constants.len() {
        let multiples = multiples_less(alloc, f, a, one, t, &constants[r])?;
        push_smaller(m, multiples, &mut out)?;
    }
    Ok(out)
}

/// Appends the sums of item i of the one list and each item of the other, where they are not everything.
fn push_sums<F: Field>(
    alloc: Global,
    f: &F,
    a: &Algebra<F>,
    left: &[Subspace<F>],
    i: usize,
    right: &[Subspace<F>],
    out: &mut List<Subspace<F>>,
) -> Result<(), NoMemory>
    requires left { AreSplit (F.ops f.now) a.now left.now }
    requires right { AreSplit (F.ops f.now) a.now right.now }
    requires index { i < length left.now }
    requires out { AreKept (F.ops f.now) a.now (i * length right.now)
        (IsSumOf (F.ops f.now) a.now left.now right.now) out.old }
    ensures { OnOk result (AreKept (F.ops f.now) a.now (i * length right.now + length right.now)
        (IsSumOf (F.ops f.now) a.now left.now right.now) out.new) }
{
    let m = a.dim();
    for j in 0..right.len() {
        let sum = left[i].sum(alloc, f, &right[j])?;
        push_smaller(m, sum, out)?;
    }
    Ok(())
}

/// The sums of an item of the one list and one of the other that are not everything.
pub(crate) fn kept_sums<F: Field>(
    alloc: Global,
    f: &F,
    a: &Algebra<F>,
    left: &[Subspace<F>],
    right: &[Subspace<F>],
) -> Result<List<Subspace<F>>, NoMemory>
    requires unital { IsUnital (F.ops f.now) a.now }
    requires left { AreSplit (F.ops f.now) a.now left.now }
    requires right { AreSplit (F.ops f.now) a.now right.now }
    ensures { IfOk result (AreKept (F.ops f.now) a.now (length left.now * length right.now)
        (IsSumOf (F.ops f.now) a.now left.now right.now)) }
{
    let mut out = List::new(alloc);
    for i in 0..left.len() {
        push_sums(alloc, f, a, left, i, right, &mut out)?;
    }
    Ok(out)
}

/// The list refined by the values of a central element t: its ideals with the multiples of t − c·1, for each value c.
pub(crate) fn refined<F: Field>(
    alloc: Global,
    f: &F,
    a: &Algebra<F>,
    one: &Vector<F>,
    t: &Vector<F>,
    constants: &[F::Elem],
    items: &[Subspace<F>],
) -> Result<List<Subspace<F>>, NoMemory>
    requires unital { IsUnital (F.ops f.now) a.now }
    requires one { IsIdentity (F.ops f.now) a.now one.now }
    requires central { IsCentral (F.ops f.now) a.now t.now }
    requires constants { All (IsElem (F.ops f.now)) constants.now }
    requires values { AreValues (F.ops f.now) a.now one.now t.now constants.now }
    requires split { AreSplit (F.ops f.now) a.now items.now }
    ensures split { IfOk result (AreSplit (F.ops f.now) a.now) }
    ensures finer { IfOk result (λ r. Refines (F.ops f.now) a.now r items.now) }
    ensures scalars { IfOk result (AreScalars (F.ops f.now) a.now one.now t.now) }
{
    let parts = kept_multiples(alloc, f, a, one, t, constants)?;
    kept_sums(alloc, f, a, items, parts.as_slice())
}
