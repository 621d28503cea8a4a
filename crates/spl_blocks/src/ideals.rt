// The maximal two-sided ideals of an algebra without nilpotent ideals but 0.
ghost use Rattle.std.specs.Prelude.{◌∷◌, [], IfOk, All};
ghost use Rattle.theory_rings.specs.Ops.{IsElem};
ghost use Rattle.spl_residue.specs.Residue.{residue_ops};
ghost use Rattle.spl_blocks.specs.Classes.{IsClassOf, AreConstants};
ghost use Rattle.theory_tables.specs.Algebras.{IsIdentity, HasIdentity};
ghost use Rattle.theory_tables.specs.Structure.{IsOver};
ghost use Rattle.spl_blocks.specs.Blocks.{IsUnital, HasNoNilpotentIdeal, AreMaximalIdeals};

use crate::fixed::fixed_weights;
use crate::refine::refined_by_all;
use spl_algebra::algebra::Algebra;
use spl_algebra::identity::One;
use spl_field::field::{Field, NoMemory};
use spl_field::list::{List, Vector};
use spl_field::small::SmallField;
use spl_matrix::subspace::Subspace;
use spl_poly::poly::Poly;
use spl_residue::elem::ResidueElem;
use spl_residue::field::ResidueField;
use std::alloc::Global;

/// Ideals of an algebra over a residue field.
pub type Ideals = List<Subspace<ResidueField>>;

/// The identity of an algebra that has one.
fn identity_of<F: Field>(alloc: Global, f: &F, a: &Algebra<F>) -> Result<Vector<F>, NoMemory>
    requires over { IsOver (F.ops f.now) a.now }
    requires identity { HasIdentity (F.ops f.now) a.now }
    ensures { IfOk result (IsIdentity (F.ops f.now) a.now) }
{
    match a.identity(alloc, f)? {
        One::Here { tuple } => Ok(tuple),
        One::Refuted { .. } => unreachable!(),
    }
}

/// The constants of a residue field: the elements of the field of its coefficients, by their numbers.
fn constants_of(alloc: Global, k: &ResidueField) -> Result<List<ResidueElem>, NoMemory>
    ensures elems { IfOk result (All (IsElem (residue_ops k.now))) }
    ensures value { IfOk result (AreConstants k.now) }
{
    let mut constants = List::new(alloc);
    for c in 0..k.field().size() {
        let poly = Poly::from_slice(alloc, &[c as u8])?;
        constants.push(k.reduce_poly(alloc, &poly)?)?;
    }
    Ok(constants)
}

/// The class of the variable.
fn root_of(alloc: Global, k: &ResidueField) -> Result<ResidueElem, NoMemory>
    ensures { IfOk result (IsClassOf k.now (0 ∷ 1 ∷ [])) }
{
    let variable = Poly::from_slice(alloc, &[0, 1])?;
    k.reduce_poly(alloc, &variable)
}

/// The maximal two-sided ideals, each once, of an associative algebra with identity over a residue field k of f that
/// has no nilpotent ideal but 0. They come by the values of traces in the centre, which are elements of f: at most q
/// trials for each, however large k is (Rónyai, Computing the structure of finite algebras, 1990). The one fault is
/// want of memory.
pub fn maximal_ideals(
    alloc: Global,
    f: &SmallField,
    k: &ResidueField,
    b: &Algebra<ResidueField>,
) -> Result<Ideals, NoMemory>
    requires unital { IsUnital (residue_ops k.now) b.now }
    requires semisimple { HasNoNilpotentIdeal (residue_ops k.now) b.now }
    ensures { IfOk result (AreMaximalIdeals (residue_ops k.now) b.now) }
{
    let m = b.dim();
    let _ = f;
    let _ = m;
    let q = usize::from(k.field().size());
    let d = k.modulus().as_slice().len() - 1;
    let one = identity_of(alloc, k, b)?;
    let centre = b.centre(alloc, k)?;
    let rows = centre.rows().as_slice();
    let weights = fixed_weights(alloc, k, b, q, d, rows)?;
    let solutions = weights.rows().as_slice();
    let constants = constants_of(alloc, k)?;
    let cs = constants.as_slice();
    let x = root_of(alloc, k)?;
    let ideals = refined_by_all(alloc, k, b, &one, cs, &x, q, d, solutions, rows)?;
    Ok(ideals)
}
