// The maximal ideals of an algebra over a residue field that has no nilpotent ideal but 0, and whether it is simple.
ghost use Rattle.std.specs.Prelude.{◌↔◌, IfOk, IsTrue, All};
ghost use Rattle.theory_tables.specs.Subspace.{IsSubspace};
ghost use Rattle.spl_residue.specs.Residue.{residue_ops};
ghost use Rattle.spl_blocks.specs.Blocks.{IsUnital, HasNoNilpotentIdeal};

use crate::unital;
use spl_algebra::algebra::Algebra;
use spl_blocks::{ideals, simple};
use spl_field::field::NoMemory;
use spl_field::small::SmallField;
use spl_matrix::subspace::Subspace;
use spl_radical::radical::radical;
use spl_residue::field::ResidueField;
use spl_words::fault::Fault;
use spl_words::show;
use std::alloc::Global;

/// Whether an associative algebra with identity has no nilpotent ideal but 0.
fn is_semisimple(
    alloc: Global,
    k: &ResidueField,
    b: &Algebra<ResidueField>,
) -> Result<bool, NoMemory>
    requires { IsUnital (residue_ops k.now) b.now }
    ensures { IfOk result (λ r. IsTrue r ↔ HasNoNilpotentIdeal (residue_ops k.now) b.now) }
{
    let radical = radical(alloc, k, b)?;
    Ok(radical.dim() == 0)
}

/// An associative algebra with identity without nilpotent ideals but 0, by the products of its basis elements.
fn semisimple(alloc: Global, k: &ResidueField, word: &str) -> Result<Algebra<ResidueField>, Fault>
    ensures unital { IfOk result (IsUnital (residue_ops k.now)) }
    ensures semisimple { IfOk result (HasNoNilpotentIdeal (residue_ops k.now)) }
{
    let b = unital::algebra(alloc, k, word)?;
    if !is_semisimple(alloc, k, &b)? {
        return Err(Fault::BadLine);
    }
    Ok(b)
}

/// `is_simple A`
pub(crate) fn is_simple(
    alloc: Global,
    f: &SmallField,
    k: &ResidueField,
    algebra: &str,
    out: &mut Vec<u8>,
) -> Result<(), Fault> {
    let b = semisimple(alloc, k, algebra)?;
    show::truth(out, simple::is_simple(alloc, f, k, &b)?)
}

/// The dimensions and the bases of subspaces, one text for each.
fn texts_of(
    alloc: Global,
    k: &ResidueField,
    spaces: &[Subspace<ResidueField>],
) -> Result<Vec<Vec<u8>>, Fault>
    requires { All (IsSubspace (residue_ops k.now)) spaces.now }
{
    let mut texts = Vec::new(alloc);
    for space in spaces {
        let mut text = Vec::new(alloc);
        show::space(alloc, &mut text, k, space)?;
        texts.push(text)?;
    }
    Ok(texts)
}

/// How many subspaces there are, and the dimension and the basis of each, in the order of these texts.
fn show_spaces(
    alloc: Global,
    k: &ResidueField,
    spaces: &[Subspace<ResidueField>],
    out: &mut Vec<u8>,
) -> Result<(), Fault>
    requires { All (IsSubspace (residue_ops k.now)) spaces.now }
{
    let mut texts = texts_of(alloc, k, spaces)?;
    texts.sort()?;
    show::count(out, texts.len())?;
    for text in &texts {
        show::text(out, text.as_slice())?;
    }
    Ok(())
}

/// `maximal_ideals A`: how many there are, and the dimension and the basis of each, in the order of their texts.
pub(crate) fn maximal_ideals(
    alloc: Global,
    f: &SmallField,
    k: &ResidueField,
    algebra: &str,
    out: &mut Vec<u8>,
) -> Result<(), Fault> {
    let b = semisimple(alloc, k, algebra)?;
    let ideals = ideals::maximal_ideals(alloc, f, k, &b)?;
    show_spaces(alloc, k, ideals.as_slice(), out)
}
