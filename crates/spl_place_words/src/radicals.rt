// The radical of an algebra over a residue field.
use crate::unital;
use spl_radical::radical;
use spl_residue::field::ResidueField;
use spl_words::fault::Fault;
use spl_words::show;
use std::alloc::Global;

/// `radical A`: the dimension and the basis.
pub(crate) fn radical(
    alloc: Global,
    k: &ResidueField,
    algebra: &str,
    out: &mut Vec<u8>,
) -> Result<(), Fault> {
    let algebra = unital::algebra(alloc, k, algebra)?;
    show::space_of(alloc, out, k, radical::radical(alloc, k, &algebra))
}
