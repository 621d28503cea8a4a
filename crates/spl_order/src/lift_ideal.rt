// The preimages in an order of the ideals of an order modulo a place.
ghost use Rattle.std.specs.Prelude.{◌≡◌, IfOk};
ghost use Rattle.theory_tables.specs.Algebras.{SpansIdeal};
ghost use Rattle.spl_field.specs.SmallField.{small_ops, small_laws};
ghost use Rattle.spl_fraction.specs.Fractions.{field_of};
ghost use Rattle.spl_residue.specs.Residue.{field_of as residue_field_of, polynomial_of, residue_ops};
ghost use Rattle.theory_places.specs.FractionPlaces.{IsMonicIrreducible};
ghost use Rattle.theory_bases.specs.Bases.{IsBasis};
ghost use Rattle.spl_order.specs.Residues.{LiftsIdeal};

use crate::basis::Basis;
use crate::lifts::{basis_of_lifts, lifted_rows};
use crate::residue_algebra::Residue;
use spl_field::field::NoMemory;
use spl_field::small::SmallField;
use spl_fraction::field::Fractions;
use spl_matrix::subspace::Subspace;
use spl_residue::field::ResidueField;
use std::alloc::Global;

/// The preimage of the ideal, over a field equal to that of the residue field.
fn lifted_basis(
    alloc: Global,
    f: &SmallField,
    order: &Basis,
    residue: &Residue,
    ideal: &Subspace<ResidueField>,
) -> Result<Basis, NoMemory>
    requires field { small_ops (residue_field_of residue.now.field) ≡ small_ops f.now }
    requires place { IsMonicIrreducible (small_ops f.now) (polynomial_of residue.now.field) }
    requires basis { IsBasis (small_ops f.now) (small_laws f.now) residue.now.algebra.dim order.now }
    requires ideal { SpansIdeal (residue_ops residue.now.field) residue.now.algebra ideal.now.rows }
    ensures basis { IfOk result (IsBasis (small_ops f.now) (small_laws f.now) residue.now.algebra.dim) }
    ensures preimage { IfOk result (LiftsIdeal f.now order.now residue.now.field residue.now.algebra ideal.now.rows) }
{
    let n = residue.algebra.dim();
    let lifts = lifted_rows(alloc, &residue.field, ideal.rows().as_slice())?;
    let found = basis_of_lifts(
        alloc,
        f,
        order.denominator(),
        residue.field.modulus(),
        &lifts,
        order,
        n,
    )?;
    Ok(found)
}

/// The preimage in an order of a two-sided ideal of the order modulo a place: a basis of the lattice, over the
/// polynomials, of the combinations of the order's tuples by lifts of the ideal's rows, and of the place's polynomial
/// times these tuples. At the place it spans the preimage in the order there, and over the polynomials that in the
/// order over these, where the tuples span one. The one fault is want of memory. (Reiner, Maximal Orders, section 39.)
pub fn lift_ideal(
    alloc: Global,
    f: &Fractions,
    order: &Basis,
    residue: &Residue,
    ideal: &Subspace<ResidueField>,
) -> Result<Basis, NoMemory>
    requires field { small_ops (residue_field_of residue.now.field) ≡ small_ops (field_of f.now) }
    requires place { IsMonicIrreducible (small_ops (field_of f.now)) (polynomial_of residue.now.field) }
    requires basis { IsBasis (small_ops (field_of f.now)) (small_laws (field_of f.now)) residue.now.algebra.dim
        order.now }
    requires ideal { SpansIdeal (residue_ops residue.now.field) residue.now.algebra ideal.now.rows }
    ensures basis { IfOk result (IsBasis (small_ops (field_of f.now)) (small_laws (field_of f.now))
        residue.now.algebra.dim) }
    ensures preimage { IfOk result (LiftsIdeal (field_of f.now) order.now residue.now.field residue.now.algebra
        ideal.now.rows) }
{
    let found = lifted_basis(alloc, f.field(), order, residue, ideal)?;
    Ok(found)
}
