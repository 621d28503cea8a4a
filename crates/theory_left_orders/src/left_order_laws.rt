// Theorems on left orders and on orders modulo p, by linear equations over a residue field.
ghost use Rattle.std.specs.Prelude.{ℕ};
ghost use Rattle.theory_rings.specs.Ring.{FieldOn};
ghost use Rattle.theory_rings.specs.Ops.{Ops, FieldLaws};
ghost use Rattle.theory_rings.specs.Elements.{Elem, elements};
ghost use Rattle.theory_spaces.specs.Module.{AlgebraOn, module_of};
ghost use Rattle.theory_spaces.specs.Linear.{Basis};
ghost use Rattle.theory_left_orders.specs.ResidueRings.{ResidueRingOn};
ghost use Rattle.theory_left_orders.specs.LeftOrders.{LeftOrderByKernel};
ghost use Rattle.theory_left_orders.specs.ResidueAlgebras.{ResidueProductIsAlgebra};
ghost use Rattle.theory_left_orders.specs.ResidueLaws.{OrderReducesOver, PreimagesOfIdeals};
ghost use Rattle.theory_left_orders.specs.TupleResidues.{LeftOrderOfTuples, LeftOrdersAreOrders};
ghost use Rattle.theory_left_orders.specs.TupleIdeals.{ResidueTablesAreAlgebras, PreimagesOfRows};

/// An algebra with a basis over a field, and a subring of the field, with a member p of it, which has the inverse q in
/// the field, and a residue field modulo p. The type `Reduced` is that of the elements of the residue algebra.
pub trait ResidueRingAlgebra {
    ghost Scalar: { Type 0 };

    ghost Vector: { Type 0 };

    ghost Residue: { Type 0 };

    ghost Reduced: { Type 0 };

    ghost field: { FieldOn Scalar };

    ghost Weight: { Scalar → Type 0 };

    ghost p: { Scalar };

    ghost q: { Scalar };

    ghost residue_field: { FieldOn Residue };

    ghost residue: { ResidueRingOn field Weight p q residue_field };

    ghost algebra: { AlgebraOn field.ring Vector };

    ghost dimension: { ℕ };

    ghost basis: { Basis (module_of algebra) dimension };
}

/// A lattice M that is closed under products and holds p, as an ideal of an order Λ that holds p·Λ, has as left order
/// the lattice of its basis and of q times the lifts of a basis of the vectors that the residues of the coordinates of
/// the products of the basis send to 0.
pub fn left_order_by_kernel<A: ResidueRingAlgebra>()
    ensures { LeftOrderByKernel A.field A.Weight A.p A.q A.residue_field A.residue A.algebra A.dimension A.basis }
{}

/// An order modulo p is an algebra over the residue field, by the residues of its constants; the preimage of an ideal
/// of this algebra is the lattice of lifts of what spans it and of p times the basis of the order, an ideal that holds
/// p·Λ.
pub fn preimages_of_ideals<A: ResidueRingAlgebra>()
    ensures algebra { ResidueProductIsAlgebra A.field A.Weight A.p A.q A.residue_field A.residue A.algebra
        A.dimension A.basis A.Reduced }
    ensures reduces { OrderReducesOver A.field A.Weight A.p A.q A.residue_field A.residue A.algebra A.dimension A.basis
        A.Reduced }
    ensures preimages { PreimagesOfIdeals A.field A.Weight A.p A.q A.residue_field A.residue A.algebra A.dimension
        A.basis A.Reduced }
{}

/// A program's field with a subring, with a member p of it, which has the inverse q in the field, and a residue field
/// modulo p, a program's field too.
pub trait TupleResidueRing {
    ghost Scalar: { Type 0 };

    ghost Residue: { Type 0 };

    ghost ops: { Ops Scalar };

    ghost laws: { FieldLaws ops };

    ghost Weight: { Scalar → Type 0 };

    ghost p: { Elem ops };

    ghost q: { Elem ops };

    ghost residue_ops: { Ops Residue };

    ghost residue_laws: { FieldLaws residue_ops };

    ghost residue: { ResidueRingOn (elements ops laws) (λ x. Weight x.0) p q (elements residue_ops residue_laws) };
}

/// The left order of a lattice of tuples that is closed under products and holds p is the lattice of these tuples and
/// of those that p carries to lifts of a basis of a kernel over the residue field.
///
/// An ideal of an order Λ over p·Λ is such a lattice, and its left order is an order that holds Λ.
pub fn left_order_of_tuples<T: TupleResidueRing>()
    ensures order { LeftOrdersAreOrders T.ops T.laws T.Weight T.p T.q T.residue_ops T.residue_laws T.residue }
    ensures lattice { LeftOrderOfTuples T.ops T.laws T.Weight T.p T.q T.residue_ops T.residue_laws T.residue }
{}

/// The residues of the constants of an order of tuples are those of an associative algebra with one; the preimage of an
/// ideal of it is the lattice of the combinations of the order's tuples by lifts of rows that span it, followed by p
/// times these tuples, an ideal of the order.
pub fn preimages_of_rows<T: TupleResidueRing>()
    ensures algebra { ResidueTablesAreAlgebras T.ops T.laws T.Weight T.p T.q T.residue_ops T.residue_laws T.residue }
    ensures preimages { PreimagesOfRows T.ops T.laws T.Weight T.p T.q T.residue_ops T.residue_laws T.residue }
{}
