// Theorems on the residue algebra of an order at a place.
ghost use Rattle.std.specs.Prelude.{ℕ};
ghost use Rattle.theory_rings.specs.Ring.{FieldOn};
ghost use Rattle.theory_spaces.specs.Module.{AlgebraOn, module_of};
ghost use Rattle.theory_spaces.specs.Linear.{Basis};
ghost use Rattle.theory_spaces.specs.Valuation.{ValuationOn};
ghost use Rattle.theory_orders.specs.Uniformizer.{UniformizerOn};
ghost use Rattle.theory_residue.specs.Residue.{ResidueOn};
ghost use Rattle.theory_residue.specs.Semisimple.{QuotientAlgebraExists, SimpleByQuotient, RadicalQuotientExists};
ghost use Rattle.theory_residue.specs.Semisimple.{MaximalIdealsAreCounted};
ghost use Rattle.theory_residue.specs.ResidueLaws.{ResidueAlgebraExists, OrderReduces, IdealsCorrespondAlways};

/// An algebra with a basis over a field with a valuation ring and a uniformizer p, which has the inverse q, and the
/// residue field of the valuation ring. The type `Reduced` is that of the elements of the residue algebra, and
/// `Quotient` those of its quotients by their dimensions.
pub trait ResidueAlgebras {
    ghost Scalar: { Type 0 };

    ghost Vector: { Type 0 };

    ghost Residue: { Type 0 };

    ghost Reduced: { Type 0 };

    ghost Quotient: { ℕ → Type 0 };

    ghost field: { FieldOn Scalar };

    ghost valuation: { ValuationOn field };

    ghost p: { Scalar };

    ghost q: { Scalar };

    ghost uniformizer: { UniformizerOn field valuation p q };

    ghost residue_field: { FieldOn Residue };

    ghost residue: { ResidueOn field valuation q residue_field };

    ghost algebra: { AlgebraOn field.ring Vector };

    ghost dimension: { ℕ };

    ghost basis: { Basis (module_of algebra) dimension };
}

/// An order modulo p is an algebra over the residue field, by the residues of its structure constants; and the order is
/// mapped onto each algebra with these constants, by the residues of the coordinates, with kernel p·Λ.
pub fn order_has_residue_algebra<A: ResidueAlgebras>()
    ensures exists { ResidueAlgebraExists A.field A.valuation A.p A.residue_field A.residue A.algebra A.dimension
        A.Reduced }
    ensures reduces { OrderReduces A.field A.valuation A.p A.residue_field A.residue A.algebra A.dimension A.Reduced }
{}

/// The ideals of the order over p·Λ are the ideals of that algebra. The powers that lie in p·Λ are those that are 0; so
/// the radical is the largest nilpotent ideal, and the maximal ideals are the maximal ideals.
pub fn ideals_correspond<A: ResidueAlgebras>()
    ensures { IdealsCorrespondAlways A.field A.valuation A.p A.residue_field A.residue A.algebra A.dimension A.Reduced }
{}

/// Each ideal of such an algebra has a quotient algebra; and the quotient of the order by an ideal over p·Λ is simple
/// just where that of the algebra by what the ideal becomes is simple and not 0.
pub fn simple_quotients_correspond<A: ResidueAlgebras>()
    ensures exists { QuotientAlgebraExists A.field A.valuation A.p A.residue_field A.residue A.algebra A.dimension
        A.Reduced A.Quotient }
    ensures simple { SimpleByQuotient A.field A.valuation A.p A.residue_field A.residue A.algebra A.dimension A.Reduced
        A.Quotient }
{}

/// An order modulo its radical is an algebra over the residue field without nilpotent ideals but 0. The maximal ideals
/// of the order over p·Λ hold the radical, and are the maximal ideals of this algebra; so where the residue field has
/// finitely many elements they are finitely many, as many as the solutions of z^q = z in its centre have dimensions.
pub fn order_modulo_radical<A: ResidueAlgebras>()
    ensures exists { RadicalQuotientExists A.field A.valuation A.p A.residue_field A.residue A.algebra A.dimension
        A.Reduced A.Quotient }
    ensures counted { MaximalIdealsAreCounted A.field A.valuation A.p A.residue_field A.residue A.algebra A.dimension
        A.Quotient }
{}
