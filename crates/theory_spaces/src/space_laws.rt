// Theorems on vector spaces and their dimensions.
ghost use Rattle.std.specs.Prelude.{◌≡◌, ℕ, ◌+◌, ◌<◌, IsTrue};
ghost use Rattle.theory_rings.specs.Ring.{FieldOn};
ghost use Rattle.theory_spaces.specs.Module.{ModuleOn};
ghost use Rattle.theory_spaces.specs.Linear.{Exchange, Coords, Basis, BasisOf, Independent, Extension, IsSubmodule};
ghost use Rattle.theory_spaces.specs.Linear.{IsLinear};
ghost use Rattle.theory_spaces.specs.Subspaces.{RankNullity, SumAndMeet, QuotientBasis};
ghost use Rattle.theory_spaces.specs.Quotient.{SubmoduleOn};
ghost use Rattle.theory_spaces.specs.Valuation.{ValuationOn, LatticeBasis};

/// A vector space over a field.
pub trait Space {
    ghost Scalar: { Type 0 };

    ghost Vector: { Type 0 };

    ghost field: { FieldOn Scalar };

    ghost space: { ModuleOn field.ring Vector };
}

/// Independent vectors in the span of m vectors are at most m.
pub fn exchange<S: Space>()
    ensures { Exchange S.field S.space }
{}

/// Two bases have one size.
pub fn dimension_is_unique<S: Space>()
    ensures { (n m : ℕ) → Basis S.space n → Basis S.space m → n ≡ m }
{}

/// Independent vectors are the first of a basis.
pub fn independent_vectors_extend<S: Space>()
    ensures { (n : ℕ) → Basis S.space n → (k : ℕ) (u : ℕ → S.Vector) → Independent S.space k u
        → Extension S.space k u n }
{}

/// The quotient of a space of dimension n by a tested subspace of dimension k has the dimension that is left.
pub fn dimension_of_quotient<S: Space>()
    ensures { (T : SubmoduleOn S.space) (k n : ℕ) → BasisOf S.space k (λ x. IsTrue (T.test x)) → Basis S.space n
        → QuotientBasis S.space T k n }
{}

/// A linear map into a space of finitely many coordinates, and a subspace of its source.
pub trait LinearMap {
    ghost Scalar: { Type 0 };

    ghost Source: { Type 0 };

    ghost Target: { Type 0 };

    ghost field: { FieldOn Scalar };

    ghost source: { ModuleOn field.ring Source };

    ghost target: { ModuleOn field.ring Target };

    ghost map: { Source → Target };

    ghost linear: { IsLinear source target map };

    ghost size: { ℕ };

    ghost coords: { Coords target size };

    ghost Inside: { Source → Type 0 };

    ghost submodule: { IsSubmodule source Inside };
}

/// The dimensions of the kernel and the image sum to that of the subspace, and a basis of the kernel begins one of the
/// subspace.
pub fn rank_and_nullity<L: LinearMap>()
    ensures { (n : ℕ) → BasisOf L.source n L.Inside → RankNullity L.source L.target L.map L.Inside n }
{}

/// Two subspaces of a space of finitely many coordinates.
pub trait TwoSubspaces {
    ghost Scalar: { Type 0 };

    ghost Vector: { Type 0 };

    ghost field: { FieldOn Scalar };

    ghost space: { ModuleOn field.ring Vector };

    ghost size: { ℕ };

    ghost coords: { Coords space size };

    ghost Left: { Vector → Type 0 };

    ghost Right: { Vector → Type 0 };

    ghost left: { IsSubmodule space Left };

    ghost right: { IsSubmodule space Right };
}

/// The dimensions of the sum and the meet sum to those of the two.
pub fn dimensions_of_sum_and_meet<T: TwoSubspaces>()
    ensures { (k l : ℕ) → BasisOf T.space k T.Left → BasisOf T.space l T.Right
        → SumAndMeet T.space T.Left T.Right (k + l) }
{}

/// A space of finitely many coordinates over a field with a valuation ring.
pub trait ValuedSpace {
    ghost Scalar: { Type 0 };

    ghost Vector: { Type 0 };

    ghost field: { FieldOn Scalar };

    ghost valuation: { ValuationOn field };

    ghost space: { ModuleOn field.ring Vector };

    ghost size: { ℕ };

    ghost coords: { Coords space size };
}

/// The combinations of finitely many vectors with integral weights have a basis.
pub fn lattices_have_bases<V: ValuedSpace>()
    ensures { (n : ℕ) (v : ℕ → V.Vector) → LatticeBasis V.field V.valuation V.space n v }
{}
