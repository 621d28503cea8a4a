// Theorems on pairs of self-dual orders.
ghost use Rattle.std.specs.Prelude.{◌≡◌, ℕ, ◌<◌, ◌≤◌, ℤ, pos, neg_ℤ, ◌⊎◌};
ghost use Rattle.theory_rings.specs.Ring.{FieldOn};
ghost use Rattle.theory_rings.specs.Homomorphism.{IsRingHom};
ghost use Rattle.theory_rings.specs.Enumerated.{Enumerated};
ghost use Rattle.theory_spaces.specs.Module.{AlgebraOn, module_of};
ghost use Rattle.theory_spaces.specs.Linear.{InSpan};
ghost use Rattle.theory_spaces.specs.Algebra.{Central};
ghost use Rattle.theory_lattices.specs.Degree.{DegreeOn};
ghost use Rattle.theory_lattices.specs.CommonBasis.{CommonBasis};
ghost use Rattle.theory_lattices.specs.Members.{PolynomialsOf};
ghost use Rattle.theory_lattices.specs.SelfDual.{ClosedWeights, SelfDualPair, IntegralTrace, Middle, DualVectors};

/// A pair of orders that are their own duals for a trace, with a common basis and its dual vectors, where the weights
/// of the finite order are the polynomials over a field of constants.
pub trait OrderPair {
    ghost Constant: { Type 0 };

    ghost Scalar: { Type 0 };

    ghost Vector: { Type 0 };

    ghost constants: { FieldOn Constant };

    ghost field: { FieldOn Scalar };

    ghost degree: { DegreeOn field.ring };

    ghost Weight: { Scalar → Type 0 };

    ghost embed: { Constant → Scalar };

    ghost hom: { IsRingHom constants.ring field.ring embed };

    ghost powers: { ℕ → Scalar };

    ghost polynomials: { PolynomialsOf field degree Weight constants.ring embed powers };

    ghost first: { powers 0 ≡ field.one };

    ghost algebra: { AlgebraOn field.ring Vector };

    ghost size: { ℕ };

    ghost Finite: { Vector → Type 0 };

    ghost Infinite: { Vector → Type 0 };

    ghost trace: { Vector → Scalar };

    ghost pair: { SelfDualPair field degree algebra Weight Finite Infinite trace };

    ghost vec: { ℕ → Vector };

    ghost degrees: { ℕ → ℤ };

    ghost basis: { CommonBasis field degree (module_of algebra) Weight size Finite Infinite vec degrees };

    ghost dual: { ℕ → Vector };

    ghost pairing: { DualVectors field algebra trace size vec dual };
}

/// Where the trace takes the orders into the weights and into the elements of degree at most 0, the dual vectors are a
/// common basis too, with the opposite degrees.
pub fn dual_common_basis<O: OrderPair>()
    ensures { ClosedWeights O.field O.Weight
        → IntegralTrace O.field O.degree O.algebra O.Weight O.Finite O.Infinite O.trace
        → ((x : O.Vector) → InSpan (module_of O.algebra) O.size O.vec x)
        → CommonBasis O.field O.degree (module_of O.algebra) O.Weight O.size O.Finite O.Infinite O.dual
        (λ i. neg_ℤ (O.degrees i)) }
{}

/// Both orders hold an element that is neither nilpotent nor a unit, or all degrees of the common basis are 0.
pub fn degree_count<O: OrderPair>()
    ensures { ((w : O.Vector) × Middle O.field O.degree O.algebra O.Weight O.Finite O.Infinite w)
        ⊎ ((i : ℕ) → i < O.size → O.degrees i ≡ pos 0) }
{}

/// Where the constants are finite, the centre of the algebra is the field and its dimension is 2 to 36, both orders
/// hold an element that is neither nilpotent nor a unit.
pub fn middle_element<O: OrderPair>()
    ensures { Enumerated O.Constant → O.Finite O.algebra.one → O.Infinite O.algebra.one
        → ((x : O.Vector) → InSpan (module_of O.algebra) O.size O.vec x) → Central O.algebra → 2 ≤ O.size → O.size ≤ 36
        → (w : O.Vector) × Middle O.field O.degree O.algebra O.Weight O.Finite O.Infinite w }
{}
