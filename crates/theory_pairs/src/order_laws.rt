// A first order from the structure constants of an algebra.
ghost use Rattle.std.specs.Prelude.{◌≡◌, ℕ, suc, ◌<◌};
ghost use Rattle.theory_rings.specs.Ring.{FieldOn};
ghost use Rattle.theory_spaces.specs.Module.{AlgebraOn, module_of};
ghost use Rattle.theory_spaces.specs.Linear.{comb};
ghost use Rattle.theory_spaces.specs.Families.{push};
ghost use Rattle.theory_orders.specs.Orders.{IsOrder};
ghost use Rattle.theory_spaces.specs.Lattice.{IsSubring, LatticeOver};
ghost use Rattle.theory_orders.specs.Uniformizer.{IsIntegral};
ghost use Rattle.theory_pairs.specs.PlaceLaws.{OrderOnLattice};

use crate::place_laws::AlgebraOverFractions;
use theory_orders::order_laws::PlacedAlgebra;

/// Vectors of an algebra whose products are combinations of them, and a subring of the field as a condition on its
/// elements.
pub trait AlgebraWithTable {
    ghost Scalar: { Type 0 };

    ghost Vector: { Type 0 };

    ghost field: { FieldOn Scalar };

    ghost algebra: { AlgebraOn field.ring Vector };

    ghost size: { ℕ };

    ghost vec: { ℕ → Vector };

    ghost constants: { ℕ → ℕ → ℕ → Scalar };

    ghost products: { (i j : ℕ) → i < size → j < size
        → algebra.◌⊗◌ (vec i) (vec j) ≡ comb (module_of algebra) size (constants i j) vec };

    ghost Weight: { Scalar → Type 0 };

    ghost subring: { IsSubring field.ring Weight };
}

/// Where c times each structure constant is in the ring, the combinations of one and the c times basis vectors with
/// weights in the ring are an order, which holds these vectors.
pub fn first_order<A: AlgebraWithTable>()
    ensures order { (c : A.Scalar) → ((i j k : ℕ) → i < A.size → j < A.size → k < A.size
        → A.Weight (A.field.◌⊗◌ c (A.constants i j k)))
        → IsOrder A.algebra (LatticeOver (module_of A.algebra) A.Weight (suc A.size)
        (push A.size A.algebra.one (λ i. A.algebra.◌•◌ c (A.vec i)))) }
    ensures members { (c : A.Scalar)
        → ((i j k : ℕ) → i < A.size → j < A.size → k < A.size → A.Weight (A.field.◌⊗◌ c (A.constants i j k)))
        → (i : ℕ) → i < A.size
        → LatticeOver (module_of A.algebra) A.Weight (suc A.size)
        (push A.size A.algebra.one (λ i. A.algebra.◌•◌ c (A.vec i))) (A.algebra.◌•◌ c (A.vec i)) }
{}

/// At a place, where c times each structure constant of a basis is integral and c isn't 0, the lattice of one and the c
/// times basis vectors is that of as many vectors as the dimension, and an order at the place.
pub fn first_order_at_a_place<A: PlacedAlgebra>()
    ensures { (c : A.Scalar) → (c ≡ A.field.zero → ⊥)
        → ((i j k : ℕ) → i < A.dimension → j < A.dimension → k < A.dimension → IsIntegral A.field A.valuation
        (A.field.◌⊗◌ c (A.basis.coord (A.algebra.◌⊗◌ (A.basis.vec i) (A.basis.vec j)) k)))
        → OrderOnLattice A.field A.valuation A.algebra A.dimension (suc A.dimension)
        (push A.dimension A.algebra.one (λ i. A.algebra.◌•◌ c (A.basis.vec i))) }
{}

/// Where each element of the field is a fraction of elements of a subring, some element of it other than 0 carries all
/// structure constants into it.
pub fn constants_have_a_denominator<A: AlgebraOverFractions>()
    ensures { (constants : ℕ → ℕ → ℕ → A.Scalar) → (c : A.Scalar) × A.Weight c × (c ≡ A.field.zero → ⊥)
        × ((i : ℕ) → i < A.dimension → (j : ℕ) → j < A.dimension → (k : ℕ) → k < A.dimension
        → A.Weight (A.field.◌⊗◌ c (constants i j k))) }
{}
