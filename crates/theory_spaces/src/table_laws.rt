// Theorems on products by structure constants over a program's field.
ghost use Rattle.std.specs.Prelude.{◌≡◌, ℕ, List};
ghost use Rattle.std.specs.List.{All};
ghost use Rattle.theory_rings.specs.Ops.{Ops, IsElem, FieldLaws};
ghost use Rattle.theory_spaces.specs.Tuples.{IsTuple, Tuple, product, AssociativeTable, IsTableOne, IsTableAlgebra};
ghost use Rattle.theory_spaces.specs.Module.{AlgebraOn, module_of};
ghost use Rattle.theory_spaces.specs.Linear.{Basis};
ghost use Rattle.theory_rings.specs.Elements.{elements};

/// Where all triples of basis vectors associate, all triples of tuples do.
pub fn associative_by_basis<E>()
    ensures { (o : Ops E) (L : FieldLaws o) (n : ℕ) (cs : List E) → All (IsElem o) cs → AssociativeTable o n cs
        → (a b c : List E) → IsTuple o n a → IsTuple o n b → IsTuple o n c
        → product o n cs (product o n cs a b) c ≡ product o n cs a (product o n cs b c) }
{}

/// An associative table with a one makes the tuples an algebra with a basis.
pub fn table_is_algebra<E>()
    ensures { (o : Ops E) (L : FieldLaws o) (n : ℕ) (cs one : List E) → All (IsElem o) cs → AssociativeTable o n cs
        → IsTableOne o n cs one
        → (A : AlgebraOn (elements o L).ring (Tuple o n)) × IsTableAlgebra o L n cs A × Basis (module_of A) n }
{}
