// What stays of an algebra, by structure constants in any field, when its constants are changed, and what a matrix
// sends to 0, by its residues at a place.
ghost use Rattle.theory_rings.specs.Ops.{Ops, FieldLaws};
ghost use Rattle.theory_rings.specs.Elements.{Elem, elements};
ghost use Rattle.theory_spaces.specs.Valuation.{ValuationOn};
ghost use Rattle.theory_residue.specs.Residue.{ResidueOn};
ghost use Rattle.theory_tables.specs.Structure.{Structure};
ghost use Rattle.theory_constants.specs.ScalingLaws.{ScalingLaw};
ghost use Rattle.theory_constants.specs.Residues.{KernelsByResidues};
ghost use Rattle.theory_constants.specs.Nucleus.{NucleusLaw};
ghost use Rattle.theory_constants.specs.Generated.{AssociativeByResidues};
ghost use Rattle.theory_constants.specs.Subfield.{ExtensionLaw};
ghost use Rattle.theory_constants.specs.Systems.{SystemLaw};

/// The algebra whose constants are c times those of another, c not 0: its products are c times those of the other, so
/// the same triples of basis elements associate, the multiples of identities by 1/c are its identities, and it has the
/// same central elements and the same radical of the trace form.
pub fn multiple_of_constants<E>()
    ensures scaling { (o : Ops E) → FieldLaws o → (A : Structure E) → ScalingLaw o A }
{}

/// A matrix with entries in a valuation ring: where that of the residues sends 0 alone to 0, so does the matrix; where
/// what it sends to 0 is on one line, so is what the matrix sends to 0.
pub fn kernels_by_residues<E, R>()
    ensures kernels { (o : Ops E) (L : FieldLaws o) (r : Ops R) (N : FieldLaws r) (Z : ValuationOn (elements o L))
        (q : Elem o) (D : ResidueOn (elements o L) Z q (elements r N)) → KernelsByResidues o L r N Z q D }
{}

/// The elements g with (x·g)·y = x·(g·y) for all x and y are closed under sums, multiples and products. So an algebra
/// is associative where tuples span it, each such a g or the product of two before it.
pub fn middle_nucleus<E>()
    ensures nucleus { (o : Ops E) → FieldLaws o → (A : Structure E) → NucleusLaw o A }
{}

/// Over a field that contains that of the constants the same triples of basis elements associate, and the same tuples
/// over the smaller field are identities and central.
pub fn extended_field<E, R>()
    ensures extension { (o : Ops E) → FieldLaws o → (r : Ops R) → FieldLaws r → (f : E → R) → (A : Structure E)
        → ExtensionLaw o r f A }
{}

/// A linear system over a field has the same answer over a field that contains it: what solves or refutes it there does
/// so here, and a tuple over the smaller field is sent to 0 in both or in neither.
pub fn systems_over_larger_fields<E, R>()
    ensures systems { (o : Ops E) → FieldLaws o → (r : Ops R) → FieldLaws r → (f : E → R) → SystemLaw o r f }
{}

/// An algebra with constants in a valuation ring is associative where basis elements generate the algebra with the
/// residues of the constants, and all triples with one of these in the middle associate.
pub fn associative_by_residues<E, R>()
    ensures associative { (o : Ops E) (L : FieldLaws o) (r : Ops R) (N : FieldLaws r) (Z : ValuationOn (elements o L))
        (q : Elem o) (D : ResidueOn (elements o L) Z q (elements r N)) → AssociativeByResidues o L r N Z q D }
{}
