// Theorems on degrees along isomorphisms of fields, as from the fractions of a program to the rational functions.
ghost use Rattle.std.specs.Prelude.{ℕ};
ghost use Rattle.theory_rings.specs.Ring.{RingOn, FieldOn};
ghost use Rattle.theory_lattices.specs.Degree.{DegreeOn};
ghost use Rattle.theory_lattices.specs.Members.{PolynomialsOf};
ghost use Rattle.theory_pairs.specs.Isomorphism.{IsRingIso, IsDegreeAlong};

/// An isomorphism of a field onto one with a degree, and the polynomials there with their coefficients and powers.
pub trait DegreeAlongIsomorphism {
    ghost Source: { Type 0 };

    ghost Target: { Type 0 };

    ghost Constant: { Type 0 };

    ghost source: { FieldOn Source };

    ghost target: { FieldOn Target };

    ghost map: { Source → Target };

    ghost isomorphism: { IsRingIso source.ring target.ring map };

    ghost degree: { DegreeOn target.ring };

    ghost Weight: { Target → Type 0 };

    ghost constants: { RingOn Constant };

    ghost embed: { Constant → Target };

    ghost powers: { ℕ → Target };

    ghost polynomials: { PolynomialsOf target degree Weight constants embed powers };
}

/// The degree of what the elements become is a degree, and by it the elements that become polynomials are the
/// combinations of what comes from the powers, with constants. So what theory_lattices shows of fields with a degree
/// and polynomials holds there too: common bases, the members of both lattices and the degree count.
pub fn degree_along_isomorphism<I: DegreeAlongIsomorphism>()
    ensures exists { (W : DegreeOn I.source.ring) × IsDegreeAlong W I.degree I.map }
    ensures polynomials { (W : DegreeOn I.source.ring) → IsDegreeAlong W I.degree I.map
        → PolynomialsOf I.source W (λ a. I.Weight (I.map a)) I.constants (λ c. I.isomorphism.back (I.embed c))
        (λ j. I.isomorphism.back (I.powers j)) }
{}
