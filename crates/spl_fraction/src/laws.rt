// Laws of fractions.
ghost use Rattle.std.specs.Prelude.{◌≡◌, ◌↔◌, ℕ, List};
ghost use Rattle.theory_rings.specs.Ops.{IsElem};
ghost use Rattle.spl_field.specs.SmallField.{small_ops};
ghost use Rattle.theory_fractions.specs.Fraction.{Pair, IsLowestTerms, AreFractionOps};
ghost use Rattle.spl_fraction.specs.CanonicalText.{IsCanonicalText};
ghost use Rattle.spl_fraction.specs.FractionsOver.{fractions_over};

use spl_field::small::SmallField;

/// The fractions over a field are the pairs in lowest terms.
pub fn elements_are_lowest_terms(f: &SmallField)
    ensures { (u v : List ℕ) → IsElem (fractions_over f.now) (u, v) ↔ IsLowestTerms (small_ops f.now) u v }
{}

/// Their operations are those of fractions.
pub fn operations_are_of_fractions(f: &SmallField)
    ensures { AreFractionOps (small_ops f.now) (fractions_over f.now) }
{}

/// A text is the canonical text of at most one fraction.
pub fn one_fraction_a_text(f: &SmallField)
    ensures { (bytes : List ℕ) (w x : Pair ℕ) → IsCanonicalText (small_ops f.now) bytes w
        → IsCanonicalText (small_ops f.now) bytes x → w ≡ x }
{}
