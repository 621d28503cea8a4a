// What holds of evidence texts whoever reads or writes them, where n² has at most nine digits.
ghost use Rattle.std.specs.Prelude.{◌≡◌, ℕ, ◌*◌, List};
ghost use Rattle.spl_text.specs.Text.{IsNumber};
ghost use Rattle.spl_fraction.specs.FractionsOver.{fractions_over};
ghost use Rattle.spl_evidence.specs.Evidence.{Fits, IsEvidenceText};
ghost use Rattle.spl_evidence.specs.Refusal.{IsRefusal};
ghost use Rattle.spl_evidence.specs.declared.evidence.Evidence.{Evidence};
ghost use Rattle.spl_evidence.specs.declared.refusal.EvidenceRefusal.{EvidenceRefusal};

use spl_field::small::SmallField;

/// Evidence that fits has one text.
pub fn one_text_an_evidence(f: &SmallField)
    ensures { (n : ℕ) (e : Evidence) → Fits (fractions_over f.now) n e
        → (bytes : List ℕ) × IsEvidenceText (fractions_over f.now) n bytes e
        × ((others : List ℕ) → IsEvidenceText (fractions_over f.now) n others e → others ≡ bytes) }
{}

/// A text is that of at most one evidence.
pub fn one_evidence_a_text(f: &SmallField)
    ensures { (n : ℕ) (bytes : List ℕ) (e g : Evidence) → IsNumber (n * n)
        → IsEvidenceText (fractions_over f.now) n bytes e → IsEvidenceText (fractions_over f.now) n bytes g → e ≡ g }
{}

/// No text has both an evidence and a refusal.
pub fn no_text_has_both(f: &SmallField)
    ensures { (n first : ℕ) (bytes : List ℕ) (e : Evidence) (refusal : EvidenceRefusal) → IsNumber (n * n)
        → IsEvidenceText (fractions_over f.now) n bytes e → IsRefusal f.now n first bytes refusal → ⊥ }
{}

/// A text whose first line has this number has at most one refusal.
pub fn one_refusal_a_text(f: &SmallField)
    ensures { (n first : ℕ) (bytes : List ℕ) (r s : EvidenceRefusal) → IsNumber (n * n)
        → IsRefusal f.now n first bytes r → IsRefusal f.now n first bytes s → r ≡ s }
{}
