// Theorems on rows over a ring with a degree.
ghost use Rattle.std.specs.Prelude.{◌≡◌, ℕ, ◌<◌, ◌≤◌, ℤ, pos, ◌+ℤ◌, ◌-ℤ◌, ◌⊎◌};
ghost use Rattle.theory_rings.specs.Ring.{RingOn};
ghost use Rattle.theory_lattices.specs.Degree.{DegreeOn, DegreeBelow, HasDegree, IsEuclidean};
ghost use Rattle.theory_lattices.specs.ReducedRows.{LeadsAt, Lead, Reduced, WeakPopov, Predicted, row_sum, InRows};
ghost use Rattle.theory_lattices.specs.ReducedRows.{SameRows, SameSpan, less_multiple, LeadsLower, LeadsAmong, Shifts};

/// A ring with a degree.
pub trait DegreeRing {
    ghost Elem: { Type 0 };

    ghost ring: { RingOn Elem };

    ghost degree: { DegreeOn ring };
}

/// A combination of reduced rows leads where one of them does, and its degree is the greatest of the sums of the
/// degrees of a weight and its row; so a bound of the combination bounds each weight, and conversely, and reduced rows
/// are independent.
pub fn predictable_degrees<D: DegreeRing>()
    ensures predicted { (n w : ℕ) (rows : ℕ → ℕ → D.Elem) (red : Reduced D.degree n w rows) (c : ℕ → D.Elem)
        → Predicted D.degree n w rows red c ⊎ ((i : ℕ) → i < n → c i ≡ D.ring.zero) }
    ensures weights { (n w : ℕ) (rows : ℕ → ℕ → D.Elem) (red : Reduced D.degree n w rows) (c : ℕ → D.Elem) (e : ℤ)
        → ((j : ℕ) → j < w → DegreeBelow D.degree (e +ℤ pos 1) (row_sum D.ring n c rows j))
        → (i : ℕ) → i < n → DegreeBelow D.degree ((e -ℤ red.degree i) +ℤ pos 1) (c i) }
    ensures sums { (n w : ℕ) (rows : ℕ → ℕ → D.Elem) (red : Reduced D.degree n w rows) (c : ℕ → D.Elem) (e : ℤ)
        → ((i : ℕ) → i < n → DegreeBelow D.degree ((e -ℤ red.degree i) +ℤ pos 1) (c i))
        → (j : ℕ) → j < w → DegreeBelow D.degree (e +ℤ pos 1) (row_sum D.ring n c rows j) }
    ensures independent { (n w : ℕ) (rows : ℕ → ℕ → D.Elem) → Reduced D.degree n w rows → (c : ℕ → D.Elem)
        → ((j : ℕ) → j < w → row_sum D.ring n c rows j ≡ D.ring.zero) → (i : ℕ) → i < n → c i ≡ D.ring.zero }
{}

/// Each row that is not 0 leads at one place. Where two rows lead at one place and a multiple of the one takes off the
/// leading term of the other, what is left is of smaller degree, or leads earlier.
pub fn reduction_step<D: DegreeRing>()
    ensures leads { (w : ℕ) (row : ℕ → D.Elem) → Lead D.degree w row ⊎ ((j : ℕ) → j < w → row j ≡ D.ring.zero) }
    ensures lower { (w : ℕ) (row other : ℕ → D.Elem) (d e : ℤ) (p : ℕ) (m : D.Elem) → LeadsAt D.degree w row d p
        → LeadsAt D.degree w other e p
        → HasDegree D.degree (d -ℤ e) m → DegreeBelow D.degree d (less_multiple D.ring row m other p)
        → (h : Lead D.degree w (less_multiple D.ring row m other))
        → LeadsLower D.degree w (less_multiple D.ring row m other) h d p }
{}

/// A ring with a Euclidean degree, as the polynomials over a field.
pub trait EuclideanRing {
    ghost Elem: { Type 0 };

    ghost ring: { RingOn Elem };

    ghost degree: { DegreeOn ring };

    ghost euclidean: { IsEuclidean degree };
}

/// Rows span the same as rows in weak Popov form, and as reduced rows, of which there are no more.
pub fn reduced_rows<E: EuclideanRing>()
    ensures weak_popov { (w n : ℕ) (rows : ℕ → ℕ → E.Elem) → (new : ℕ → ℕ → E.Elem) × SameSpan E.ring n rows new
        × WeakPopov E.degree n w new }
    ensures reduced { (w n : ℕ) (rows : ℕ → ℕ → E.Elem)
        → (m : ℕ) × (m ≤ n) × (new : ℕ → ℕ → E.Elem) × SameRows E.ring w n m rows new × Reduced E.degree m w new }
{}

/// Whether a row is a combination of reduced rows is decided: one that is, and is not 0, leads where a reduced row of
/// no greater degree does, and is one still where a multiple of that row is taken away.
pub fn membership<E: EuclideanRing>()
    ensures decided { (w n : ℕ) (rows : ℕ → ℕ → E.Elem) → Reduced E.degree n w rows
        → (x : ℕ → E.Elem) → InRows E.ring n w rows x ⊎ (InRows E.ring n w rows x → ⊥) }
    ensures leads { (w n : ℕ) (rows : ℕ → ℕ → E.Elem) (red : Reduced E.degree n w rows)
        → (x : ℕ → E.Elem) (h : Lead E.degree w x) → InRows E.ring n w rows x → LeadsAmong E.degree n w rows red x h }
    ensures less { (w n : ℕ) (rows : ℕ → ℕ → E.Elem) (x y : ℕ → E.Elem) (m : E.Elem)
        → InRows E.ring n w rows x → InRows E.ring n w rows y → InRows E.ring n w rows (less_multiple E.ring x m y) }
    ensures more { (w n : ℕ) (rows : ℕ → ℕ → E.Elem) (x y : ℕ → E.Elem) (m : E.Elem)
        → InRows E.ring n w rows (less_multiple E.ring x m y) → InRows E.ring n w rows y → InRows E.ring n w rows x }
{}

/// Two rings with degrees, and a map that shifts degrees.
pub trait DegreeShift {
    ghost Source: { Type 0 };

    ghost Target: { Type 0 };

    ghost source: { RingOn Source };

    ghost target: { RingOn Target };

    ghost source_degree: { DegreeOn source };

    ghost target_degree: { DegreeOn target };

    ghost shift: { ℤ };

    ghost map: { Source → Target };

    ghost shifts: { Shifts source_degree target_degree shift map };
}

/// A map that shifts degrees, as that of polynomials to fractions with one denominator, takes reduced rows to reduced
/// rows.
pub fn reduced_rows_shift<S: DegreeShift>()
    ensures { (n w : ℕ) (rows : ℕ → ℕ → S.Source) → Reduced S.source_degree n w rows
        → Reduced S.target_degree n w (λ i j. S.map (rows i j)) }
{}
