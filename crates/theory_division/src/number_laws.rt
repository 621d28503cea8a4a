// Theorems on cyclotomic polynomials and on the numbers q^m − 1.
ghost use Rattle.std.specs.Prelude.{ℕ, ◌-◌, ◌^◌, ◌<◌, ◌≤◌};
ghost use Rattle.std.specs.Int.{◌∣◌};
ghost use Rattle.theory_division.specs.Cyclotomic.{CyclotomicTable, CyclotomicValue};

/// The table of the cyclotomic polynomials to the 36-th is right, and their values from the second on are large and
/// divide q^m − 1 beside each q^d − 1 with d a proper divisor of m.
pub fn cyclotomic_polynomials()
    ensures table { CyclotomicTable }
    ensures values { (m z : ℕ) → 2 ≤ m → m ≤ 36 → CyclotomicValue m z }
{}

/// q^d − 1 divides q^m − 1 only where d divides m.
pub fn divisors_of_powers_less_one()
    ensures { (q m d : ℕ) → 2 ≤ q → 0 < d → q ^ d - 1 ∣ q ^ m - 1 → d ∣ m }
{}
