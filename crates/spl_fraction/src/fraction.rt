// Fractions of polynomials.
ghost use Rattle.std.specs.Prelude.{◌≡◌};

use spl_poly::poly::Poly;
use std::marker::Model;

/// A fraction: a numerator, and a monic denominator without a common divisor of degree 1 or more. Contracts see it as
/// the pair of their coefficients. Over which field it is one is a condition of the calls that take it.
pub struct Fraction {
    numerator: Poly,
    denominator: Poly,
}

// (one proof for all functions that drop a fraction, in place of one in each)
impl Drop for Fraction {
    fn drop(self) {
        let Fraction {
            numerator,
            denominator,
        } = self;
    }
}

impl Model for Fraction {
    ghost use Rattle.std.specs.Prelude.{ℕ, List};

    ghost Value = { List ℕ × List ℕ };

    ghost view = { λ a. (a.numerator, a.denominator) };
}

impl Fraction {
    ghost use Rattle.std.specs.Prelude.{ℕ};
    ghost use Rattle.theory_rings.specs.Ops.{Ops};
    ghost use Rattle.spl_poly.specs.Operations.{IsOver};
    ghost use Rattle.theory_fractions.specs.Fraction.{IsLowestTerms};

    /// The pair.
    pub(crate) fn of(numerator: Poly, denominator: Poly) -> Fraction
        ensures { result ≡ (numerator, denominator) }
    {
        Fraction {
            numerator,
            denominator,
        }
    }

    /// The numerator. It takes no memory.
    pub fn numerator(&self) -> &Poly
        ensures value { result.now ≡ self.now.0 }
        ensures over { (o : Ops ℕ) → IsLowestTerms o self.now.0 self.now.1 → IsOver o result.now }
    {
        &self.numerator
    }

    /// The denominator, which is monic. It takes no memory.
    pub fn denominator(&self) -> &Poly
        ensures value { result.now ≡ self.now.1 }
        ensures over { (o : Ops ℕ) → IsLowestTerms o self.now.0 self.now.1 → IsOver o result.now }
    {
        &self.denominator
    }
}
