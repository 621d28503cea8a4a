// The elements of residue fields.
ghost use Rattle.std.specs.Prelude.{◌≡◌};

use spl_poly::poly::Poly;
use std::marker::Model;

/// An element of a residue field: a polynomial of smaller degree than the modulus. Contracts see it as the list of its
/// coefficients. Of which field it is an element is a condition of the calls that take it.
pub struct ResidueElem {
    poly: Poly,
}

// (one proof for all functions that drop an element, in place of one in each)
impl Drop for ResidueElem {
    fn drop(self) {
        let ResidueElem { poly } = self;
    }
}

impl Model for ResidueElem {
    ghost use Rattle.std.specs.Prelude.{ℕ, List};

    ghost Value = { List ℕ };

    ghost view = { λ a. a.poly };
}

impl ResidueElem {
    /// The element with this polynomial.
    pub(crate) fn of(poly: Poly) -> ResidueElem
        ensures { result ≡ poly }
    {
        ResidueElem { poly }
    }

    /// The polynomial.
    pub(crate) fn poly(&self) -> &Poly
        ensures { result.now ≡ self.now }
    {
        &self.poly
    }
}
