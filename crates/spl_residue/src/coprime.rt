// Whether two polynomials have a common divisor of degree 1 or more.
ghost use Rattle.std.specs.Prelude.{◌≡◌, ◌↔◌, length, IfOk, IsTrue};
ghost use Rattle.spl_field.specs.SmallField.{small_ops};
ghost use Rattle.spl_poly.specs.Operations.{IsOver};
ghost use Rattle.theory_fractions.specs.Fraction.{IsCoprime};

use spl_field::field::NoMemory;
use spl_field::small::SmallField;
use spl_poly::poly::Poly;
use std::alloc::Global;

/// Whether the polynomial is a constant other than 0.
fn is_constant(a: &Poly) -> bool
    ensures { IsTrue result ↔ (length a.now ≡ 1) }
{
    a.as_slice().len() == 1
}

/// Whether each common divisor of a and b is a constant, by Euclid's algorithm.
pub(crate) fn are_coprime(
    alloc: Global,
    f: &SmallField,
    a: &Poly,
    b: &Poly,
) -> Result<bool, NoMemory>
    requires a_over { IsOver (small_ops f.now) a.now }
    requires b_over { IsOver (small_ops f.now) b.now }
    ensures { IfOk result (λ t. IsTrue t ↔ IsCoprime (small_ops f.now) a.now b.now) }
{
    let mut first = a.copy(alloc, f)?;
    let mut second = b.copy(alloc, f)?;
    'steps: while !second.is_zero() {
        let rest = first.divide(alloc, f, &second)?.remainder;
        first = second;
        second = rest;
    }
    Ok(is_constant(&first))
}
