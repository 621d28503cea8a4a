// The order of polynomials.
ghost use Rattle.std.specs.Prelude.{◌≡◌};
ghost use Rattle.spl_poly.specs.Order.{poly_cmp, IsPolynomialOrder};

use crate::poly::Poly;
use std::cmp::Ordering;

/// The order by degree, where 0 comes first, and then by the coefficients as numbers from the highest down. It takes no
/// memory.
pub fn order_of(a: &Poly, b: &Poly) -> Ordering
    ensures { result ≡ poly_cmp a.now b.now }
{
    a.order_by_degree(b)
}

/// It is a total order in which only equal polynomials are equal.
pub fn order_law()
    ensures { IsPolynomialOrder poly_cmp }
{}
