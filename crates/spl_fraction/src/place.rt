// Places, and their order.
ghost use Rattle.std.specs.Prelude.{◌≡◌};
ghost use Rattle.spl_fraction.specs.Place.{place_cmp, IsPlaceOrder};

use spl_poly::order::{order_law, order_of};
use spl_poly::poly::Poly;
use std::cmp::Ordering;

/// A place of the field of rational functions: a monic irreducible polynomial, or infinity.
#[derive(Drop)]
pub enum Place {
    Finite { poly: Poly },
    Infinity,
}

/// The order of places: the finite ones as their polynomials, and infinity last. It takes no memory.
pub fn order_of_places(a: &Place, b: &Place) -> Ordering
    ensures { result ≡ place_cmp a.now b.now }
{
    match (a, b) {
        (Place::Finite { poly: p }, Place::Finite { poly: q }) => order_of(p, q),
        (Place::Finite { poly: _ }, Place::Infinity) => Ordering::Less,
        (Place::Infinity, Place::Finite { poly: _ }) => Ordering::Greater,
        (Place::Infinity, Place::Infinity) => Ordering::Equal,
    }
}

/// It is a total order in which only equal places are equal.
pub fn place_order_law()
    ensures { IsPlaceOrder place_cmp }
{
    order_law();
}
