// Orders over the polynomials in an algebra over the rational functions.
ghost use Rattle.theory_bases.specs.StartOrders.{StartOrdersAreOrders};

use theory_fractions::fraction_laws::ProgramField;

/// In an associative algebra with one, the combinations with polynomials of one and of the basis elements times the
/// common denominator of all constants are an order.
pub fn start_orders_are_orders<F: ProgramField>()
    ensures { StartOrdersAreOrders F.ops F.laws }
{}
