// Matrices of polynomials, as lists of rows, and lists of degrees.
use crate::rows::PolyRow;
use spl_field::list::List;

/// A list of rows of polynomials. Contracts see it as a list of lists of lists of coefficients; that the rows have one
/// width is a condition of the calls that take it.
pub type PolyMatrix = List<PolyRow>;

/// A list of degrees.
pub type Degrees = List<i64>;
