// Lists of polynomials.
use spl_field::list::List;
use spl_poly::poly::Poly;

/// A list of polynomials. Contracts see it as a list of lists of coefficients.
pub type PolyRow = List<Poly>;
