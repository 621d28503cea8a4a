// Lists of multipliers at places of a matrix, and lists of matrices.
use crate::matrix::Matrix;
use spl_field::field::Field;
use spl_field::list::List;

/// A list of multipliers, each with the two places that it belongs to.
pub type Multipliers<F> = List<(usize, usize, <F as Field>::Elem)>;

/// A list of matrices.
pub type Maps<F> = List<Matrix<F>>;
