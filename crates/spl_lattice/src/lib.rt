// Ideals of polynomials in one variable over a small field, and lattices of rows of polynomials.
//
// It stands on spl_poly, on theory_rings, where the greatest common divisor is proved to be a combination, and on
// theory_rows, where reduced rows and kernels are. Read `specs/Ideal.antt` first, then `generator`; of rows
// theory_rows/specs/Rows, then `reduce`.
#![tactic(auto)]

mod augmented;
mod euclid;
pub mod generator;
pub mod lattices;
pub mod matrix;
pub mod members;
mod positions;
pub mod reduced;
pub mod rows;
mod splits;
mod steps;
