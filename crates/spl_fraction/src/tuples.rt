// Tuples of fractions, and lists of tuples.
use crate::field::Fractions;
use spl_field::list::{List, Vector};

/// A list of fractions, such as the coordinates of an element of an algebra.
pub type Tuple = Vector<Fractions>;

/// A list of tuples. Contracts see it as a list of lists of fractions.
pub type Tuples = List<Tuple>;
