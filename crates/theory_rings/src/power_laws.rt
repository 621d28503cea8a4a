// The laws of powers in rings and finite fields: each is the contract of a function that does nothing.
ghost use Rattle.theory_rings.specs.Binomial.{BinomialLaw};
ghost use Rattle.theory_rings.specs.Frobenius.{FrobeniusLaw, FrobeniusRootsLaw};
ghost use Rattle.theory_rings.specs.Enumerated.{Enumerated, PowerOfSize, RootByPower};

use crate::structures::{CommutativeRing, FieldStructure};

/// The binomial theorem.
pub fn binomial_law<R: CommutativeRing>()
    ensures { BinomialLaw R.ring }
{}

/// The p-th power of a sum is the sum of the p-th powers, where p is prime and p times 1 is 0.
pub fn frobenius_law<R: CommutativeRing>()
    ensures { FrobeniusLaw R.ring }
{}

/// In a program's field whose elements are the numbers below q, where p is prime and p times 1 is 0, each element is
/// the p-th power of exactly one.
pub fn frobenius_roots_law()
    ensures { FrobeniusRootsLaw }
{}

/// In a field of q elements the q-th power of each is itself.
pub fn power_of_size_law<F: FieldStructure>()
    ensures { (elements : Enumerated F) → PowerOfSize F.field elements }
{}

/// In a field of q elements each has a p-th root, its (q / p)-th power, where p divides q.
pub fn root_by_power_law<F: FieldStructure>()
    ensures { (elements : Enumerated F) → RootByPower F.field elements }
{}
