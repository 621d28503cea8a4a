// Laws of residue fields.
ghost use Rattle.theory_remainders.specs.RemainderLaws.{AreRemainderOps};
ghost use Rattle.spl_field.specs.SmallField.{small_ops};
ghost use Rattle.spl_residue.specs.Residue.{field_of, polynomial_of, residue_ops};

use crate::field::ResidueField;

/// The elements are the polynomials of smaller degree than the modulus, and the operations those of remainders.
pub fn operations_are_of_remainders(k: &ResidueField)
    ensures { AreRemainderOps (small_ops (field_of k.now)) (polynomial_of k.now) (residue_ops k.now) }
{}
