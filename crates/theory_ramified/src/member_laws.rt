// Theorems on the conditions by finitely many tuples.
ghost use Rattle.theory_ramified.specs.MemberConditions.{OrdersByMembers, RadicalsByMembers};

use theory_fractions::fraction_laws::ProgramField;

/// A lattice of independent tuples at a place holds a tuple just where its coordinates are integral there, each
/// identity where it holds one, and all products of its members where it holds those of the tuples.
pub fn orders_are_told_by_members<F: ProgramField>()
    ensures { OrdersByMembers F.ops F.laws }
{}

/// A lattice lies in another, absorbs products with its members, and holds its multiple by the place, just where this
/// is so of the tuples that span them.
pub fn radicals_are_told_by_members<F: ProgramField>()
    ensures { RadicalsByMembers F.ops F.laws }
{}
