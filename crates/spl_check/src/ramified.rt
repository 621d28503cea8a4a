// The verdict on evidence of a ramified place.
ghost use Rattle.std.specs.Prelude.{◌≡◌, ◌≤◌, IfOk};
ghost use Rattle.theory_tables.specs.Structure.{IsOver};
ghost use Rattle.spl_field.specs.SmallField.{small_ops, small_laws};
ghost use Rattle.spl_fraction.specs.Fractions.{field_of};
ghost use Rattle.spl_fraction.specs.FractionsOver.{fractions_over};
ghost use Rattle.spl_evidence.specs.Evidence.{RamifiedFits};
ghost use Rattle.spl_check.specs.Faults.{number_of};
ghost use Rattle.spl_check.specs.Verdict.{IsVerdict, ramified_conditions};

use crate::verdict::Verdict;
use spl_algebra::algebra::Algebra;
use spl_field::field::NoMemory;
use spl_fraction::field::Fractions;
use spl_fraction::place::Place;
use spl_fraction::tuples::Tuples;
use spl_ramified::fault::RamifiedFault;
use spl_ramified::first_fault::first_fault;
use std::alloc::Global;

/// The number of the condition that fails.
fn number_of(fault: RamifiedFault) -> u32
    ensures { result ≡ number_of fault }
{
    match fault {
        RamifiedFault::NoPlace => 61,
        RamifiedFault::NotAssociative => 62,
        RamifiedFault::NoIdentity => 63,
        RamifiedFault::OrderDependent => 64,
        RamifiedFault::OrderWithoutIdentity => 65,
        RamifiedFault::OrderNotClosed => 66,
        RamifiedFault::RadicalDependent => 67,
        RamifiedFault::RadicalOutside => 68,
        RamifiedFault::NoIdeal => 69,
        RamifiedFault::RadicalWithoutMultiple => 70,
        RamifiedFault::NotNilpotent => 71,
        RamifiedFault::QuotientNotSimple => 72,
        RamifiedFault::OtherLeftOrder => 73,
        RamifiedFault::RadicalIsMultiple => 74,
    }
}

/// The verdict on the tuples of an order and of its radical, at a place where the algebra should be ramified.
pub(crate) fn check_ramified(
    alloc: Global,
    f: &Fractions,
    algebra: &Algebra<Fractions>,
    place: &Place,
    order: &Tuples,
    radical: &Tuples,
) -> Result<Verdict, NoMemory>
    requires over { IsOver (fractions_over (field_of f.now)) algebra.now }
    requires positive { 1 ≤ algebra.now.dim }
    requires fits { RamifiedFits (fractions_over (field_of f.now)) algebra.now.dim place.now order.now radical.now }
    ensures { IfOk result (IsVerdict
        (ramified_conditions (small_ops (field_of f.now)) (small_laws (field_of f.now)) algebra.now place.now order.now
        radical.now)) }
{
    match first_fault(alloc, f, algebra, place, order, radical)? {
        None => Ok(Verdict::Yes),
        Some(fault) => Ok(Verdict::No {
            condition: number_of(fault),
        }),
    }
}
