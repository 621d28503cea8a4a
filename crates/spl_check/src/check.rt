// The check of evidence.
ghost use Rattle.std.specs.Prelude.{◌≡◌, ◌↔◌, IfOk};
ghost use Rattle.spl_table.specs.Table.{degree_of, algebra_of, field_of, ops_of};
ghost use Rattle.spl_evidence.specs.Evidence.{Fits};
ghost use Rattle.spl_evidence.specs.Claim.{Claim};
ghost use Rattle.spl_evidence.specs.Shown.{Shows};
ghost use Rattle.spl_check.specs.Verdict.{IsVerdict, conditions};
ghost use Rattle.spl_check.specs.declared.verdict.Verdict.TheVariants.{Yes};

use crate::kinds::{check_central, check_ideal, check_no_identity, check_split, check_triple};
use crate::ramified::check_ramified;
use crate::verdict::Verdict;
use spl_evidence::evidence::Evidence;
use spl_field::field::NoMemory;
use spl_table::table::Table;
use std::alloc::Global;

/// The verdict on the conditions of the evidence, by its kind.
fn verdict_on(alloc: Global, table: &Table, e: &Evidence) -> Result<Verdict, NoMemory>
    requires { Fits (ops_of table.now) (degree_of table.now) e.now }
    ensures { IfOk result (IsVerdict
        (conditions (field_of table.now) (algebra_of table.now) (degree_of table.now) e.now)) }
{
    let f = table.fractions();
    let algebra = table.algebra();
    match e {
        Evidence::Triple { i, j, k } => check_triple(alloc, f, algebra, *i, *j, *k),
        Evidence::NoIdentity { left, right } => {
            check_no_identity(alloc, f, algebra, left.as_slice(), right.as_slice())
        }
        Evidence::Central { tuple } => check_central(alloc, f, algebra, tuple),
        Evidence::Ideal { tuples } => check_ideal(alloc, f, algebra, tuples.as_slice()),
        Evidence::Split { maps, units } => check_split(
            alloc,
            f,
            algebra,
            table.degree(),
            maps.as_slice(),
            units.as_slice(),
        ),
        Evidence::Ramified {
            place,
            order,
            radical,
        } => check_ramified(alloc, f, algebra, place, order, radical),
    }
}

/// Whether what the evidence claims of the table's algebra holds: Yes where all conditions of its kind do, and else No
/// with the number of the first that fails. Yes shows, of a splitting, that the matrices split the algebra, of a ramified
/// place that no matrices of any size split it, and of the other kinds that it isn't central simple either. The one fault
/// is want of memory.
pub fn check(alloc: Global, table: &Table, e: &Evidence) -> Result<Verdict, NoMemory>
    requires { Fits (ops_of table.now) (degree_of table.now) e.now }
    ensures verdict { IfOk result (IsVerdict
        (conditions (field_of table.now) (algebra_of table.now) (degree_of table.now) e.now)) }
    ensures claim { IfOk result (λ v. (v ≡ Yes)
        ↔ Claim (field_of table.now) (algebra_of table.now) (degree_of table.now) e.now) }
    ensures shows { IfOk result (λ v. v ≡ Yes
        → Shows (ops_of table.now) (algebra_of table.now) (degree_of table.now) e.now) }
{
    let verdict = verdict_on(alloc, table, e)?;
    Ok(verdict)
}
