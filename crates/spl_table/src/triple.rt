// The search for a failed law of associativity in a table.
ghost use Rattle.std.specs.Prelude.{IfOk, MatchOption};
ghost use Rattle.theory_tables.specs.Structure.{IsAssociative};
ghost use Rattle.spl_algebra.specs.Triple.{IsFirstFailed};
ghost use Rattle.spl_table.specs.Table.{algebra_of, ops_of};

use crate::table::Table;
pub use spl_algebra::triple::Triple;
use spl_field::field::NoMemory;
use spl_numerators::triple as numerators;
use std::alloc::Global;

/// The first triple (i, j, k) in lexicographic order where (b_i·b_j)·b_k and b_i·(b_j·b_k) differ; None exactly where
/// the table is associative.
pub fn first_failed_triple(alloc: Global, table: &Table) -> Result<Option<Triple>, NoMemory>
    ensures { IfOk result (λ r. MatchOption r (IsAssociative (ops_of table.now) (algebra_of table.now))
        (IsFirstFailed (ops_of table.now) (algebra_of table.now))) }
{
    let algebra = table.algebra();
    numerators::first_failed_triple(alloc, table.fractions(), algebra)
}
