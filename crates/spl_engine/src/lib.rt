// The decision: which evidence a table has.
//
// It stands on spl_table, spl_centre, spl_local (growth of orders, by which a ramified place is found) and spl_evidence.
// Read specs/Kind.antt, then `decide`, and for the places `everywhere::settle_everywhere`.
#![tactic(auto)]

pub mod decide;
pub mod everywhere;
