// The check of evidence on a table: whether each condition of its kind holds, and else which is the first that fails.
//
// It stands on spl_table, spl_evidence, spl_algebra and spl_matrix. Read specs/Verdict.antt, then `check`: there is no
// elimination where substituting is enough, and one echelon form for the conditions of an ideal.
#![tactic(auto)]

mod central;
pub mod check;
mod ideal;
mod kinds;
mod multipliers;
mod ramified;
mod split;
pub mod verdict;
