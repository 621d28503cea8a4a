// The radical of an algebra given by structure constants, as rows of tuples: the chain of ideals by lifted traces,
// member by member, as spans of rows and kernels of forms; and products over a lift ring as sums of rows of numbers.
//
// It stands on theory_lifts and theory_tables, and has no code. Read specs/Radical first, then specs/Members and
// `laws::members_by_rows`.
#![tactic(auto)]

pub mod laws;
