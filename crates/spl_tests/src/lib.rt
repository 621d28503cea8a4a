// Tests of what no line of data can show: what the adapters of std's streams do at a call that fails, and a field whose
// elements own memory.
//
// It stands on spl_outside and spl_matrix. All else is tried by the lines of spl_calls.
#![tactic(auto)]

#[cfg(test)]
mod boxed;
#[cfg(test)]
mod streams;
