// Calls on algebras over residue fields and on orders, as words of a line.
//
// It stands on spl_words, which has the calls of the crates up to spl_algebra, reads arguments and writes answers, and on
// spl_radical, spl_blocks, spl_order and spl_local; spl_calls takes the lines. Read `calls`, `residues` and `orders`
// first; each other module has the calls of one group.
#![tactic(auto)]

pub mod algebras;
mod bases;
pub mod blocks;
pub mod calls;
mod central;
pub mod lifts;
pub mod orders;
mod orders_at;
mod places;
pub mod radicals;
pub mod residues;
mod unital;
