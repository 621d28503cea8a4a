// Growth of an order at one finite place: the radical and the maximal ideals of an algebra over a residue field, and the
// larger orders that these give one after the other, until nothing grows and the order is unimodular or ramified.
// Growth of first orders at all places, infinity last, up to the first place that is ramified.
//
// It stands on spl_radical and spl_blocks, whose radical and maximal ideals it puts together, on spl_order (an order
// modulo a place, preimages and left orders), and on theory_growth, where it is proved that the maximal ideals are those
// of the quotient by the radical, pulled back, and what an order is where nothing grows. Read `settle::settle` first,
// then `ideals::radical_and_ideals` and `everywhere::settle_everywhere`.
#![tactic(auto)]

pub mod everywhere;
pub mod ideals;
pub mod settle;
