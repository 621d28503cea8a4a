// An order at a place modulo the uniformizer p, and what it shows of the order. Λ/p·Λ is an algebra of finite dimension
// over the residue field: its ideals are those of Λ over p·Λ, its largest nilpotent ideal is the radical, its maximal
// ideals and its simple quotients are those of Λ. So what is computed in a finite algebra is proved of the order.
//
// It stands on theory_orders (orders, ideals and radicals at a place), theory_radical (nilpotent ideals) and
// theory_blocks (maximal ideals), whose notions it joins.
//
// Read specs/Residue first (residue fields, reductions of an order), then specs/ResidueLaws and specs/Semisimple, and
// then residue_laws. The functions have no code: each states a theorem as its contract.
#![tactic(auto)]

pub mod residue_laws;
