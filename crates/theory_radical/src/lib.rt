// The mathematics of the radical of a finite-dimensional algebra over a field of prime characteristic p: its largest
// nilpotent two-sided ideal is the end of a chain of ideals, each of which is the kernel of linear functionals on the
// one before. The functionals come from traces of p^i-th powers of matrices over a lift ring, as Z/p^n is one of Z/p.
// It stands on theory_rings and theory_spaces.
//
// Read `specs/Ideal.antt` and `specs/LiftRing.antt` first, then `specs/Chain.antt`, which defines the chain, and then
// what it does: `specs/ChainLaws.antt` and `specs/Functional.antt`. `specs/Tower.antt` has the rings F_p[t]/(f)[x]/(g)
// and their lift rings. The functions below have no code: each states a theorem as its contract, for whatever algebra
// the trait names.
#![tactic(auto)]

pub mod chain_laws;
pub mod lift_laws;
pub mod nilpotent_laws;
pub mod trace_laws;
