// Evidence.
use spl_fraction::field::Fractions;
use spl_fraction::place::Place;
use spl_fraction::tuples::{Tuple, Tuples};
use spl_matrix::lists::{Maps, Multipliers};

/// Why an algebra isn't central simple, that it is that of all n by n matrices, or why it is no matrix algebra although
/// it may be central simple. Basis elements are counted from 1.
#[derive(Drop)]
pub enum Evidence {
    /// The products (b_i·b_j)·b_k and b_i·(b_j·b_k) differ.
    Triple {
        i: usize,
        j: usize,
        k: usize,
    },
    /// Multipliers by which the equations of an identity give 0 = 1: `left` those of Σ_i e_i·γ_ijk = δ_jk at (j, k),
    /// and `right` those of Σ_i e_i·γ_jik = δ_jk.
    NoIdentity {
        left: Multipliers<Fractions>,
        right: Multipliers<Fractions>,
    },
    /// A central element that is no multiple of an identity.
    Central {
        tuple: Tuple,
    },
    /// A basis of an ideal that is neither 0 nor everything.
    Ideal {
        tuples: Tuples,
    },
    /// The n by n matrices of the basis elements under an isomorphism, and the elements, row by row, that it carries to
    /// the matrices with one entry 1 and else 0.
    Split {
        maps: Maps<Fractions>,
        units: Tuples,
    },
    /// A place at which the algebra is ramified: tuples that span an order there, and tuples that span its radical.
    Ramified {
        place: Place,
        order: Tuples,
        radical: Tuples,
    },
}
