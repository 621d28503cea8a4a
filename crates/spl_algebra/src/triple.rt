// The search for a failed law of associativity.
ghost use Rattle.std.specs.Prelude.{◌≡◌, ℕ, ◌+◌, ◌^◌, ◌<◌, IfOk, MatchOption};
ghost use Rattle.theory_tables.specs.Structure.{IsOver, IsAssociative};
ghost use Rattle.spl_algebra.specs.Triple.{AssociatesAtPair, FailsFirstAt, FailsFirstAtPair, IsFirstFailed};

use crate::algebra::Algebra;
use spl_field::field::{Field, NoMemory};
use std::alloc::Global;

/// A triple of basis elements, counted from 1.
#[derive(Clone, Copy, Debug, PartialEq, Eq)]
pub struct Triple {
    pub i: usize,
    pub j: usize,
    pub k: usize,
}

/// The first k where (b_i·b_j)·b_k and b_i·(b_j·b_k) differ.
fn first_third<F: Field>(
    alloc: Global,
    f: &F,
    a: &Algebra<F>,
    i: usize,
    j: usize,
) -> Result<Option<usize>, NoMemory>
    requires over { IsOver (F.ops f.now) a.now }
    requires first { i < a.now.dim }
    requires second { j < a.now.dim }
    ensures { IfOk result (λ r. MatchOption r (AssociatesAtPair (F.ops f.now) a.now i j)
        (FailsFirstAt (F.ops f.now) a.now i j)) }
{
    for k in 0..a.dim() {
        if !a.associates_at(alloc, f, i, j, k)? {
            return Ok(Some(k));
        }
    }
    Ok(None)
}

/// The first j and k where (b_i·b_j)·b_k and b_i·(b_j·b_k) differ.
fn first_pair<F: Field>(
    alloc: Global,
    f: &F,
    a: &Algebra<F>,
    i: usize,
) -> Result<Option<(usize, usize)>, NoMemory>
    requires over { IsOver (F.ops f.now) a.now }
    requires first { i < a.now.dim }
    ensures { IfOk result (λ r. MatchOption r ((j : ℕ) → j < a.now.dim → AssociatesAtPair (F.ops f.now) a.now i j)
        (λ p. FailsFirstAtPair (F.ops f.now) a.now i p.0 p.1)) }
{
    for j in 0..a.dim() {
        match first_third(alloc, f, a, i, j)? {
            Some(k) => return Ok(Some((j, k))),
            None => {}
        }
    }
    Ok(None)
}

/// The triple at these places, which are counted from 0.
fn from_places(i: usize, j: usize, k: usize) -> Triple
    requires first { i + 1 < 2 ^ 64 }
    requires second { j + 1 < 2 ^ 64 }
    requires third { k + 1 < 2 ^ 64 }
    ensures { result ≡ record { i = i + 1; j = j + 1; k = k + 1 } }
{
    Triple {
        i: i + 1,
        j: j + 1,
        k: k + 1,
    }
}

impl<F: Field> Algebra<F> {
    /// The first triple (i, j, k) in lexicographic order where (b_i·b_j)·b_k and b_i·(b_j·b_k) differ; None exactly
    /// where the algebra is associative.
    pub fn first_failed_triple(&self, alloc: Global, f: &F) -> Result<Option<Triple>, NoMemory>
        requires { IsOver (F.ops f.now) self.now }
        ensures { IfOk result (λ r. MatchOption r (IsAssociative (F.ops f.now) self.now)
            (IsFirstFailed (F.ops f.now) self.now)) }
    {
        for i in 0..self.dim() {
            match first_pair(alloc, f, self, i)? {
                Some((j, k)) => return Ok(Some(from_places(i, j, k))),
                None => {}
            }
        }
        Ok(None)
    }
}
