// Theorems on the traces of p^i-th powers modulo p^(i + 1).
ghost use Rattle.theory_rings.specs.Ring.{AddCommGroupOn, RingOn, CommRingOn};
ghost use Rattle.theory_radical.specs.Trace.{IsTrace};
ghost use Rattle.theory_radical.specs.ChainLaws.{TracesOfPowers, TracesOfMatrixPowers};

/// A ring with a trace: an additive map that is the same on both orders of a product.
pub trait TracedRing {
    ghost Elem: { Type 0 };

    ghost Value: { Type 0 };

    ghost ring: { RingOn Elem };

    ghost values: { AddCommGroupOn Value };

    ghost map: { Elem → Value };

    ghost trace: { IsTrace ring values map };
}

/// The traces of the p^i-th powers of two elements that agree modulo p agree modulo p^(i + 1).
pub fn traces_of_powers<R: TracedRing>()
    ensures { TracesOfPowers R.ring R.values R.map }
{}

/// A commutative ring on a set.
pub trait CommutativeSetRing {
    ghost Elem: { Type 0 };

    ghost ring: { CommRingOn Elem };

    ghost set: { IsSet Elem };
}

/// The same of square matrices over a commutative ring whose entries agree modulo p.
pub fn traces_of_matrix_powers<R: CommutativeSetRing>()
    ensures { TracesOfMatrixPowers R.ring }
{}
