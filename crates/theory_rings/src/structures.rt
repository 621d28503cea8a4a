// Rings and fields as traits, over which the laws range.
ghost use Rattle.std.specs.Prelude.{Bool};
ghost use Rattle.theory_rings.specs.Ring.{CommRingOn, FieldOn, ZeroTest};

/// A commutative ring in which 0 can be told apart from the other elements.
pub trait CommutativeRing {
    ghost ring: { CommRingOn Self };

    ghost is_zero: { Self → Bool };

    ghost zero_test: { ZeroTest ring.zero is_zero };
}

/// A field in which 0 can be told apart from the other elements.
pub trait FieldStructure {
    ghost field: { FieldOn Self };
}
