// Counts that stand still at the last value of a 64-bit counter.
ghost use Rattle.std.specs.Prelude.{◌≡◌};
ghost use Rattle.spl_outside.specs.Faults.{next_count};

/// One more, unless the count stands at its last value.
pub(crate) fn next(count: u64) -> u64
    ensures { result ≡ next_count count }
{
    count.saturating_add(1)
}
