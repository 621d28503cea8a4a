// Verdicts.

/// Whether all conditions of evidence hold.
#[derive(Clone, Copy, Debug, PartialEq, Eq)]
pub enum Verdict {
    /// All hold.
    Yes,
    /// The first of them that fails is the one of this number.
    No { condition: u32 },
}
