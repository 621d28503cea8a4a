// The words that begin the lines of evidence.
ghost use Rattle.std.specs.Prelude.{◌≡◌};
ghost use Rattle.spl_evidence.specs.Line.{word_text, number_count, fraction_count};

/// The word of a line of evidence behind the first: the second line has that of a kind, the others have the rest.
#[derive(Clone, Copy)]
pub enum Word {
    Triple,
    NoIdentity,
    Central,
    Ideal,
    Split,
    /// Of a ramified place, whose polynomial follows.
    Ramified,
    /// Of infinity as a ramified place.
    RamifiedInfinity,
    Left,
    Right,
    Tuple,
    Map,
    Unit,
    Order,
    Radical,
    End,
}

/// What stands before a line of evidence: the word of the kind, how many tuples it announces, how many lines stand
/// between, and the word and the first two numbers of the last line.
#[derive(Clone, Copy)]
pub struct Before {
    pub kind: Word,
    pub tuples: u32,
    pub count: u32,
    pub last: Word,
    pub j: u32,
    pub k: u32,
}

impl Word {
    /// The letters of the word.
    pub(crate) fn text(self) -> &'static [u8]
        ensures { result.now ≡ word_text self }
    {
        match self {
            Word::Triple => b"triple",
            Word::NoIdentity => b"noidentity",
            Word::Central => b"central",
            Word::Ideal => b"ideal",
            Word::Split => b"split",
            Word::Ramified => b"ramified",
            Word::RamifiedInfinity => b"ramified infinity",
            Word::Left => b"left",
            Word::Right => b"right",
            Word::Tuple => b"tuple",
            Word::Map => b"map",
            Word::Unit => b"unit",
            Word::Order => b"order",
            Word::Radical => b"radical",
            Word::End => b"end",
        }
    }

    /// How many numbers follow the word.
    pub(crate) fn number_count(self) -> usize
        ensures { result ≡ number_count self }
    {
        match self {
            Word::Triple => 3,
            Word::Ideal => 1,
            Word::Left => 2,
            Word::Right => 2,
            Word::Map => 1,
            Word::Unit => 2,
            Word::NoIdentity => 0,
            Word::Central => 0,
            Word::Split => 0,
            Word::Ramified => 0,
            Word::RamifiedInfinity => 0,
            Word::Tuple => 0,
            Word::Order => 0,
            Word::Radical => 0,
            Word::End => 0,
        }
    }

    /// How many fractions follow them, over an algebra of dimension m. The polynomial of a place counts as one.
    pub(crate) fn fraction_count(self, m: usize) -> usize
        ensures { result ≡ fraction_count m self }
    {
        match self {
            Word::Left => 1,
            Word::Right => 1,
            Word::Ramified => 1,
            Word::Tuple => m,
            Word::Map => m,
            Word::Unit => m,
            Word::Order => m,
            Word::Radical => m,
            Word::Triple => 0,
            Word::NoIdentity => 0,
            Word::Central => 0,
            Word::Ideal => 0,
            Word::Split => 0,
            Word::RamifiedInfinity => 0,
            Word::End => 0,
        }
    }
}
