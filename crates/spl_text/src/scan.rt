// The bytes of a text, before anything of it is read.
ghost use Rattle.std.specs.Prelude.{◌≡◌, MatchOption};
ghost use Rattle.spl_text.specs.Text.{IsText, IsFirstNoText, newlines};

/// Where the first byte stands that no text may hold. A text holds the bytes from the space to the tilde, and newlines.
pub fn first_no_text(bytes: &[u8]) -> Option<usize>
    ensures { MatchOption result (IsText bytes.now) (IsFirstNoText bytes.now) }
{
    bytes.iter().position(|byte| !(*byte == b'\n' || (b' ' <= *byte && *byte <= b'~')))
}

/// How many newlines there are.
pub fn newlines(bytes: &[u8]) -> usize
    ensures { result ≡ newlines bytes.now }
{
    bytes.iter().filter(|byte| **byte == b'\n').count()
}
