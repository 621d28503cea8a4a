// The words of a text: what stands before a byte, what follows literal words, and numbers.
ghost use Rattle.std.specs.Prelude.{◌≡◌, ◌≢◌, ℕ, ◌<◌, List, ◌∷◌, ◌++◌, decimal, MatchOption};
ghost use Rattle.spl_text.specs.Text.{Lacks, IsNumber};

/// What stands before the first separator, and what stands after it; None exactly where the bytes have none.
pub fn split_once(bytes: &[u8], separator: u8) -> Option<(&[u8], &[u8])>
    ensures { MatchOption result (Lacks separator bytes.now)
        (λ x. Lacks separator x.0.now × (bytes.now ≡ x.0.now ++ separator ∷ x.1.now)) }
{
    let place = bytes.iter().position(|byte| *byte == separator)?;
    Some((&bytes[..place], &bytes[place + 1..]))
}

/// What stands after the prefix; None exactly where the bytes don't begin with it.
pub fn strip_prefix<'a>(bytes: &'a [u8], prefix: &[u8]) -> Option<&'a [u8]>
    ensures { MatchOption result ((rest : List ℕ)
        → bytes.now ≢ prefix.now ++ rest) (λ rest. bytes.now ≡ prefix.now ++ rest.now) }
{
    bytes.strip_prefix(prefix)
}

/// The number that the word spells: 0, or a digit from 1 to 9 and at most eight digits.
pub fn number_of(word: &[u8]) -> Option<u32>
    ensures { MatchOption result ((n : ℕ) → IsNumber n
        → word.now ≢ decimal n) (λ n. IsNumber n × (word.now ≡ decimal n)) }
{
    if word.is_empty() || word.len() > 9 || (word[0] == b'0' && word.len() != 1) {
        return None;
    }
    let mut number = 0;
    for byte in word {
        if !byte.is_ascii_digit() {
            return None;
        }
        number = number * 10 + u32::from(*byte - b'0');
    }
    Some(number)
}

/// The number before the separator, which is no digit, and what stands after it.
pub fn number_before(bytes: &[u8], separator: u8) -> Option<(u32, &[u8])>
    requires { separator < 48 }
    ensures { MatchOption result ((n : ℕ) (rest : List ℕ) → IsNumber n → bytes.now ≢ decimal n ++ separator ∷ rest)
        (λ x. IsNumber x.0 × (bytes.now ≡ decimal x.0 ++ separator ∷ x.1.now)) }
{
    let (word, rest) = split_once(bytes, separator)?;
    let number = number_of(word)?;
    Some((number, rest))
}
