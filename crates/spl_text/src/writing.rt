// Numbers and polynomials, written into a text.
ghost use Rattle.std.specs.Prelude.{◌≡◌, ◌<◌, ◌++◌, length, decimal, OnOk, OnErr};
ghost use Rattle.spl_text.specs.Text.{numbers_text, coefficients_text, HasFront};

use itoa::Buffer;
use spl_field::field::NoMemory;

/// Writes the number behind the text, which stays as it is where memory is wanting.
pub fn push_number(out: &mut Vec<u8>, n: u32) -> Result<(), NoMemory>
    ensures ok { OnOk result (out.new.items ≡ out.old.items ++ decimal n) }
    ensures err { OnErr result (out.new.items ≡ out.old.items) }
{
    let mut buffer = Buffer::new();
    out.extend_from_slice(buffer.format(n).as_bytes())?;
    Ok(())
}

/// Writes the coefficients behind the text; where memory is wanting, some of them.
fn push_all(out: &mut Vec<u8>, c: &[u8]) -> Result<(), NoMemory>
    requires { 0 < length c.now }
    ensures ok { OnOk result (out.new.items ≡ out.old.items ++ numbers_text c.now) }
    ensures err { OnErr result (HasFront out.old.items out.new.items) }
{
    push_number(out, u32::from(c[0]))?;
    for coefficient in &c[1..] {
        out.push(b',')?;
        push_number(out, u32::from(*coefficient))?;
    }
    Ok(())
}

/// Writes the coefficients of a polynomial behind the text, `0` where it has none. The text stays as it is where memory
/// is wanting.
pub fn push_coefficients(out: &mut Vec<u8>, c: &[u8]) -> Result<(), NoMemory>
    ensures ok { OnOk result (out.new.items ≡ out.old.items ++ coefficients_text c.now) }
    ensures err { OnErr result (out.new.items ≡ out.old.items) }
{
    if c.is_empty() {
        return push_number(out, 0);
    }
    let before = out.len();
    let written = push_all(out, c);
    if written.is_err() {
        out.truncate(before);
    }
    written
}
