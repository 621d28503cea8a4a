// Fractions written as their canonical texts.
ghost use Rattle.std.specs.Prelude.{◌≡◌, ◌<◌, [], ◌∷◌, ◌++◌, length, OnOk, OnErr};
ghost use Rattle.spl_text.specs.Text.{coefficients_text, HasFront};
ghost use Rattle.spl_fraction.specs.CanonicalText.{canonical_text};

use crate::fraction::Fraction;
use crate::reduction::is_constant;
use spl_field::field::NoMemory;
use spl_poly::poly::Poly;
use spl_text::writing::push_coefficients;

/// Writes the coefficients of a polynomial behind the text, which stays as it is where memory is wanting.
fn push_polynomial(a: &Poly, out: &mut Vec<u8>) -> Result<(), NoMemory>
    ensures ok { OnOk result (out.new.items ≡ out.old.items ++ coefficients_text a.now) }
    ensures err { OnErr result (out.new.items ≡ out.old.items) }
{
    push_coefficients(out, a.as_slice())
}

/// Writes the coefficients of both with `/` between behind the text; where memory is wanting, some of it.
fn push_both(a: &Poly, b: &Poly, out: &mut Vec<u8>) -> Result<(), NoMemory>
    ensures ok { OnOk result
        (out.new.items ≡ out.old.items ++ coefficients_text a.now ++ 47 ∷ [] ++ coefficients_text b.now) }
    ensures err { OnErr result (HasFront out.old.items out.new.items) }
{
    push_polynomial(a, out)?;
    out.push(b'/')?;
    push_polynomial(b, out)?;
    Ok(())
}

/// Writes the canonical text of the fraction behind the text, which stays as it was where memory is wanting.
pub(crate) fn push_fraction(a: &Fraction, out: &mut Vec<u8>) -> Result<(), NoMemory>
    requires { 0 < length a.now.1 }
    ensures ok { OnOk result (out.new.items ≡ out.old.items ++ canonical_text a.now) }
    ensures err { OnErr result (out.new.items ≡ out.old.items) }
{
    if is_constant(a.denominator()) {
        return push_polynomial(a.numerator(), out);
    }
    let before = out.len();
    let written = push_both(a.numerator(), a.denominator(), out);
    if written.is_err() {
        out.truncate(before);
    }
    written
}
