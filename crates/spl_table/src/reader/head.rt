// The lines of a table text before its entries.
ghost use Rattle.std.specs.Prelude.{◌≡◌, ◌≢◌, ◌⊎◌, ℕ, ◌%◌, ◌<◌, ◌≤◌, List, [], ◌∷◌, ◌++◌, length, true, false, IfOk};
ghost use Rattle.std.specs.Prelude.{IfErr, IsErrOf, OnOk, MatchOption};
ghost use Rattle.spl_field.specs.FieldByDigits.{IsAdmitted};
ghost use Rattle.spl_field.specs.SmallField.{characteristic, modulus_of};
ghost use Rattle.spl_fraction.specs.Fractions.{field_of};
ghost use Rattle.spl_text.specs.Text.{IsNumber, AreNumbers, numbers_text};
ghost use Rattle.spl_table.specs.Reading.{IfRefused, field_text, degree_text, IsNoField, IsFieldFault, IsDegreeFault};
ghost use Rattle.spl_table.specs.Reading.{AreBytes, AreFieldWords, SaysAdmitted};

use crate::refusal::{Kind, TableFault};
use arrayvec::ArrayVec;
use spl_field::admission::FieldFault;
use spl_field::field::NoMemory;
use spl_field::small::SmallField;
use spl_fraction::field::Fractions;
use spl_text::word::{number_before, number_of, strip_prefix};
use std::alloc::Global;

/// The numbers of the line `field P M`: P, and those of M as bytes, unless they are too many or too high.
#[derive(Drop)]
struct FieldWords {
    characteristic: u32,
    modulus: Modulus,
}

/// Numbers as bytes, as long as there are at most eight, each at most 255.
#[derive(Drop)]
struct Modulus {
    bytes: ArrayVec<u8, 8>,
    small: bool,
}

/// Appends the number, where there is room and it is at most 255.
fn push_byte(bytes: &mut ArrayVec<u8, 8>, number: u32) -> bool
    ensures pushed { result ≡ true → bytes.new.items ≡ bytes.old.items ++ number ∷ [] }
    ensures left { result ≡ false → (8 ≤ length bytes.old.items) ⊎ (256 ≤ number) }
{
    match u8::try_from(number) {
        Ok(byte) => bytes.try_push(byte).is_ok(),
        Err(_) => false,
    }
}

/// The numbers that the word spells, joined by commas. It takes no memory.
fn modulus_of(word: &[u8]) -> Option<Modulus>
    ensures { MatchOption result ((m : List ℕ) → AreNumbers m → word.now ≢ numbers_text m)
        (λ r. (m : List ℕ) × AreNumbers m × (word.now ≡ numbers_text m) × AreBytes m r.small r.bytes.items) }
{
    let mut bytes = ArrayVec::new();
    let mut small = true;
    let mut rest = word;
    while let Some((number, after)) = number_before(rest, b',') {
        let pushed = push_byte(&mut bytes, number);
        small = small & pushed;
        rest = after;
    }
    let last = number_of(rest)?;
    let pushed = push_byte(&mut bytes, last);
    Some(Modulus {
        bytes,
        small: small & pushed,
    })
}

/// The numbers of the line `field P M`, where it is of this form. It takes no memory.
fn field_words(line: &[u8]) -> Option<FieldWords>
    ensures { MatchOption result
        ((p : ℕ) (m : List ℕ) → IsNumber p → AreNumbers m → line.now ≢ field_text p m)
        (λ w. AreFieldWords line.now w.characteristic w.modulus.small w.modulus.bytes.items) }
{
    let rest = strip_prefix(line, b"field ")?;
    let (characteristic, rest) = number_before(rest, b' ')?;
    let modulus = modulus_of(rest)?;
    Some(FieldWords {
        characteristic,
        modulus,
    })
}

/// The field of these numbers, where they give one.
fn field_of(alloc: Global, characteristic: u32, modulus: &[u8]) -> Result<SmallField, TableFault>
    ensures p { IfOk result (λ f. f.p ≡ characteristic) }
    ensures modulus { IfOk result (λ f. modulus_of f ≡ modulus.now) }
    ensures admitted { OnOk result (IsAdmitted characteristic modulus.now) }
    ensures fault { IfErr result (λ e. IfRefused e (λ at kind. (at ≡ 2) × IsNoField characteristic modulus.now kind)) }
    ensures memory { IsErrOf result TableFault.Memory → IsAdmitted characteristic modulus.now }
{
    let Ok(p) = u16::try_from(characteristic) else {
        return Err(TableFault::at(2, Kind::FieldSize));
    };
    match SmallField::new(alloc, p, modulus) {
        Ok(field) => Ok(field),
        Err(FieldFault::Size) => Err(TableFault::at(2, Kind::FieldSize)),
        Err(FieldFault::NoInverse { element }) => {
            Err(TableFault::at(2, Kind::FieldLaw { element }))
        }
        Err(FieldFault::Memory) => Err(TableFault::Memory),
    }
}

/// The field of the line `field P M`, the second of a table text.
fn read_field(alloc: Global, line: &[u8]) -> Result<SmallField, TableFault>
    ensures spelled { IfOk result (λ f. line.now ≡ field_text (characteristic f) (modulus_of f)) }
    ensures admitted { IfOk result (λ f. IsAdmitted (characteristic f) (modulus_of f)) }
    ensures fault { IfErr result (λ e. IfRefused e (λ at kind. (at ≡ 2) × IsFieldFault line.now kind)) }
    ensures memory { IsErrOf result TableFault.Memory → SaysAdmitted line.now }
{
    let Some(words) = field_words(line) else {
        return Err(TableFault::at(2, Kind::Header));
    };
    if !words.modulus.small {
        return Err(TableFault::at(2, Kind::FieldSize));
    }
    field_of(alloc, words.characteristic, words.modulus.bytes.as_slice())
}

/// The fractions over the field of the line `field P M`, the second of a table text.
pub fn read_fractions(alloc: Global, line: &[u8]) -> Result<Fractions, TableFault>
    ensures spelled { IfOk result (λ k. line.now ≡ field_text (characteristic (field_of k)) (modulus_of (field_of k))) }
    ensures admitted { IfOk result (λ k. IsAdmitted (characteristic (field_of k)) (modulus_of (field_of k))) }
    ensures fault { IfErr result (λ e. IfRefused e (λ at kind. (at ≡ 2) × IsFieldFault line.now kind)) }
    ensures memory { IsErrOf result TableFault.Memory → SaysAdmitted line.now }
{
    let field = read_field(alloc, line)?;
    Ok(Fractions::over(alloc, &field)?)
}

/// The number of the line `degree N`, where it is of this form.
fn degree_word(line: &[u8]) -> Option<u32>
    ensures { MatchOption result ((n : ℕ) → IsNumber n → line.now ≢ degree_text n)
        (λ n. IsNumber n × (line.now ≡ degree_text n)) }
{
    let rest = strip_prefix(line, b"degree ")?;
    number_of(rest)
}

/// The degree of the line `degree N`, the third of a table text, for a field of this characteristic.
pub fn read_degree(line: &[u8], p: u16) -> Result<usize, TableFault>
    requires { 0 < p }
    ensures spelled { IfOk result (λ n. line.now ≡ degree_text n) }
    ensures low { IfOk result (λ n. 2 ≤ n) }
    ensures high { IfOk result (λ n. n ≤ 5) }
    ensures apart { IfOk result (λ n. n % p ≢ 0) }
    ensures fault { IfErr result (λ e. IfRefused e (λ at kind. (at ≡ 3) × IsDegreeFault p line.now kind)) }
{
    let Some(degree) = degree_word(line) else {
        return Err(TableFault::at(3, Kind::Header));
    };
    if degree < 2 || degree > 5 {
        return Err(TableFault::at(3, Kind::Degree));
    }
    if degree % u32::from(p) == 0 {
        return Err(TableFault::at(3, Kind::Characteristic));
    }
    Ok(degree as usize)
}
