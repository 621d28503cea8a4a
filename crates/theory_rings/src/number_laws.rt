// The laws of numbers modulo n, of primes and of numbers by their digits: each is the contract of a function that does
// nothing.
ghost use Rattle.theory_rings.specs.IntegersMod.{IntegersModLaw, FieldModLaw};
ghost use Rattle.theory_rings.specs.Prime.{PrimeLaw, FermatLaw};
ghost use Rattle.theory_rings.specs.Digits.{DigitsLaw};
ghost use Rattle.theory_rings.specs.FieldByDigits.{DigitsAreRemaindersLaw, FieldByDigitsLaw, OneDigitLaw};

/// The numbers below n are a commutative ring modulo n.
pub fn integers_mod_law()
    ensures { IntegersModLaw }
{}

/// The numbers below n are a field modulo n where each but 0 has an inverse modulo n.
pub fn field_mod_law()
    ensures { FieldModLaw }
{}

/// A number is prime just where each smaller number but 0 has an inverse modulo it.
pub fn prime_law()
    ensures { PrimeLaw }
{}

/// Fermat's little theorem.
pub fn fermat_law()
    ensures { FermatLaw }
{}

/// A number below p^d is its d digits in base p.
pub fn digits_law()
    ensures { DigitsLaw }
{}

/// The numbers below p^d, with sums digit by digit and products modulo a monic polynomial, are the ring of remainders.
pub fn digits_are_remainders_law()
    ensures { DigitsAreRemaindersLaw }
{}

/// The numbers below p^d with these operations are a field of p^d elements where each but 0 has an inverse; then p is
/// prime, and is 0 in the field.
pub fn field_by_digits_law()
    ensures { FieldByDigitsLaw }
{}

/// The integers modulo p are the case of one digit.
pub fn one_digit_law()
    ensures { OneDigitLaw }
{}
