// The laws of the words.
ghost use Rattle.std.specs.Prelude.{◌≡◌, ℕ, List, decimal};
ghost use Rattle.spl_text.specs.Text.{IsNumber, AreNumbers, IsNumberList, FractionText, IsFractionText, numbers_text};
ghost use Rattle.spl_text.specs.Text.{fraction_text};
ghost use Rattle.spl_text.specs.Decided.{SpellsOrNot};

/// A word spells at most one number.
pub fn one_number_a_word()
    ensures { (n m : ℕ) → IsNumber n → IsNumber m → decimal n ≡ decimal m → n ≡ m }
{}

/// A word spells at most one list of numbers.
pub fn one_list_a_word()
    ensures { (ns ms : List ℕ) → AreNumbers ns → AreNumbers ms → numbers_text ns ≡ numbers_text ms → ns ≡ ms }
{}

/// A word spells at most one fraction.
pub fn one_fraction_a_word()
    ensures { (t u : FractionText) → IsFractionText t → IsFractionText u → fraction_text t ≡ fraction_text u → t ≡ u }
{}

/// Each word spells a number or none; and so with numbers, lists of numbers and fractions.
pub fn each_word_spells_or_not()
    ensures number { (word : List ℕ) → SpellsOrNot IsNumber decimal word }
    ensures numbers { (word : List ℕ) → SpellsOrNot AreNumbers numbers_text word }
    ensures list { (word : List ℕ) → SpellsOrNot IsNumberList numbers_text word }
    ensures fraction { (word : List ℕ) → SpellsOrNot IsFractionText fraction_text word }
{}
