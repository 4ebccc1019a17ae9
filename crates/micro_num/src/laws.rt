//! The law of the grammar of numbers: a number's text and its parts determine each other.
ghost use Rattle.std.specs.Prelude.{◌≡◌, List, Some, ℕ};
ghost use Rattle.micro_num.specs.Numeral.{IsNumeral, Numeral, numeral_of, numeral_text};

/// The parts of a number have one text, and that text has no other parts.
pub fn one_spelling()
    ensures read { (n : Numeral) → IsNumeral n → numeral_of (numeral_text n) ≡ Some n }
    ensures spelled { (word : List ℕ) (n : Numeral) → numeral_of word ≡ Some n → IsNumeral n × (word ≡ numeral_text n) }
{}
