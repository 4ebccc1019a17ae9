//! The two readers of numbers: one reads a whole word, the other the number at the front of a text.
ghost use Rattle.std.specs.Prelude.{◌≡◌, ◌≤◌, ◌<◌, ◌↔◌, ◌≤ℤ◌, ◌++◌, Err, IfOk, IfSome, List, MatchOption, Ok, Some, length, ℕ, ℤ, pos, take, unsigned_abs};
ghost use Rattle.micro_num.specs.Scan.{IsEnded, IsNumberFront, text_magnitude};
ghost use Rattle.micro_num.specs.Numeral.{Numeral, IsNumeral, IsSpelled, numeral_text, unsigned};
ghost use Rattle.micro_num.specs.Micrometres.{coordinate_of, coordinate_or_fault, micro};
ghost use Rattle.micro_num.specs.declared.num_fault.NumFault.TheVariants.{NotNumber, OutOfRange, TooLong};
ghost use Rattle.geometry.specs.declared.limits.TheConstants.{COORDINATE_LIMIT};
ghost use Rattle.micro_num.specs.declared.limits.TheConstants.{WORD_LIMIT};

use crate::limits::{SHORT_ROOM, WORD_LIMIT};
use crate::mantissa::{exponent_front, read_mantissa, split_sign};
use crate::num_fault::NumFault;
use crate::scaling::{magnitude_in, signed_coordinate};
use crate::short_number::short_front;
use crate::unit::Unit;
use geometry::COORDINATE_LIMIT;

/// The coordinate that a word stands for: whole micrometres, rounded to the nearest, halves away from zero.
///
/// A number is an optional sign, then at least one digit with at most one point before, among or after the digits, then an
/// optional exponent. An exponent is `e` or `E`, an optional sign and at least one digit. This is the decimal form that C's
/// `strtod` reads. The number is multiplied by the micrometres of its unit before it is rounded.
///
/// # Errors
/// - `TooLong` if the word has more than [`WORD_LIMIT`] bytes,
/// - else `NotNumber` if it is no number,
/// - else `OutOfRange` if the rounded value is more than `COORDINATE_LIMIT` micrometres from 0.
pub fn read_micro(word: &[u8], unit: Unit) -> Result<i32, NumFault>
    ensures exact { result ≡ coordinate_of unit word.now }
    ensures spelled { (n : Numeral) → IsNumeral n → word.now ≡ numeral_text n → length word.now ≤ WORD_LIMIT
        → result ≡ coordinate_or_fault (micro unit n) }
    ensures not_number { (result ≡ Err NotNumber) ↔ ((length word.now ≤ WORD_LIMIT) × (IsSpelled word.now → ⊥)) }
    ensures too_long { (result ≡ Err TooLong) ↔ (WORD_LIMIT < length word.now) }
    ensures out_of_range { (result ≡ Err OutOfRange) ↔ ((n : Numeral) × IsNumeral n × (word.now ≡ numeral_text n)
        × (length word.now ≤ WORD_LIMIT) × (COORDINATE_LIMIT < unsigned_abs (micro unit n))) }
{
    read_word(word, unit)
}

/// `read_micro` without the clauses on how numbers are spelled.
fn read_word(word: &[u8], unit: Unit) -> Result<i32, NumFault>
    ensures { result ≡ coordinate_of unit word.now }
{
    if word.len() > WORD_LIMIT {
        return Err(NumFault::TooLong);
    }
    let (negative, text) = split_sign(word);
    let magnitude = read_unsigned(text, unit)?;
    Ok(if negative { -magnitude } else { magnitude })
}

/// The coordinate of a text without a sign.
fn read_unsigned(text: &[u8], unit: Unit) -> Result<i32, NumFault>
    requires { length text.now ≤ WORD_LIMIT }
    ensures exact { result ≡ text_magnitude unit text.now }
    ensures small { IfOk result (λ z. (pos 0 ≤ℤ z) × (z ≤ℤ pos COORDINATE_LIMIT)) }
{
    match magnitude_front(text, unit) {
        Some((magnitude, after)) if after.is_empty() => {
            if magnitude > COORDINATE_LIMIT {
                Err(NumFault::OutOfRange)
            } else {
                Ok(magnitude as i32)
            }
        }
        _ => Err(NumFault::NotNumber),
    }
}

/// The coordinate of a word at the front of a text, as [`read_micro`] reads it, and the length of the word in bytes.
///
/// A word in range is always found if the text ends after it, or continues with a byte that is no digit, no point and neither
/// `e` nor `E`. A word may also be found if another byte follows it. `None` does not say why there is no such word.
#[inline(always)]
pub fn read_front(bytes: &[u8], unit: Unit) -> Option<(i32, usize)>
    ensures exact { IfSome result (λ found. coordinate_of unit (take found.1 bytes.now) ≡ Ok found.0) }
    ensures within { IfSome result (λ found. found.1 ≤ length bytes.now) }
    ensures reads { (word rest : List ℕ) (z : ℤ) → bytes.now ≡ word ++ rest → IsEnded rest → coordinate_of unit word ≡ Ok z
        → result ≡ Some (z, length word) }
{
    if bytes.len() >= SHORT_ROOM {
        if let Some(found) = short_front(bytes, unit) {
            return Some(found);
        }
    }
    long_front(bytes, unit)
}

/// `read_front` for a number of any length.
#[cold]
#[inline(never)]
fn long_front(bytes: &[u8], unit: Unit) -> Option<(i32, usize)>
    ensures exact { IfSome result (λ found. coordinate_of unit (take found.1 bytes.now) ≡ Ok found.0) }
    ensures within { IfSome result (λ found. found.1 ≤ length bytes.now) }
    ensures reads { (word rest : List ℕ) (z : ℤ) → bytes.now ≡ word ++ rest → IsEnded rest → coordinate_of unit word ≡ Ok z
        → result ≡ Some (z, length word) }
{
    let (text, _) = bytes.split_at(bytes.len().min(WORD_LIMIT));
    let (negative, digits) = split_sign(text);
    let (magnitude, after) = magnitude_front(digits, unit)?;
    let coordinate = signed_coordinate(negative, magnitude)?;
    Some((coordinate, text.len() - after.len()))
}

/// The value of the number at the front of a text, without a sign, in micrometres, and the text after the number. A value above
/// `COORDINATE_LIMIT` may be returned as any other such value.
#[inline(always)]
fn magnitude_front(text: &[u8], unit: Unit) -> Option<(u64, &[u8])>
    requires { length text.now ≤ WORD_LIMIT }
    ensures front { IfSome result (λ found. IsNumberFront unit text.now found.1.now found.0) }
    ensures reads { (n : Numeral) (rest : List ℕ) → IsNumeral n → n.sign ≡ unsigned → text.now ≡ numeral_text n ++ rest → IsEnded rest
        → MatchOption result ⊥ (λ found. found.1.now ≡ rest) }
{
    let mantissa = read_mantissa(text);
    if mantissa.whole.len() + mantissa.fraction.len() == 0 {
        return None;
    }
    let (exponent, after) = exponent_front(mantissa.after)?;
    Some((magnitude_in(&mantissa, exponent, unit), after))
}
