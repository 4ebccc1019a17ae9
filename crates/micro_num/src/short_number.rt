//! Short numbers: those with few digits in each part, at the front of a text that goes on after them. Almost all numbers of a
//! mesh are short. For them the end of the text is tested once, not at each byte.
ghost use Rattle.std.specs.Prelude.{◌≡◌, ◌≤◌, ◌<◌, ◌+◌, ◌*◌, ◌++◌, ℕ, ℤ, Ok, Option, List, length, take, true, IfSome, unsigned_abs};
ghost use Rattle.std.specs.List.{before_first};
ghost use Rattle.micro_num.specs.Numeral.{Exponent, IsNumeral, Numeral, exponent_text, fraction_digits, from_first, is_exponent, numeral_text, unsigned};
ghost use Rattle.micro_num.specs.Micrometres.{coordinate_of, digits_value};
ghost use Rattle.micro_num.specs.Scan.{IsEnded, IsExponentFront, IsLeading, IsNumberFront, digits_after_point, is_other, rest_after_point};
ghost use Rattle.micro_num.specs.declared.limits.TheConstants.{FEW_DIGITS, LEADING_LIMIT, SHORT_ROOM};

use crate::digits::{LeadingDigits, few_digits};
use crate::mantissa::{Mantissa, split_sign};
use crate::scaling::{magnitude_in, signed_coordinate};
use crate::unit::Unit;

/// `read_mantissa` for fewer than `FEW_DIGITS` digits before the point and after it. Else `None`.
#[inline(always)]
fn short_mantissa(bytes: &[u8]) -> Option<Mantissa<'_>>
    requires { 2 * FEW_DIGITS ≤ length bytes.now }
    ensures whole { IfSome result (λ m. m.whole.now ≡ before_first is_other bytes.now) }
    ensures fraction { IfSome result (λ m. m.fraction.now ≡ fraction_digits (digits_after_point (from_first is_other bytes.now))) }
    ensures after { IfSome result (λ m. m.after.now ≡ rest_after_point (from_first is_other bytes.now)) }
    ensures leads { IfSome result (λ m. IsLeading m.leading.value m.leading.dropped (digits_value (m.whole.now ++ m.fraction.now))) }
    ensures few { IfSome result (λ m. m.leading.dropped ≡ 0) }
    ensures short { IfSome result (λ m. (length m.whole.now < FEW_DIGITS) × (length m.fraction.now < FEW_DIGITS)) }
    ensures within { IfSome result (λ m. length bytes.now < length m.after.now + 2 * FEW_DIGITS) }
{
    let digits = few_digits(bytes, LeadingDigits::NONE)?;
    let (whole, after) = bytes.split_at(digits.count);
    if let Some((b'.', text)) = after.split_first() {
        let more = few_digits(text, digits.leading)?;
        let (fraction, after) = text.split_at(more.count);
        Some(Mantissa {
            leading: more.leading,
            whole,
            fraction,
            after,
        })
    } else {
        Some(Mantissa {
            leading: digits.leading,
            whole,
            fraction: &[],
            after,
        })
    }
}

/// `exponent_front` for fewer than `FEW_DIGITS` digits. Else `None`.
#[inline(always)]
fn short_exponent(bytes: &[u8]) -> Option<(i64, &[u8])>
    requires { FEW_DIGITS + 2 ≤ length bytes.now }
    ensures front { IfSome result (λ found. IsExponentFront bytes.now found.1.now found.0) }
    ensures small { IfSome result (λ found. unsigned_abs found.0 < LEADING_LIMIT) }
    ensures reads { IfSome result (λ found. (x : Option Exponent) (rest : List ℕ) → is_exponent x ≡ true → bytes.now ≡ exponent_text x ++ rest
        → IsEnded rest → found.1.now ≡ rest) }
    ensures within { IfSome result (λ found. length bytes.now < length found.1.now + FEW_DIGITS + 2) }
{
    let Some((mark, text)) = bytes.split_first() else {
        return None;
    };
    if *mark != b'e' && *mark != b'E' {
        return Some((0, bytes));
    }
    let (negative, text) = split_sign(text);
    let digits = few_digits(text, LeadingDigits::NONE)?;
    if digits.count == 0 {
        return None;
    }
    let magnitude = digits.leading.value as i64;
    let (_, after) = text.split_at(digits.count);
    Some((if negative { -magnitude } else { magnitude }, after))
}

/// `magnitude_front` for a short number. Else `None`.
#[inline(always)]
fn short_magnitude(text: &[u8], unit: Unit) -> Option<(u64, &[u8])>
    requires { SHORT_ROOM ≤ length text.now + 1 }
    ensures front { IfSome result (λ found. IsNumberFront unit text.now found.1.now found.0) }
    ensures reads { IfSome result (λ found. (n : Numeral) (rest : List ℕ) → IsNumeral n → n.sign ≡ unsigned → text.now ≡ numeral_text n ++ rest
        → IsEnded rest → found.1.now ≡ rest) }
    ensures within { IfSome result (λ found. length text.now < length found.1.now + SHORT_ROOM) }
{
    let mantissa = short_mantissa(text)?;
    if mantissa.whole.len() + mantissa.fraction.len() == 0 {
        return None;
    }
    let (exponent, after) = short_exponent(mantissa.after)?;
    Some((magnitude_in(&mantissa, exponent, unit), after))
}

/// `read_front` for a short number. Else `None`.
#[inline(always)]
pub(crate) fn short_front(bytes: &[u8], unit: Unit) -> Option<(i32, usize)>
    requires { SHORT_ROOM ≤ length bytes.now }
    ensures exact { IfSome result (λ found. coordinate_of unit (take found.1 bytes.now) ≡ Ok found.0) }
    ensures within { IfSome result (λ found. found.1 ≤ length bytes.now) }
    ensures reads { IfSome result (λ found. (word rest : List ℕ) (z : ℤ) → bytes.now ≡ word ++ rest → IsEnded rest
        → coordinate_of unit word ≡ Ok z → found ≡ (z, length word)) }
{
    let (negative, digits) = split_sign(bytes);
    let (magnitude, after) = short_magnitude(digits, unit)?;
    let coordinate = signed_coordinate(negative, magnitude)?;
    Some((coordinate, bytes.len() - after.len()))
}
