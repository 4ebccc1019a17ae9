//! The parts of a number at the front of a text: a sign, the digits with their point, an exponent.
ghost use Rattle.std.specs.Prelude.{◌≡◌, ◌≤◌, ◌<◌, ◌+◌, ◌++◌, ◌↔◌, ℕ, Option, List, length, true, IfSome, MatchOption, unsigned_abs};
ghost use Rattle.std.specs.List.{before_first};
ghost use Rattle.micro_num.specs.Numeral.{Exponent, minus, after_sign, sign_of, exponent_text, is_exponent, from_first, fraction_digits};
ghost use Rattle.micro_num.specs.Micrometres.{digits_value};
ghost use Rattle.micro_num.specs.Scan.{IsEnded, IsExponentFront, IsLeading, is_other, digits_after_point, rest_after_point};
ghost use Rattle.micro_num.specs.declared.limits.TheConstants.{LEADING_LIMIT, WORD_LIMIT};

use crate::digits::{LeadingDigits, read_digits};

/// Whether the sign at the front of a text is a minus, and the text after the sign. A text may have no sign.
#[inline(always)]
pub(crate) fn split_sign(bytes: &[u8]) -> (bool, &[u8])
    ensures minus { (result.0 ≡ true) ↔ (sign_of bytes.now ≡ minus) }
    ensures after { result.1.now ≡ after_sign bytes.now }
    ensures within { length bytes.now ≤ length result.1.now + 1 }
{
    let Some(first) = bytes.first() else {
        return (false, bytes);
    };
    let negative = *first == b'-';
    // This test has no branch: the signs of a mesh follow no pattern, so the processor would often predict it wrongly.
    let signed = negative | (*first == b'+');
    let (_, after) = bytes.split_at(usize::from(signed));
    (negative, after)
}

/// The digits of a number, before and after its point, and the text after them.
#[derive(Clone, Copy)]
pub(crate) struct Mantissa<'a> {
    pub(crate) leading: LeadingDigits,
    pub(crate) whole: &'a [u8],
    pub(crate) fraction: &'a [u8],
    pub(crate) after: &'a [u8],
}

/// Reads the digits at the front of a text, and the point among them if there is one.
#[inline(always)]
pub(crate) fn read_mantissa(bytes: &[u8]) -> Mantissa<'_>
    requires { length bytes.now ≤ WORD_LIMIT }
    ensures whole { result.whole.now ≡ before_first is_other bytes.now }
    ensures fraction { result.fraction.now ≡ fraction_digits (digits_after_point (from_first is_other bytes.now)) }
    ensures after { result.after.now ≡ rest_after_point (from_first is_other bytes.now) }
    ensures leads { IsLeading result.leading.value result.leading.dropped (digits_value (result.whole.now ++ result.fraction.now)) }
    ensures few { result.leading.dropped ≤ length result.whole.now + length result.fraction.now }
    ensures within { length result.whole.now + length result.fraction.now + length result.after.now ≤ length bytes.now }
{
    let digits = read_digits(bytes, LeadingDigits::NONE);
    let (whole, after) = bytes.split_at(digits.count);
    if let Some((b'.', text)) = after.split_first() {
        let more = read_digits(text, digits.leading);
        let (fraction, after) = text.split_at(more.count);
        Mantissa {
            leading: more.leading,
            whole,
            fraction,
            after,
        }
    } else {
        Mantissa {
            leading: digits.leading,
            whole,
            fraction: &[],
            after,
        }
    }
}

/// Reads the exponent at the front of a text. Returns it with the text after it. It is 0 if there is none. If it has more than
/// 16 digits, besides zeros in front, the first 16 are its value. `None` if no digit follows a mark, `e` or `E`.
#[inline(always)]
pub(crate) fn exponent_front(bytes: &[u8]) -> Option<(i64, &[u8])>
    requires { length bytes.now ≤ WORD_LIMIT }
    ensures front { IfSome result (λ found. IsExponentFront bytes.now found.1.now found.0) }
    ensures small { IfSome result (λ found. unsigned_abs found.0 < LEADING_LIMIT) }
    ensures reads { (x : Option Exponent) (rest : List ℕ) → is_exponent x ≡ true → bytes.now ≡ exponent_text x ++ rest → IsEnded rest
        → MatchOption result ⊥ (λ found. found.1.now ≡ rest) }
{
    let Some((mark, text)) = bytes.split_first() else {
        return Some((0, bytes));
    };
    if *mark != b'e' && *mark != b'E' {
        return Some((0, bytes));
    }
    let (negative, text) = split_sign(text);
    let digits = read_digits(text, LeadingDigits::NONE);
    if digits.count == 0 {
        return None;
    }
    let magnitude = digits.leading.value as i64;
    let (_, after) = text.split_at(digits.count);
    Some((if negative { -magnitude } else { magnitude }, after))
}
