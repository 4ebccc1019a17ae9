//! The digits at the front of a text: how many there are, and their value as far as it fits 64 bits.
ghost use Rattle.std.specs.Prelude.{◌≡◌, ◌≤◌, ◌<◌, ◌+◌, ◌*◌, ◌-◌, IfSome, MatchOption, ℕ, false, length, take, true};
ghost use Rattle.std.specs.List.{position_or_len};
ghost use Rattle.std.specs.Char.{is_ascii_digit};
ghost use Rattle.micro_num.specs.Scan.{IsLeading, digits_after, is_other};
ghost use Rattle.micro_num.specs.declared.limits.TheConstants.{FEW_DIGITS, LEADING_ROOM, TEN_DIGITS_ROOM, WORD_LIMIT};

use crate::limits::{FEW_DIGITS, LEADING_ROOM, TEN_DIGITS_ROOM};

/// The value of the leading digits of a number: any zeros in front, then at most 16 digits. Further digits are dropped
/// and only counted.
///
/// This is enough to round the number to whole micrometres. If one of the leading digits is after the point of the value in
/// micrometres, it decides whether the fraction reaches a half. If none is, the number is far out of range.
#[derive(Clone, Copy)]
pub(crate) struct LeadingDigits {
    pub(crate) value: u64,
    /// The number of dropped digits.
    pub(crate) dropped: u64,
}

impl LeadingDigits {
    /// No digits.
    pub(crate) const NONE: Self = Self {
        value: 0,
        dropped: 0,
    };

    /// These digits and one more after them, which still fits.
    #[inline(always)]
    fn extended(self, digit: u64) -> Self
        requires digit { digit < 10 }
        requires room { self.value < LEADING_ROOM }
        ensures leads { (n : ℕ) → IsLeading self.value self.dropped n
            → IsLeading result.value result.dropped (10 * n + digit) }
        ensures value { result.value ≡ 10 * self.value + digit }
        ensures same { result.dropped ≡ self.dropped }
    {
        Self {
            value: 10 * self.value + digit,
            dropped: self.dropped,
        }
    }

    /// These digits and one more after them.
    fn followed_by(self, digit: u64) -> Self
        requires digit { digit < 10 }
        requires few { self.dropped < WORD_LIMIT }
        ensures leads { (n : ℕ) → IsLeading self.value self.dropped n
            → IsLeading result.value result.dropped (10 * n + digit) }
        ensures few { result.dropped ≤ self.dropped + 1 }
    {
        if self.value < LEADING_ROOM {
            self.extended(digit)
        } else {
            Self {
                value: self.value,
                dropped: self.dropped + 1,
            }
        }
    }
}

/// The digits at the front of a text, and those that were read before them.
#[derive(Clone, Copy)]
pub(crate) struct Digits {
    pub(crate) leading: LeadingDigits,
    /// The number of digits at the front.
    pub(crate) count: usize,
}

/// The value of a digit, or `None` for any other byte.
///
/// A byte below `0` becomes a great number, so one subtraction serves the test and the value. It is done in 64 bits, since
/// callers compute with 64 bits.
#[inline(always)]
fn digit_value(byte: u8) -> Option<u64>
    ensures digit { MatchOption result (is_ascii_digit byte ≡ false) (λ _. is_ascii_digit byte ≡ true) }
    ensures value { IfSome result (λ digit. digit ≡ byte - 48) }
    ensures small { IfSome result (λ digit. digit < 10) }
{
    let digit = u64::from(byte).wrapping_sub(u64::from(b'0'));
    if digit < 10 { Some(digit) } else { None }
}

/// Reads the digits at the front of a text, after those in `before`.
#[inline(always)]
pub(crate) fn read_digits(bytes: &[u8], before: LeadingDigits) -> Digits
    requires { before.dropped + length bytes.now ≤ WORD_LIMIT }
    ensures count { result.count ≡ position_or_len is_other bytes.now }
    ensures leads { (n : ℕ) → IsLeading before.value before.dropped n
        → IsLeading result.leading.value result.leading.dropped (digits_after n (take result.count bytes.now)) }
    ensures few { result.leading.dropped ≤ before.dropped + result.count }
{
    if bytes.len() >= FEW_DIGITS {
        if let Some(digits) = few_digits(bytes, before) {
            return digits;
        }
    }
    many_digits(bytes, before)
}

/// `read_digits` for fewer than `FEW_DIGITS` digits, if `FEW_DIGITS` of them still fit. Else `None`.
#[inline(always)]
pub(crate) fn few_digits(bytes: &[u8], before: LeadingDigits) -> Option<Digits>
    requires { FEW_DIGITS ≤ length bytes.now }
    ensures short { IfSome result (λ digits. digits.count < FEW_DIGITS) }
    ensures count { IfSome result (λ digits. digits.count ≡ position_or_len is_other bytes.now) }
    ensures leads { IfSome result (λ digits. (n : ℕ) → IsLeading before.value before.dropped n
        → IsLeading digits.leading.value digits.leading.dropped (digits_after n (take digits.count bytes.now))) }
    ensures few { IfSome result (λ digits. digits.leading.dropped ≡ before.dropped) }
{
    if before.value >= TEN_DIGITS_ROOM {
        return None;
    }
    let mut leading = before;
    for index in 0..FEW_DIGITS {
        let Some(digit) = digit_value(bytes[index]) else {
            return Some(Digits {
                leading,
                count: index,
            });
        };
        leading = leading.extended(digit);
    }
    None
}

/// `read_digits` for any number of digits.
#[cold]
#[inline(never)]
fn many_digits(bytes: &[u8], before: LeadingDigits) -> Digits
    requires { before.dropped + length bytes.now ≤ WORD_LIMIT }
    ensures count { result.count ≡ position_or_len is_other bytes.now }
    ensures leads { (n : ℕ) → IsLeading before.value before.dropped n
        → IsLeading result.leading.value result.leading.dropped (digits_after n (take result.count bytes.now)) }
    ensures few { result.leading.dropped ≤ before.dropped + result.count }
{
    let mut leading = before;
    for index in 0..bytes.len() {
        let Some(digit) = digit_value(bytes[index]) else {
            return Digits {
                leading,
                count: index,
            };
        };
        leading = leading.followed_by(digit);
    }
    Digits {
        leading,
        count: bytes.len(),
    }
}
