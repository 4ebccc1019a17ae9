//! From digits and an exponent to micrometres: times the factor of the unit, then times a power of ten, rounded once.
ghost use Rattle.std.specs.Prelude.{◌≡◌, ◌≤◌, ◌<◌, ◌+◌, ◌*◌, ◌^◌, ◌++◌, ◌+ℤ◌, ◌-ℤ◌, if◌then◌else◌, length, ℕ, ℤ, neg_ℤ, pos, unsigned_abs, IfSome, MatchOption};
ghost use Rattle.micro_num.specs.Micrometres.{digits_value, magnitude, rounded_quotient, unit_factor, unit_power};
ghost use Rattle.micro_num.specs.Scan.{IsCapped, IsCarry, IsLeadingInUnit, IsMantissa, IsNear, digits_after};
ghost use Rattle.micro_num.specs.declared.limits.TheConstants.{CARRY_LIMIT, INCH_FACTOR, LEADING_LIMIT, POWER_COUNT, SCALE_LIMIT};
ghost use Rattle.geometry.specs.declared.limits.TheConstants.{COORDINATE_LIMIT};

use crate::digits::LeadingDigits;
use crate::limits::{COORDINATE_POWER, INCH_FACTOR, POWER_COUNT};
use crate::mantissa::Mantissa;
use crate::powers::{divided, power_of_ten};
use crate::unit::Unit;
use geometry::COORDINATE_LIMIT;

/// `value` divided by ten to the power `power`, to the nearest whole number, halves upward.
#[inline(always)]
fn shrunk(value: u64, power: u64) -> u64
    requires some { 0 < power }
    requires small { value < SCALE_LIMIT }
    ensures { result ≡ rounded_quotient value power }
{
    if power >= POWER_COUNT {
        // each value here is less than half of ten to that power
        0
    } else {
        divided(value + power_of_ten(power) / 2, power)
    }
}

/// `value` times ten to the power `power`. If the product is above `COORDINATE_LIMIT`, so is the result, which may be another
/// number.
#[inline(always)]
fn grown(value: u64, power: u64) -> u64
    ensures { IsCapped (value * 10 ^ power) result }
{
    if value == 0 {
        0
    } else if power > COORDINATE_POWER || value > COORDINATE_LIMIT {
        COORDINATE_LIMIT + 1
    } else {
        value * power_of_ten(power)
    }
}

/// `value` times ten to the power `power`, to the nearest whole number, halves upward. If that is above `COORDINATE_LIMIT`, so
/// is the result, which may be another number.
#[inline(always)]
fn scaled(value: u64, power: i64) -> u64
    requires { value < SCALE_LIMIT }
    ensures { IsCapped (magnitude value power) result }
{
    if power < 0 {
        shrunk(value, power.unsigned_abs())
    } else {
        grown(value, power.unsigned_abs())
    }
}

/// The whole part of `INCH_FACTOR` times the decimal fraction with these digits. The digits after them carry `after`.
fn carried(digits: &[u8], after: u64) -> u64
    requires { after < CARRY_LIMIT }
    ensures carry { (count n : ℕ) → IsCarry after count n
        → IsCarry result (length digits.now + count) (digits_after 0 digits.now * 10 ^ count + n) }
    ensures small { result < CARRY_LIMIT }
{
    let mut carry = after;
    for index in 0..digits.len() {
        let digit = digits[digits.len() - 1 - index].saturating_sub(b'0');
        carry = (INCH_FACTOR * u64::from(digit) + carry) / 10;
    }
    carry
}

/// `INCH_FACTOR` times the leading digits, with what the dropped digits carry into the product.
#[cold]
#[inline(never)]
fn in_inches(leading: LeadingDigits, whole: &[u8], fraction: &[u8]) -> u64
    requires { IsMantissa leading.value leading.dropped whole.now fraction.now }
    ensures times { IsCarry result leading.dropped (digits_value (whole.now ++ fraction.now)) }
    ensures small { result < SCALE_LIMIT }
    ensures long { INCH_FACTOR * leading.value ≤ result }
{
    let dropped = leading.dropped as usize;
    let in_fraction = dropped.min(fraction.len());
    let (_, last) = fraction.split_at(fraction.len() - in_fraction);
    let (_, before) = whole.split_at(whole.len() - (dropped - in_fraction));
    INCH_FACTOR * leading.value + carried(before, carried(last, 0))
}

/// The leading digits times the factor of the unit, with what the dropped digits carry into the product.
#[inline(always)]
fn in_unit(mantissa: &Mantissa<'_>, unit: Unit) -> u64
    requires { IsMantissa mantissa.now.leading.value mantissa.now.leading.dropped
        mantissa.now.whole.now mantissa.now.fraction.now }
    ensures { IsLeadingInUnit result mantissa.now.leading.dropped
        (unit_factor unit * digits_value (mantissa.now.whole.now ++ mantissa.now.fraction.now)) }
{
    match unit {
        Unit::Millimetre | Unit::Centimetre | Unit::Metre => mantissa.leading.value,
        Unit::Inch if mantissa.leading.dropped == 0 => INCH_FACTOR * mantissa.leading.value,
        Unit::Inch => in_inches(mantissa.leading, mantissa.whole, mantissa.fraction),
    }
}

/// The power of ten in a unit: a unit is its factor times ten to this power, in micrometres.
#[inline(always)]
fn power_in(unit: Unit) -> i64
    ensures { result ≡ pos (unit_power unit) }
{
    match unit {
        Unit::Millimetre => 3,
        Unit::Inch => 2,
        Unit::Centimetre => 4,
        Unit::Metre => 6,
    }
}

/// The value of a number without its sign, in micrometres. If it is above `COORDINATE_LIMIT`, so is the result, which may be
/// another number.
#[inline(always)]
pub(crate) fn magnitude_in(mantissa: &Mantissa<'_>, exponent: i64, unit: Unit) -> u64
    requires mantissa { IsMantissa mantissa.now.leading.value mantissa.now.leading.dropped
        mantissa.now.whole.now mantissa.now.fraction.now }
    requires small { unsigned_abs exponent < LEADING_LIMIT }
    ensures { (z : ℤ) → IsNear exponent z → IsCapped
        (magnitude (unit_factor unit * digits_value (mantissa.now.whole.now ++ mantissa.now.fraction.now))
        ((z -ℤ pos (length mantissa.now.fraction.now)) +ℤ pos (unit_power unit)))
        result }
{
    let power = exponent - mantissa.fraction.len() as i64
        + mantissa.leading.dropped as i64
        + power_in(unit);
    scaled(in_unit(mantissa, unit), power)
}

/// The coordinate of a magnitude in micrometres with a sign, or `None` if the magnitude is above `COORDINATE_LIMIT`.
#[inline(always)]
pub fn signed_coordinate(negative: bool, magnitude: u64) -> Option<i32>
    ensures in_range { MatchOption result (COORDINATE_LIMIT < magnitude) (λ _. magnitude ≤ COORDINATE_LIMIT) }
    ensures value { IfSome result (λ z. z ≡ (if negative then neg_ℤ (pos magnitude) else pos magnitude)) }
{
    if COORDINATE_LIMIT < magnitude {
        return None;
    }
    let magnitude = magnitude as i32;
    Some(if negative { -magnitude } else { magnitude })
}
