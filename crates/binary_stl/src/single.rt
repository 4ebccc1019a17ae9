//! From the bits of a number of single precision to micrometres, exactly: no float, and one rounding.
ghost use Rattle.std.specs.Prelude.{◌≡◌, ◌<◌, ◌≤◌, ◌*◌, ◌^◌, Err};
ghost use Rattle.micro_num.specs.declared.unit.Unit.{Unit as LengthUnit};
ghost use Rattle.micro_num.specs.Micrometres.{nearest};
ghost use Rattle.binary_stl.specs.Single.{coordinate_of, exponent_field, fraction_field, micrometres_in, multiple};

use crate::binary_fault::CoordinateFault;
use micro_num::{Unit, signed_coordinate};

/// The exponent of infinities and NaNs.
const GREATEST_EXPONENT: u32 = 255;

/// A number with this exponent is a whole one, of at least 2^23 of any unit: out of range.
const WHOLE_EXPONENT: u32 = 150;

/// The bits of the fraction.
const FRACTION_BITS: u32 = 23;

/// No coordinate is rounded from more than this many bits after the point: with more, each number is 0.
const SHIFT_LIMIT: u32 = 63;

/// The micrometres in a unit.
#[inline(always)]
fn micrometres(unit: Unit) -> u64
    ensures { result ≡ micrometres_in unit }
{
    match unit {
        Unit::Millimetre => 1_000,
        Unit::Inch => 25_400,
        Unit::Centimetre => 10_000,
        Unit::Metre => 1_000_000,
    }
}

/// The magnitude of a number in micrometres, by its fields.
#[inline(always)]
fn magnitude(exponent: u32, fraction: u32, unit: Unit) -> u64
    requires small { exponent < WHOLE_EXPONENT }
    requires fits { fraction < 2 ^ 23 }
    ensures { result ≡ nearest (multiple exponent fraction * micrometres_in unit) (2 ^ 149) }
{
    let significand = if exponent == 0 {
        fraction
    } else {
        (1 << FRACTION_BITS) + fraction
    };
    let shift = (WHOLE_EXPONENT - exponent.max(1)).min(SHIFT_LIMIT);
    (u64::from(significand) * micrometres(unit) + (1 << (shift - 1))) >> shift
}

/// Why a number with an exponent of at least `WHOLE_EXPONENT` is no coordinate.
#[cold]
#[inline(never)]
fn far_fault(bits: u32) -> CoordinateFault
    requires { WHOLE_EXPONENT ≤ exponent_field bits }
    ensures { (unit : LengthUnit) → coordinate_of unit bits ≡ Err result }
{
    if bits >> FRACTION_BITS & GREATEST_EXPONENT < GREATEST_EXPONENT {
        CoordinateFault::OutOfRange
    } else if bits & ((1 << FRACTION_BITS) - 1) == 0 {
        CoordinateFault::Infinite
    } else {
        CoordinateFault::NotNumber
    }
}

/// The coordinate that a number stands for, by its bits.
#[inline(always)]
pub(crate) fn coordinate(bits: u32, unit: Unit) -> Result<i32, CoordinateFault>
    ensures { result ≡ coordinate_of unit bits }
{
    let exponent = bits >> FRACTION_BITS & GREATEST_EXPONENT;
    if exponent >= WHOLE_EXPONENT {
        return Err(far_fault(bits));
    }
    let fraction = bits & ((1 << FRACTION_BITS) - 1);
    let negative = bits >> 31 == 1;
    signed_coordinate(negative, magnitude(exponent, fraction, unit)).ok_or(
        CoordinateFault::OutOfRange,
    )
}
