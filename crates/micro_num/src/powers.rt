//! Powers of ten, and division by them.
ghost use Rattle.std.specs.Prelude.{◌≡◌, ◌<◌, ◌/◌, ◌^◌};
ghost use Rattle.micro_num.specs.declared.limits.TheConstants.{DIVIDEND_LIMIT, POWER_COUNT};

use crate::limits::POWER_COUNT;

const THOUSAND: u64 = 1_000;

const MILLION: u64 = 1_000_000;

const BILLION: u64 = 1_000_000_000;

const TRILLION: u64 = 1_000_000_000_000;

const QUADRILLION: u64 = 1_000_000_000_000_000;

const QUINTILLION: u64 = 1_000_000_000_000_000_000;

/// The powers of ten that 64 bits hold.
static POWERS: [u64; POWER_COUNT as usize] = [
    1,
    10,
    100,
    THOUSAND,
    10 * THOUSAND,
    100 * THOUSAND,
    MILLION,
    10 * MILLION,
    100 * MILLION,
    BILLION,
    10 * BILLION,
    100 * BILLION,
    TRILLION,
    10 * TRILLION,
    100 * TRILLION,
    QUADRILLION,
    10 * QUADRILLION,
    100 * QUADRILLION,
    QUINTILLION,
    10 * QUINTILLION,
];

/// Ten to the power `power`.
#[inline(always)]
pub(crate) fn power_of_ten(power: u64) -> u64
    requires { power < POWER_COUNT }
    ensures { result ≡ 10 ^ power }
{
    POWERS[power as usize]
}

/// A reciprocal: 2 to the power 64 and `shift` more, divided by a number, to the next higher whole number.
macro_rules! reciprocal {
    ($shift:expr, $number:expr) => {
        ((1u128 << (64 + $shift)) / ($number as u128) + 1) as u64
    };
}

/// The reciprocal of each power of ten from 10 on, for as many more bits as `SHIFTS` says.
static RECIPROCALS: [u64; POWER_COUNT as usize - 1] = [
    reciprocal!(3, 10),
    reciprocal!(6, 100),
    reciprocal!(9, THOUSAND),
    reciprocal!(13, 10 * THOUSAND),
    reciprocal!(16, 100 * THOUSAND),
    reciprocal!(19, MILLION),
    reciprocal!(23, 10 * MILLION),
    reciprocal!(26, 100 * MILLION),
    reciprocal!(29, BILLION),
    reciprocal!(33, 10 * BILLION),
    reciprocal!(36, 100 * BILLION),
    reciprocal!(39, TRILLION),
    reciprocal!(43, 10 * TRILLION),
    reciprocal!(46, 100 * TRILLION),
    reciprocal!(49, QUADRILLION),
    reciprocal!(53, 10 * QUADRILLION),
    reciprocal!(56, 100 * QUADRILLION),
    reciprocal!(59, QUINTILLION),
    reciprocal!(63, 10 * QUINTILLION),
];

/// For each power of ten from 10 on, the exponent of the greatest power of 2 below it.
static SHIFTS: [u32; POWER_COUNT as usize - 1] = [
    3, 6, 9, 13, 16, 19, 23, 26, 29, 33, 36, 39, 43, 46, 49, 53, 56, 59, 63,
];

/// `value` divided by ten to the power `power`, to the next lower whole number.
///
/// It multiplies by a reciprocal, since a division by a number from a table takes much longer. It has no branch on the power:
/// the exponents of a mesh follow no pattern, so the processor would often predict one wrongly.
#[inline(always)]
pub(crate) fn divided(value: u64, power: u64) -> u64
    requires some { 0 < power }
    requires few { power < POWER_COUNT }
    requires small { value < DIVIDEND_LIMIT }
    ensures { result ≡ value / 10 ^ power }
{
    let index = (power - 1) as usize;
    let product = u128::from(value) * u128::from(RECIPROCALS[index]);
    (product >> u64::BITS) as u64 >> SHIFTS[index]
}
