//! The limit of a number's text, and the bounds of what is computed from its digits. Clauses and definitions cite these
//! constants.

/// The greatest length of a number's text, in bytes.
pub const WORD_LIMIT: usize = 255;

/// While the value of the leading digits is below this, one more digit still fits.
pub(crate) const LEADING_ROOM: u64 = 1_000_000_000_000_000;

/// The value of the leading digits is below this: there are at most 16 of them.
pub(crate) const LEADING_LIMIT: u64 = 10 * LEADING_ROOM;

/// While the value of the leading digits is below this, ten more digits still fit.
pub(crate) const TEN_DIGITS_ROOM: u64 = 1_000_000;

/// Fewer digits than this are read without testing whether each one still fits.
pub(crate) const FEW_DIGITS: usize = 10;

/// If a number has fewer than `FEW_DIGITS` digits before its point, after it and in its exponent, it ends within a text of this
/// length or longer.
pub(crate) const SHORT_ROOM: usize = 3 * FEW_DIGITS + 2;

/// The number of units of 100 micrometres in an inch.
pub(crate) const INCH_FACTOR: u64 = 254;

/// What the dropped digits add to `INCH_FACTOR` times the leading ones is below this.
pub(crate) const CARRY_LIMIT: u64 = 10_000;

/// The leading digits times the factor of a unit, with what the dropped digits add, are below this.
pub(crate) const SCALE_LIMIT: u64 = INCH_FACTOR * LEADING_LIMIT + CARRY_LIMIT;

/// Each power of ten below this one fits 64 bits.
pub(crate) const POWER_COUNT: u64 = 20;

/// Numbers below this are divided by multiplying with a reciprocal.
pub(crate) const DIVIDEND_LIMIT: u64 = 1 << 63;

/// Each higher power of ten than this one is above `COORDINATE_LIMIT`.
pub(crate) const COORDINATE_POWER: u64 = 8;
