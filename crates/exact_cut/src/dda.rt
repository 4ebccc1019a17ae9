//! Fractions that grow by one increment a step, without a division: a digital differential analyser (DDA). A walk along the
//! rows of a lattice divides only at its start, and then adds.
ghost use Rattle.std.specs.Prelude.{◌≡◌, ◌+◌, ◌<◌, ◌≤◌, ◌*ℤ◌, ◌-ℤ◌, ◌<ℤ◌, ◌≤ℤ◌, IfSome, if◌then◌else◌, int_lt, pos, unsigned_abs, ℤ};
ghost use Rattle.exact_int.specs.Bounds.{IsAtMost};
ghost use Rattle.exact_cut.specs.Bounds.{distance_limit, quotient_limit, unit_limit, whole_limit};
ghost use Rattle.exact_cut.specs.Dda.{IsDda, IsDivisionOf, increment_of, next, position_of};
ghost use Rattle.exact_cut.specs.Lattice.{row_y};
ghost use Rattle.exact_cut.specs.Section.{den_between, num_between, slope_between};

pub(crate) mod lattice;
pub(crate) mod walk;

use crate::dda::lattice::Lattice;
use crate::scanline::cut_point::CutPoint;
use crate::scanline::section::{meet, slope};
use exact_int::quick_ceil_div;

/// The place of the sign in a number of 128 bits.
const SIGN_BIT: u32 = 127;

/// The number of leading bits that the guess of a quotient looks at; with the sign they fill 32 bits.
const LEADING_BITS: u32 = 31;

/// A position that grows by one increment a step. The position is `whole * unit - remainder`, and the increment
/// `increment * unit - increment_remainder`. Both remainders are at least 0 and below the unit, so `whole` is the
/// position over the unit, rounded up.
#[derive(Clone, Copy)]
pub(crate) struct Dda {
    pub(crate) unit: i128,
    pub(crate) whole: i128,
    pub(crate) remainder: i128,
    pub(crate) increment: i128,
    pub(crate) increment_remainder: i128,
}

/// A division that rounds up: the number is `quotient * unit - remainder`. The remainder is at least 0 and below the unit.
#[derive(Clone, Copy)]
pub(crate) struct Division {
    pub(crate) quotient: i128,
    pub(crate) remainder: i128,
}

/// Divides a number by a unit, rounding up. Most numbers of a walk take more than 32 bits. A division of these takes several
/// times as long as one of 32 bits. So the quotient is guessed from the numbers' leading bits, and tested exactly.
#[inline(always)]
fn divide(n: i128, unit: i128) -> Division
    requires n_in { IsAtMost distance_limit n }
    requires unit_in { IsAtMost unit_limit unit }
    requires unit_positive { pos 0 <ℤ unit }
    ensures division { IsDivisionOf n unit result }
    ensures quotient_in { unsigned_abs result.quotient ≤ unsigned_abs n + unsigned_abs unit }
{
    match divide_by_guess(n, unit) {
        Some(division) => division,
        None => divide_exactly(n, unit),
    }
}

/// What [`divide`] returns, or `None` if a number takes more than 64 bits or the guess is off by more than one.
#[inline(always)]
fn divide_by_guess(n: i128, unit: i128) -> Option<Division>
    requires { pos 0 <ℤ unit }
    ensures { IfSome result (IsDivisionOf n unit) }
{
    match (i64::try_from(n), i64::try_from(unit)) {
        (Ok(n), Ok(unit)) => division_near(n, unit, guessed_quotient(n, unit)),
        _ => None,
    }
}

/// The division whose quotient is the guess or one more, or `None` if neither is the quotient.
#[inline(always)]
fn division_near(n: i64, unit: i64, guess: i64) -> Option<Division>
    requires { pos 0 <ℤ unit }
    ensures { IfSome result (IsDivisionOf n unit) }
{
    let excess = guess.checked_mul(unit)?.checked_sub(n)?;
    if excess >= 0 {
        if excess < unit {
            Some(Division {
                quotient: guess as i128,
                remainder: excess as i128,
            })
        } else {
            None
        }
    } else if -unit < excess {
        Some(Division {
            quotient: (guess as i128) + 1,
            remainder: (excess + unit) as i128,
        })
    } else {
        None
    }
}

/// A whole number near `n / unit`, from at most `LEADING_BITS` leading bits of both.
#[inline(always)]
fn guessed_quotient(n: i64, unit: i64) -> i64 {
    let size = u64::BITS - (n.unsigned_abs() | unit.unsigned_abs()).leading_zeros();
    let dropped = size.saturating_sub(LEADING_BITS);
    let n = i32::try_from(n >> dropped).unwrap_or(0);
    let unit = i32::try_from(unit >> dropped).unwrap_or(0);
    i64::from(n.checked_div(unit).unwrap_or(0))
}

/// What [`divide`] returns, by a division of whole numbers.
#[cold]
#[inline(never)]
fn divide_exactly(n: i128, unit: i128) -> Division
    requires n_in { IsAtMost distance_limit n }
    requires unit_in { IsAtMost unit_limit unit }
    requires unit_positive { pos 0 <ℤ unit }
    ensures { IsDivisionOf n unit result }
{
    let quotient = quick_ceil_div(n, unit);
    Division {
        quotient,
        remainder: quotient * unit - n,
    }
}

/// Divides the increment of a walk along `rows` rows by the unit, rounding up. A walk of one row never steps: its
/// increment is 0, which saves a division.
#[inline(always)]
fn divide_increment(n: i128, unit: i128, rows: u32) -> Division
    requires n_in { IsAtMost distance_limit n }
    requires unit_in { IsAtMost unit_limit unit }
    requires unit_positive { pos 0 <ℤ unit }
    ensures division { 1 < rows → IsDivisionOf n unit result }
    ensures not_negative { pos 0 ≤ℤ result.remainder }
    ensures below { result.remainder <ℤ unit }
    ensures quotient_in { unsigned_abs result.quotient ≤ unsigned_abs n + unsigned_abs unit }
{
    if rows > 1 {
        divide(n, unit)
    } else {
        Division {
            quotient: 0,
            remainder: 0,
        }
    }
}

/// The DDA of the line through two cut points, for `rows` rows from `row` on. Each number is in half-micrometres, times the
/// line's denominator:
/// - the position is how far right of the centres of column 0 the line crosses the row;
/// - the unit is the distance from one column to the next;
/// - the increment is how far right the line goes from one row to the next.
#[inline(always)]
fn dda_between(near: &CutPoint, far: &CutPoint, lattice: &Lattice, row: u32, rows: u32) -> Dda
    requires row_in { row < lattice.now.rows }
    requires den_positive { pos 0 <ℤ den_between near.now far.now }
    ensures dda { IsDda result }
    ensures unit { result.unit ≡ pos 2 *ℤ pos lattice.now.step *ℤ den_between near.now far.now }
    ensures position { position_of result ≡ num_between near.now far.now (row_y lattice.now row)
        -ℤ lattice.now.x2 *ℤ den_between near.now far.now }
    ensures increment { 1 < rows
        → increment_of result ≡ pos 2 *ℤ pos lattice.now.step *ℤ slope_between near.now far.now }
    ensures whole_in { IsAtMost quotient_limit result.whole }
{
    let (num, den) = meet(near, far, lattice.scanline(row));
    let step2 = 2 * (lattice.step as i128);
    let unit = step2 * den;
    let position = divide(num - (lattice.x2 as i128) * den, unit);
    let increment = divide_increment(step2 * slope(near, far), unit, rows);
    Dda {
        unit,
        whole: position.quotient,
        remainder: position.remainder,
        increment: increment.quotient,
        increment_remainder: increment.remainder,
    }
}

/// The number if `excess` is below 0, else 0. A mask replaces a branch, since which of the two comes next follows no pattern.
#[inline(always)]
fn if_negative(excess: i128, n: i128) -> i128
    ensures { result ≡ (if int_lt excess (pos 0) then n else pos 0) }
{
    n & (excess >> SIGN_BIT)
}

/// The DDA of the next row, if more rows are left than this one: `left` counts this row too. After the last row it stays as it
/// is, which saves a step.
#[inline(always)]
pub(crate) fn followed(d: &Dda, left: u32) -> Dda
    requires dda { IsDda d.now }
    requires whole_in { IsAtMost whole_limit d.now.whole }
    ensures next { 1 < left → result ≡ next d.now }
    ensures last { left ≤ 1 → result ≡ d.now }
{
    if left > 1 { stepped(d) } else { *d }
}

/// The DDA one step on.
#[inline(always)]
fn stepped(d: &Dda) -> Dda
    requires dda { IsDda d.now }
    requires whole_in { IsAtMost whole_limit d.now.whole }
    ensures { result ≡ next d.now }
{
    let excess = d.remainder + d.increment_remainder - d.unit;
    let one = if_negative(excess, 1);
    let unit = if_negative(excess, d.unit);
    Dda {
        whole: d.whole + d.increment - 1 + one,
        remainder: excess + unit,
        ..*d
    }
}
