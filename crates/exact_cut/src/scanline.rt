//! How scanlines cross facets, and which pixels of a row lie before a crossing.
ghost use Rattle.std.specs.Prelude.{◌≡◌, ◌<◌, ◌≤◌};
ghost use Rattle.exact_int.specs.Bounds.{IsAtMost};
ghost use Rattle.exact_cut.specs.Column.{IsLeastColumn, clamp};
ghost use Rattle.geometry.specs.declared.limits.TheConstants.{CENTRE_LIMIT, COLUMN_LIMIT, STEP_LIMIT};

pub(crate) mod crossing;
pub(crate) mod cut_point;
pub(crate) mod section;

use crate::scanline::crossing::Crossing;
use exact_int::ceil_div;

/// The first column whose centre is not left of the crossing, or `columns` if there is none.
///
/// Column i has its centre at x = `first2 + 2 * step * i`, in half-micrometres. `first2` lies within
/// `CENTRE_LIMIT` of 0; `step` is in micrometres, 1 to `STEP_LIMIT`; there are at most `COLUMN_LIMIT` columns.
pub fn column(c: &Crossing, first2: i64, step: u32, columns: u32) -> u32
    requires first_in { IsAtMost CENTRE_LIMIT first2 }
    requires step_above { 0 < step }
    requires step_in { step ≤ STEP_LIMIT }
    requires columns_in { columns ≤ COLUMN_LIMIT }
    ensures { IsLeastColumn c.now.num c.now.den first2 step columns result }
{
    let den = c.den();
    let gap = c.num() - (first2 as i128) * den;
    let unit = 2 * (step as i128) * den;
    clamped(ceil_div(gap, unit), columns)
}

/// The number from 0 to `count` that is nearest to `i`.
#[inline(always)]
pub(crate) fn clamped(i: i128, count: u32) -> u32
    ensures { result ≡ clamp i count }
{
    if i <= 0 {
        0
    } else if i >= (count as i128) {
        count
    } else {
        i as u32
    }
}
