//! The pixel centres of a layer: a walk follows its rows, and returns a column for each.
ghost use Rattle.std.specs.Prelude.{◌≡◌, ◌*ℤ◌, ◌+ℤ◌, ◌<◌, ◌≤ℤ◌, ◌≤◌, pos, ℤ};
ghost use Rattle.exact_int.specs.Bounds.{IsAtMost};
ghost use Rattle.geometry.specs.declared.limits.TheConstants.{CENTRE_LIMIT, COLUMN_LIMIT, STEP_LIMIT};

use crate::scanline::clamped;
use crate::scanline::cut_point::CutPoint;
use exact_int::ceil_div_64;

/// The pixel centres of a layer, in half-micrometres. Column i has its centre at x = `x2 + 2 * step * i`, and row j at y =
/// `y2 + 2 * step * j`.
#[derive(Clone, Copy, Debug, PartialEq, Eq)]
pub struct Lattice {
    /// The x of the first column's centres in half-micrometres, within `CENTRE_LIMIT` of 0.
    pub x2: i64,
    /// The y of the first row's centres in half-micrometres, within `CENTRE_LIMIT` of 0.
    pub y2: i64,
    /// The distance from one pixel centre to the next in micrometres, 1 to `STEP_LIMIT`.
    pub step: u32,
    /// The number of columns, at most `COLUMN_LIMIT`.
    pub columns: u32,
    /// The number of rows, at most `COLUMN_LIMIT`. The y of the last row's centres is at most `CENTRE_LIMIT`.
    pub rows: u32,
    pub ghost x_in: { IsAtMost CENTRE_LIMIT x2 },
    pub ghost y_in: { IsAtMost CENTRE_LIMIT y2 },
    pub ghost step_above: { 0 < step },
    pub ghost step_in: { step ≤ STEP_LIMIT },
    pub ghost columns_in: { columns ≤ COLUMN_LIMIT },
    pub ghost rows_in: { rows ≤ COLUMN_LIMIT },
    pub ghost last_in: { (y2 +ℤ pos 2 *ℤ pos step *ℤ pos rows)
        ≤ℤ (pos CENTRE_LIMIT +ℤ pos 2 *ℤ pos step) },
}

impl Lattice {
    ghost use Rattle.exact_cut.specs.Column.{IsLeastRow};
    ghost use Rattle.exact_cut.specs.Lattice.{row_y};

    /// The first row whose y is not below that of a cut point, or the number of rows if there is none.
    #[inline(always)]
    pub(crate) fn first_row(&self, p: &CutPoint) -> u32
        ensures { IsLeastRow p.now.y p.now.d self.now.y2 self.now.step self.now.rows result }
    {
        let gap = p.y - self.y2 * p.d;
        let unit = 2 * (self.step as i64) * p.d;
        clamped(ceil_div_64(gap, unit) as i128, self.rows)
    }

    /// The y of a row's centres, in half-micrometres.
    #[inline(always)]
    pub(crate) fn scanline(&self, row: u32) -> i64
        requires { row < self.now.rows }
        ensures value { result ≡ row_y self.now row }
        ensures within { IsAtMost CENTRE_LIMIT result }
    {
        self.y2 + 2 * (self.step as i64) * (row as i64)
    }
}
