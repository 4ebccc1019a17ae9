//! The grid of a part on a screen, by the bounding box of its facets there.
ghost use Rattle.std.specs.Prelude.{◌≡◌, ◌≤◌, ◌<◌, ◌≤ℤ◌, ◌*◌, ◌↔◌, IfErr, IfOk, IfSome, IsNone, IsTrue, MatchOption, pos, ℕ, ℤ};
ghost use Rattle.exact_int.specs.Bounds.{IsAtMost};
ghost use Rattle.geometry.specs.BoundingBox.{IsBox};
ghost use Rattle.geometry.specs.Limits.{IsStep};
ghost use Rattle.geometry.specs.declared.limits.TheConstants.{COLUMN_LIMIT, COORDINATE_LIMIT, STEP_LIMIT};
ghost use Rattle.raster.specs.Grid.{grid_with};
ghost use Rattle.part_on_screen.specs.Middle.{Fits, IsGridOn, IsInMiddle, IsInRange, IsLayerCount, IsNoGrid, screen_depth, screen_width};

use crate::screen::Screen;
use crate::screen_fault::ScreenFault;
use exact_int::{ceil_div_64, is_at_most};
use geometry::{COORDINATE_LIMIT, LAYER_LIMIT, Point};
use raster::Grid;

impl Screen {
    /// The grid of a part on this screen, with this layer height (micrometres, 1 to `STEP_LIMIT`). `low` and `high` are the
    /// corners of the bounding box of the part's facets, as they stand there.
    ///
    /// The part is in the middle of the screen, or half a multiplied micrometre above it along x or y. The first layer begins
    /// at its lowest point. There are as many layers as have their middle below its top, and at least one.
    ///
    /// # Errors
    /// The first of these that applies:
    /// - `DoesNotFit` if the part is wider or deeper than the screen,
    /// - `ScreenOutOfRange` if a corner of the screen is out of the range of coordinates,
    /// - `TooHigh` if there are more than `LAYER_LIMIT` layers.
    pub fn grid(&self, low: Point, high: Point, layer_height: u32) -> Result<Grid, ScreenFault>
        requires order { IsBox low high }
        requires height { IsStep layer_height }
        ensures found { IfOk result (IsGridOn self.now low high layer_height) }
        ensures fault { IfErr result (IsNoGrid self.now low high layer_height) }
    {
        if let Some(fault) = self.misfit(low, high) {
            return Err(fault);
        }
        let Some(x) = start(low.x(), high.x(), self.width()) else {
            return Err(ScreenFault::ScreenOutOfRange);
        };
        let Some(y) = start(low.y(), high.y(), self.depth()) else {
            return Err(ScreenFault::ScreenOutOfRange);
        };
        let layers = layer_count(low.z(), high.z(), layer_height);
        if layers > LAYER_LIMIT {
            return Err(ScreenFault::TooHigh { layers });
        }
        Ok(self.grid_at(x, y, low.z(), layer_height, layers))
    }

    /// The width of the screen, multiplied.
    fn width(&self) -> u32
        ensures value { result ≡ screen_width self.now }
        ensures small { result ≤ COLUMN_LIMIT * STEP_LIMIT }
    {
        self.columns * self.pitch
    }

    /// The depth of the screen, multiplied.
    fn depth(&self) -> u32
        ensures value { result ≡ screen_depth self.now }
        ensures small { result ≤ COLUMN_LIMIT * STEP_LIMIT }
    {
        self.rows * self.pitch
    }

    /// Whether so much along x and y is on the screen.
    fn holds(&self, wide: u32, deep: u32) -> bool
        ensures { IsTrue result ↔ ((wide ≤ screen_width self.now) × (deep ≤ screen_depth self.now)) }
    {
        wide <= self.width() && deep <= self.depth()
    }

    /// The fault of a box that is wider or deeper than the screen.
    fn misfit(&self, low: Point, high: Point) -> Option<ScreenFault>
        ensures { MatchOption result (Fits self.now low high) (λ fault. (layer_height : ℕ) → IsNoGrid self.now low high layer_height fault) }
    {
        let wide = high.x().abs_diff(low.x());
        let deep = high.y().abs_diff(low.y());
        if self.holds(wide, deep) {
            return None;
        }
        let width = u64::from(wide) / self.times_x;
        let depth = u64::from(deep) / self.times_y;
        let screen_width = u64::from(self.width()) / self.times_x;
        let screen_depth = u64::from(self.depth()) / self.times_y;
        let fits_turned = are_within(depth, width, screen_width, screen_depth);
        Some(ScreenFault::DoesNotFit {
            width,
            depth,
            screen_width,
            screen_depth,
            fits_turned,
        })
    }

    /// The grid with its least corner at x, y and z.
    fn grid_at(&self, x: i32, y: i32, z: i32, layer_height: u32, layers: u32) -> Grid
        requires x { IsInRange (screen_width self.now) x }
        requires y { IsInRange (screen_depth self.now) y }
        requires z { IsAtMost COORDINATE_LIMIT z }
        requires height { IsStep layer_height }
        requires few { layers ≤ LAYER_LIMIT }
        requires layers { (high : ℤ) × (high ≤ℤ pos COORDINATE_LIMIT) × IsLayerCount z high layer_height layers }
        ensures { result ≡ grid_with (record { x = x; y = y; z = z }) self.now.pitch layer_height self.now.columns self.now.rows layers }
    {
        let Some(origin) = Point::new(x, y, z) else {
            unreachable!()
        };
        match Grid::given(
            origin,
            self.pitch,
            layer_height,
            self.columns,
            self.rows,
            layers,
        ) {
            Ok(grid) => grid,
            Err(_) => unreachable!(),
        }
    }
}

/// Whether neither of two lengths is above its limit.
fn are_within(one: u64, other: u64, limit: u64, other_limit: u64) -> bool
    ensures { IsTrue result ↔ ((one ≤ limit) × (other ≤ other_limit)) }
{
    one <= limit && other <= other_limit
}

/// Where `length` begins, so that its middle is that of the range from `low` to `high`, or half a unit below it. `None` if an
/// end of it is out of the range of coordinates.
fn start(low: i32, high: i32, length: u32) -> Option<i32>
    requires low { IsAtMost COORDINATE_LIMIT low }
    requires high { IsAtMost COORDINATE_LIMIT high }
    requires length { length ≤ COLUMN_LIMIT * STEP_LIMIT }
    ensures value { IfSome result (IsInMiddle low high length) }
    ensures range { IfSome result (IsInRange length) }
    ensures none { IsNone result → ((start : ℤ) → IsInMiddle low high length start → IsInRange length start) → ⊥ }
{
    let length = i64::from(length);
    // half of it, rounded down
    let start = ceil_div_64(i64::from(low) + i64::from(high) - length - 1, 2);
    if is_at_most(COORDINATE_LIMIT, start) && is_at_most(COORDINATE_LIMIT, start + length) {
        Some(start as i32)
    } else {
        None
    }
}

/// The number of layers that have their middle below the top, from the lowest point on; at least 1.
fn layer_count(low: i32, high: i32, layer_height: u32) -> u32
    requires low { IsAtMost COORDINATE_LIMIT low }
    requires high { IsAtMost COORDINATE_LIMIT high }
    requires order { low ≤ℤ high }
    requires step { IsStep layer_height }
    ensures { IsLayerCount low high layer_height result }
{
    // a half and more of the last layer is in the part
    let halves = 2 * high.abs_diff(low);
    ((halves + layer_height - 1) / (2 * layer_height)).max(1)
}
