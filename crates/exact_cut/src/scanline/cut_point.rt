//! The point at which an edge passes a height, as a fraction. The type has a file of its own because definitions in `specs/`
//! cite it.
ghost use Rattle.std.specs.Prelude.{◌≡◌, ℤ, pos, ◌*ℤ◌, ◌<ℤ◌, ◌↔◌, IsTrue};
ghost use Rattle.exact_int.specs.Bounds.{IsAtMost};
ghost use Rattle.exact_cut.specs.Bounds.{cut_denominator_limit, cut_numerator_limit};
ghost use Rattle.exact_cut.specs.Cut.{Rises};
ghost use Rattle.exact_cut.specs.CutPoint.{cut_d, cut_x, cut_y};
ghost use Rattle.exact_cut.specs.HalfPoint.{point_of};
ghost use Rattle.geometry.specs.declared.limits.TheConstants.{CENTRE_LIMIT};

use crate::cut::half_point::HalfPoint;

/// The point `(x / d, y / d)` at which an edge passes a height, in half-micrometres.
#[derive(Clone, Copy)]
pub(crate) struct CutPoint {
    pub(crate) x: i64,
    pub(crate) y: i64,
    pub(crate) d: i64,
    ghost x_in: { IsAtMost cut_numerator_limit x },
    ghost y_in: { IsAtMost cut_numerator_limit y },
    ghost d_in: { IsAtMost cut_denominator_limit d },
    ghost d_positive: { pos 0 <ℤ d },
}

impl CutPoint {
    /// The point at which the edge between `low` and `high` passes the height `z2`.
    #[inline(always)]
    pub(crate) fn between(low: HalfPoint, high: HalfPoint, z2: i64) -> CutPoint
        requires { Rises (point_of low) (point_of high) z2 }
        ensures x { result.x ≡ cut_x (point_of low) (point_of high) z2 }
        ensures y { result.y ≡ cut_y (point_of low) (point_of high) z2 }
        ensures d { result.d ≡ cut_d (point_of low) (point_of high) }
    {
        let above = high.z - z2;
        let below = z2 - low.z;
        CutPoint {
            x: low.x * above + high.x * below,
            y: low.y * above + high.y * below,
            d: high.z - low.z,
        }
    }

    /// Whether the point lies ahead of the scanline `y2`.
    pub(crate) fn is_ahead(&self, y2: i64) -> bool
        requires { IsAtMost CENTRE_LIMIT y2 }
        ensures { IsTrue result ↔ (y2 *ℤ self.now.d) <ℤ self.now.y }
    {
        y2 * self.d < self.y
    }
}
