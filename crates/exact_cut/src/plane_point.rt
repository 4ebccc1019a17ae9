//! Points of a plane, to the nearest half-micrometre.
ghost use Rattle.std.specs.Prelude.{◌≡◌, ◌<ℤ◌, MatchOption, pos};
ghost use Rattle.exact_int.specs.Bounds.{IsAtMost};
ghost use Rattle.geometry.specs.Facet.{twice};
ghost use Rattle.exact_cut.specs.Bounds.{cut_denominator_limit, cut_numerator_limit};
ghost use Rattle.exact_cut.specs.Cut.{IsBetween};
ghost use Rattle.exact_cut.specs.PlanePoint.{IsStart, nearest};
ghost use Rattle.geometry.specs.declared.limits.TheConstants.{CENTRE_LIMIT};

use crate::cut::{cuts, finish_of, start_of};
use crate::scanline::cut_point::CutPoint;
use geometry::Facet;

/// A point of a plane, in half-micrometres.
#[derive(Clone, Copy, Debug, PartialEq, Eq)]
pub struct PlanePoint {
    pub x2: i64,
    pub y2: i64,
}

/// The point at which the plane at the height `z2` passes the one edge of a facet that runs downward through it. It is `None`
/// if the plane does not cut the facet. Each coordinate is rounded to the nearest half-micrometre, halves upward. The height is
/// in half-micrometres, within `CENTRE_LIMIT` of 0.
pub fn start_point(f: &Facet, z2: i64) -> Option<PlanePoint>
    requires { IsAtMost CENTRE_LIMIT z2 }
    ensures { MatchOption result (IsBetween (twice f.now) z2 → ⊥)
        (λ p. IsStart (twice f.now) z2 p) }
{
    let cut = cuts(f, z2)?;
    let exact = CutPoint::between(finish_of(f, cut.down), start_of(f, cut.down), z2);
    Some(PlanePoint {
        x2: nearest(exact.x, exact.d),
        y2: nearest(exact.y, exact.d),
    })
}

/// A fraction as the nearest whole number, halves upward.
fn nearest(num: i64, den: i64) -> i64
    requires num_in { IsAtMost cut_numerator_limit num }
    requires den_in { IsAtMost cut_denominator_limit den }
    requires den_positive { pos 0 <ℤ den }
    ensures { result ≡ nearest num den }
{
    (2 * num + den).div_euclid(2 * den)
}
