//! The segment in which the plane at a height cuts a facet, and where a scanline crosses the line through its ends.
ghost use Rattle.std.specs.Prelude.{◌≡◌, ◌↔◌, ℤ, pos, IfSome, IsSome, MatchOption};
ghost use Rattle.exact_int.specs.Bounds.{IsAtMost};
ghost use Rattle.geometry.specs.Facet.{twice};
ghost use Rattle.geometry.specs.Winding.{wind};
ghost use Rattle.exact_cut.specs.Bounds.{denominator_limit, numerator_limit};
ghost use Rattle.exact_cut.specs.Crossing.{Crosses};
ghost use Rattle.exact_cut.specs.Laws.{Meets};
ghost use Rattle.exact_cut.specs.Section.{IsSection, den_between, num_between, slope_between};
ghost use Rattle.geometry.specs.declared.limits.TheConstants.{CENTRE_LIMIT};

use crate::cut::{cuts, finish_of, start_of};
use crate::scanline::crossing::Crossing;
use crate::scanline::cut_point::CutPoint;
use geometry::Facet;

/// The segment in which the plane at a height cuts a facet, by its ends: the points at which the edge down and the edge up pass
/// the height.
#[derive(Clone, Copy)]
pub(crate) struct Section {
    pub(crate) down: CutPoint,
    pub(crate) up: CutPoint,
}

impl Section {
    /// The segment in which the plane at the height `z2` cuts a facet, or `None` if it does not cut the facet.
    #[inline(always)]
    pub(crate) fn at_height(f: &Facet, z2: i64) -> Option<Section>
        requires { IsAtMost CENTRE_LIMIT z2 }
        ensures { MatchOption result ((y : ℤ) → wind (twice f.now) y z2 ≡ pos 0)
            (λ s. IsSection (twice f.now) z2 s) }
    {
        let cut = cuts(f, z2)?;
        Some(Section {
            down: CutPoint::between(finish_of(f, cut.down), start_of(f, cut.down), z2),
            up: CutPoint::between(start_of(f, cut.up), finish_of(f, cut.up), z2),
        })
    }
}

/// The crossing of the facet's plane by the line along x at the height `z2` and the scanline `y2`. `None` exactly if the
/// facet's winding round that line is 0. Both are in half-micrometres, within `CENTRE_LIMIT` of 0.
///
/// The fraction is exact: (`num / den`, `y2`, `z2`) lies in the facet's plane. For every whole X, the crossing lies ahead of a
/// centre at X exactly if `X * den < num`.
pub fn crossing(f: &Facet, z2: i64, y2: i64) -> Option<Crossing>
    requires height_in { IsAtMost CENTRE_LIMIT z2 }
    requires scanline_in { IsAtMost CENTRE_LIMIT y2 }
    ensures crosses { MatchOption result (wind (twice f.now) y2 z2 ≡ pos 0)
        (λ c. Crosses (twice f.now) y2 z2 c.sign c.num c.den) }
    ensures some { IsSome result ↔ (wind (twice f.now) y2 z2 ≡ pos 0 → ⊥) }
    ensures in_plane { IfSome result (λ c. Meets (twice f.now) c.num c.den y2 z2) }
{
    let ends = Section::at_height(f, z2)?;
    let is_down_ahead = ends.down.is_ahead(y2);
    let is_up_ahead = ends.up.is_ahead(y2);
    if is_up_ahead == is_down_ahead {
        return None;
    }
    if is_up_ahead {
        let (num, den) = meet(&ends.down, &ends.up, y2);
        Some(Crossing::of(1, num, den))
    } else {
        let (num, den) = meet(&ends.up, &ends.down, y2);
        Some(Crossing::of(-1, num, den))
    }
}

/// Numerator and denominator of the x, in half-micrometres, at which the line through two cut points passes the scanline `y2`.
#[inline(always)]
pub(crate) fn meet(near: &CutPoint, far: &CutPoint, y2: i64) -> (i128, i128)
    requires { IsAtMost CENTRE_LIMIT y2 }
    ensures num { result.0 ≡ num_between near.now far.now y2 }
    ensures den { result.1 ≡ den_between near.now far.now }
    ensures num_in { IsAtMost numerator_limit result.0 }
    ensures den_in { IsAtMost denominator_limit result.1 }
{
    let (a, b, d1) = (near.x as i128, near.y as i128, near.d as i128);
    let (c, d, d2) = (far.x as i128, far.y as i128, far.d as i128);
    (
        a * d - b * c + (y2 as i128) * (c * d1 - a * d2),
        d * d1 - b * d2,
    )
}

/// The slope of the line through two cut points: by how much x grows for each half-micrometre of y, as a numerator over
/// the line's denominator.
#[inline(always)]
pub(crate) fn slope(near: &CutPoint, far: &CutPoint) -> i128
    ensures value { result ≡ slope_between near.now far.now }
    ensures within { IsAtMost denominator_limit result }
{
    (far.x as i128) * (near.d as i128) - (near.x as i128) * (far.d as i128)
}
