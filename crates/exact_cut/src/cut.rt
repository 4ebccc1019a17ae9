//! Which edges of a facet pass a height, and their corners in half-micrometres.
ghost use Rattle.std.specs.Prelude.{◌≡◌, ◌<◌, ◌↔◌, IsTrue, MatchOption};
ghost use Rattle.exact_int.specs.Bounds.{IsAtMost};
ghost use Rattle.geometry.specs.TieRule.{IsBelow};
ghost use Rattle.geometry.specs.Point.{half_micrometres_of};
ghost use Rattle.geometry.specs.Facet.{Facet, corner, twice};
ghost use Rattle.exact_cut.specs.Cut.{IsBetween, IsCut, corner_heights, finish, start};
ghost use Rattle.exact_cut.specs.HalfPoint.{point_of};
ghost use Rattle.geometry.specs.declared.limits.TheConstants.{CENTRE_LIMIT};

pub(crate) mod half_point;

use crate::cut::half_point::HalfPoint;
use geometry::{Facet, Point, is_below};

/// The edges of a facet that pass a height, by number. Edge 0 runs from corner 0 to 1, edge 1 from 1 to 2, edge 2 from 2 to 0.
#[derive(Clone, Copy, Debug, PartialEq, Eq)]
pub struct Cut {
    /// The edge from above the height to a corner that counts as below it.
    pub down: usize,
    /// The edge from a corner that counts as below the height to one above it.
    pub up: usize,
}

/// The one edge that passes the height `z2` downward and the one that passes it upward. It is `None` if no corner counts as
/// below `z2`, by the tie rule, or no corner is above it. The height is in half-micrometres, within `CENTRE_LIMIT` of 0.
#[inline(always)]
pub fn cuts(f: &Facet, z2: i64) -> Option<Cut>
    requires { IsAtMost CENTRE_LIMIT z2 }
    ensures { MatchOption result (IsBetween (twice f.now) z2 → ⊥)
        (λ c. IsCut (twice f.now) z2 c) }
{
    cuts_at(&corner_heights(f), z2)
}

/// The heights of a facet's corners in micrometres, in their order.
#[inline(always)]
pub fn corner_heights(f: &Facet) -> [i32; 3]
    ensures { result ≡ corner_heights f.now }
{
    [f.corner(0).z(), f.corner(1).z(), f.corner(2).z()]
}

/// [`cuts`] for a facet by its [`corner_heights`].
#[inline(always)]
pub fn cuts_at(heights: &[i32; 3], z2: i64) -> Option<Cut>
    requires { IsAtMost CENTRE_LIMIT z2 }
    ensures { (f : Facet) → heights.now ≡ corner_heights f → MatchOption result (IsBetween (twice f) z2 → ⊥)
        (λ c. IsCut (twice f) z2 c) }
{
    let [first, second, third] = *heights;
    let a = is_below(2 * i64::from(first), z2);
    let b = is_below(2 * i64::from(second), z2);
    let c = is_below(2 * i64::from(third), z2);
    if a == b && b == c {
        return None;
    }
    Some(Cut {
        down: usize::from(!b & c) + 2 * usize::from(!c & a),
        up: usize::from(b & !c) + 2 * usize::from(c & !a),
    })
}

/// A point of a mesh, in half-micrometres.
#[inline(always)]
fn in_half_micrometres(p: Point) -> HalfPoint
    ensures { point_of result ≡ half_micrometres_of p }
{
    HalfPoint {
        x: 2 * (p.x() as i64),
        y: 2 * (p.y() as i64),
        z: 2 * (p.z() as i64),
    }
}

/// The corner with this number.
#[inline(always)]
pub(crate) fn corner_at(f: &Facet, number: usize) -> HalfPoint
    requires { number < 3 }
    ensures { point_of result ≡ corner (twice f.now) number }
{
    in_half_micrometres(f.corner(number))
}

/// The corner that an edge starts from.
#[inline(always)]
pub(crate) fn start_of(f: &Facet, edge: usize) -> HalfPoint
    requires { edge < 3 }
    ensures { point_of result ≡ start (twice f.now) edge }
{
    corner_at(f, edge)
}

/// The corner that an edge ends at.
#[inline(always)]
pub(crate) fn finish_of(f: &Facet, edge: usize) -> HalfPoint
    requires { edge < 3 }
    ensures { point_of result ≡ finish (twice f.now) edge }
{
    // The compiler needs no branch for this. The processor would often predict one wrongly, since which edge it is follows no
    // pattern in a mesh.
    corner_at(f, if edge < 2 { edge + 1 } else { 0 })
}
