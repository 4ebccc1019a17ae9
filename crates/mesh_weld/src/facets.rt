//! Facets by the numbers of their corners, which facets are kept, and how an open edge is counted over all facets.
ghost use Rattle.std.specs.Prelude.{◌≡◌, ◌≤◌, ◌<◌, ◌+◌, ◌&&◌, cond, count_by, IfOk, length};
ghost use Rattle.std.specs.List.{All};
ghost use Rattle.geometry.specs.Point.{same};
ghost use Rattle.geometry.specs.Facet.{half_edges};
ghost use Rattle.mesh_weld.specs.Balance.{half_edge_count};
ghost use Rattle.mesh_weld.specs.Solid.{facet_by, facets_by, is_kept};
ghost use Rattle.mesh_weld.specs.Welder.{AreBelow};
ghost use Rattle.mesh_weld.specs.declared.weld_fault.WeldFault.TheVariants.{Open};
ghost use Rattle.geometry.specs.declared.limits.TheConstants.{CORNER_LIMIT, FACET_LIMIT};

use crate::weld_fault::WeldFault;
use geometry::{Facet, Point};
use std::alloc::{AllocError, Allocator};

/// The facet whose corners have these numbers among the points.
pub(crate) fn facet_by(points: &[Point], numbers: &[u32; 3]) -> Facet
    requires { All (λ n. n < length points.now) numbers.now }
    ensures { result ≡ facet_by points.now numbers.now }
{
    let [first, second, third] = *numbers;
    Facet::of(
        points[first as usize],
        points[second as usize],
        points[third as usize],
    )
}

/// The facets whose corners have the numbers among the points.
pub(crate) fn list_facets<A: Allocator + Copy>(
    alloc: A,
    points: &[Point],
    numbers: &[[u32; 3]],
) -> Result<Vec<Facet, A>, AllocError>
    requires { AreBelow points.now numbers.now }
    ensures { IfOk result (λ facets. facets.items ≡ facets_by points.now numbers.now) }
{
    let mut facets = Vec::with_capacity(alloc, numbers.len())?;
    for own in numbers {
        facets.push(facet_by(points, own))?;
    }
    Ok(facets)
}

/// Whether the three corners are distinct, so that the facet is kept.
pub(crate) fn has_distinct_corners(facet: &Facet) -> bool
    ensures { result ≡ is_kept facet.now }
{
    let (first, second, third) = (facet.corner(0), facet.corner(1), facet.corner(2));
    !(is_same(first, second) || is_same(second, third) || is_same(third, first))
}

/// Whether two points are the same.
fn is_same(first: Point, second: Point) -> bool
    ensures { result ≡ same first second }
{
    first == second
}

/// The number of half-edges from one point to the other.
fn count_edges(facets: &[Facet], from: Point, to: Point) -> u32
    requires { length facets.now ≤ FACET_LIMIT }
    ensures count { result ≡ half_edge_count facets.now from to }
    ensures limit { result ≤ CORNER_LIMIT }
{
    let mut count = 0;
    for facet in facets {
        count += count_own(facet, from, to);
    }
    count
}

/// The number of a facet's half-edges from one point to the other.
fn count_own(facet: &Facet, from: Point, to: Point) -> u32
    ensures count { result ≡ count_by (λ e. same e.from from && same e.to to) (half_edges facet.now) }
    ensures limit { result ≤ 3 }
{
    let (first, second, third) = (facet.corner(0), facet.corner(1), facet.corner(2));
    runs(first, second, from, to) + runs(second, third, from, to) + runs(third, first, from, to)
}

/// 1 for an edge from one point to the other, 0 for another edge.
fn runs(first: Point, second: Point, from: Point, to: Point) -> u32
    ensures count { result ≡ cond (same first from && same second to) 1 0 }
    ensures limit { result ≤ 1 }
{
    u32::from(is_same(first, from) && is_same(second, to))
}

/// The fault of an open edge, with both numbers counted over all facets.
pub(crate) fn open_edge(kept: &[Facet], degenerate: &[Facet], from: Point, to: Point) -> WeldFault
    requires kept { length kept.now ≤ FACET_LIMIT }
    requires degenerate { length degenerate.now ≤ FACET_LIMIT }
    ensures { result ≡ Open from to (half_edge_count kept.now from to + half_edge_count degenerate.now from to)
        (half_edge_count kept.now to from + half_edge_count degenerate.now to from) }
{
    WeldFault::Open {
        from,
        to,
        there: count_edges(kept, from, to) + count_edges(degenerate, from, to),
        back: count_edges(kept, to, from) + count_edges(degenerate, to, from),
    }
}
