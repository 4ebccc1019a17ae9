//! A segment is where a plane cuts a facet. It runs between edges of the mesh and not between points. So it is exact, and two
//! segments meet exactly if they name the same edge.
ghost use Rattle.std.specs.Prelude.{◌≡◌, ◌<◌, ◌↔◌, All, IfOk, IfSome, IsSome, filter_map, length, map};
ghost use Rattle.exact_int.specs.Bounds.{IsAtMost};
ghost use Rattle.geometry.specs.Facet.{twice};
ghost use Rattle.exact_cut.specs.Cut.{IsBetween, corner_heights};
ghost use Rattle.mesh_weld.specs.Solid.{facet_at, vertices};
ghost use Rattle.plane_segments.specs.Segment.{AreThreeNumbers, HasOrderedNodes, edge_node, numbered_segment, segment_of, segments};
ghost use Rattle.geometry.specs.declared.limits.TheConstants.{CENTRE_LIMIT};

use crate::node::Node;
use exact_cut::{corner_heights, cuts_at};
use mesh_weld::Solid;
use std::alloc::{AllocError, Allocator};

/// The cut of a facet by a plane: from the node of the facet's downward edge to that of its upward edge. The facet's number
/// among the kept ones, from 0, is `facet`.
#[derive(Clone, Copy, Debug, PartialEq, Eq)]
pub struct Segment {
    pub facet: u32,
    pub from: Node,
    pub to: Node,
}

/// The segment of the kept facet with this number, at the height `z2` in half-micrometres. It is `None` if the plane does not
/// cut the facet: no corner counts as below `z2`, by the tie rule, or none is above it. In each node `low` is below `high`,
/// since the corners are distinct. The number is below the solid's `count`, and `z2` is at most `geometry::CENTRE_LIMIT` from
/// 0.
pub fn segment_at<A: Allocator>(s: &Solid<A>, facet: u32, z2: i64) -> Option<Segment>
    requires facet { facet < length s.now.facets }
    requires height { IsAtMost CENTRE_LIMIT z2 }
    ensures segment { result ≡ segment_of (vertices s.now.facets) z2 (record { 0 = facet; 1 = facet_at s.now.facets facet }) }
    ensures some { IsSome result ↔ IsBetween (twice (facet_at s.now.facets facet)) z2 }
    ensures ordered { IfSome result HasOrderedNodes }
{
    segment_in(s, facet, &corner_heights(&s.facet(facet)), z2)
}

/// [`segment_at`] for a facet whose corners' heights were looked up.
fn segment_in<A: Allocator>(
    s: &Solid<A>,
    number: u32,
    heights: &[i32; 3],
    z2: i64,
) -> Option<Segment>
    requires number { number < length s.now.facets }
    requires heights { heights.now ≡ corner_heights (facet_at s.now.facets number) }
    requires height { IsAtMost CENTRE_LIMIT z2 }
    ensures segment { result ≡ segment_of (vertices s.now.facets) z2 (record { 0 = number; 1 = facet_at s.now.facets number }) }
    ensures some { IsSome result ↔ IsBetween (twice (facet_at s.now.facets number)) z2 }
    ensures ordered { IfSome result HasOrderedNodes }
{
    // wakes the invariant: the corners of a kept facet are distinct
    let _count = s.count();
    let cut = cuts_at(heights, z2)?;
    let corners = &s.triples()[number as usize];
    Some(Segment {
        facet: number,
        from: edge_node(corners, cut.down),
        to: edge_node(corners, cut.up),
    })
}

/// The node of a facet's edge with this number, by the numbers of the facet's corners, which are distinct.
fn edge_node(corners: &[u32; 3], edge: usize) -> Node
    requires edge { edge < 3 }
    requires distinct { AreThreeNumbers corners.now }
    ensures node { result ≡ edge_node corners.now edge }
    ensures ordered { result.low < result.high }
{
    // The compiler needs no branch for this. The processor would often predict one wrongly, since which edge it is follows no
    // pattern in a mesh.
    let end = if edge < 2 { edge + 1 } else { 0 };
    Node::between(corners[edge], corners[end])
}

/// The segments at the height `z2` in half-micrometres, at most `geometry::CENTRE_LIMIT` from 0, in order of facets. It looks
/// at every kept facet; a `Sweep` of `contour`, through many heights, does not. `Err` only if an allocation failed.
pub fn segments<A: Allocator + Copy + Send + Sync>(
    alloc: A,
    s: &Solid<A>,
    z2: i64,
) -> Result<Vec<Segment, A>, AllocError>
    requires { IsAtMost CENTRE_LIMIT z2 }
    ensures segments { IfOk result (λ list. list.items ≡ segments s.now.facets z2) }
    ensures ordered { IfOk result (λ list. All HasOrderedNodes list.items) }
{
    let mut list = Vec::new(alloc);
    for facet in 0..s.count() as u32 {
        if let Some(segment) = segment_at(s, facet, z2) {
            list.push(segment)?;
        }
    }
    Ok(list)
}

/// The segments of the kept facets with these numbers at the height `z2` in half-micrometres, at most `geometry::CENTRE_LIMIT`
/// from 0, in the order of the numbers. A facet that the plane does not cut has none. `Err` only if an allocation failed.
///
/// It looks up all heights before it cuts the first facet, so that the waits for memory overlap.
pub fn segments_in<A: Allocator + Copy>(
    alloc: A,
    s: &Solid<A>,
    numbers: &[u32],
    z2: i64,
) -> Result<Vec<Segment, A>, AllocError>
    requires numbers { All (λ n. n < length s.now.facets) numbers.now }
    requires height { IsAtMost CENTRE_LIMIT z2 }
    ensures segments { IfOk result (λ list. list.items ≡ filter_map (numbered_segment s.now.facets z2) numbers.now) }
    ensures ordered { IfOk result (λ list. All HasOrderedNodes list.items) }
{
    let heights = heights_in(alloc, s, numbers)?;
    let mut list = Vec::with_capacity(alloc, numbers.len())?;
    for (i, n) in numbers.iter().enumerate() {
        if let Some(segment) = segment_in(s, *n, &heights[i], z2) {
            list.push(segment)?;
        }
    }
    Ok(list)
}

/// The heights of the corners of the kept facets with these numbers.
fn heights_in<A: Allocator>(
    alloc: A,
    s: &Solid<A>,
    numbers: &[u32],
) -> Result<Vec<[i32; 3], A>, AllocError>
    requires { All (λ n. n < length s.now.facets) numbers.now }
    ensures { IfOk result (λ heights. heights.items ≡ map (λ n. corner_heights (facet_at s.now.facets n)) numbers.now) }
{
    let mut heights = Vec::with_capacity(alloc, numbers.len())?;
    for n in numbers {
        heights.push(corner_heights(&s.facet(*n)))?;
    }
    Ok(heights)
}
