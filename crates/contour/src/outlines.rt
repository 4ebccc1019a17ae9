//! Outlines: the loops of a plane as points.
ghost use Rattle.std.specs.Prelude.{◌≡◌, ◌<◌, All, IfOk, flat_map, length, map, option_map, slice_get};
ghost use Rattle.exact_int.specs.Bounds.{IsAtMost};
ghost use Rattle.geometry.specs.declared.limits.TheConstants.{CENTRE_LIMIT};
ghost use Rattle.plane_segments.specs.Segment.{segments};
ghost use Rattle.contour.specs.Loops.{AreEnds, loops, parts_from};
ghost use Rattle.contour.specs.Outlines.{outlines, start_point};

use crate::loop_list::{Loops, part};
use exact_cut::{PlanePoint, start_point};
use mesh_weld::Solid;
use plane_segments::Segment;
use std::alloc::{AllocError, Allocator};
use std::marker::Model;

/// The loops of a plane as points: for each loop, in its order, the points where its segments start. Each point is rounded to
/// the nearest half-micrometre, halves upward. A segment ends where the next one of its loop starts. The last one ends where
/// the first starts, and that point is not repeated.
///
/// If the facets of a mesh face outward, its inside lies on the left of each segment. So a loop around it runs
/// counterclockwise, seen from above. No clause says so; tests do. Rounding may move two points of a loop into one.
#[derive(Drop)]
pub struct Outlines<A: Allocator> {
    points: Vec<PlanePoint, A>,
    ends: Vec<usize, A>,
}

impl<A: Allocator> Model for Outlines<A> {
    ghost use Rattle.std.specs.Prelude.{List, length};
    ghost use Rattle.exact_cut.specs.declared.plane_point.PlanePoint.{PlanePoint};
    ghost use Rattle.contour.specs.Loops.{AreEnds, parts_from};

    ghost Value = { List (List PlanePoint) };

    ghost view = { λ o. parts_from 0 o.ends.items o.points.items };

    ghost invariant = { λ o. AreEnds 0 o.ends.items (length o.points.items) };
}

impl<A: Allocator> Outlines<A> {
    /// The outlines of the loops of a plane. The loops of the mesh at the height `z2` in half-micrometres, at most
    /// `geometry::CENTRE_LIMIT` from 0, are `found`. `Err` only if an allocation failed.
    pub fn of(alloc: A, s: &Solid<A>, found: Loops<A>, z2: i64) -> Result<Outlines<A>, AllocError>
        requires height { IsAtMost CENTRE_LIMIT z2 }
        requires loops { found ≡ loops (segments s.now.facets z2) }
        ensures { IfOk result (λ found. found ≡ outlines s.now.facets z2) }
    {
        let (list, ends) = found.into_parts()?;
        let points = start_points(alloc, s, list.as_slice(), z2)?;
        Ok(Outlines { points, ends })
    }

    /// The number of loops.
    pub fn count(&self) -> usize
        ensures { result ≡ length self.now }
    {
        self.ends.len()
    }

    /// The points of the loop with this number; `None` if there is no such loop.
    pub fn get(&self, number: usize) -> Option<&[PlanePoint]>
        ensures { option_map (λ part. part.now) result ≡ slice_get self.now number }
    {
        let ends = self.ends.as_slice();
        part(self.points.as_slice(), ends, ends.len(), number)
    }

    /// The points of all loops, one loop after the other.
    pub fn points(&self) -> &[PlanePoint]
        ensures { result.now ≡ flat_map (λ outline. outline) self.now }
    {
        self.points.as_slice()
    }

    /// For each loop the position after its last point, among those of all loops.
    pub fn ends(&self) -> &[usize]
        ensures parts { parts_from 0 result.now (flat_map (λ outline. outline) self.now) ≡ self.now }
        ensures ends { AreEnds 0 result.now (length (flat_map (λ outline. outline) self.now)) }
    {
        self.ends.as_slice()
    }
}

/// The points where segments of the mesh start, at the height `z2`.
fn start_points<A: Allocator>(
    alloc: A,
    s: &Solid<A>,
    list: &[Segment],
    z2: i64,
) -> Result<Vec<PlanePoint, A>, AllocError>
    requires list { All (λ t. t.facet < length s.now.facets) list.now }
    requires height { IsAtMost CENTRE_LIMIT z2 }
    ensures { IfOk result (λ points. points.items ≡ map (start_point s.now.facets z2) list.now) }
{
    let mut points = Vec::with_capacity(alloc, list.len())?;
    for segment in list {
        points.push(start_of(s, segment, z2))?;
    }
    Ok(points)
}

/// The point where a segment of the mesh starts, at the height `z2`.
fn start_of<A: Allocator>(s: &Solid<A>, segment: &Segment, z2: i64) -> PlanePoint
    requires facet { segment.now.facet < length s.now.facets }
    requires height { IsAtMost CENTRE_LIMIT z2 }
    ensures { result ≡ start_point s.now.facets z2 segment.now }
{
    match start_point(&s.facet(segment.facet), z2) {
        Some(point) => point,
        // no segment of this plane comes here; the definition has the origin for it
        None => PlanePoint { x2: 0, y2: 0 },
    }
}
