//! The bounding box of facets, which a grid is fitted to. It can be computed from all facets at once, or in parts as facets
//! come. A bounding box is a pair: its low corner (the least x, y and z), then its high corner (the greatest).
ghost use Rattle.std.specs.Prelude.{◌≡◌, ◌++◌, All, IfSome, List, flat_map, fold};
ghost use Rattle.geometry.specs.BoundingBox.{IsInBox, IsTight, extent, greatest_of, least_of};
ghost use Rattle.geometry.specs.Facet.{Facet, corners};

use crate::facet::Facet;
use crate::point::Point;

/// The bounding box of facets, in micrometres: its low corner and its high corner. `None` exactly if there are no facets.
/// Each corner of a facet lies in the box, and each of the box's six sides holds a corner of a facet.
pub fn extent(facets: &[Facet]) -> Option<(Point, Point)>
    ensures value { result ≡ extent facets.now }
    ensures holds { IfSome result (λ b. All (IsInBox b.0 b.1) (flat_map corners facets.now)) }
    ensures tight { IfSome result (λ b. IsTight b.0 b.1 (flat_map corners facets.now)) }
{
    let start = facets.first()?.corner(0);
    Some(grown(start, start, facets))
}

/// The bounding box of earlier facets and of these, in micrometres. `before` is the bounding box of the earlier ones. `None`
/// exactly if there are no facets at all.
pub fn extent_with(before: Option<(Point, Point)>, facets: &[Facet]) -> Option<(Point, Point)>
    ensures { (earlier : List Facet) → before ≡ extent earlier → result ≡ extent (earlier ++ facets.now) }
{
    match before {
        None => extent(facets),
        Some(corners) => Some(grown(corners.0, corners.1, facets)),
    }
}

/// The bounding box of a low point, a high point and the corners of facets.
fn grown(low: Point, high: Point, facets: &[Facet]) -> (Point, Point)
    ensures low { result.0 ≡ fold least_of low (flat_map corners facets.now) }
    ensures high { result.1 ≡ fold greatest_of high (flat_map corners facets.now) }
{
    let mut least = low;
    let mut greatest = high;
    for facet in facets {
        let (a, b, c) = (facet.corner(0), facet.corner(1), facet.corner(2));
        least = lower(lower(lower(least, a), b), c);
        greatest = higher(higher(higher(greatest, a), b), c);
    }
    (least, greatest)
}

/// The low corner of the bounding box of two points: the lesser x, y and z, in micrometres.
pub fn lower(p: Point, q: Point) -> Point
    ensures { result ≡ least_of p q }
{
    Point::at(p.x().min(q.x()), p.y().min(q.y()), p.z().min(q.z()))
}

/// The high corner of the bounding box of two points: the greater x, y and z, in micrometres.
pub fn higher(p: Point, q: Point) -> Point
    ensures { result ≡ greatest_of p q }
{
    Point::at(p.x().max(q.x()), p.y().max(q.y()), p.z().max(q.z()))
}
