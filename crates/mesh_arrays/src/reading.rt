//! The facets of points and triangles, triangle by triangle.
ghost use Rattle.std.specs.Prelude.{◌≡◌, All, IfErr, IfOk, OnOk};
ghost use Rattle.geometry.specs.Indexed.{indexed_facet, indexed_point};
ghost use Rattle.mesh_arrays.specs.Arrays.{IsCorner};
ghost use Rattle.mesh_arrays.specs.Reading.{IsAnswerTo, IsCornerFault, IsTriangleFault};

use crate::array_fault::ArrayFault;
use geometry::{FACET_LIMIT, Facet, Point};
use std::alloc::Allocator;

/// The facets of triangles, in order, at most [`FACET_LIMIT`] of them.
///
/// Points are three coordinates each, in whole micrometres. A triangle is the indices of its corners among the points, listed
/// counterclockwise as seen from outside. A point that no triangle has may have any coordinates.
///
/// # Errors
/// Arrays that are no facets have exactly one fault, which is returned unless memory runs out. It is that of the first triangle
/// that is no facet, and there of its first corner that is none:
/// - `Missing` if the index is past the points,
/// - `OutOfRange` if a coordinate of the point is out of range,
/// - `TooMany` if the triangle is one more than [`FACET_LIMIT`].
///
/// `Memory` comes only if an allocation failed.
pub fn read_arrays<A: Allocator + Copy>(
    alloc: A,
    points: &[[i32; 3]],
    triangles: &[[u32; 3]],
) -> Result<Vec<Facet, A>, ArrayFault>
    ensures { IsAnswerTo points.now triangles.now result }
{
    let room = triangles.len().min(FACET_LIMIT as usize);
    let mut facets = Vec::with_capacity(alloc, room)?;
    for (triangle, corners) in triangles.iter().enumerate() {
        if triangle >= FACET_LIMIT as usize {
            return Err(ArrayFault::TooMany { triangle });
        }
        facets.push(facet(points, triangle, corners)?)?;
    }
    Ok(facets)
}

/// The facet of a triangle with this number.
fn facet(points: &[[i32; 3]], triangle: usize, corners: &[u32; 3]) -> Result<Facet, ArrayFault>
    ensures facet { IfOk result (λ facet. facet ≡ indexed_facet points.now corners.now) }
    ensures corners { OnOk result (All (IsCorner points.now) corners.now) }
    ensures fault { IfErr result (IsTriangleFault points.now triangle corners.now) }
{
    let [first, second, third] = *corners;
    Ok(Facet::of(
        corner(points, triangle, first)?,
        corner(points, triangle, second)?,
        corner(points, triangle, third)?,
    ))
}

/// The point with an index, which a triangle with this number has.
fn corner(points: &[[i32; 3]], triangle: usize, index: u32) -> Result<Point, ArrayFault>
    ensures point { IfOk result (λ point. point ≡ indexed_point points.now index) }
    ensures corner { OnOk result (IsCorner points.now index) }
    ensures fault { IfErr result (IsCornerFault points.now triangle index) }
{
    let missing = ArrayFault::Missing {
        triangle,
        point: index,
    };
    let out_of_range = ArrayFault::OutOfRange {
        triangle,
        point: index,
    };
    let [x, y, z] = *points.get(index as usize).ok_or(missing)?;
    Point::new(x, y, z).ok_or(out_of_range)
}
