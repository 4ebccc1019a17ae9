//! The facets of a binary STL, number by number.
ghost use Rattle.std.specs.Prelude.{◌≡◌, ◌<◌, ◌≤◌, ◌+◌, Err, IfErr, IfOk, Ok, length};
ghost use Rattle.geometry.specs.declared.limits.TheConstants.{FACET_LIMIT};
ghost use Rattle.binary_stl.specs.Binary.{IsCornerAt, IsFacetAt, axis_number, coordinate_at, length_of};
ghost use Rattle.binary_stl.specs.declared.binary_fault.BinaryFault.TheVariants.{Number};
ghost use Rattle.binary_stl.specs.declared.binary_fault.CoordinateFault.{CoordinateFault};
ghost use Rattle.binary_stl.specs.Reading.{IsAnswerTo, IsCornerFault, IsFacetFault};

use crate::binary_fault::{Axis, BinaryFault};
use crate::form::{checked_count, number};
use crate::limits::{CORNER_LEN, FACET_LEN, FACETS_START, NUMBER_LEN};
use crate::single::coordinate;
use geometry::{FACET_LIMIT, Facet, Point};
use micro_num::Unit;
use std::alloc::Allocator;

/// The facets of a binary STL, in order, at most `limit` of them.
///
/// A coordinate is the exact value of its number in `unit`, rounded once to the nearest micrometre, halves away from zero.
///
/// # Errors
/// Bytes that are no facets have exactly one fault, which is returned unless memory runs out. In this order:
/// - `Ended` if there are fewer than 84 bytes,
/// - `Length` if there are not just as many as the count of facets takes,
/// - `TooMany` if the count is above `limit`,
/// - `Number` for the first number, in the order of the bytes, that is a NaN, an infinity or out of range.
///
/// `Memory` comes only if an allocation failed.
pub fn read_binary_at_most<A: Allocator + Copy>(
    alloc: A,
    bytes: &[u8],
    limit: u32,
    unit: Unit,
) -> Result<Vec<Facet, A>, BinaryFault>
    ensures { IsAnswerTo limit unit bytes.now result }
{
    let count = checked_count(bytes, limit)?;
    let mut facets = Vec::with_capacity(alloc, count)?;
    for index in 0..count {
        facets.push(facet(bytes, index, unit)?)?;
    }
    Ok(facets)
}

/// The facets of a binary STL, in order, at most [`FACET_LIMIT`] of them: [`read_binary_at_most`] with this limit.
pub fn read_binary<A: Allocator + Copy>(
    alloc: A,
    bytes: &[u8],
    unit: Unit,
) -> Result<Vec<Facet, A>, BinaryFault>
    ensures { IsAnswerTo FACET_LIMIT unit bytes.now result }
{
    read_binary_at_most(alloc, bytes, FACET_LIMIT, unit)
}

/// The facet with this number.
#[inline(always)]
fn facet(bytes: &[u8], facet: usize, unit: Unit) -> Result<Facet, BinaryFault>
    requires { length_of (facet + 1) ≤ length bytes.now }
    ensures facet { IfOk result (IsFacetAt unit bytes.now facet) }
    ensures fault { IfErr result (IsFacetFault unit bytes.now facet) }
{
    Ok(Facet::of(
        corner(bytes, facet, 0, unit)?,
        corner(bytes, facet, 1, unit)?,
        corner(bytes, facet, 2, unit)?,
    ))
}

/// A corner of a facet, by its number.
#[inline(always)]
fn corner(bytes: &[u8], facet: usize, corner: usize, unit: Unit) -> Result<Point, BinaryFault>
    requires within { length_of (facet + 1) ≤ length bytes.now }
    requires few { corner < 3 }
    ensures corner { IfOk result (IsCornerAt unit bytes.now facet corner) }
    ensures fault { IfErr result (IsCornerFault unit bytes.now facet corner) }
{
    let x = coordinate_of(bytes, facet, corner, Axis::X, unit)?;
    let y = coordinate_of(bytes, facet, corner, Axis::Y, unit)?;
    let z = coordinate_of(bytes, facet, corner, Axis::Z, unit)?;
    Ok(Point::new(x, y, z).unwrap())
}

/// A coordinate of a corner of a facet.
#[inline(always)]
fn coordinate_of(
    bytes: &[u8],
    facet: usize,
    corner: usize,
    axis: Axis,
    unit: Unit,
) -> Result<i32, BinaryFault>
    requires within { length_of (facet + 1) ≤ length bytes.now }
    requires few { corner < 3 }
    ensures value { IfOk result (λ z. coordinate_at unit bytes.now facet corner (axis_number axis) ≡ Ok z) }
    ensures fault { IfErr result (λ f. (cause : CoordinateFault) × (f ≡ Number cause facet corner axis)
        × (coordinate_at unit bytes.now facet corner (axis_number axis) ≡ Err cause)) }
{
    let place = FACETS_START
        + FACET_LEN * facet
        + CORNER_LEN
        + CORNER_LEN * corner
        + NUMBER_LEN * axis as usize;
    coordinate(number(bytes, place), unit).map_err(|cause| BinaryFault::Number {
        cause,
        facet,
        corner,
        axis,
    })
}
