//! Corners sorted by their points: each distinct point is a vertex, and its index among these is its number.
ghost use Rattle.std.specs.Prelude.{◌≡◌, ◌≤◌, ◌<◌, ◌*◌, IfOk, OnOk, ◌++◌, ◌∷◌, [], length, vec_len, map, flat_map};
ghost use Rattle.std.specs.List.Sorted.{IsPermutation};
ghost use Rattle.geometry.specs.Facet.{corners};
ghost use Rattle.mesh_weld.specs.Corners.{corners_from, AreAscending, IsAdded};
ghost use Rattle.mesh_weld.specs.Numbering.{threes};
ghost use Rattle.mesh_weld.specs.Solid.{number_of, vertices};
ghost use Rattle.geometry.specs.declared.limits.TheConstants.{CORNER_LIMIT, FACET_LIMIT};

use geometry::{Facet, Point};
use std::alloc::{AllocError, Allocator};

/// A corner with its slot: its number among the corners of all facets, three a facet.
#[derive(Clone, Copy)]
pub(crate) struct CornerEntry {
    pub(crate) point: Point,
    pub(crate) slot: u32,
}

/// The corners of the facets, in their order.
fn list_corners<A: Allocator + Copy>(
    alloc: A,
    facets: &[Facet],
) -> Result<Vec<CornerEntry, A>, AllocError>
    requires { length facets.now ≤ FACET_LIMIT }
    ensures { IfOk result (λ list. list.items ≡ corners_from 0 facets.now) }
{
    let mut list = Vec::with_capacity(alloc, 3 * facets.len())?;
    for facet in facets {
        push_corner(&mut list, facet.corner(0))?;
        push_corner(&mut list, facet.corner(1))?;
        push_corner(&mut list, facet.corner(2))?;
    }
    Ok(list)
}

/// Appends a corner, with the next slot.
fn push_corner<A: Allocator>(list: &mut Vec<CornerEntry, A>, point: Point) -> Result<(), AllocError>
    requires { vec_len list.old ≤ CORNER_LIMIT }
    ensures { OnOk result (list.new.items ≡ list.old.items ++ (record { point = point; slot = vec_len list.old }) ∷ []) }
{
    let slot = list.len() as u32;
    list.push(CornerEntry { point, slot })?;
    Ok(())
}

/// Sorts corners by their points.
fn sort_corners<A: Allocator>(list: &mut Vec<CornerEntry, A>)
    ensures permuted { IsPermutation list.old.items list.new.items }
    ensures ascending { AreAscending list.new.items }
{
    list.sort_unstable_by_key(|corner| (corner.point.x(), corner.point.y(), corner.point.z()));
}

/// The distinct corners of facets in ascending order, and for each corner its number among them.
#[derive(Drop)]
pub(crate) struct CornerNumbers<A: Allocator> {
    pub(crate) points: Vec<Point, A>,
    pub(crate) numbers: Vec<u32, A>,
}

/// Numbers the distinct points of sorted corners from 0 up, and gives each corner the number of its point.
fn number_sorted<A: Allocator + Copy>(
    alloc: A,
    facets: &[Facet],
    sorted: &[CornerEntry],
) -> Result<CornerNumbers<A>, AllocError>
    requires limit { length facets.now ≤ FACET_LIMIT }
    requires permuted { IsPermutation (corners_from 0 facets.now) sorted.now }
    requires ascending { AreAscending sorted.now }
    ensures points { IfOk result (λ own. own.points.items ≡ vertices facets.now) }
    ensures numbers { IfOk result (λ own. own.numbers.items ≡ map (number_of (vertices facets.now)) (flat_map corners facets.now)) }
{
    let mut numbers = vec![in alloc; 0; 3 * facets.len()]?;
    let mut points = Vec::new(alloc);
    for corner in sorted {
        add_point(&mut points, corner.point)?;
        numbers[corner.slot as usize] = points.len() as u32 - 1;
    }
    Ok(CornerNumbers { points, numbers })
}

/// Appends a point, unless it is the last of them already.
fn add_point<A: Allocator>(points: &mut Vec<Point, A>, point: Point) -> Result<(), AllocError>
    ensures { OnOk result (IsAdded points.old.items point points.new.items) }
{
    let count = points.len();
    if count > 0 && points[count - 1] == point {
        return Ok(());
    }
    points.push(point)?;
    Ok(())
}

/// The distinct corners of facets in ascending order, and each corner's number among them.
pub(crate) fn number_corners<A: Allocator + Copy>(
    alloc: A,
    facets: &[Facet],
) -> Result<CornerNumbers<A>, AllocError>
    requires { length facets.now ≤ FACET_LIMIT }
    ensures points { IfOk result (λ own. own.points.items ≡ vertices facets.now) }
    ensures numbers { IfOk result (λ own. own.numbers.items ≡ map (number_of (vertices facets.now)) (flat_map corners facets.now)) }
{
    let mut sorted = list_corners(alloc, facets)?;
    sort_corners(&mut sorted);
    number_sorted(alloc, facets, sorted.as_slice())
}

/// Numbers in groups of three, one group for each facet.
pub(crate) fn in_threes<A: Allocator + Copy>(
    alloc: A,
    numbers: &[u32],
) -> Result<Vec<[u32; 3], A>, AllocError>
    ensures { IfOk result (λ list. list.items ≡ threes numbers.now) }
{
    let mut list = Vec::with_capacity(alloc, numbers.len() / 3)?;
    for group in 0..numbers.len() / 3 {
        let first = 3 * group;
        list.push([numbers[first], numbers[first + 1], numbers[first + 2]])?;
    }
    Ok(list)
}
