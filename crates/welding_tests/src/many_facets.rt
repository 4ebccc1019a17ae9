//! Meshes with enough facets to be welded by hashes, with edges of many half-edges and vertices of many facets.
ghost use Rattle.std.specs.Prelude.{◌<◌, ◌+◌};

use crate::welders::{agree, fed, fed_by, kept};
use crate::welding::{Counts, counts, open_edge, ring_point, rings};
use geometry::{Facet, Point};
use mesh_weld::{Solid, WeldFault};
use short_memory::{Count, ShortMemory, first_free_turn};
use std::alloc::{AllocError, Allocator, Global};
use std::thread::Threads;
use test_solids::welded;

/// A point that is in range.
fn in_range(point: Option<Point>) -> Result<Point, AllocError> {
    match point {
        Some(point) => Ok(point),
        None => Err(AllocError),
    }
}

/// Adds a tetrahedron that has one edge with the rings.
fn push_tetrahedron<A: Allocator>(list: &mut Vec<Facet, A>) -> Result<(), AllocError> {
    let a = in_range(ring_point(0, 0))?;
    let b = in_range(ring_point(1, 0))?;
    let c = in_range(Point::new(100, 100, 100))?;
    let d = in_range(Point::new(100, 0, 100))?;
    list.push(Facet::of(a, b, c))?;
    list.push(Facet::of(b, a, d))?;
    list.push(Facet::of(a, c, d))?;
    list.push(Facet::of(b, d, c))?;
    Ok(())
}

/// The rings, and a tetrahedron that has one edge with them.
fn rings_and_tetrahedron<A: Allocator + Copy>(alloc: A) -> Result<Vec<Facet, A>, AllocError> {
    let mut list = rings(alloc, 4608)?;
    push_tetrahedron(&mut list)?;
    Ok(list)
}

/// The counts of the solid of facets; `None` if they are not closed, or an allocation failed.
fn welded_counts(alloc: Global, facets: Result<Vec<Facet>, AllocError>) -> Option<Counts> {
    match facets {
        Ok(facets) => counts(welded(alloc, facets)),
        Err(AllocError) => None,
    }
}

#[test]
fn an_edge_of_four_half_edges(rt: HostRuntime) {
    let found = welded_counts(rt.alloc(), rings_and_tetrahedron(rt.alloc()));
    assert!(rt; found == Some((4612, 0, 2306, 6917)));
}

/// The first facet of the rings.
fn first_of_rings() -> Result<Facet, AllocError> {
    let a = in_range(ring_point(0, 0))?;
    let b = in_range(ring_point(1, 0))?;
    let c = in_range(ring_point(1, 1))?;
    Ok(Facet::of(a, b, c))
}

/// The rings, of which the first facet comes twice.
fn rings_and_a_copy<A: Allocator + Copy>(alloc: A) -> Result<Vec<Facet, A>, AllocError> {
    let mut list = rings(alloc, 4608)?;
    list.push(first_of_rings()?)?;
    Ok(list)
}

#[test]
fn an_edge_of_three_half_edges(rt: HostRuntime) {
    match rings_and_a_copy(rt.alloc()) {
        Ok(facets) => {
            let open = open_edge(welded(rt.alloc(), facets));
            assert!(rt; open == Some(([0, 0, 0], [5, 0, 1], 2, 1)));
        }
        Err(AllocError) => assert!(rt; false),
    }
}

/// A point of the fan's rim.
fn rim_point(number: u32) -> Option<Point> {
    let number = number % 2100;
    Point::new((number % 50) as i32, (number / 50) as i32, 1)
}

/// Adds the two facets of a point of the rim and the next one.
fn push_blades<A: Allocator>(list: &mut Vec<Facet, A>, number: u32) -> Result<(), AllocError>
    requires { number < 2100 }
{
    let low = in_range(Point::new(0, 0, 0))?;
    let high = in_range(Point::new(0, 0, 2))?;
    let one = in_range(rim_point(number))?;
    let next = in_range(rim_point(number + 1))?;
    list.push(Facet::of(low, next, one))?;
    list.push(Facet::of(high, one, next))?;
    Ok(())
}

/// A rim of 2,100 points, each joined to two others: more facets at these than the steps along chains allow for.
fn fan<A: Allocator + Copy>(alloc: A) -> Result<Vec<Facet, A>, AllocError> {
    let mut list = Vec::new(alloc);
    for number in 0..2100 {
        push_blades(&mut list, number)?;
    }
    Ok(list)
}

#[test]
fn vertices_of_many_facets(rt: HostRuntime) {
    assert!(rt; welded_counts(rt.alloc(), fan(rt.alloc())) == Some((4200, 0, 2102, 6300)));
}

/// A point of a line on which the table of corners has the same first slot for each, as long as it has at most 2^20 slots.
fn crowded_point(number: u32) -> Option<Point> {
    let number = (number % 200) as i32;
    Point::new(number * 192, number * 742, number * 651)
}

/// The number of tetrahedra that are made of such points, four each: more points than the table looks at slots for one of them.
const TETRAHEDRA: u32 = 25;

/// Adds two facets of a tetrahedron of such points, the first two or else the last two.
fn push_half<A: Allocator>(
    list: &mut Vec<Facet, A>,
    number: u32,
    is_first: bool,
) -> Result<(), AllocError> {
    let before = number % TETRAHEDRA * 4;
    // the point 0 is one of the rings
    let a = in_range(crowded_point(before + 1))?;
    let b = in_range(crowded_point(before + 2))?;
    let c = in_range(crowded_point(before + 3))?;
    let d = in_range(crowded_point(before + 4))?;
    if is_first {
        list.push(Facet::of(a, b, c))?;
        list.push(Facet::of(b, a, d))?;
    } else {
        list.push(Facet::of(a, c, d))?;
        list.push(Facet::of(b, d, c))?;
    }
    Ok(())
}

/// Adds that half of each tetrahedron.
fn push_halves<A: Allocator>(list: &mut Vec<Facet, A>, is_first: bool) -> Result<(), AllocError> {
    for number in 0..TETRAHEDRA {
        push_half(list, number, is_first)?;
    }
    Ok(())
}

/// Adds the rings.
fn push_rings<A: Allocator + Copy>(alloc: A, list: &mut Vec<Facet, A>) -> Result<(), AllocError> {
    let rings = rings(alloc, 4608)?;
    list.extend_from_slice(rings.as_slice())
}

/// The rings between the two halves of the tetrahedra, so that the table has grown when their points come again.
fn crowded_tetrahedra_and_rings<A: Allocator + Copy>(
    alloc: A,
) -> Result<Vec<Facet, A>, AllocError> {
    let mut list = Vec::new(alloc);
    push_halves(&mut list, true)?;
    push_rings(alloc, &mut list)?;
    push_halves(&mut list, false)?;
    Ok(list)
}

/// The rings' 4608 facets, 2304 points and 6912 edges, and 4, 4 and 6 of each tetrahedron.
#[test]
fn points_that_the_table_does_not_hold(rt: HostRuntime) {
    match crowded_tetrahedra_and_rings(rt.alloc()) {
        Ok(facets) => {
            let told = Some((4708, 0, 2404, 7062));
            assert!(rt; counts(fed(rt.alloc(), facets.as_slice(), 1000)) == told);
            assert!(rt; counts(fed_by(&rt, rt.alloc(), facets.as_slice())) == told);
        }
        Err(AllocError) => assert!(rt; false),
    }
}

/// Whether several threads weld the facets as one does.
pub(crate) fn is_welded_alike<R: Threads + Sync>(rt: &R, alloc: Global, facets: &[Facet]) -> bool {
    agree(&fed(alloc, facets, 1000), &fed_by(rt, alloc, facets))
}

/// The same for facets for which there was memory.
fn are_welded_alike<R: Threads + Sync>(
    rt: &R,
    alloc: Global,
    facets: Result<Vec<Facet>, AllocError>,
) -> bool {
    match facets {
        Ok(facets) => is_welded_alike(rt, alloc, facets.as_slice()),
        Err(AllocError) => false,
    }
}

#[test]
fn by_threads(rt: HostRuntime) {
    assert!(rt; are_welded_alike(&rt, rt.alloc(), rings_and_tetrahedron(rt.alloc())));
    assert!(rt; are_welded_alike(&rt, rt.alloc(), fan(rt.alloc())));
}

/// The facets of the fan, whose edges are numbered by sorts at last.
struct KeptOfFan;

impl Count for KeptOfFan {
    fn count(memory: &ShortMemory<Global>) -> Option<usize> {
        match fan(memory) {
            Ok(facets) => kept(fed(memory, facets.as_slice(), 1000)),
            Err(AllocError) => None,
        }
    }
}

#[test]
fn each_allocation_fails_in_turn(rt: HostRuntime) {
    assert!(rt; first_free_turn::<KeptOfFan>(rt.alloc(), ALLOCATIONS, 4200) > Some(30));
}

/// More allocations than a weld asks for.
const ALLOCATIONS: u64 = 600;

/// Several threads weld facets, and each allocation fails in turn until none is left to fail. Returns which turn that was. It is
/// `None` if a weld with a failed allocation returned anything but `Memory`, the last one has other counts, or `ALLOCATIONS`
/// turns do not suffice.
pub(crate) fn first_free_turn_by<R: Threads + Sync>(
    rt: &R,
    alloc: Global,
    facets: &[Facet],
    usual: Counts,
) -> Option<u64> {
    for turn in 1..ALLOCATIONS {
        let memory = ShortMemory::new(alloc, turn);
        let found = fed_by(rt, &memory, facets);
        if !memory.has_failed() {
            return (counts(found) == Some(usual)).then_some(turn);
        }
        if found.err() != Some(WeldFault::Memory) {
            return None;
        }
    }
    None
}

#[test]
fn each_allocation_by_threads_fails_in_turn(rt: HostRuntime) {
    let usual = (4608, 0, 2304, 6912);
    match rings(rt.alloc(), 4608) {
        Ok(facets) => {
            assert!(rt; first_free_turn_by(&rt, rt.alloc(), facets.as_slice(), usual) > Some(30));
        }
        Err(AllocError) => assert!(rt; false),
    }
}
