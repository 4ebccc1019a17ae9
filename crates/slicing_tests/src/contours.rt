//! Loops and sweeps: worked meshes with ample memory, and allocations that fail.
ghost use Rattle.std.specs.Prelude.{◌≡◌};
ghost use Rattle.plane_segments.specs.Segment.{segments as all_segments};
ghost use Rattle.contour.specs.Loops.{loops as all_loops};

use contour::{Linker, Loops, Segment, Sweep, loop_ray, loops, segments};
use exact_cut::Centre;
use mesh_weld::Solid;
use short_memory::{Count, ShortMemory, first_free_turn};
use std::alloc::{AllocError, Allocator, Global};
use test_meshes::{CUBE, CUBE_AND_PAIR, OCTAHEDRON, Part, TWO_CUBES};
use test_solids::solid_of;

/// The facets of a loop, and the ray through it from a centre in its plane.
type Told<'a> = (&'a [u32], i32);

fn is_of_facets(part: &[Segment], facets: &[u32]) -> bool {
    for (segment, facet) in part.iter().zip(facets) {
        if segment.facet != *facet {
            return false;
        }
    }
    part.len() == facets.len()
}

/// Whether the loops of the plane of a centre are just these.
fn are_loops(s: &Solid<Global>, centre: &Centre, found: &Loops<Global>, told: &[Told<'_>]) -> bool
    requires { found.now ≡ all_loops (all_segments s.now.facets centre.now.z) }
{
    for (n, (facets, ray)) in told.iter().enumerate() {
        match found.get(n) {
            Some(part) if is_of_facets(part, facets) && loop_ray(s, part, centre) == *ray => {}
            _ => return false,
        }
    }
    found.count() == told.len()
}

/// A mesh, a centre in half-micrometres, and the loops of the centre's plane.
type Plane<'a> = (&'a [Part<'a>], [i64; 3], &'a [Told<'a>]);

/// Whether a solid has just these loops in the plane of a centre.
fn has_loops(
    alloc: Global,
    solid: &Solid<Global>,
    centre: &Centre,
    told: &[Told<'_>],
) -> Result<bool, AllocError> {
    let list = segments(alloc, solid, centre.z2())?;
    let found = loops(alloc, solid, centre.z2(), list)?;
    Ok(are_loops(solid, centre, &found, told))
}

fn is_plane(alloc: Global, (parts, [x2, y2, z2], told): Plane<'_>) -> bool {
    match (Centre::new(x2, y2, z2), solid_of(alloc, parts)) {
        (Some(centre), Ok(solid)) => has_loops(alloc, &solid, &centre, told) == Ok(true),
        _ => false,
    }
}

const NEAR_LOOP: &[u32] = &[4, 11, 10, 7, 6, 9, 8, 5];

const FAR_LOOP: &[u32] = &[16, 23, 22, 19, 18, 21, 20, 17];

static PLANES: [Plane; 8] = [
    (CUBE, [1, 1, 1], &[(NEAR_LOOP, 1)]),
    (CUBE, [1, 1, 3], &[(NEAR_LOOP, 1)]),
    (CUBE_AND_PAIR, [1, 1, 1], &[(NEAR_LOOP, 1), (&[12, 13], 0)]),
    (CUBE_AND_PAIR, [1, 1, 3], &[(NEAR_LOOP, 1), (&[12, 13], 0)]),
    (OCTAHEDRON, [0, 0, 0], &[(&[0, 1, 2, 3], 1)]),
    (OCTAHEDRON, [0, 0, 4], &[]),
    (TWO_CUBES, [6, 6, 6], &[(NEAR_LOOP, 1), (FAR_LOOP, 1)]),
    (TWO_CUBES, [2, 2, 6], &[(NEAR_LOOP, 1), (FAR_LOOP, 0)]),
];

/// `Ok`, or the number of the first plane with other loops.
fn all_planes(alloc: Global, planes: &[Plane<'_>]) -> Result<(), usize> {
    for (n, plane) in planes.iter().enumerate() {
        if !is_plane(alloc, *plane) {
            return Err(n);
        }
    }
    Ok(())
}

#[test]
fn loops_of_planes_and_rays_through_them(rt: HostRuntime) -> Result<(), usize> {
    all_planes(rt.alloc(), &PLANES)
}

/// Whether a plane has this count of loops, by a linker that may have linked others.
fn is_count(
    alloc: Global,
    linker: &mut Linker<Global>,
    solid: &Solid<Global>,
    (z2, count): (u8, usize),
) -> bool {
    let Ok(list) = segments(alloc, solid, i64::from(z2)) else {
        return false;
    };
    match linker.loops(solid, list.as_slice()) {
        Ok(found) => found.count() == count,
        Err(_) => false,
    }
}

/// Whether planes of a solid have these counts of loops, by one linker for all.
fn are_counts(
    alloc: Global,
    linker: &mut Linker<Global>,
    solid: &Solid<Global>,
    planes: &[(u8, usize)],
) -> bool {
    for plane in planes {
        if !is_count(alloc, linker, solid, *plane) {
            return false;
        }
    }
    true
}

/// The same of two cubes.
fn are_counts_of_cubes(alloc: Global, planes: &[(u8, usize)]) -> bool {
    let Ok(solid) = solid_of(alloc, TWO_CUBES) else {
        return false;
    };
    are_counts(alloc, &mut Linker::new(alloc), &solid, planes)
}

static COUNTS: [(u8, usize); 4] = [(2, 1), (6, 2), (12, 0), (10, 1)];

#[test]
fn planes_of_one_linker(rt: HostRuntime) {
    assert!(rt; are_counts_of_cubes(rt.alloc(), &COUNTS));
}

/// A height of a sweep, how many facets it has passed there, and those that it cuts.
type Stand<'a> = (u8, u32, &'a [u32]);

/// Raises a sweep to a height, unless it is there, and returns whether it is there with these facets then.
fn stands_at(sweep: &mut Sweep<'_, Global>, (height, passed, active): Stand<'_>) -> bool {
    let height = i64::from(height);
    if sweep.height() < height && sweep.advance(height).is_err() {
        return false;
    }
    sweep.height() == height && sweep.passed() == passed && sweep.active() == active
}

/// Whether a sweep has these facets at each of these heights, in turn.
fn are_stands(sweep: &mut Sweep<'_, Global>, stands: &[Stand<'_>]) -> bool {
    for stand in stands {
        if !stands_at(sweep, *stand) {
            return false;
        }
    }
    true
}

/// The same of a sweep through two cubes.
fn are_stands_in_cubes(alloc: Global, stands: &[Stand<'_>]) -> bool {
    let Ok(solid) = solid_of(alloc, TWO_CUBES) else {
        return false;
    };
    match Sweep::start(alloc, &solid, 2) {
        Ok(mut sweep) => are_stands(&mut sweep, stands),
        Err(_) => false,
    }
}

static STANDS: [Stand; 4] = [
    (2, 10, &[4, 5, 6, 7, 8, 9, 10, 11]),
    (
        6,
        20,
        &[4, 5, 6, 7, 8, 9, 10, 11, 16, 17, 18, 19, 20, 21, 22, 23],
    ),
    (10, 22, &[16, 17, 18, 19, 20, 21, 22, 23]),
    (12, 24, &[]),
];

#[test]
fn plane_through_two_cubes(rt: HostRuntime) {
    assert!(rt; are_stands_in_cubes(rt.alloc(), &STANDS));
}

/// How many loops a mesh has at a height.
fn count_loops<A: Allocator + Copy + Send + Sync>(
    alloc: A,
    parts: &[Part<'_>],
    z2: u8,
) -> Option<usize> {
    let Ok(solid) = solid_of(alloc, parts) else {
        return None;
    };
    let Ok(list) = segments(alloc, &solid, i64::from(z2)) else {
        return None;
    };
    match loops(alloc, &solid, i64::from(z2), list) {
        Ok(found) => Some(found.count()),
        Err(_) => None,
    }
}

/// The loops of a box and a pair of facets.
struct BoxLoops;

impl Count for BoxLoops {
    fn count(memory: &ShortMemory<Global>) -> Option<usize> {
        count_loops(memory, CUBE_AND_PAIR, 1)
    }
}

/// The loops of two cubes in the plane that cuts both.
struct TwoCubesLoops;

impl Count for TwoCubesLoops {
    fn count(memory: &ShortMemory<Global>) -> Option<usize> {
        count_loops(memory, TWO_CUBES, 6)
    }
}

#[test]
fn each_allocation_of_loops_fails(rt: HostRuntime) {
    assert!(rt; first_free_turn::<BoxLoops>(rt.alloc(), 200, 2) > Some(8));
    assert!(rt; first_free_turn::<TwoCubesLoops>(rt.alloc(), 200, 2) > Some(8));
}

/// How many loops a plane of a mesh has, by a linker that links them once before if `is_again`.
fn count_again<A: Allocator + Copy + Send + Sync>(
    alloc: A,
    linker: &mut Linker<A>,
    solid: &Solid<A>,
    z2: u8,
    is_again: bool,
) -> Option<usize> {
    let Ok(list) = segments(alloc, solid, i64::from(z2)) else {
        return None;
    };
    if is_again && linker.loops(solid, list.as_slice()).is_err() {
        return None;
    }
    match linker.loops(solid, list.as_slice()) {
        Ok(found) => Some(found.count()),
        Err(_) => None,
    }
}

/// The same by a new linker.
fn count_linked<A: Allocator + Copy + Send + Sync>(
    alloc: A,
    parts: &[Part<'_>],
    z2: u8,
    is_again: bool,
) -> Option<usize> {
    let Ok(solid) = solid_of(alloc, parts) else {
        return None;
    };
    count_again(alloc, &mut Linker::new(alloc), &solid, z2, is_again)
}

struct OneLoop;

impl Count for OneLoop {
    fn count(memory: &ShortMemory<Global>) -> Option<usize> {
        count_linked(memory, TWO_CUBES, 2, false)
    }
}

struct OneLoopAgain;

impl Count for OneLoopAgain {
    fn count(memory: &ShortMemory<Global>) -> Option<usize> {
        count_linked(memory, TWO_CUBES, 2, true)
    }
}

struct TwoLoops;

impl Count for TwoLoops {
    fn count(memory: &ShortMemory<Global>) -> Option<usize> {
        count_linked(memory, TWO_CUBES, 6, false)
    }
}

struct TwoLoopsAgain;

impl Count for TwoLoopsAgain {
    fn count(memory: &ShortMemory<Global>) -> Option<usize> {
        count_linked(memory, TWO_CUBES, 6, true)
    }
}

/// How many allocations the second count makes beyond those of the first.
fn more_allocations<F: Count, S: Count>(alloc: Global, usual: usize) -> Option<u64> {
    let first = first_free_turn::<F>(alloc, 200, usual)?;
    first_free_turn::<S>(alloc, 200, usual)?.checked_sub(first)
}

/// A linker that has the memory for a plane takes some for the list of its segments, and for the ends of its loops only
/// if there are several.
#[test]
fn one_loop_takes_one_allocation(rt: HostRuntime) {
    assert!(rt; more_allocations::<OneLoop, OneLoopAgain>(rt.alloc(), 1) == Some(1));
    assert!(rt; more_allocations::<TwoLoops, TwoLoopsAgain>(rt.alloc(), 2) == Some(2));
}
