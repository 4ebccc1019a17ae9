//! Outlines: worked meshes, to the nearest half-micrometre, and allocations that fail.
use crate::sessions::{fitted, open};
use contour::{loops, segments};
use exact_cut::Centre;
use layer_session::{Outlines, PlanePoint, Session, SessionFault};
use mesh_weld::{Solid, probe};
use raster::Rule;
use short_memory::ShortMemory;
use std::alloc::{AllocError, Allocator, Global};
use test_meshes::{BOX, CUBE, CUBE_AND_PAIR, HOLLOW_CUBE, OCTAHEDRON, Part, TWO_CUBES};
use test_solids::solid_of;

/// Points, each as `X2 Y2` in half-micrometres.
macro_rules! points {
    ($($x2:literal $y2:literal),*) => {
        [$(PlanePoint { x2: $x2, y2: $y2 }),*]
    };
}

/// The cube at half a micrometre: the diagonals of its sides are cut next to their lower ends.
static LOW: [PlanePoint; 8] = points![1 0, 4 0, 4 1, 4 4, 1 4, 0 4, 0 1, 0 0];

/// The same at one and a half.
static HIGH: [PlanePoint; 8] = points![3 0, 4 0, 4 3, 4 4, 3 4, 0 4, 0 3, 0 0];

/// The outlines of a layer of the session of a mesh's text.
fn outlines_of(
    alloc: Global,
    parts: &[Part<'_>],
    size: u32,
    k: u32,
) -> Result<Outlines<Global>, SessionFault> {
    open(alloc, parts, &fitted(size, Rule::NonZero))?.outlines(k)
}

/// Whether these are exactly the outlines of a layer.
fn are_points(found: &Outlines<Global>, told: &[&[PlanePoint]]) -> bool {
    for (number, outline) in told.iter().enumerate() {
        if found.get(number) != Some(*outline) {
            return false;
        }
    }
    found.count() == told.len() && found.get(told.len()).is_none()
}

/// Whether a layer of the session of a mesh's text has just these outlines.
fn has_outlines(
    alloc: Global,
    parts: &[Part<'_>],
    size: u32,
    k: u32,
    told: &[&[PlanePoint]],
) -> bool {
    match outlines_of(alloc, parts, size, k) {
        Ok(found) => are_points(&found, told),
        Err(_) => false,
    }
}

#[test]
fn a_cube_counterclockwise(rt: HostRuntime) {
    assert!(rt; has_outlines(rt.alloc(), CUBE, 1, 0, &[&LOW]));
    assert!(rt; has_outlines(rt.alloc(), CUBE, 1, 1, &[&HIGH]));
}

/// Its widest plane passes through four of its corners, and three steps up is the square of a quarter of the width.
#[test]
fn an_octahedron(rt: HostRuntime) {
    let widest = points![4 0, 0 4, -4 0, 0 -4];
    assert!(rt; has_outlines(rt.alloc(), OCTAHEDRON, 4, 0, &[&widest]));
    let near_the_top = points![1 0, 0 1, -1 0, 0 -1];
    assert!(rt; has_outlines(rt.alloc(), OCTAHEDRON, 1, 3, &[&near_the_top]));
}

/// Whether a layer of the session of a mesh's text has just these two outlines, which end at these points. The second one
/// starts at the point after the first.
fn has_two(
    alloc: Global,
    parts: &[Part<'_>],
    size: u32,
    k: u32,
    [first, second]: [&[PlanePoint]; 2],
) -> bool {
    let (middle, end) = (first.len(), first.len().saturating_add(second.len()));
    match outlines_of(alloc, parts, size, k) {
        Ok(found) => {
            are_points(&found, &[first, second])
                && found.ends() == [middle, end].as_slice()
                && found.points().len() == end
                && found.points().get(middle) == second.first()
        }
        Err(_) => false,
    }
}

/// The two facets beside the cube share two of its nodes.
#[test]
fn loops_that_touch(rt: HostRuntime) {
    let pair = points![4 1, 4 4];
    assert!(rt; has_two(rt.alloc(), CUBE_AND_PAIR, 1, 0, [&LOW, &pair]));
}

#[test]
fn two_cubes_that_overlap(rt: HostRuntime) {
    let near = points![6 0, 8 0, 8 6, 8 8, 6 8, 0 8, 0 6, 0 0];
    let far = points![6 4, 12 4, 12 6, 12 12, 6 12, 4 12, 4 6, 4 4];
    assert!(rt; has_two(rt.alloc(), TWO_CUBES, 2, 1, [&near, &far]));
}

/// The ends of a segment of an outline: the last one ends where the first starts.
fn segment_of(outline: &[PlanePoint], number: usize) -> Option<(PlanePoint, PlanePoint)> {
    let from = outline.get(number)?;
    let to = match outline.get(number.checked_add(1)?) {
        Some(next) => next,
        None => outline.first()?,
    };
    Some((*from, *to))
}

/// Whether a segment along x or y has the solid half a micrometre left of its middle, and not as far right of it.
fn has_solid_on_left(
    solid: &Solid<Global>,
    (from, to): (PlanePoint, PlanePoint),
    z2: i64,
) -> Option<bool> {
    let x2 = from.x2.saturating_add(to.x2) / 2;
    let y2 = from.y2.saturating_add(to.y2) / 2;
    let ahead_x = to.x2.saturating_sub(from.x2).signum();
    let ahead_y = to.y2.saturating_sub(from.y2).signum();
    let left = Centre::new(x2.saturating_sub(ahead_y), y2.saturating_add(ahead_x), z2)?;
    let right = Centre::new(x2.saturating_add(ahead_y), y2.saturating_sub(ahead_x), z2)?;
    Some(probe(solid, &left) == (1, 1) && probe(solid, &right) == (0, 0))
}

/// Whether each segment of an outline has the solid on its left and not on its right.
fn have_solid_on_left(solid: &Solid<Global>, outline: &[PlanePoint], z2: i64) -> Option<bool> {
    for number in 0..outline.len() {
        if !has_solid_on_left(solid, segment_of(outline, number)?, z2)? {
            return Some(false);
        }
    }
    Some(true)
}

/// Twice the area between a segment and the origin, in square half-micrometres, below 0 if the origin is on its right.
fn doubled_area_to(from: PlanePoint, to: PlanePoint) -> i64 {
    let forth = from.x2.saturating_mul(to.y2);
    forth.saturating_sub(to.x2.saturating_mul(from.y2))
}

/// Twice the area within an outline, in square half-micrometres: below 0 if it runs clockwise, seen from above.
fn doubled_area(outline: &[PlanePoint]) -> Option<i64> {
    let mut sum = 0i64;
    for number in 0..outline.len() {
        let (from, to) = segment_of(outline, number)?;
        sum = sum.saturating_add(doubled_area_to(from, to));
    }
    Some(sum)
}

/// An outline, and twice the area within it.
type Told<'a> = (&'a [PlanePoint], i64);

/// Whether these are just these outlines of a solid at a height in half-micrometres, with the solid on the left of their
/// segments.
fn are_told(
    solid: &Solid<Global>,
    found: &Outlines<Global>,
    z2: i64,
    told: &[Told<'_>],
) -> Option<bool> {
    for (number, (points, area)) in told.iter().enumerate() {
        let outline = found.get(number)?;
        if outline != *points
            || doubled_area(outline) != Some(*area)
            || !have_solid_on_left(solid, outline, z2)?
        {
            return Some(false);
        }
    }
    Some(found.count() == told.len())
}

/// The outlines of a solid in the plane of a centre.
fn outlined(
    alloc: Global,
    solid: &Solid<Global>,
    at: &Centre,
) -> Result<Outlines<Global>, AllocError> {
    let list = segments(alloc, solid, at.z2())?;
    let linked = loops(alloc, solid, at.z2(), list)?;
    Outlines::of(alloc, solid, linked, at.z2())
}

/// Whether a mesh has just these outlines at a height in half-micrometres, and the solid on the left of their segments.
fn are_outlines(alloc: Global, parts: &[Part<'_>], z2: i64, told: &[Told<'_>]) -> Option<bool> {
    let at = Centre::new(0, 0, z2)?;
    let Ok(solid) = solid_of(alloc, parts) else {
        return None;
    };
    match outlined(alloc, &solid, &at) {
        Ok(found) => are_told(&solid, &found, z2, told),
        Err(_) => None,
    }
}

/// The first has the solid within it and the second, the cavity's, around it. No coordinate is odd, so that each segment
/// has a middle.
const AROUND_A_CAVITY: &[Told] = &[
    (&points![6 0, 16 0, 16 6, 16 16, 6 16, 0 16, 0 6, 0 0], 512),
    (&points![12 4, 6 4, 4 4, 4 6, 4 12, 6 12, 12 12, 12 6], -128),
];

#[test]
fn a_cavity_clockwise(rt: HostRuntime) {
    assert!(rt; are_outlines(rt.alloc(), HOLLOW_CUBE, 6, AROUND_A_CAVITY) == Some(true));
}

/// A box one micrometre wide and two high, left of 0: its diagonals are cut at a half of a half-micrometre.
const NARROW: &[Part] = &[(
    &[
        [-1, 0, 0],
        [-1, 0, 2],
        [-1, 1, 0],
        [-1, 1, 2],
        [0, 0, 0],
        [0, 0, 2],
        [0, 1, 0],
        [0, 1, 2],
    ],
    BOX,
)];

#[test]
fn halves_are_rounded_upward(rt: HostRuntime) {
    let low = points![-1 0, 0 0, 0 1, 0 2, -1 2, -2 2, -2 1, -2 0];
    let high = points![0 0, 0 0, 0 2, 0 2, 0 2, -2 2, -2 2, -2 0];
    assert!(rt; has_outlines(rt.alloc(), NARROW, 1, 0, &[&low]));
    assert!(rt; has_outlines(rt.alloc(), NARROW, 1, 1, &[&high]));
}

const OUTSIDE: SessionFault = SessionFault::Outside {
    columns: 2,
    rows: 2,
    layers: 2,
};

/// Whether a layer of the cube's session is outside.
fn is_outside(session: &Session<Global>, k: u32) -> bool {
    match session.outlines(k) {
        Ok(_found) => false,
        Err(fault) => fault == OUTSIDE,
    }
}

#[test]
fn no_outlines_outside_the_grid(rt: HostRuntime) {
    match open(rt.alloc(), CUBE, &fitted(1, Rule::NonZero)) {
        Ok(session) => {
            assert!(rt; is_outside(&session, 2) && is_outside(&session, u32::MAX));
        }
        Err(_) => assert!(rt; false),
    }
}

/// The numbers of loops and of points of a layer.
fn counts<A: Allocator + Copy + Send + Sync>(
    session: &Session<A>,
) -> Result<(usize, usize), SessionFault> {
    match session.outlines(1) {
        Ok(found) => Ok((found.count(), found.points().len())),
        Err(fault) => Err(fault),
    }
}

/// The same of the session of two cubes, asked once more if there was no memory for the outlines.
fn counts_at_last(memory: &ShortMemory<Global>) -> Result<(usize, usize), SessionFault> {
    match open(memory, TWO_CUBES, &fitted(2, Rule::NonZero)) {
        Ok(session) => match counts(&session) {
            Err(SessionFault::Memory) => counts(&session),
            other => other,
        },
        Err(fault) => Err(fault),
    }
}

/// Fails each allocation in turn until none is left to fail. Returns how many of them gave `Memory`, and how many were mended by
/// the next try. It is `None` if a result was another.
fn failures(alloc: Global) -> Option<(u32, u32)> {
    let (mut told, mut tried) = (0u32, 0u32);
    for turn in 1..2000u64 {
        let memory = ShortMemory::new(alloc, turn);
        let found = counts_at_last(&memory);
        if !memory.has_failed() {
            return (found == Ok((2, 16))).then_some((told, tried));
        }
        if found == Err(SessionFault::Memory) {
            told = told.saturating_add(1);
        } else if found == Ok((2, 16)) {
            tried = tried.saturating_add(1);
        } else {
            return None;
        }
    }
    None
}

#[test]
fn memory_that_fails_is_told(rt: HostRuntime) {
    match failures(rt.alloc()) {
        Some((told, tried)) => assert!(rt; told > 10 && tried > 2),
        None => assert!(rt; false),
    }
}
