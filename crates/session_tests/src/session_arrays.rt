//! Sessions of arrays: the answer is that of the text of the same facets, each fault names the first triangle that has one, and
//! memory that fails is told.
use crate::session_binaries::is_binary_as_text;
use crate::session_chunks::are_answers_same;
use crate::sessions::{fitted, reads};
use layer_session::{ArrayFault, Session, SessionFault, Setup};
use micro_num::Unit;
use raster::Rule;
use short_memory::ShortMemory;
use std::alloc::{AllocError, Global};
use test_meshes::{
    BOX, CORNERS, CUBE, CUBE_AND_FLAT, HOLLOW_CUBE, OCTAHEDRON, ONE_INWARD, Part, SHEET, TWO_CUBES,
    text_of,
};

/// The points of all parts of a mesh by tables, one part after the other.
fn points_of(alloc: Global, parts: &[Part<'_>]) -> Result<Vec<[i32; 3]>, AllocError> {
    let mut points = Vec::new(alloc);
    for (corners, _) in parts {
        points.extend_from_slice(corners)?;
    }
    Ok(points)
}

/// Appends the triangles of a part, whose first point has this number.
fn push_triangles(
    triangles: &mut Vec<[u32; 3]>,
    first: u32,
    facets: &[[u8; 3]],
) -> Result<(), AllocError> {
    for [a, b, c] in facets {
        triangles.push([
            first.saturating_add(u32::from(*a)),
            first.saturating_add(u32::from(*b)),
            first.saturating_add(u32::from(*c)),
        ])?;
    }
    Ok(())
}

/// The triangles of all parts of a mesh by tables.
fn triangles_of(alloc: Global, parts: &[Part<'_>]) -> Result<Vec<[u32; 3]>, AllocError> {
    let mut triangles = Vec::new(alloc);
    let mut first = 0u32;
    for (corners, facets) in parts {
        push_triangles(&mut triangles, first, facets)?;
        first = first.saturating_add(u32::try_from(corners.len()).unwrap_or(u32::MAX));
    }
    Ok(triangles)
}

/// Whether arrays and the text of the same facets have the same answer.
fn are_arrays_as_text(
    alloc: Global,
    parts: &[Part<'_>],
    setup: &Setup,
) -> Result<bool, AllocError> {
    let points = points_of(alloc, parts)?;
    let triangles = triangles_of(alloc, parts)?;
    let text = text_of(alloc, parts)?;
    let found = Session::open_mesh(alloc, points.as_slice(), triangles.as_slice(), setup);
    let told = Session::open(alloc, text.as_bytes(), setup);
    Ok(are_answers_same(&found, &told))
}

#[test]
fn arrays_and_binary_files_are_as_their_text(rt: HostRuntime) {
    let alloc = rt.alloc();
    let open_box: &[Part] = &[(CORNERS, &BOX[1..])];
    for parts in [
        CUBE,
        CUBE_AND_FLAT,
        TWO_CUBES,
        ONE_INWARD,
        HOLLOW_CUBE,
        OCTAHEDRON,
        SHEET,
        open_box,
        &[],
    ] {
        for rule in [Rule::EvenOdd, Rule::NonZero, Rule::Positive] {
            let setup = fitted(1, rule);
            assert!(rt; are_arrays_as_text(alloc, parts, &setup) == Ok(true));
            assert!(rt; is_binary_as_text(alloc, parts, &setup) == Ok(true));
        }
        let without_size = fitted(0, Rule::NonZero);
        assert!(rt; are_arrays_as_text(alloc, parts, &without_size) == Ok(true));
        assert!(rt; is_binary_as_text(alloc, parts, &without_size) == Ok(true));
    }
}

/// The fault of arrays that open no session.
fn fault_of(alloc: Global, points: &[[i32; 3]], triangles: &[[u32; 3]]) -> Option<SessionFault> {
    match Session::open_mesh(alloc, points, triangles, &fitted(1, Rule::NonZero)) {
        Ok(_session) => None,
        Err(fault) => Some(fault),
    }
}

const FAR: i32 = 128_000_000;

/// Points: two in range, at its ends, then three beyond it, along x, y and z.
const POINTS: &[[i32; 3]] = &[
    [FAR, -FAR, FAR],
    [0, 0, 0],
    [FAR + 1, 0, 0],
    [0, -FAR - 1, 0],
    [0, 0, i32::MIN],
];

fn missing(triangle: usize, point: u32) -> Option<SessionFault> {
    Some(SessionFault::Arrays(ArrayFault::Missing { triangle, point }))
}

fn out(triangle: usize, point: u32) -> Option<SessionFault> {
    Some(SessionFault::Arrays(ArrayFault::OutOfRange { triangle, point }))
}

#[test]
fn the_first_fault_is_named(rt: HostRuntime) {
    let alloc = rt.alloc();
    assert!(rt; fault_of(alloc, POINTS, &[[0, 1, 5]]) == missing(0, 5));
    assert!(rt; fault_of(alloc, POINTS, &[[0, 1, 0], [1, u32::MAX, 2]]) == missing(1, u32::MAX));
    assert!(rt; fault_of(alloc, POINTS, &[[0, 1, 0], [1, 2, 9]]) == out(1, 2));
    assert!(rt; fault_of(alloc, POINTS, &[[3, 9, 9], [9, 9, 9]]) == out(0, 3));
    assert!(rt; fault_of(alloc, POINTS, &[[1, 1, 4]]) == out(0, 4));
    assert!(rt; fault_of(alloc, &[], &[[0, 0, 0]]) == missing(0, 0));
    // points that no triangle has may lie anywhere
    assert!(rt;
        matches!(
            fault_of(alloc, POINTS, &[[0, 1, 0]]),
            Some(SessionFault::Grid(_))
        )
    );
}

#[test]
fn the_lines_name_the_triangle(rt: HostRuntime) {
    let missing = SessionFault::Arrays(ArrayFault::Missing {
        triangle: 3,
        point: 7,
    });
    let out = SessionFault::Arrays(ArrayFault::OutOfRange {
        triangle: 3,
        point: 7,
    });
    let many = SessionFault::Arrays(ArrayFault::TooMany {
        triangle: 1_048_576,
    });
    assert!(rt; reads(rt.alloc(), &missing, "point 7 of triangle 3 is missing"));
    assert!(rt; reads(rt.alloc(), &out, "point 7 of triangle 3 is out of range"));
    assert!(rt; reads(rt.alloc(), &many, "too many facets at triangle 1048576"));
}

/// Whether arrays have a session in inches, and it is that in millimetres.
fn is_same_in_inches(alloc: Global, points: &[[i32; 3]], triangles: &[[u32; 3]]) -> bool {
    let setup = fitted(1, Rule::EvenOdd);
    let inches = Setup {
        unit: Unit::Inch,
        ..setup
    };
    let found = Session::open_mesh(alloc, points, triangles, &inches);
    let told = Session::open_mesh(alloc, points, triangles, &setup);
    found.is_ok() && are_answers_same(&found, &told)
}

/// The same for the arrays of the cube.
fn is_cube_same_in_inches(alloc: Global) -> Result<bool, AllocError> {
    let points = points_of(alloc, CUBE)?;
    let triangles = triangles_of(alloc, CUBE)?;
    Ok(is_same_in_inches(alloc, points.as_slice(), triangles.as_slice()))
}

/// The unit is of a text's numbers alone.
#[test]
fn the_unit_is_not_used(rt: HostRuntime) {
    assert!(rt; is_cube_same_in_inches(rt.alloc()) == Ok(true));
}

/// How many facets the session of arrays has.
fn facet_count(
    memory: &ShortMemory<Global>,
    points: &[[i32; 3]],
    triangles: &[[u32; 3]],
) -> Result<usize, SessionFault> {
    match Session::open_mesh(memory, points, triangles, &fitted(1, Rule::NonZero)) {
        Ok(session) => Ok(session.facet_count()),
        Err(fault) => Err(fault),
    }
}

/// Fails each allocation in turn until none is left to fail: how many of them were answered by `Memory`. `None` where an
/// answer was another.
fn failures(alloc: Global, points: &[[i32; 3]], triangles: &[[u32; 3]]) -> Option<u32> {
    let mut told = 0u32;
    for turn in 1..2000u64 {
        let memory = ShortMemory::new(alloc, turn);
        let facets = facet_count(&memory, points, triangles);
        if !memory.has_failed() {
            return (facets == Ok(24)).then_some(told);
        }
        if facets != Err(SessionFault::Memory) {
            return None;
        }
        told = told.saturating_add(1);
    }
    None
}

/// The same for the arrays of two cubes. `None` also if there was no memory for the arrays.
fn failures_of_cubes(alloc: Global) -> Option<u32> {
    let Ok(points) = points_of(alloc, TWO_CUBES) else {
        return None;
    };
    match triangles_of(alloc, TWO_CUBES) {
        Ok(triangles) => failures(alloc, points.as_slice(), triangles.as_slice()),
        Err(AllocError) => None,
    }
}

#[test]
fn memory_that_fails_is_told(rt: HostRuntime) {
    assert!(rt; failures_of_cubes(rt.alloc()) > Some(5));
}
