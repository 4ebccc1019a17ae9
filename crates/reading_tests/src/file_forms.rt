//! Meshes as text: a keyword or a vertex a line, and coordinates in millimetres with three decimals.
use micro_num::Unit;
use std::alloc::Global;
use stl_text::{Facet, Point, read_stl};
use test_meshes::published::FARTHEST;
use test_meshes::{
    BEAM, BOX, COLUMN, CORNERS as CUBE_CORNERS, CUBE, CUBE_AND_FLAT, CUBE_AND_PAIR, CUBE_OF_THREE,
    INWARD_CUBE, LONG_BEAM, NINE_IN_A_ROW, OCTAHEDRON, ONE_INWARD, Part, SHEET, TOUCHING,
    TWO_CUBES, facets_of, text_of_facets,
};

/// The facets that a text is read as.
fn read(alloc: Global, text: &str) -> Option<Vec<Facet>> {
    read_stl(alloc, text.as_bytes(), Unit::Millimetre).ok()
}

/// Whether a text is read as just these facets.
fn is_read_as(alloc: Global, text: &str, facets: &[Facet]) -> bool {
    match read(alloc, text) {
        Some(found) => found.as_slice() == facets,
        None => false,
    }
}

/// Whether the text of facets is this long, and is read as just these.
fn is_told(alloc: Global, facets: &[Facet], len: usize) -> bool {
    match text_of_facets(alloc, facets) {
        Ok(text) => text.len() == len && is_read_as(alloc, text.as_str(), facets),
        Err(_) => false,
    }
}

/// Whether the text of a mesh is this long, and is read as just its facets.
fn is_read(alloc: Global, parts: &[Part<'_>], len: usize) -> bool {
    match facets_of(alloc, parts) {
        Ok(facets) => is_told(alloc, facets.as_slice(), len),
        Err(_) => false,
    }
}

#[test]
fn meshes_are_read_from_their_texts(rt: HostRuntime) {
    for (parts, len) in [
        (CUBE, 1483),
        (CUBE_AND_PAIR, 1727),
        (CUBE_AND_FLAT, 1605),
        (CUBE_OF_THREE, 1483),
        (INWARD_CUBE, 1483),
        (TOUCHING, 2947),
        (TWO_CUBES, 2947),
        (ONE_INWARD, 2947),
        (SHEET, 263),
        (NINE_IN_A_ROW, 1483),
        (COLUMN, 1483),
        (BEAM, 1501),
        (LONG_BEAM, 1501),
        (OCTAHEDRON, 1007),
    ] {
        assert!(rt; is_read(rt.alloc(), parts, len));
    }
}

/// The cube without its first facet. It is open, which the weld refuses and reading does not.
#[test]
fn an_open_mesh_is_read_from_its_text(rt: HostRuntime) {
    let open_cube: &[Part] = &[(CUBE_CORNERS, &BOX[1..])];
    assert!(rt; is_read(rt.alloc(), open_cube, 1361));
}

/// A facet below 0, and one at the ends of the range.
const FAR_AND_NEAR: &str = "solid t
facet normal 0 0 0
outer loop
vertex -0.002 0.000 -12.345
vertex 0.000 -0.010 0.100
vertex -1.000 -0.999 -10.001
endloop
endfacet
facet normal 0 0 0
outer loop
vertex -128000.000 128000.000 -0.001
vertex 127999.999 -127999.999 0.001
vertex 16.385 -16.385 -0.000
endloop
endfacet
endsolid t
";

/// The corners of its facets, in micrometres.
static CORNERS: [[i32; 3]; 6] = [
    [-2, 0, -TWELVE],
    [0, -10, 100],
    [-1000, -999, -TEN],
    [-FARTHEST, FARTHEST, -1],
    [FARTHEST - 1, 1 - FARTHEST, 1],
    [SIXTEEN, -SIXTEEN, 0],
];

/// 10.001, 12.345 and 16.385 mm.
const TEN: i32 = 10_001;

const TWELVE: i32 = 12_345;

const SIXTEEN: i32 = 16_385;

/// Whether a facet has these corners.
fn has_corners(facet: &Facet, corners: &[[i32; 3]]) -> bool {
    for (point, corner) in facet.0.iter().zip(corners) {
        let [x, y, z] = *corner;
        if point.x() != x || point.y() != y || point.z() != z {
            return false;
        }
    }
    corners.len() == 3
}

/// Whether these are the two facets with those corners.
fn are_far_and_near(facets: &[Facet]) -> bool {
    match facets {
        [first, second] => has_corners(first, &CORNERS[..3]) && has_corners(second, &CORNERS[3..]),
        _ => false,
    }
}

#[test]
fn numbers_below_zero(rt: HostRuntime) {
    match read(rt.alloc(), FAR_AND_NEAR) {
        Some(facets) => assert!(rt; are_far_and_near(facets.as_slice())),
        None => assert!(rt; false),
    }
}
