//! The segments of planes through meshes, also of planes through corners: a corner in the plane counts as below it.
use exact_cut::Centre;
use mesh_weld::Solid;
use plane_segments::{Segment, segments};
use std::alloc::Global;
use test_meshes::{CUBE, CUBE_AND_PAIR, OCTAHEDRON, Part};
use test_solids::solid_of;

/// A segment: its facet, and the vertices of the edge that it comes from and of the edge that it goes to.
type Told = (u32, [u32; 4]);

fn told_of(segment: &Segment) -> Told {
    let Segment { facet, from, to } = *segment;
    (facet, [from.low, from.high, to.low, to.high])
}

/// Whether a list has just these segments.
fn are_told(list: &[Segment], told: &[Told]) -> bool {
    for (found, row) in list.iter().zip(told) {
        if told_of(found) != *row {
            return false;
        }
    }
    list.len() == told.len()
}

/// Whether a solid has just these segments at the height of a centre.
fn is_plane_of(alloc: Global, solid: &Solid<Global>, at: &Centre, told: &[Told]) -> bool {
    match segments(alloc, solid, at.z2()) {
        Ok(list) => are_told(list.as_slice(), told),
        Err(_) => false,
    }
}

/// Whether a mesh has just these segments at a height in half-micrometres.
fn is_plane(alloc: Global, parts: &[Part<'_>], z2: i64, told: &[Told]) -> bool {
    match (Centre::new(0, 0, z2), solid_of(alloc, parts)) {
        (Some(at), Ok(solid)) => is_plane_of(alloc, &solid, &at, told),
        _ => false,
    }
}

/// The first of these heights at which a mesh has other segments.
fn first_other(alloc: Global, parts: &[Part<'_>], heights: &[i64], told: &[Told]) -> Option<i64> {
    for z2 in heights {
        if !is_plane(alloc, parts, *z2, told) {
            return Some(*z2);
        }
    }
    None
}

/// The segments of the cube's sides, and those of the two facets beside it: of facet 10 once more, and of its mirror.
const SIDES_AND_PAIR: &[Told] = &[
    (4, [0, 5, 4, 5]),
    (5, [0, 1, 0, 5]),
    (6, [2, 7, 2, 3]),
    (7, [6, 7, 2, 7]),
    (8, [0, 3, 0, 1]),
    (9, [2, 3, 0, 3]),
    (10, [4, 7, 6, 7]),
    (11, [4, 5, 4, 7]),
    (12, [4, 7, 6, 7]),
    (13, [6, 7, 4, 7]),
];

#[test]
fn a_cube_is_cut_at_its_bottom_and_not_at_its_top(rt: HostRuntime) {
    let sides = &SIDES_AND_PAIR[..8];
    assert!(rt; first_other(rt.alloc(), CUBE, &[0, 1, 3], sides).is_none());
    assert!(rt; first_other(rt.alloc(), CUBE, &[-1, 4, 5], &[]).is_none());
}

#[test]
fn a_pair_of_facets_beside_a_cube(rt: HostRuntime) {
    assert!(rt; first_other(rt.alloc(), CUBE_AND_PAIR, &[1], SIDES_AND_PAIR).is_none());
}

const UPPER: &[Told] = &[
    (0, [3, 5, 3, 4]),
    (1, [3, 4, 0, 3]),
    (2, [0, 3, 1, 3]),
    (3, [1, 3, 3, 5]),
];

const LOWER: &[Told] = &[
    (4, [2, 5, 2, 4]),
    (5, [2, 4, 0, 2]),
    (6, [0, 2, 1, 2]),
    (7, [1, 2, 2, 5]),
];

#[test]
fn an_octahedron_is_not_cut_at_its_tip(rt: HostRuntime) {
    assert!(rt; first_other(rt.alloc(), OCTAHEDRON, &[-4, -1], LOWER).is_none());
    assert!(rt; first_other(rt.alloc(), OCTAHEDRON, &[0, 3], UPPER).is_none());
    assert!(rt; first_other(rt.alloc(), OCTAHEDRON, &[-5, 4], &[]).is_none());
}
