//! Rays of meshes with known results. Centres are in half-micrometres.
use exact_cut::Centre;
use mesh_weld::{Solid, probe, step};
use std::alloc::Global;
use test_meshes::{INWARD_CUBE, OCTAHEDRON, Part, TOUCHING, TWO_CUBES};
use test_solids::solid_of;

/// A mesh, a centre, and the rays along x and y from there.
type Row<'a> = (&'a [Part<'a>], [i64; 3], (i32, i32));

static PROBES: [Row; 5] = [
    (OCTAHEDRON, [0, 0, 0], (1, 1)),
    // its southern corner
    (OCTAHEDRON, [0, -4, 0], (0, 1)),
    (TOUCHING, [2, 2, 2], (1, 1)),
    (TWO_CUBES, [6, 6, 6], (2, 2)),
    (INWARD_CUBE, [1, 1, 1], (-1, -1)),
];

fn probed(alloc: Global, parts: &[Part<'_>], [x2, y2, z2]: [i64; 3]) -> Option<(i32, i32)> {
    match (Centre::new(x2, y2, z2), solid_of(alloc, parts)) {
        (Some(centre), Ok(solid)) => Some(probe(&solid, &centre)),
        _ => None,
    }
}

/// The number of the first row with other rays.
fn first_other_probe(alloc: Global, rows: &[Row<'_>]) -> Option<usize> {
    for (n, (parts, at, rays)) in rows.iter().enumerate() {
        if probed(alloc, parts, *at) != Some(*rays) {
            return Some(n);
        }
    }
    None
}

#[test]
fn probes_of_meshes(rt: HostRuntime) {
    assert!(rt; first_other_probe(rt.alloc(), &PROBES).is_none());
}

/// The ends of steps along x or y, and the rays along x from there through an octahedron.
static STEPS: [([i64; 2], [i64; 2], (i32, i32)); 3] = [
    ([0, 0], [0, 3], (1, 1)),
    ([0, 3], [0, 4], (1, 0)),
    ([0, 0], [4, 0], (1, 0)),
];

/// The rays at two centres, if these differ in x or in y alone.
fn stepped_in(solid: &Solid<Global>, start: &Centre, end: &Centre) -> Option<(i32, i32)> {
    if start.z2() != end.z2() {
        return None;
    }
    if start.x2() != end.x2() && start.y2() != end.y2() {
        return None;
    }
    Some(step(solid, start, end))
}

fn stepped(alloc: Global, from: [i64; 2], to: [i64; 2]) -> Option<(i32, i32)> {
    let start = Centre::new(from[0], from[1], 0)?;
    let end = Centre::new(to[0], to[1], 0)?;
    match solid_of(alloc, OCTAHEDRON) {
        Ok(solid) => stepped_in(&solid, &start, &end),
        Err(_) => None,
    }
}

/// The number of the first row with other rays.
fn first_other_step(alloc: Global) -> Option<usize> {
    for (n, (from, to, rays)) in STEPS.iter().enumerate() {
        if stepped(alloc, *from, *to) != Some(*rays) {
            return Some(n);
        }
    }
    None
}

#[test]
fn steps_in_an_octahedron(rt: HostRuntime) {
    assert!(rt; first_other_step(rt.alloc()).is_none());
}
