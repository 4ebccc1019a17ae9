//! The solids that `load` returns for small meshes, its faults, and its allocations that fail: no clause says that it
//! succeeds.
use crate::meshes::Mesh::{Parts, Text};
use crate::meshes::{Mesh, OPEN, SPIKED, gap, mesh_text};
use micro_num::Unit;
use short_memory::ShortMemory;
use std::alloc::{AllocError, Allocator, Global};
use stl_text::{Point, StlFault, Word};
use stlslice::{RunFault, load};
use test_meshes::{CUBE, CUBE_AND_FLAT, CUBE_AND_PAIR, SHEET};

/// What a test compares of a solid: how many facets it keeps and has dropped, and its least and its greatest corner.
type Facts = (usize, u32, Option<(Point, Point)>);

/// The facts of the solid of a text.
fn facts_of<A: Allocator + Copy + Send + Sync>(alloc: A, text: &str) -> Result<Facts, RunFault> {
    let solid = load(alloc, text.as_bytes(), Unit::Millimetre)?;
    Ok((solid.count(), solid.dropped(), solid.corners()))
}

/// The facts of the solid of a mesh.
fn facts_of_mesh(alloc: Global, mesh: Mesh<'_>) -> Result<Facts, RunFault> {
    let text = mesh_text(alloc, mesh)?;
    facts_of(alloc, text.as_str())
}

/// A mesh, how many facets its solid keeps and has dropped, and the height of its greatest corner (2, 2, z). The least
/// is (0, 0, 0).
type Row<'a> = (Mesh<'a>, usize, u32, i32);

static SOLIDS: [Row; 5] = [
    (Parts(CUBE), 12, 0, 2),
    (Parts(CUBE_AND_PAIR), 14, 0, 2),
    (Parts(CUBE_AND_FLAT), 12, 1, 2),
    (Parts(SPIKED), 12, 1, 2),
    (Parts(SHEET), 2, 0, 0),
];

/// Whether the solid of a row has its facts.
fn is_solid(alloc: Global, row: &Row<'_>) -> bool {
    let (mesh, kept, dropped, top) = *row;
    let corners = Point::new(0, 0, 0).zip(Point::new(2, 2, top));
    corners.is_some() && facts_of_mesh(alloc, mesh) == Ok((kept, dropped, corners))
}

#[test]
fn solids_of_texts(rt: HostRuntime) {
    for row in &SOLIDS {
        assert!(rt; is_solid(rt.alloc(), row), "{} facets", row.1);
    }
}

/// Whether a mesh has no solid for this fault, which is `None` if it could not be made.
fn is_refused(alloc: Global, mesh: Mesh<'_>, fault: Option<RunFault>) -> bool {
    fault.is_some() && facts_of_mesh(alloc, mesh).err() == fault
}

#[test]
fn a_text_with_a_gap(rt: HostRuntime) {
    assert!(rt; is_refused(rt.alloc(), Parts(OPEN), gap()));
}

/// The text of the cube before its first `endfacet`.
const CUT: &str = "solid t
facet normal 0 0 0
outer loop
vertex 0.000 0.000 0.000
vertex 0.000 0.002 0.000
vertex 0.002 0.002 0.000
endloop
";

#[test]
fn a_text_that_is_cut(rt: HostRuntime) {
    let word = Word::EndFacet;
    let fault = RunFault::Stl(StlFault::Ended { word });
    assert!(rt; is_refused(rt.alloc(), Text(CUT), Some(fault)));
}

/// Fails each allocation of a load in turn, and returns the first turn at which none failed. It is `None` if a load returns
/// neither a solid of 12 facets and one that was dropped, nor a fault of memory.
fn first_free_turn(alloc: Global, text: &str) -> Option<u64> {
    for turn in 1..1000 {
        let memory = ShortMemory::new(alloc, turn);
        match facts_of(&memory, text) {
            Ok((kept, dropped, _)) => {
                let is_whole = (kept, dropped) == (12, 1) && !memory.has_failed();
                return is_whole.then_some(turn);
            }
            Err(fault) => {
                if fault != RunFault::Memory || !memory.has_failed() {
                    return None;
                }
            }
        }
    }
    None
}

/// The first turn at which no allocation of a mesh's load fails.
fn free_turn(alloc: Global, mesh: Mesh<'_>) -> Option<u64> {
    match mesh_text(alloc, mesh) {
        Ok(text) => first_free_turn(alloc, text.as_str()),
        Err(AllocError) => None,
    }
}

#[test]
fn each_allocation_of_a_load_fails(rt: HostRuntime) {
    assert!(rt; free_turn(rt.alloc(), Parts(CUBE_AND_FLAT)) > Some(8));
}
