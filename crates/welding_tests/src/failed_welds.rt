//! Welds in memory of which an allocation fails: they return exactly that.
use crate::welding::rings;
use geometry::{Facet, Point};
use mesh_weld::WeldFault;
use short_memory::ShortMemory;
use std::alloc::{AllocError, Allocator, Global};
use std::test::Fail;
use test_meshes::{BOX, CORNERS, CUBE, CUBE_AND_FLAT, CUBE_AND_PAIR, Part, facets_of};
use test_solids::welded;

/// How many facets a weld has kept and dropped, or its fault.
type Outcome = Result<(usize, u32), WeldFault>;

/// Facets that are welded.
#[derive(Drop)]
enum Mesh<'a> {
    Parts(&'a [Part<'a>]),
    /// Those of the rings, of which there are enough to be welded by hashes.
    Rings,
}

/// The list of these facets.
fn list_of<A: Allocator + Copy>(alloc: A, mesh: &Mesh<'_>) -> Result<Vec<Facet, A>, AllocError> {
    match mesh {
        Mesh::Parts(parts) => facets_of(alloc, parts),
        Mesh::Rings => rings(alloc, 4608),
    }
}

/// The result of a weld; `None` if there is no memory for the list of facets itself.
fn outcome(memory: &ShortMemory<Global>, mesh: &Mesh<'_>) -> Option<Outcome> {
    match list_of(memory, mesh) {
        Ok(list) => Some(match welded(memory, list) {
            Ok(solid) => Ok((solid.count(), solid.dropped())),
            Err(fault) => Err(fault),
        }),
        Err(AllocError) => None,
    }
}

/// Fails each allocation in turn until none is left to fail. Returns how many of the failed ones were the weld's. It is `None`
/// if one of these welds returned anything else, or the last result is not the usual one.
fn failures(alloc: Global, mesh: &Mesh<'_>, usual: Outcome) -> Option<u32> {
    let mut failed = 0u32;
    for turn in 1..200u64 {
        let memory = ShortMemory::new(alloc, turn);
        let found = outcome(&memory, mesh);
        if !memory.has_failed() {
            return (found == Some(usual)).then_some(failed);
        }
        match found {
            Some(Err(WeldFault::Memory)) => failed = failed.saturating_add(1),
            Some(_) => return None,
            None => {}
        }
    }
    None
}

#[test]
fn closed_meshes(rt: HostRuntime) {
    for (parts, usual) in [
        (CUBE, (12, 0)),
        (CUBE_AND_PAIR, (14, 0)),
        (CUBE_AND_FLAT, (12, 1)),
    ] {
        assert!(rt; failures(rt.alloc(), &Mesh::Parts(parts), Ok(usual)) > Some(3));
    }
}

/// Neither fault turns into the other.
#[test]
fn an_open_box(rt: HostRuntime) -> Result<(), Fail> {
    let open = WeldFault::Open {
        from: Point::new(0, 0, 0).ok_or("no point")?,
        to: Point::new(0, 2, 0).ok_or("no point")?,
        there: 0,
        back: 1,
    };
    let parts = [(CORNERS, &BOX[1..])];
    assert!(rt; failures(rt.alloc(), &Mesh::Parts(&parts), Err(open)) > Some(3));
    Ok(())
}

#[test]
fn rings_of_many_facets(rt: HostRuntime) {
    assert!(rt; failures(rt.alloc(), &Mesh::Rings, Ok((4608, 0))) > Some(15));
}
