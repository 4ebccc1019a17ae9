//! A welder that is fed in lists of any length returns what `weld` returns for the whole list.
ghost use Rattle.std.specs.Prelude.{◌≤◌};

use crate::welding::rings;
use geometry::Facet;
use mesh_weld::{Solid, WeldFault, Welder};
use short_memory::{Count, ShortMemory, first_free_turn};
use std::alloc::{AllocError, Allocator, Global};
use std::thread::Threads;
use test_meshes::{
    BOX, CORNERS, CUBE, CUBE_AND_FLAT, CUBE_AND_PAIR, OCTAHEDRON, Part, TOUCHING, TWO_CUBES,
    facets_of,
};
use test_solids::{ROOM, welded};

/// The result of a welder that gets the facets in lists of this many, the last one perhaps shorter.
pub(crate) fn fed<A: Allocator + Copy + Send + Sync>(
    alloc: A,
    facets: &[Facet],
    size: usize,
) -> Result<Solid<A>, WeldFault> {
    let mut welder = Welder::new(alloc);
    let mut rest = facets;
    for _ in 0..facets.len() {
        let (part, behind) = rest.split_at(size.min(rest.len()));
        rest = behind;
        if welder.count() > ROOM || part.len() > ROOM {
            return Err(WeldFault::Memory);
        }
        welder.add(part)?;
    }
    if welder.count() != facets.len() {
        return Err(WeldFault::Memory);
    }
    welder.finish()
}

/// The number of facets in a list that several threads add.
const LIST_LEN: usize = 3000;

/// The result of a welder that gets the facets in lists, each by several threads, and is finished by several. `Memory` too if
/// other work is not done beside.
pub(crate) fn fed_by<R: Threads + Sync, A: Allocator + Copy + Send + Sync>(
    rt: &R,
    alloc: A,
    facets: &[Facet],
) -> Result<Solid<A>, WeldFault> {
    let mut welder = Welder::new(alloc);
    let mut rest = facets;
    for _ in 0..facets.len() / LIST_LEN + 1 {
        let (part, behind) = rest.split_at(LIST_LEN.min(rest.len()));
        rest = behind;
        if welder.count() > ROOM || part.len() > ROOM {
            return Err(WeldFault::Memory);
        }
        let (added, others, own) = welder.add_beside(rt, part, &|| 1u8, &mut || 2u8);
        added?;
        if others != (1, 1) || own != 2 {
            return Err(WeldFault::Memory);
        }
    }
    if welder.count() != facets.len() {
        return Err(WeldFault::Memory);
    }
    welder.finish_by(rt)
}

/// Whether two welds have the same result: the same fault, or the same solid.
pub(crate) fn agree(
    one: &Result<Solid<Global>, WeldFault>,
    two: &Result<Solid<Global>, WeldFault>,
) -> bool {
    match (one, two) {
        (Ok(solid), Ok(other)) => {
            solid.same(other)
                && solid.vertices() == other.vertices()
                && solid.triples() == other.triples()
                && solid.edge_numbers() == other.edge_numbers()
                && solid.edge_count() == other.edge_count()
                && solid.by_height() == other.by_height()
        }
        (Err(fault), Err(other)) => fault == other && *fault != WeldFault::Memory,
        _ => false,
    }
}

/// Whether facets in lists of each of these lengths have this result; 0 stands for one list of all.
fn are_alike(
    alloc: Global,
    facets: &[Facet],
    whole: &Result<Solid<Global>, WeldFault>,
    sizes: &[usize],
) -> bool {
    for size in sizes {
        let length = if *size == 0 { facets.len() } else { *size };
        if !agree(&fed(alloc, facets, length), whole) {
            return false;
        }
    }
    true
}

/// Whether facets in lists of each of these lengths have the result of one list.
fn are_as_one(alloc: Global, facets: Vec<Facet>, sizes: &[usize]) -> bool {
    match facets.clone() {
        Ok(copy) => are_alike(alloc, copy.as_slice(), &welded(alloc, facets), sizes),
        Err(AllocError) => false,
    }
}

const ALL_SIZES: [usize; 18] = [0, 1, 2, 3, 4, 5, 6, 7, 8, 9, 10, 11, 12, 13, 14, 15, 16, 17];

static CLOSED: [&[Part]; 7] = [
    CUBE,
    CUBE_AND_PAIR,
    CUBE_AND_FLAT,
    TOUCHING,
    TWO_CUBES,
    OCTAHEDRON,
    &[],
];

/// The same for a mesh and all those lengths.
fn is_mesh_as_one(alloc: Global, parts: &[Part<'_>]) -> bool {
    match facets_of(alloc, parts) {
        Ok(facets) => are_as_one(alloc, facets, &ALL_SIZES),
        Err(AllocError) => false,
    }
}

#[test]
fn closed_meshes(rt: HostRuntime) {
    for parts in &CLOSED {
        assert!(rt; is_mesh_as_one(rt.alloc(), parts));
    }
}

#[test]
fn open_meshes(rt: HostRuntime) {
    let part = (CORNERS, &BOX[1..]);
    assert!(rt; is_mesh_as_one(rt.alloc(), &[part]));
    // the edges of degenerate facets count
    let flat = [[0, 2, 2], [7, 7, 7]];
    let parts: [Part<'_>; 3] = [(CORNERS, &[[1, 1, 4]]), part, (CORNERS, &flat)];
    assert!(rt; is_mesh_as_one(rt.alloc(), &parts));
}

/// The same for the first facets of the rings and some lengths.
fn are_rings_as_one(alloc: Global, count: u32) -> bool
    requires { count ≤ 4608 }
{
    match rings(alloc, count) {
        Ok(facets) => are_as_one(alloc, facets, &[0, 1, 7, 17, 4096]),
        Err(AllocError) => false,
    }
}

#[test]
fn many_facets(rt: HostRuntime) {
    assert!(rt; are_rings_as_one(rt.alloc(), 4095));
    assert!(rt; are_rings_as_one(rt.alloc(), 4096));
    assert!(rt; are_rings_as_one(rt.alloc(), 4607));
    assert!(rt; are_rings_as_one(rt.alloc(), 4608));
}

/// How many facets a weld has kept; `None` if it has a fault.
pub(crate) fn kept<A: Allocator>(welded: Result<Solid<A>, WeldFault>) -> Option<usize> {
    match welded {
        Ok(solid) => Some(solid.count()),
        Err(_) => None,
    }
}

/// The facets of a mesh that is fed three at a time.
struct KeptOfLists;

impl Count for KeptOfLists {
    fn count(memory: &ShortMemory<Global>) -> Option<usize> {
        match facets_of(memory, CUBE_AND_FLAT) {
            Ok(facets) => kept(fed(memory, facets.as_slice(), 3)),
            Err(AllocError) => None,
        }
    }
}

#[test]
fn each_allocation_fails_in_turn(rt: HostRuntime) {
    assert!(rt; first_free_turn::<KeptOfLists>(rt.alloc(), 100, 12) > Some(8));
}

/// The facets of the rings, fed 100 at a time.
struct KeptOfRingLists;

impl Count for KeptOfRingLists {
    fn count(memory: &ShortMemory<Global>) -> Option<usize> {
        match rings(memory, 4608) {
            Ok(facets) => kept(fed(memory, facets.as_slice(), 100)),
            Err(AllocError) => None,
        }
    }
}

#[test]
fn each_allocation_fails_in_turn_among_many_facets(rt: HostRuntime) {
    assert!(rt; first_free_turn::<KeptOfRingLists>(rt.alloc(), 200, 4608) > Some(30));
}

/// Adds facets to a welder: whether it has taken them, or `None` if there is no room.
fn added<A: Allocator + Copy + Send + Sync>(
    welder: &mut Welder<A>,
    facets: &[Facet],
) -> Option<bool> {
    if welder.count() > ROOM || facets.len() > ROOM {
        return None;
    }
    Some(welder.add(facets).is_ok())
}

/// Adds facets to a new welder twice: whether it has taken them, and how many facets it has then.
fn added_twice<A: Allocator + Copy + Send + Sync>(
    alloc: A,
    facets: &[Facet],
) -> [(Option<bool>, usize); 2] {
    let mut welder = Welder::new(alloc);
    let first = added(&mut welder, facets);
    let count = welder.count();
    let second = added(&mut welder, facets);
    [(first, count), (second, welder.count())]
}

/// A welder that lost its facets when memory ran out can be fed again.
#[test]
fn a_welder_is_empty_after_a_failed_allocation(rt: HostRuntime) {
    let memory = ShortMemory::new(rt.alloc(), 2);
    match facets_of(rt.alloc(), CUBE) {
        Ok(facets) => {
            let found = added_twice(&memory, facets.as_slice());
            assert!(rt; memory.has_failed());
            assert!(rt; found == [(Some(false), 0), (Some(true), 12)]);
        }
        Err(AllocError) => assert!(rt; false),
    }
}
