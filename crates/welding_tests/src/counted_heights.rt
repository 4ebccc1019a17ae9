//! A mesh with enough facets that a counting sort brings them into their order by height.
use crate::many_facets::{first_free_turn_by, is_welded_alike};
use crate::welders::{fed, kept};
use crate::welding::counts_of;
use geometry::{Facet, Point};
use mesh_weld::{Solid, WeldFault, lowest};
use short_memory::{Count, ShortMemory, first_free_turn};
use std::alloc::{AllocError, Allocator, Global};
use test_solids::welded;

/// The number of tetrahedra, four facets each: more facets than comparisons sort.
const TETRAHEDRA: u32 = 16_500;

/// The number of their facets, and of their corners.
const FACETS: usize = 66_000;

/// The number of their edges.
const EDGES: u32 = 99_000;

/// The number of tetrahedra in a row.
const ROW: u32 = 128;

/// The number of heights at which there are tetrahedra.
const HEIGHTS: u32 = 7;

/// A corner of a tetrahedron, by its distances from the tetrahedron's own.
fn corner(number: u32, x: i32, y: i32, z: i32) -> Result<Point, AllocError> {
    let number = number % TETRAHEDRA;
    let (column, row) = ((number % ROW) as i32, (number / ROW) as i32);
    let height = (number % HEIGHTS) as i32;
    match Point::new(
        (10 * column).saturating_add(x),
        (10 * row).saturating_add(y),
        (10 * height).saturating_add(z),
    ) {
        Some(point) => Ok(point),
        None => Err(AllocError),
    }
}

/// Adds the facets of a tetrahedron.
fn push_tetrahedron<A: Allocator>(list: &mut Vec<Facet, A>, number: u32) -> Result<(), AllocError> {
    let a = corner(number, 0, 0, 0)?;
    let b = corner(number, 1, 0, 0)?;
    let c = corner(number, 0, 1, 0)?;
    let d = corner(number, 0, 0, 1)?;
    list.push(Facet::of(a, c, b))?;
    list.push(Facet::of(a, b, d))?;
    list.push(Facet::of(a, d, c))?;
    list.push(Facet::of(b, c, d))?;
    Ok(())
}

/// The facets of separate tetrahedra.
fn tetrahedra<A: Allocator + Copy>(alloc: A) -> Result<Vec<Facet, A>, AllocError> {
    let mut list = Vec::new(alloc);
    for number in 0..TETRAHEDRA {
        push_tetrahedron(&mut list, number)?;
    }
    Ok(list)
}

/// Whether facets are in order by their least heights, and by number if these are equal.
fn ascend<A: Allocator>(solid: &Solid<A>) -> bool {
    let mut before = None;
    for number in solid.by_height() {
        if *number as usize >= solid.count() {
            return false;
        }
        let here = (lowest(&solid.facet(*number)), *number);
        if before.is_some_and(|last| last >= here) {
            return false;
        }
        before = Some(here);
    }
    true
}

/// The solid of the tetrahedra.
fn welded_tetrahedra(alloc: Global) -> Result<Solid<Global>, WeldFault> {
    welded(alloc, tetrahedra(alloc)?)
}

#[test]
fn facets_of_few_heights(rt: HostRuntime) {
    match welded_tetrahedra(rt.alloc()) {
        Ok(solid) => {
            assert!(rt; ascend(&solid));
            assert!(rt; counts_of(&solid) == (FACETS, 0, FACETS, EDGES));
        }
        Err(_) => assert!(rt; false),
    }
}

#[test]
fn by_threads(rt: HostRuntime) {
    match tetrahedra(rt.alloc()) {
        Ok(facets) => assert!(rt; is_welded_alike(&rt, rt.alloc(), facets.as_slice())),
        Err(AllocError) => assert!(rt; false),
    }
}

/// The facets of the tetrahedra.
struct KeptOfTetrahedra;

impl Count for KeptOfTetrahedra {
    fn count(memory: &ShortMemory<Global>) -> Option<usize> {
        match tetrahedra(memory) {
            Ok(facets) => kept(fed(memory, facets.as_slice(), 1000)),
            Err(AllocError) => None,
        }
    }
}

#[test]
fn each_allocation_fails_in_turn(rt: HostRuntime) {
    assert!(rt; first_free_turn::<KeptOfTetrahedra>(rt.alloc(), 300, FACETS) > Some(60));
}

#[test]
fn each_allocation_by_threads_fails_in_turn(rt: HostRuntime) {
    let usual = (FACETS, 0, FACETS, EDGES);
    match tetrahedra(rt.alloc()) {
        Ok(facets) => {
            assert!(rt; first_free_turn_by(&rt, rt.alloc(), facets.as_slice(), usual) > Some(30));
        }
        Err(AllocError) => assert!(rt; false),
    }
}
