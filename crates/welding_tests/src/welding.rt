//! What no clause says: solids of boxes, the least open edge, and allocations that fail.
ghost use Rattle.std.specs.Prelude.{◌≤◌, ◌<◌};

use geometry::{Facet, Point};
use mesh_weld::{Solid, WeldFault};
use short_memory::{Count, ShortMemory, first_free_turn};
use std::alloc::{AllocError, Allocator, Global};
use test_meshes::{BOX, CORNERS, CUBE, CUBE_AND_FLAT, CUBE_AND_PAIR, Part};
use test_solids::{solid_of, welded};

/// How many facets were kept and dropped, and how many vertices and edges there are.
pub(crate) type Counts = (usize, u32, usize, u32);

/// The counts of a solid.
pub(crate) fn counts_of<A: Allocator>(solid: &Solid<A>) -> Counts {
    (
        solid.count(),
        solid.dropped(),
        solid.vertices().len(),
        solid.edge_count(),
    )
}

/// The counts of a weld's solid; `None` if an allocation failed.
pub(crate) fn counts<A: Allocator>(welded: Result<Solid<A>, WeldFault>) -> Option<Counts> {
    match welded {
        Ok(solid) => Some(counts_of(&solid)),
        Err(_) => None,
    }
}

static CLOSED: [(&[Part], Counts); 5] = [
    (CUBE, (12, 0, 8, 18)),
    (CUBE_AND_PAIR, (14, 0, 8, 18)),
    (CUBE_AND_FLAT, (12, 1, 8, 18)),
    // back to back
    (&[(CORNERS, &[[0, 2, 6], [0, 6, 2]])], (2, 0, 3, 3)),
    (&[], (0, 0, 0, 0)),
];

/// The number of the first mesh that has other counts.
fn first_other(alloc: Global, rows: &[(&[Part<'_>], Counts)]) -> Option<usize> {
    for (n, (parts, told)) in rows.iter().enumerate() {
        if counts(solid_of(alloc, parts)) != Some(*told) {
            return Some(n);
        }
    }
    None
}

#[test]
fn closed_meshes(rt: HostRuntime) {
    assert!(rt; first_other(rt.alloc(), &CLOSED).is_none());
}

fn place(point: Point) -> [i32; 3] {
    [point.x(), point.y(), point.z()]
}

/// The open edge of facets that are not closed: from where to where, and how many there are there and back.
pub(crate) fn open_edge(
    welded: Result<Solid<Global>, WeldFault>,
) -> Option<([i32; 3], [i32; 3], u32, u32)> {
    let fault = welded.err()?;
    match fault {
        WeldFault::Open {
            from,
            to,
            there,
            back,
        } => Some((place(from), place(to), there, back)),
        WeldFault::Memory => None,
    }
}

#[test]
fn box_without_its_first_facet(rt: HostRuntime) {
    let parts = [(CORNERS, &BOX[1..]), (CORNERS, &[[0, 2, 2]])];
    let open = open_edge(solid_of(rt.alloc(), &parts));
    // the dropped facet has one edge either way
    assert!(rt; open == Some(([0, 0, 0], [0, 2, 0], 1, 2)));
}

/// Whether a solid is the cube.
fn is_cube(solid: &Solid<Global>) -> bool {
    let Some((least, greatest)) = solid.corners() else {
        return false;
    };
    place(least) == [0; 3]
        && place(greatest) == [2; 3]
        && solid.by_height() == [0, 1, 4, 5, 6, 7, 8, 9, 10, 11, 2, 3].as_slice()
        && solid.triples().len() == 12
        && solid.edge_numbers().len() == 12
        && solid.same(solid)
}

/// Whether a solid is not the same as that of the cube and a degenerate facet.
fn is_apart(alloc: Global, solid: &Solid<Global>) -> bool {
    match solid_of(alloc, CUBE_AND_FLAT) {
        Ok(other) => !solid.same(&other),
        Err(_) => false,
    }
}

/// Whether the cube's solid is the cube, and not the same as the other.
fn is_itself(alloc: Global) -> bool {
    match solid_of(alloc, CUBE) {
        Ok(solid) => is_cube(&solid) && is_apart(alloc, &solid),
        Err(_) => false,
    }
}

#[test]
fn solid_of_a_box(rt: HostRuntime) {
    assert!(rt; is_itself(rt.alloc()));
}

/// The facets of a solid.
struct Kept;

impl Count for Kept {
    fn count(memory: &ShortMemory<Global>) -> Option<usize> {
        match solid_of(memory, CUBE_AND_FLAT) {
            Ok(solid) => Some(solid.count()),
            Err(_) => None,
        }
    }
}

#[test]
fn each_allocation_fails_in_turn(rt: HostRuntime) {
    assert!(rt; first_free_turn::<Kept>(rt.alloc(), 100, 12) > Some(8));
}

/// One of 48 by 48 points that lie in rings both ways.
pub(crate) fn ring_point(row: u32, column: u32) -> Option<Point>
    requires row { row ≤ 48 }
    requires column { column ≤ 48 }
{
    let (row, column) = ((row % 48) as i32, (column % 48) as i32);
    Point::new(row * 5 % 48, column, row)
}

/// The facet of three of them with this number; there are two between four neighbours.
fn ring_facet(number: u32) -> Option<Facet>
    requires { number < 4608 }
{
    let (row, column) = (number / 2 / 48, number / 2 % 48);
    let (first, third) = (ring_point(row, column)?, ring_point(row + 1, column + 1)?);
    Some(if number % 2 == 0 {
        Facet::of(first, ring_point(row + 1, column)?, third)
    } else {
        Facet::of(first, third, ring_point(row, column + 1)?)
    })
}

fn push_ring_facet<A: Allocator>(list: &mut Vec<Facet, A>, number: u32) -> Result<(), AllocError>
    requires { number < 4608 }
{
    list.push(ring_facet(number).ok_or(AllocError)?)?;
    Ok(())
}

/// The rings' first facets, this many. With all 4608 they are closed, and enough to be welded by hashes.
pub(crate) fn rings<A: Allocator + Copy>(alloc: A, count: u32) -> Result<Vec<Facet, A>, AllocError>
    requires { count ≤ 4608 }
{
    let mut list = Vec::new(alloc);
    for number in 0..count {
        push_ring_facet(&mut list, number)?;
    }
    Ok(list)
}

/// The solid of the rings' first facets.
fn welded_rings<A: Allocator + Copy + Send + Sync>(
    alloc: A,
    count: u32,
) -> Result<Solid<A>, WeldFault>
    requires { count ≤ 4608 }
{
    welded(alloc, rings(alloc, count)?)
}

#[test]
fn rings_of_many_facets(rt: HostRuntime) {
    let all = counts(welded_rings(rt.alloc(), 4608));
    assert!(rt; all == Some((4608, 0, 2304, 6912)));
    // the last facet, which is left out, leads from its second corner to its third
    let open = open_edge(welded_rings(rt.alloc(), 4607));
    assert!(rt; open == Some(([0, 0, 0], [43, 0, 47], 0, 1)));
}
