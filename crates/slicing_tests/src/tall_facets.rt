//! One tall part beside many flat ones. A sweep has at each height the segments that a look at each facet finds.
use contour::{Sweep, segments};
use geometry::{Facet, Point};
use mesh_weld::{Solid, WeldFault};
use std::alloc::{AllocError, Global};
use test_solids::welded;

/// The number of flat tetrahedra, four facets each: the lowest facets are in one block of the order with those of the tall one.
const FLAT: u8 = 50;

/// The tops of the blocks. The tall tetrahedron is in the first one.
const TOPS: [i32; 4] = [41, 31, 47, 50];

/// The number of heights, in half-micrometres from 0: up to one above the parts.
const HEIGHTS: u8 = 102;

fn corner(x: i32, y: i32, z: i32) -> Result<Point, AllocError> {
    match Point::new(x, y, z) {
        Some(point) => Ok(point),
        None => Err(AllocError),
    }
}

/// Adds a tetrahedron from one height up to another.
fn push_tetrahedron(
    list: &mut Vec<Facet>,
    x: i32,
    (low, high): (i32, i32),
) -> Result<(), AllocError> {
    let a = corner(x, 0, low)?;
    let b = corner(x.saturating_add(1), 0, low)?;
    let c = corner(x, 1, low)?;
    let d = corner(x, 0, high)?;
    list.push(Facet::of(a, c, b))?;
    list.push(Facet::of(a, b, d))?;
    list.push(Facet::of(a, d, c))?;
    list.push(Facet::of(b, c, d))?;
    Ok(())
}

/// A flat tetrahedron from each height up, and a tall one.
fn tetrahedra(alloc: Global) -> Result<Vec<Facet>, AllocError> {
    let mut list = Vec::new(alloc);
    for low in 0..FLAT {
        let low = i32::from(low);
        push_tetrahedron(&mut list, 10 * low, (low, low + 1))?;
    }
    push_tetrahedron(&mut list, -10, (1, 41))?;
    Ok(list)
}

/// Whether a sweep that starts at a height, and one that rises to it, have the segments that a look at each facet finds.
fn agree(
    alloc: Global,
    solid: &Solid<Global>,
    rising: &mut Sweep<'_, Global>,
    z2: u8,
) -> Result<bool, AllocError> {
    let height = i64::from(z2);
    if rising.height() < height {
        rising.advance(height)?;
    }
    let all = segments(alloc, solid, height)?;
    let started = Sweep::start(alloc, solid, height)?.segments()?;
    let risen = rising.segments()?;
    Ok(started.as_slice() == all.as_slice() && risen.as_slice() == all.as_slice())
}

/// The same at each height.
fn all_agree(alloc: Global, solid: &Solid<Global>) -> Result<bool, AllocError> {
    let mut rising = Sweep::start(alloc, solid, 0)?;
    for z2 in 0..HEIGHTS {
        if !agree(alloc, solid, &mut rising, z2)? {
            return Ok(false);
        }
    }
    Ok(true)
}

/// The solid of the tetrahedra.
fn welded_tetrahedra(alloc: Global) -> Result<Solid<Global>, WeldFault> {
    welded(alloc, tetrahedra(alloc)?)
}

#[test]
fn tall_part_beside_flat_ones(rt: HostRuntime) {
    match welded_tetrahedra(rt.alloc()) {
        Ok(solid) => {
            assert!(rt; solid.block_tops() == TOPS.as_slice());
            assert!(rt; all_agree(rt.alloc(), &solid) == Ok(true));
        }
        Err(_) => assert!(rt; false),
    }
}
