//! The loops of a layer, as C has them.
ghost use Rattle.std.specs.Prelude.{◌≡◌, IfOk, map};
ghost use Rattle.stlslice_c.specs.Loops.{IsLoops, IsPutLoops, point_told};

use crate::status::{DONE, MEMORY, NO_ROOM, Status, status_of};
use layer_session::{PlanePoint, Session};
use std::alloc::{AllocError, Allocator};

/// A point of a loop, in half-micrometres.
#[repr(C)]
#[derive(Clone, Copy)]
pub struct LoopPoint {
    pub x2: i64,
    pub y2: i64,
}

/// Puts the loops of layer k into the fronts of two buffers: the points, one loop after the other, and for each loop the
/// position after its last point.
pub(crate) fn put_loops<A: Allocator + Copy + Send + Sync>(
    alloc: A,
    session: &Session<A>,
    k: u32,
    points: &mut [LoopPoint],
    points_wanted: &mut usize,
    ends: &mut [usize],
    ends_wanted: &mut usize,
) -> Status
    ensures { IsLoops session.now.job k points.old points.new points_wanted.old points_wanted.new
        ends.old ends.new ends_wanted.old ends_wanted.new result }
{
    match session.outlines(k) {
        Ok(found) => match told_points(alloc, found.points()) {
            Ok(told) => put_points(
                told.as_slice(),
                found.ends(),
                points,
                points_wanted,
                ends,
                ends_wanted,
            ),
            Err(_) => MEMORY,
        },
        Err(fault) => status_of(&fault),
    }
}

/// The points as C has them.
fn told_points<A: Allocator>(
    alloc: A,
    found: &[PlanePoint],
) -> Result<Vec<LoopPoint, A>, AllocError>
    ensures { IfOk result (λ points. points.items ≡ map point_told found.now) }
{
    let mut points = Vec::with_capacity(alloc, found.len())?;
    for point in found {
        points.push(told(point))?;
    }
    Ok(points)
}

/// The point as C has it.
fn told(point: &PlanePoint) -> LoopPoint
    ensures { result ≡ point_told point.now }
{
    LoopPoint {
        x2: point.x2,
        y2: point.y2,
    }
}

/// Puts points and ends into the fronts of two buffers, if all of them fit, and puts their numbers.
fn put_points(
    found: &[LoopPoint],
    found_ends: &[usize],
    points: &mut [LoopPoint],
    points_wanted: &mut usize,
    ends: &mut [usize],
    ends_wanted: &mut usize,
) -> Status
    ensures { IsPutLoops found.now found_ends.now points.old points.new points_wanted.new ends.old ends.new ends_wanted.new result }
{
    *points_wanted = found.len();
    *ends_wanted = found_ends.len();
    if found.len() > points.len() || found_ends.len() > ends.len() {
        return NO_ROOM;
    }
    points[..found.len()].copy_from_slice(found);
    ends[..found_ends.len()].copy_from_slice(found_ends);
    DONE
}
