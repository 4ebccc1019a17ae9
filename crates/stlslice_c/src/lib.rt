//! The slicer for C: sessions of `layer_session` behind a handle that C keeps. `include/stlslice.h` declares the calls, and
//! `exports.rt` has them as C makes them: with pointers that may be null. This file has them on references.
//!
//! ```c
//! stlslice_options options = {.pitch = 50, .layer = 50};                 // micrometres
//! stlslice_mesh mesh = STLSLICE_CLOSED;
//! if (stlslice_open(bytes, size, &options, &mesh, &shape, line, sizeof line) != STLSLICE_DONE)
//!     puts(line);                                                        // why not, ended by 0; for arrays stlslice_open_mesh
//! stlslice_mask(&mesh, k, NULL, 0, &wanted);                             // STLSLICE_NO_ROOM: an image's size, at once
//! stlslice_mask(&mesh, k, image, wanted, &wanted);                       // the image of layer k
//! stlslice_close(&mesh);                                                 // frees all
//! ```
//!
//! - [`Handle`]: an open mesh, or none; C keeps it as a [`MeshPointer`]. Calls that only read take it shared.
//! - [`Options`]: what a file or arrays are opened with. [`Cells`]: the numbers of a grid, given or put.
//! - [`Corners`], [`Shape`], [`Rays`], [`LoopPoint`]: what calls put for C.
//!
//! A call returns a status (`status.rt`):
//! - 0: done
//! - 1: a number is out of its range or outside the grid, arrays are no facets, a pointer is null, or no object has the size
//! - 3: the file is no STL that can be read
//! - 4: the mesh has an open edge
//! - 5: there is no such grid
//! - 6: an allocation failed
//! - 7: the buffer is too small
//! - 8: no mesh was opened, or it was closed
//! - 9: the part does not fit the screen
//!
//! At 7 a call puts only the size that it needs. At any other status but 0 it changes nothing of the caller's but a
//! line of text.
//!
//! Lengths are in micrometres, and points of loops in half-micrometres. Columns, rows and layers count from 0 along x, y and
//! z, and stripes, which are eight layers each, from the lowest up.
#![tactic(auto)]

mod answers;
mod box_parts;
mod buffers;
mod exports;
mod facets;
mod given;
mod handle;
mod lines;
mod loops;
mod mesh_pointer;
mod opening;
mod options;
mod places;
mod shape;
mod status;

ghost use Rattle.std.specs.Prelude.{◌≡◌, None, Some};
ghost use Rattle.layer_session.specs.Session.{Session, of_arrays, of_file};
ghost use Rattle.stlslice_c.specs.Answers.{IsAreaAnswer, IsAreasAnswer, IsBoxAnswer, IsLine, IsMaskAnswer, IsOpening, IsPngAnswer};
ghost use Rattle.stlslice_c.specs.Answers.{IsProbeAnswer, IsStripeAnswer};
ghost use Rattle.stlslice_c.specs.Facets.{IsFacetsAnswer};
ghost use Rattle.stlslice_c.specs.Loops.{AreAsBefore, IsLoops};
ghost use Rattle.stlslice_c.specs.Status.{status_text};
ghost use Rattle.stlslice_c.specs.declared.status.TheConstants.{NOT_OPEN};

use answers::{put_area, put_areas, put_mask, put_png, put_probe, put_stripe};
pub use exports::{
    stlslice_area, stlslice_areas, stlslice_box, stlslice_close, stlslice_facets,
    stlslice_fault_text, stlslice_loops, stlslice_mask, stlslice_open, stlslice_open_mesh,
    stlslice_png, stlslice_probe, stlslice_stripe,
};
use facets::{MOST_FACETS, put_facets};
pub use handle::{Handle, HandleWords};
use layer_session::read_file_at_most;
use lines::{put_fault, put_no_setup, put_status};
pub use loops::LoopPoint;
use loops::put_loops;
pub use mesh_pointer::MeshPointer;
use opening::{keep, open, open_mesh, read_corners};
use options::unit_numbered;
pub use options::{Options, Side};
pub use shape::{Cells, Corners, Rays, Shape};
use status::{DONE, NOT_OPEN, OUT_OF_RANGE};
use std::alloc::Global;

/// The version: major, minor and patch, three digits each.
const VERSION: u32 = 1_000_000;

/// The version: major, minor and patch, three digits each.
#[unsafe(no_mangle)]
pub extern "C" fn stlslice_version() -> u32
    ensures { result ≡ VERSION }
{
    VERSION
}

/// Puts the text of a status into `line`: as much as fits, with a 0 after it.
pub fn put_text(status: u32, line: &mut [u8])
    ensures { IsLine (status_text status) line.old line.new }
{
    put_status(status, line);
}

/// Reads a file, binary STL or ASCII STL, and puts the number and the box of its facets into `corners`. After a fault
/// `corners` is as it was, and the fault's text is in `line`. The status is 0, 1 (no such unit), 3 or 6.
pub fn read_box(
    alloc: Global,
    bytes: &[u8],
    unit: u32,
    corners: &mut Corners,
    line: &mut [u8],
) -> u32
    ensures { IsBoxAnswer unit bytes.now corners.old corners.new line.old line.new result }
{
    let Some(unit) = unit_numbered(unit) else {
        return put_status(OUT_OF_RANGE, line);
    };
    match read_corners(alloc, bytes, unit) {
        Ok(told) => {
            *corners = told;
            DONE
        }
        Err(fault) => put_fault(alloc, &fault, line),
    }
}

/// Reads a file, binary STL or ASCII STL, of any number of facets that a binary STL can count, and puts its facets into the
/// front of `facets`, in its order: x, y and z of the three corners of each, in micrometres. Their number is put into
/// `wanted`. If they do not fit, only the number is put. After a fault `facets` and `wanted` are as they were, and the
/// fault's text is in `line`. The status is 0, 1 (no such unit), 3, 6 or 7.
pub fn read_facets(
    alloc: Global,
    bytes: &[u8],
    unit: u32,
    facets: &mut [[[i32; 3]; 3]],
    wanted: &mut usize,
    line: &mut [u8],
) -> u32
    ensures { IsFacetsAnswer unit bytes.now facets.old facets.new wanted.old wanted.new line.old line.new result }
{
    let Some(unit) = unit_numbered(unit) else {
        return put_status(OUT_OF_RANGE, line);
    };
    match read_file_at_most(alloc, bytes, MOST_FACETS, unit) {
        Ok(found) => put_facets(found.as_slice(), facets, wanted),
        Err(fault) => put_fault(alloc, &fault, line),
    }
}

/// Opens a file, binary STL or ASCII STL: puts its mesh into `handle`, in place of one that it has, and its facets and its
/// grid into `shape`. After a fault handle and shape are as they were, and the fault's text is in `line`. The status is 0,
/// 1 (an option is out of its range), 3, 4, 5, 6 or 9 (the part does not fit the screen).
pub fn open_file(
    alloc: Global,
    bytes: &[u8],
    options: &Options,
    handle: &mut Handle,
    shape: &mut Shape,
    line: &mut [u8],
) -> u32
    ensures { IsOpening options.now (of_file bytes.now) handle.old.mesh.session handle.new.mesh.session shape.old shape.new
        line.old line.new result }
{
    let setup = match options.setup() {
        Ok(setup) => setup,
        Err(reason) => return put_no_setup(alloc, reason, line),
    };
    let opened = open(alloc, bytes, &setup);
    keep(alloc, opened, handle, shape, line)
}

/// Opens points and triangles: puts their mesh into `handle`, in place of one that it has, and its facets and its grid
/// into `shape`. The points are in micrometres, whatever unit the options have. After a fault handle and shape are as
/// they were, and the fault's text is in `line`. The status is 0, 1 (an option is out of its range, or the arrays are
/// no facets), 4, 5, 6 or 9 (the part does not fit the screen).
pub fn open_arrays(
    alloc: Global,
    points: &[[i32; 3]],
    triangles: &[[u32; 3]],
    options: &Options,
    handle: &mut Handle,
    shape: &mut Shape,
    line: &mut [u8],
) -> u32
    ensures { IsOpening options.now (of_arrays points.now triangles.now) handle.old.mesh.session handle.new.mesh.session
        shape.old shape.new line.old line.new result }
{
    let setup = match options.setup() {
        Ok(setup) => setup,
        Err(reason) => return put_no_setup(alloc, reason, line),
    };
    let opened = open_mesh(alloc, points, triangles, &setup);
    keep(alloc, opened, handle, shape, line)
}

/// Closes a handle, and frees its mesh. A closed handle may be closed again.
pub fn close_handle(alloc: Global, handle: &mut Handle)
    ensures { handle.new.mesh.session ≡ None }
{
    drop(handle.take(alloc));
}

/// Puts the image of layer k into the front of `image`, as raw PBM, and its size in bytes into `wanted`. If it does not
/// fit, only the size is put, and nothing is sliced. The status is 0, 1 (no such layer), 6, 7 or 8.
pub fn ask_mask(handle: &Handle, k: u32, image: &mut [u8], wanted: &mut usize) -> u32
    ensures open { (session : Session) → handle.now.mesh.session ≡ Some session
        → IsMaskAnswer session.job k image.old image.new wanted.old wanted.new result }
    ensures closed { handle.now.mesh.session ≡ None → (result ≡ NOT_OPEN) × (image.new ≡ image.old) × (wanted.new ≡ wanted.old) }
{
    match handle.session() {
        Some(session) => put_mask(session, k, image, wanted),
        None => NOT_OPEN,
    }
}

/// Puts the images of a stripe into the front of `images`, one after the other, and their size in bytes into `wanted`.
/// The stripe is the layers from 8 s to 8 s + 7, as far as the grid has them. If they do not fit, only the size is put,
/// and nothing is sliced. The status is 0, 1 (no such stripe), 6, 7 or 8.
pub fn ask_stripe(handle: &Handle, s: u64, images: &mut [u8], wanted: &mut usize) -> u32
    ensures open { (session : Session) → handle.now.mesh.session ≡ Some session
        → IsStripeAnswer session.job s images.old images.new wanted.old wanted.new result }
    ensures closed { handle.now.mesh.session ≡ None → (result ≡ NOT_OPEN) × (images.new ≡ images.old) × (wanted.new ≡ wanted.old) }
{
    match handle.session() {
        Some(session) => put_stripe(session, s, images, wanted),
        None => NOT_OPEN,
    }
}

/// Puts the PNG of layer k into the front of `png`, and its size in bytes into `wanted`. A pixel has `depth` bits, 1 or
/// 8. `mirrors` is 0, 1 for x, 2 for y, or 3 for both. Sizes differ from layer to layer. If `png` is too short, only
/// the size is put, which takes as long. The status is 0, 1 (no such layer, depth or mirrors), 6, 7 or 8.
pub fn ask_png(
    handle: &Handle,
    k: u32,
    depth: u32,
    mirrors: u32,
    png: &mut [u8],
    wanted: &mut usize,
) -> u32
    ensures open { (session : Session) → handle.now.mesh.session ≡ Some session
        → IsPngAnswer session.job k depth mirrors png.old png.new wanted.old wanted.new result }
    ensures closed { handle.now.mesh.session ≡ None → (result ≡ NOT_OPEN) × (png.new ≡ png.old) × (wanted.new ≡ wanted.old) }
{
    match handle.session() {
        Some(session) => put_png(session, k, depth, mirrors, png, wanted),
        None => NOT_OPEN,
    }
}

/// Puts the number of filled pixels of layer k into `area`. The status is 0, 1 (no such layer), 6 or 8.
pub fn ask_area(handle: &Handle, k: u32, area: &mut u64) -> u32
    ensures open { (session : Session) → handle.now.mesh.session ≡ Some session
        → IsAreaAnswer session.job k area.old area.new result }
    ensures closed { handle.now.mesh.session ≡ None → (result ≡ NOT_OPEN) × (area.new ≡ area.old) }
{
    match handle.session() {
        Some(session) => put_area(session, k, area),
        None => NOT_OPEN,
    }
}

/// Puts the numbers of filled pixels of the layers from `first` on into `areas`: as many as it has places. This is faster than
/// one by one. The rule may be another than the session's. The status is 0, 1 (no such rule or layers), 6 or 8.
pub fn ask_areas(handle: &Handle, rule: u32, first: u32, areas: &mut [u64]) -> u32
    ensures open { (session : Session) → handle.now.mesh.session ≡ Some session
        → IsAreasAnswer session.job rule first areas.old areas.new result }
    ensures closed { handle.now.mesh.session ≡ None → (result ≡ NOT_OPEN) × (areas.new ≡ areas.old) }
{
    match handle.session() {
        Some(session) => put_areas(session, rule, first, areas),
        None => NOT_OPEN,
    }
}

/// Puts the signed crossings of the rays along x and along y from the centre of a voxel into `rays`. The voxel is in
/// column i, row j and layer k. The status is 0, 1 (no such voxel) or 8.
pub fn ask_probe(handle: &Handle, i: u32, j: u32, k: u32, rays: &mut Rays) -> u32
    ensures open { (session : Session) → handle.now.mesh.session ≡ Some session
        → IsProbeAnswer session.job i j k rays.old rays.new result }
    ensures closed { handle.now.mesh.session ≡ None → (result ≡ NOT_OPEN) × (rays.new ≡ rays.old) }
{
    match handle.session() {
        Some(session) => put_probe(session, i, j, k, rays),
        None => NOT_OPEN,
    }
}

/// Puts the loops of layer k into the fronts of two buffers, and the number of points and of loops into `points_wanted`
/// and `ends_wanted`. The points of all loops go into `points`, one loop after the other. For each loop the position
/// after its last point goes into `ends`. If one of the buffers is too small, only the numbers are put. The status is
/// 0, 1 (no such layer), 6, 7 or 8.
pub fn ask_loops(
    alloc: Global,
    handle: &Handle,
    k: u32,
    points: &mut [LoopPoint],
    points_wanted: &mut usize,
    ends: &mut [usize],
    ends_wanted: &mut usize,
) -> u32
    ensures open { (session : Session) → handle.now.mesh.session ≡ Some session
        → IsLoops session.job k points.old points.new points_wanted.old points_wanted.new
        ends.old ends.new ends_wanted.old ends_wanted.new result }
    ensures closed { handle.now.mesh.session ≡ None → (result ≡ NOT_OPEN)
        × AreAsBefore points.old points.new points_wanted.old points_wanted.new ends.old ends.new ends_wanted.old ends_wanted.new }
{
    match handle.session() {
        Some(session) => put_loops(alloc, session, k, points, points_wanted, ends, ends_wanted),
        None => NOT_OPEN,
    }
}
