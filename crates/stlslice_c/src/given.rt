//! The calls, on what lies at the pointers that C gives. A null pointer is an empty slice, and so is a buffer of a size
//! that no object has. These are told by the slice's length.
ghost use Rattle.std.specs.Prelude.{◌≡◌};
ghost use Rattle.stlslice_c.specs.Calls.{IsAreaAnswered, IsAreaRefused, IsAreasAnswered, IsAreasRefused, IsBoxAnswered, IsBoxRefused, IsCloseAnswered};
ghost use Rattle.stlslice_c.specs.Calls.{IsFacetsAnswered, IsFacetsRefused};
ghost use Rattle.stlslice_c.specs.Calls.{IsCloseRefused, IsLoopsAnswered, IsLoopsRefused, IsMaskAnswered, IsMaskRefused};
ghost use Rattle.stlslice_c.specs.Calls.{IsOpenAnswered, IsOpenMeshAnswered, IsOpenMeshRefused, IsOpenRefused};
ghost use Rattle.stlslice_c.specs.Calls.{IsPngAnswered, IsPngRefused, IsProbeAnswered, IsProbeRefused, IsStripeAnswered};
ghost use Rattle.stlslice_c.specs.Calls.{IsStripeRefused, IsTextCall};
ghost use Rattle.stlslice_c.specs.declared.status.TheConstants.{OUT_OF_RANGE};

use crate::handle::Handle;
use crate::loops::LoopPoint;
use crate::options::Options;
use crate::shape::{Corners, Rays, Shape};
use crate::status::{OUT_OF_RANGE, Status};
use crate::{
    ask_area, ask_areas, ask_loops, ask_mask, ask_png, ask_probe, ask_stripe, close_handle,
    open_arrays, open_file, put_text, read_box, read_facets,
};
use std::alloc::Global;

/// Puts the text of a status.
pub(crate) fn fault_text(status: u32, line: &mut [u8], line_room: usize)
    ensures { IsTextCall status line.old line.new line_room }
{
    if line.len() == line_room {
        put_text(status, line);
    }
}

/// Puts the line of a pointer or a size that is refused, and returns the status of that.
fn refused(line: &mut [u8], line_room: usize) -> Status
    ensures status { result ≡ OUT_OF_RANGE }
    ensures line { IsTextCall OUT_OF_RANGE line.old line.new line_room }
{
    fault_text(OUT_OF_RANGE, line, line_room);
    OUT_OF_RANGE
}

/// Puts the number and the box of a file's facets.
pub(crate) fn box_of(
    alloc: Global,
    text: &[u8],
    text_size: usize,
    unit: u32,
    corners: &mut [Corners],
    line: &mut [u8],
    line_room: usize,
) -> Status
    ensures refused { IsBoxRefused text.now text_size unit corners.old corners.new line.old line.new line_room result }
    ensures answered { IsBoxAnswered text.now text_size unit corners.old corners.new line.old line.new line_room result }
{
    if text.len() != text_size || corners.len() == 0 || line.len() != line_room {
        return refused(line, line_room);
    }
    read_box(alloc, text, unit, &mut corners[0], line)
}

/// Puts the facets of a file.
pub(crate) fn facets(
    alloc: Global,
    text: &[u8],
    text_size: usize,
    unit: u32,
    facets: &mut [[[i32; 3]; 3]],
    facets_room: usize,
    facets_count: &mut [usize],
    line: &mut [u8],
    line_room: usize,
) -> Status
    ensures refused { IsFacetsRefused text.now text_size unit facets.old facets.new facets_room facets_count.old facets_count.new
        line.old line.new line_room result }
    ensures answered { IsFacetsAnswered text.now text_size unit facets.old facets.new facets_room facets_count.old facets_count.new
        line.old line.new line_room result }
{
    let no_buffer = facets.len() != facets_room || line.len() != line_room;
    if no_buffer || text.len() != text_size || facets_count.len() == 0 {
        return refused(line, line_room);
    }
    read_facets(alloc, text, unit, facets, &mut facets_count[0], line)
}

/// Opens a file.
pub(crate) fn open(
    alloc: Global,
    text: &[u8],
    text_size: usize,
    options: &[Options],
    mesh: &mut [Handle],
    shape: &mut [Shape],
    line: &mut [u8],
    line_room: usize,
) -> Status
    ensures refused { IsOpenRefused text.now text_size options.now mesh.old mesh.new shape.old shape.new line.old line.new line_room result }
    ensures answered { IsOpenAnswered text.now text_size options.now mesh.old mesh.new shape.old shape.new line.old line.new line_room result }
{
    let no_buffer = text.len() != text_size || line.len() != line_room;
    if no_buffer || options.len() == 0 || mesh.len() == 0 || shape.len() == 0 {
        return refused(line, line_room);
    }
    open_file(alloc, text, &options[0], &mut mesh[0], &mut shape[0], line)
}

/// Opens points and triangles.
pub(crate) fn open_mesh(
    alloc: Global,
    points: &[[i32; 3]],
    point_count: usize,
    triangles: &[[u32; 3]],
    triangle_count: usize,
    options: &[Options],
    mesh: &mut [Handle],
    shape: &mut [Shape],
    line: &mut [u8],
    line_room: usize,
) -> Status
    ensures refused { IsOpenMeshRefused points.now point_count triangles.now triangle_count options.now mesh.old mesh.new
        shape.old shape.new line.old line.new line_room result }
    ensures answered { IsOpenMeshAnswered points.now point_count triangles.now triangle_count options.now mesh.old mesh.new
        shape.old shape.new line.old line.new line_room result }
{
    let no_arrays = points.len() != point_count || triangles.len() != triangle_count;
    let no_buffer = no_arrays || line.len() != line_room;
    if no_buffer || options.len() == 0 || mesh.len() == 0 || shape.len() == 0 {
        return refused(line, line_room);
    }
    open_arrays(
        alloc,
        points,
        triangles,
        &options[0],
        &mut mesh[0],
        &mut shape[0],
        line,
    )
}

/// Closes a mesh.
pub(crate) fn close(alloc: Global, mesh: &mut [Handle])
    ensures refused { IsCloseRefused mesh.old mesh.new }
    ensures answered { IsCloseAnswered mesh.old mesh.new }
{
    if mesh.len() != 0 {
        close_handle(alloc, &mut mesh[0]);
    }
}

/// Puts the image of layer k.
pub(crate) fn mask(
    mesh: &[Handle],
    k: u32,
    image: &mut [u8],
    image_room: usize,
    image_size: &mut [usize],
) -> Status
    ensures refused { IsMaskRefused mesh.now k image.old image.new image_room image_size.old image_size.new result }
    ensures answered { IsMaskAnswered mesh.now k image.old image.new image_room image_size.old image_size.new result }
{
    if mesh.len() == 0 || image.len() != image_room || image_size.len() == 0 {
        return OUT_OF_RANGE;
    }
    ask_mask(&mesh[0], k, image, &mut image_size[0])
}

/// Puts the images of stripe s.
pub(crate) fn stripe(
    mesh: &[Handle],
    s: u64,
    images: &mut [u8],
    images_room: usize,
    images_size: &mut [usize],
) -> Status
    ensures refused { IsStripeRefused mesh.now s images.old images.new images_room images_size.old images_size.new result }
    ensures answered { IsStripeAnswered mesh.now s images.old images.new images_room images_size.old images_size.new result }
{
    if mesh.len() == 0 || images.len() != images_room || images_size.len() == 0 {
        return OUT_OF_RANGE;
    }
    ask_stripe(&mesh[0], s, images, &mut images_size[0])
}

/// Puts the PNG of layer k.
pub(crate) fn png(
    mesh: &[Handle],
    k: u32,
    depth: u32,
    mirrors: u32,
    png: &mut [u8],
    png_room: usize,
    png_size: &mut [usize],
) -> Status
    ensures refused { IsPngRefused mesh.now k depth mirrors png.old png.new png_room png_size.old png_size.new result }
    ensures answered { IsPngAnswered mesh.now k depth mirrors png.old png.new png_room png_size.old png_size.new result }
{
    if mesh.len() == 0 || png.len() != png_room || png_size.len() == 0 {
        return OUT_OF_RANGE;
    }
    ask_png(&mesh[0], k, depth, mirrors, png, &mut png_size[0])
}

/// Puts the number of filled pixels of layer k.
pub(crate) fn area(mesh: &[Handle], k: u32, area: &mut [u64]) -> Status
    ensures refused { IsAreaRefused mesh.now k area.old area.new result }
    ensures answered { IsAreaAnswered mesh.now k area.old area.new result }
{
    if mesh.len() == 0 || area.len() == 0 {
        return OUT_OF_RANGE;
    }
    ask_area(&mesh[0], k, &mut area[0])
}

/// Puts the numbers of filled pixels of layers in a row.
pub(crate) fn areas(
    mesh: &[Handle],
    rule: u32,
    first: u32,
    areas: &mut [u64],
    count: usize,
) -> Status
    ensures refused { IsAreasRefused mesh.now rule first areas.old areas.new count result }
    ensures answered { IsAreasAnswered mesh.now rule first areas.old areas.new count result }
{
    if mesh.len() == 0 || areas.len() != count {
        return OUT_OF_RANGE;
    }
    ask_areas(&mesh[0], rule, first, areas)
}

/// Puts the crossings of the rays from the centre of a voxel.
pub(crate) fn probe(mesh: &[Handle], i: u32, j: u32, k: u32, rays: &mut [Rays]) -> Status
    ensures refused { IsProbeRefused mesh.now i j k rays.old rays.new result }
    ensures answered { IsProbeAnswered mesh.now i j k rays.old rays.new result }
{
    if mesh.len() == 0 || rays.len() == 0 {
        return OUT_OF_RANGE;
    }
    ask_probe(&mesh[0], i, j, k, &mut rays[0])
}

/// Puts the loops of layer k.
pub(crate) fn loops(
    alloc: Global,
    mesh: &[Handle],
    k: u32,
    points: &mut [LoopPoint],
    points_room: usize,
    points_count: &mut [usize],
    ends: &mut [usize],
    ends_room: usize,
    loops_count: &mut [usize],
) -> Status
    ensures refused { IsLoopsRefused mesh.now k points.old points.new points_room points_count.old points_count.new
        ends.old ends.new ends_room loops_count.old loops_count.new result }
    ensures answered { IsLoopsAnswered mesh.now k points.old points.new points_room points_count.old points_count.new
        ends.old ends.new ends_room loops_count.old loops_count.new result }
{
    let no_buffer = points.len() != points_room || ends.len() != ends_room;
    if no_buffer || mesh.len() == 0 || points_count.len() == 0 || loops_count.len() == 0 {
        return OUT_OF_RANGE;
    }
    ask_loops(
        alloc,
        &mesh[0],
        k,
        points,
        &mut points_count[0],
        ends,
        &mut loops_count[0],
    )
}
