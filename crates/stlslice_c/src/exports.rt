//! The calls as C makes them: what each requires of the pointers that C gives, and what it leaves there.
//!
//! A contract says that C lends the values at a pointer for the call (`lent`): as many as C tells, or one. They lie aligned as
//! their type, and a byte that C has not written counts as some value. None is lent at a null pointer, nor for a number that no
//! object has. If fewer are lent than C tells, or none where one is needed, a call changes nothing but a line of text, and its
//! status, if it has one, is 1. Other statuses are those of the functions of `lib.rt`. What a call only reads may be lent to
//! other calls at the same time (`lent_shared`). No pointer is more than 2^63 - 1 bytes into its object (`Testable`). What is
//! asked of the lent values, and answered, is in `specs/Calls.antt`.
ghost use Rattle.std.specs.Prelude.{◌≡◌, ℕ, ℤ, List};
ghost use Rattle.std.specs.Borrow.{sem, u8, u64, usize};
ghost use base.Fml.{Lft, Share};
ghost use denote.Array.{Array};
ghost use denote.Builtin.{i32, u32};
ghost use denote.RawPtr.{Testable};
ghost use Rattle.stlslice_c.specs.Calls.{IsAreaCall, IsAreasCall, IsBoxCall, IsCloseCall, IsFacetsCall, IsLoopsCall, IsMaskCall};
ghost use Rattle.stlslice_c.specs.Calls.{IsOpenCall, IsOpenMeshCall, IsPngCall, IsProbeCall, IsStripeCall, IsTextCall};
ghost use Rattle.stlslice_c.specs.Pointers.{lent, lent_shared, lent_to_read};
ghost use Rattle.stlslice_c.specs.contracts.handle.Handle.{the_row as handle_row};
ghost use Rattle.stlslice_c.specs.contracts.loops.LoopPoint.{the_row as point_row};
ghost use Rattle.stlslice_c.specs.contracts.shape.Corners.{the_row as corners_row};
ghost use Rattle.stlslice_c.specs.contracts.shape.Rays.{the_row as rays_row};
ghost use Rattle.stlslice_c.specs.contracts.shape.Shape.{the_row as shape_row};
ghost use Rattle.stlslice_c.specs.contracts.options.Options.{the_row as options_row};
ghost use Rattle.stlslice_c.specs.declared.options.Options.{Options as OptionsValue};
ghost use Rattle.stlslice_c.specs.declared.shape.Corners.{Corners as CornersValue};
ghost use Rattle.stlslice_c.specs.declared.shape.Shape.{Shape as ShapeValue};
ghost use Rattle.stlslice_c.specs.declared.handle.Handle.{Handle as HandleValue};
ghost use Rattle.stlslice_c.specs.declared.loops.LoopPoint.{LoopPoint as PointValue};
ghost use Rattle.stlslice_c.specs.declared.shape.Rays.{Rays as RaysValue};

use crate::given;
use crate::handle::{Handle, HandleWords};
use crate::loops::LoopPoint;
use crate::options::Options;
use crate::places::place_of;
use crate::shape::{Corners, Rays, Shape};
use std::alloc::Global;
use std::slice::{from_raw_parts, from_raw_parts_mut};

/// Puts the text of a status into `line`.
#[unsafe(no_mangle)]
pub unsafe extern "C" fn stlslice_fault_text(status: u32, line: *mut u8, line_room: usize)
    ghost given: { List ℕ }
    requires tests { Testable line }
    requires* line { sem 𝓛 (lent u8 line line_room given) }
    ensures* { ∃ₛ (λ (left : List ℕ).
        sem 𝓛 (lent u8 line line_room left)
        ∗ ⌜ IsTextCall status given left line_room ⌝) }
{
    let line_at = place_of(line, line_room, 1);
    given::fault_text(
        status,
        from_raw_parts_mut(line_at.at, line_at.count),
        line_room,
    )
}

/// Reads a file, and puts the number and the box of its facets into `corners`.
#[unsafe(no_mangle)]
pub unsafe extern "C" fn stlslice_box(
    alloc: Global,
    text: *const u8,
    text_size: usize,
    unit: u32,
    corners: *mut Corners,
    line: *mut u8,
    line_room: usize,
) -> u32
    ghost given: { Share × List ℕ × List CornersValue × List ℕ }
    requires tests { Testable text × Testable corners × Testable line }
    requires* text { sem 𝓛 (lent_shared u8 given.0 text text_size given.1) }
    requires* corners { sem 𝓛 (lent corners_row corners 1 given.2) }
    requires* line { sem 𝓛 (lent u8 line line_room given.3) }
    ensures* { ∃ₛ (λ (left : List CornersValue × List ℕ).
        sem 𝓛 (lent_shared u8 given.0 text text_size given.1) ∗ sem 𝓛 (lent corners_row corners 1 left.0)
        ∗ sem 𝓛 (lent u8 line line_room left.1)
        ∗ ⌜ IsBoxCall given.1 text_size unit given.2 left.0 given.3 left.1 line_room result ⌝) }
{
    let text_at = place_of(text as *mut u8, text_size, 1);
    let corners_at = place_of(corners as *mut u8, 1, 32);
    let line_at = place_of(line, line_room, 1);
    given::box_of(
        alloc,
        from_raw_parts(text_at.at as *const u8, text_at.count),
        text_size,
        unit,
        from_raw_parts_mut(corners_at.at as *mut Corners, corners_at.count),
        from_raw_parts_mut(line_at.at, line_at.count),
        line_room,
    )
}

/// Reads a file, and puts its facets into the front of `facets`, and their number into `facets_count`.
#[unsafe(no_mangle)]
pub unsafe extern "C" fn stlslice_facets(
    alloc: Global,
    text: *const u8,
    text_size: usize,
    unit: u32,
    facets: *mut [[i32; 3]; 3],
    facets_room: usize,
    facets_count: *mut usize,
    line: *mut u8,
    line_room: usize,
) -> u32
    ghost given: { Share × List ℕ × List (List (List ℤ)) × List ℕ × List ℕ }
    requires tests { Testable text × Testable facets × Testable facets_count × Testable line }
    requires* text { sem 𝓛 (lent_shared u8 given.0 text text_size given.1) }
    requires* facets { sem 𝓛 (lent (Array (Array i32 3) 3) facets facets_room given.2) }
    requires* facets_count { sem 𝓛 (lent usize facets_count 1 given.3) }
    requires* line { sem 𝓛 (lent u8 line line_room given.4) }
    ensures* { ∃ₛ (λ (left : List (List (List ℤ)) × List ℕ × List ℕ).
        sem 𝓛 (lent_shared u8 given.0 text text_size given.1) ∗ sem 𝓛 (lent (Array (Array i32 3) 3) facets facets_room left.0)
        ∗ sem 𝓛 (lent usize facets_count 1 left.1) ∗ sem 𝓛 (lent u8 line line_room left.2)
        ∗ ⌜ IsFacetsCall given.1 text_size unit given.2 left.0 facets_room given.3 left.1 given.4 left.2 line_room result ⌝) }
{
    let text_at = place_of(text as *mut u8, text_size, 1);
    let facets_at = place_of(facets as *mut u8, facets_room, 36);
    let facets_count_at = place_of(facets_count as *mut u8, 1, 8);
    let line_at = place_of(line, line_room, 1);
    given::facets(
        alloc,
        from_raw_parts(text_at.at as *const u8, text_at.count),
        text_size,
        unit,
        from_raw_parts_mut(facets_at.at as *mut [[i32; 3]; 3], facets_at.count),
        facets_room,
        from_raw_parts_mut(facets_count_at.at as *mut usize, facets_count_at.count),
        from_raw_parts_mut(line_at.at, line_at.count),
        line_room,
    )
}

/// Opens a file, and puts its facets and its grid into `shape`.
#[unsafe(no_mangle)]
pub unsafe extern "C" fn stlslice_open(
    alloc: Global,
    text: *const u8,
    text_size: usize,
    options: *const Options,
    mesh: *mut HandleWords,
    shape: *mut Shape,
    line: *mut u8,
    line_room: usize,
) -> u32
    ghost given: { Share × List ℕ × Share × List OptionsValue × List HandleValue × List ShapeValue × List ℕ }
    requires tests { Testable text × Testable options × Testable mesh × Testable shape × Testable line }
    requires* text { sem 𝓛 (lent_shared u8 given.0 text text_size given.1) }
    requires* options { sem 𝓛 (lent_shared options_row given.2 options 1 given.3) }
    requires* mesh { sem 𝓛 (lent handle_row mesh 1 given.4) }
    requires* shape { sem 𝓛 (lent shape_row shape 1 given.5) }
    requires* line { sem 𝓛 (lent u8 line line_room given.6) }
    ensures* { ∃ₛ (λ (left : List HandleValue × List ShapeValue × List ℕ).
        sem 𝓛 (lent_shared u8 given.0 text text_size given.1) ∗ sem 𝓛 (lent_shared options_row given.2 options 1 given.3)
        ∗ sem 𝓛 (lent handle_row mesh 1 left.0) ∗ sem 𝓛 (lent shape_row shape 1 left.1)
        ∗ sem 𝓛 (lent u8 line line_room left.2)
        ∗ ⌜ IsOpenCall given.1 text_size given.3 given.4 left.0 given.5 left.1 given.6 left.2 line_room result ⌝) }
{
    let text_at = place_of(text as *mut u8, text_size, 1);
    let options_at = place_of(options as *mut u8, 1, 64);
    let mesh_at = place_of(mesh as *mut u8, 1, 16);
    let shape_at = place_of(shape as *mut u8, 1, 80);
    let line_at = place_of(line, line_room, 1);
    given::open(
        alloc,
        from_raw_parts(text_at.at as *const u8, text_at.count),
        text_size,
        from_raw_parts(options_at.at as *const Options, options_at.count),
        from_raw_parts_mut(mesh_at.at as *mut Handle, mesh_at.count),
        from_raw_parts_mut(shape_at.at as *mut Shape, shape_at.count),
        from_raw_parts_mut(line_at.at, line_at.count),
        line_room,
    )
}

/// Opens points and triangles, and puts their facets and their grid into `shape`.
#[unsafe(no_mangle)]
pub unsafe extern "C" fn stlslice_open_mesh(
    alloc: Global,
    points: *const [i32; 3],
    point_count: usize,
    triangles: *const [u32; 3],
    triangle_count: usize,
    options: *const Options,
    mesh: *mut HandleWords,
    shape: *mut Shape,
    line: *mut u8,
    line_room: usize,
) -> u32
    ghost given: { Share × List (List ℤ) × Share × List (List ℕ) × Share × List OptionsValue × List HandleValue × List ShapeValue × List ℕ }
    requires tests { Testable points × Testable triangles × Testable options × Testable mesh × Testable shape × Testable line }
    requires* points { sem 𝓛 (lent_shared (Array i32 3) given.0 points point_count given.1) }
    requires* triangles { sem 𝓛 (lent_shared (Array u32 3) given.2 triangles triangle_count given.3) }
    requires* options { sem 𝓛 (lent_shared options_row given.4 options 1 given.5) }
    requires* mesh { sem 𝓛 (lent handle_row mesh 1 given.6) }
    requires* shape { sem 𝓛 (lent shape_row shape 1 given.7) }
    requires* line { sem 𝓛 (lent u8 line line_room given.8) }
    ensures* { ∃ₛ (λ (left : List HandleValue × List ShapeValue × List ℕ).
        sem 𝓛 (lent_shared (Array i32 3) given.0 points point_count given.1) ∗ sem 𝓛 (lent_shared (Array u32 3) given.2 triangles triangle_count given.3)
        ∗ sem 𝓛 (lent_shared options_row given.4 options 1 given.5) ∗ sem 𝓛 (lent handle_row mesh 1 left.0)
        ∗ sem 𝓛 (lent shape_row shape 1 left.1) ∗ sem 𝓛 (lent u8 line line_room left.2)
        ∗ ⌜ IsOpenMeshCall given.1 point_count given.3 triangle_count given.5 given.6 left.0 given.7 left.1 given.8 left.2 line_room result ⌝) }
{
    let points_at = place_of(points as *mut u8, point_count, 12);
    let triangles_at = place_of(triangles as *mut u8, triangle_count, 12);
    let options_at = place_of(options as *mut u8, 1, 64);
    let mesh_at = place_of(mesh as *mut u8, 1, 16);
    let shape_at = place_of(shape as *mut u8, 1, 80);
    let line_at = place_of(line, line_room, 1);
    given::open_mesh(
        alloc,
        from_raw_parts(points_at.at as *const [i32; 3], points_at.count),
        point_count,
        from_raw_parts(triangles_at.at as *const [u32; 3], triangles_at.count),
        triangle_count,
        from_raw_parts(options_at.at as *const Options, options_at.count),
        from_raw_parts_mut(mesh_at.at as *mut Handle, mesh_at.count),
        from_raw_parts_mut(shape_at.at as *mut Shape, shape_at.count),
        from_raw_parts_mut(line_at.at, line_at.count),
        line_room,
    )
}

/// Puts the image of layer k into the front of `image`, and its size into `image_size`.
#[unsafe(no_mangle)]
pub unsafe extern "C" fn stlslice_mask(
    mesh: *const HandleWords,
    k: u32,
    image: *mut u8,
    image_room: usize,
    image_size: *mut usize,
) -> u32
    ghost given: { (Lft × Share) × List HandleValue × List ℕ × List ℕ }
    requires tests { Testable mesh × Testable image × Testable image_size }
    requires* mesh { sem 𝓛 (lent_to_read handle_row given.0 mesh 1 given.1) }
    requires* image { sem 𝓛 (lent u8 image image_room given.2) }
    requires* image_size { sem 𝓛 (lent usize image_size 1 given.3) }
    ensures* { ∃ₛ (λ (left : List ℕ × List ℕ).
        sem 𝓛 (lent_to_read handle_row given.0 mesh 1 given.1) ∗ sem 𝓛 (lent u8 image image_room left.0)
        ∗ sem 𝓛 (lent usize image_size 1 left.1)
        ∗ ⌜ IsMaskCall given.1 k given.2 left.0 image_room given.3 left.1 result ⌝) }
{
    let mesh_at = place_of(mesh as *mut u8, 1, 16);
    let image_at = place_of(image, image_room, 1);
    let image_size_at = place_of(image_size as *mut u8, 1, 8);
    given::mask(
        from_raw_parts(mesh_at.at as *const Handle, mesh_at.count),
        k,
        from_raw_parts_mut(image_at.at, image_at.count),
        image_room,
        from_raw_parts_mut(image_size_at.at as *mut usize, image_size_at.count),
    )
}

/// Puts the images of stripe s into the front of `images`, and their size into `images_size`.
#[unsafe(no_mangle)]
pub unsafe extern "C" fn stlslice_stripe(
    mesh: *const HandleWords,
    s: u64,
    images: *mut u8,
    images_room: usize,
    images_size: *mut usize,
) -> u32
    ghost given: { (Lft × Share) × List HandleValue × List ℕ × List ℕ }
    requires tests { Testable mesh × Testable images × Testable images_size }
    requires* mesh { sem 𝓛 (lent_to_read handle_row given.0 mesh 1 given.1) }
    requires* images { sem 𝓛 (lent u8 images images_room given.2) }
    requires* images_size { sem 𝓛 (lent usize images_size 1 given.3) }
    ensures* { ∃ₛ (λ (left : List ℕ × List ℕ).
        sem 𝓛 (lent_to_read handle_row given.0 mesh 1 given.1) ∗ sem 𝓛 (lent u8 images images_room left.0)
        ∗ sem 𝓛 (lent usize images_size 1 left.1)
        ∗ ⌜ IsStripeCall given.1 s given.2 left.0 images_room given.3 left.1 result ⌝) }
{
    let mesh_at = place_of(mesh as *mut u8, 1, 16);
    let images_at = place_of(images, images_room, 1);
    let images_size_at = place_of(images_size as *mut u8, 1, 8);
    given::stripe(
        from_raw_parts(mesh_at.at as *const Handle, mesh_at.count),
        s,
        from_raw_parts_mut(images_at.at, images_at.count),
        images_room,
        from_raw_parts_mut(images_size_at.at as *mut usize, images_size_at.count),
    )
}

/// Puts the PNG of layer k into the front of `png`, and its size into `png_size`.
#[unsafe(no_mangle)]
pub unsafe extern "C" fn stlslice_png(
    mesh: *const HandleWords,
    k: u32,
    depth: u32,
    mirrors: u32,
    png: *mut u8,
    png_room: usize,
    png_size: *mut usize,
) -> u32
    ghost given: { (Lft × Share) × List HandleValue × List ℕ × List ℕ }
    requires tests { Testable mesh × Testable png × Testable png_size }
    requires* mesh { sem 𝓛 (lent_to_read handle_row given.0 mesh 1 given.1) }
    requires* png { sem 𝓛 (lent u8 png png_room given.2) }
    requires* png_size { sem 𝓛 (lent usize png_size 1 given.3) }
    ensures* { ∃ₛ (λ (left : List ℕ × List ℕ).
        sem 𝓛 (lent_to_read handle_row given.0 mesh 1 given.1) ∗ sem 𝓛 (lent u8 png png_room left.0)
        ∗ sem 𝓛 (lent usize png_size 1 left.1)
        ∗ ⌜ IsPngCall given.1 k depth mirrors given.2 left.0 png_room given.3 left.1 result ⌝) }
{
    let mesh_at = place_of(mesh as *mut u8, 1, 16);
    let png_at = place_of(png, png_room, 1);
    let png_size_at = place_of(png_size as *mut u8, 1, 8);
    given::png(
        from_raw_parts(mesh_at.at as *const Handle, mesh_at.count),
        k,
        depth,
        mirrors,
        from_raw_parts_mut(png_at.at, png_at.count),
        png_room,
        from_raw_parts_mut(png_size_at.at as *mut usize, png_size_at.count),
    )
}

/// Puts the number of filled pixels of layer k into `area`.
#[unsafe(no_mangle)]
pub unsafe extern "C" fn stlslice_area(mesh: *const HandleWords, k: u32, area: *mut u64) -> u32
    ghost given: { (Lft × Share) × List HandleValue × List ℕ }
    requires tests { Testable mesh × Testable area }
    requires* mesh { sem 𝓛 (lent_to_read handle_row given.0 mesh 1 given.1) }
    requires* area { sem 𝓛 (lent u64 area 1 given.2) }
    ensures* { ∃ₛ (λ (left : List ℕ).
        sem 𝓛 (lent_to_read handle_row given.0 mesh 1 given.1) ∗ sem 𝓛 (lent u64 area 1 left)
        ∗ ⌜ IsAreaCall given.1 k given.2 left result ⌝) }
{
    let mesh_at = place_of(mesh as *mut u8, 1, 16);
    let area_at = place_of(area as *mut u8, 1, 8);
    given::area(
        from_raw_parts(mesh_at.at as *const Handle, mesh_at.count),
        k,
        from_raw_parts_mut(area_at.at as *mut u64, area_at.count),
    )
}

/// Puts the numbers of pixels that a rule fills of `count` layers, from layer `first` on, into `areas`.
#[unsafe(no_mangle)]
pub unsafe extern "C" fn stlslice_areas(
    mesh: *const HandleWords,
    rule: u32,
    first: u32,
    areas: *mut u64,
    count: usize,
) -> u32
    ghost given: { (Lft × Share) × List HandleValue × List ℕ }
    requires tests { Testable mesh × Testable areas }
    requires* mesh { sem 𝓛 (lent_to_read handle_row given.0 mesh 1 given.1) }
    requires* areas { sem 𝓛 (lent u64 areas count given.2) }
    ensures* { ∃ₛ (λ (left : List ℕ).
        sem 𝓛 (lent_to_read handle_row given.0 mesh 1 given.1) ∗ sem 𝓛 (lent u64 areas count left)
        ∗ ⌜ IsAreasCall given.1 rule first given.2 left count result ⌝) }
{
    let mesh_at = place_of(mesh as *mut u8, 1, 16);
    let areas_at = place_of(areas as *mut u8, count, 8);
    given::areas(
        from_raw_parts(mesh_at.at as *const Handle, mesh_at.count),
        rule,
        first,
        from_raw_parts_mut(areas_at.at as *mut u64, areas_at.count),
        count,
    )
}

/// Puts the crossings of the rays from the centre of a voxel into `rays`.
#[unsafe(no_mangle)]
pub unsafe extern "C" fn stlslice_probe(
    mesh: *const HandleWords,
    i: u32,
    j: u32,
    k: u32,
    rays: *mut Rays,
) -> u32
    ghost given: { (Lft × Share) × List HandleValue × List RaysValue }
    requires tests { Testable mesh × Testable rays }
    requires* mesh { sem 𝓛 (lent_to_read handle_row given.0 mesh 1 given.1) }
    requires* rays { sem 𝓛 (lent rays_row rays 1 given.2) }
    ensures* { ∃ₛ (λ (left : List RaysValue).
        sem 𝓛 (lent_to_read handle_row given.0 mesh 1 given.1) ∗ sem 𝓛 (lent rays_row rays 1 left)
        ∗ ⌜ IsProbeCall given.1 i j k given.2 left result ⌝) }
{
    let mesh_at = place_of(mesh as *mut u8, 1, 16);
    let rays_at = place_of(rays as *mut u8, 1, 8);
    given::probe(
        from_raw_parts(mesh_at.at as *const Handle, mesh_at.count),
        i,
        j,
        k,
        from_raw_parts_mut(rays_at.at as *mut Rays, rays_at.count),
    )
}

/// Puts the points and the ends of the loops of layer k into the fronts of two buffers, and their numbers.
#[unsafe(no_mangle)]
pub unsafe extern "C" fn stlslice_loops(
    alloc: Global,
    mesh: *const HandleWords,
    k: u32,
    points: *mut LoopPoint,
    points_room: usize,
    points_count: *mut usize,
    ends: *mut usize,
    ends_room: usize,
    loops_count: *mut usize,
) -> u32
    ghost given: { (Lft × Share) × List HandleValue × List PointValue × List ℕ × List ℕ × List ℕ }
    requires tests { Testable mesh × Testable points × Testable points_count × Testable ends × Testable loops_count }
    requires* mesh { sem 𝓛 (lent_to_read handle_row given.0 mesh 1 given.1) }
    requires* points { sem 𝓛 (lent point_row points points_room given.2) }
    requires* points_count { sem 𝓛 (lent usize points_count 1 given.3) }
    requires* ends { sem 𝓛 (lent usize ends ends_room given.4) }
    requires* loops_count { sem 𝓛 (lent usize loops_count 1 given.5) }
    ensures* { ∃ₛ (λ (left : List PointValue × List ℕ × List ℕ × List ℕ).
        sem 𝓛 (lent_to_read handle_row given.0 mesh 1 given.1) ∗ sem 𝓛 (lent point_row points points_room left.0)
        ∗ sem 𝓛 (lent usize points_count 1 left.1) ∗ sem 𝓛 (lent usize ends ends_room left.2)
        ∗ sem 𝓛 (lent usize loops_count 1 left.3)
        ∗ ⌜ IsLoopsCall given.1 k given.2 left.0 points_room given.3 left.1 given.4 left.2 ends_room given.5 left.3 result ⌝) }
{
    let mesh_at = place_of(mesh as *mut u8, 1, 16);
    let points_at = place_of(points as *mut u8, points_room, 16);
    let points_count_at = place_of(points_count as *mut u8, 1, 8);
    let ends_at = place_of(ends as *mut u8, ends_room, 8);
    let loops_count_at = place_of(loops_count as *mut u8, 1, 8);
    given::loops(
        alloc,
        from_raw_parts(mesh_at.at as *const Handle, mesh_at.count),
        k,
        from_raw_parts_mut(points_at.at as *mut LoopPoint, points_at.count),
        points_room,
        from_raw_parts_mut(points_count_at.at as *mut usize, points_count_at.count),
        from_raw_parts_mut(ends_at.at as *mut usize, ends_at.count),
        ends_room,
        from_raw_parts_mut(loops_count_at.at as *mut usize, loops_count_at.count),
    )
}

/// Closes a mesh. A null pointer is no mesh, and nothing happens.
#[unsafe(no_mangle)]
pub unsafe extern "C" fn stlslice_close(alloc: Global, mesh: *mut HandleWords)
    ghost given: { List HandleValue }
    requires tests { Testable mesh }
    requires* mesh { sem 𝓛 (lent handle_row mesh 1 given) }
    ensures* { ∃ₛ (λ (left : List HandleValue).
        sem 𝓛 (lent handle_row mesh 1 left)
        ∗ ⌜ IsCloseCall given left ⌝) }
{
    let mesh_at = place_of(mesh as *mut u8, 1, 16);
    given::close(
        alloc,
        from_raw_parts_mut(mesh_at.at as *mut Handle, mesh_at.count),
    )
}
