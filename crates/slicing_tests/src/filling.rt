//! Small meshes, filled, and allocations that fail.
ghost use Rattle.std.specs.Prelude.{◌<◌};

use crate::spans::spans;
use mesh_weld::Solid;
use raster::{Counted, Filler, Grid, Rule, Span, write_layer};
use short_memory::{Count, ShortMemory, first_free_turn};
use std::alloc::{Allocator, Global};
use test_layers::{layer, layer_by};
use test_meshes::{CUBE, INWARD_CUBE, OCTAHEDRON, ONE_INWARD, Part, TOUCHING, TWO_CUBES};
use test_solids::solid_of;

/// The spans of a layer of boxes in voxels of 2; `None` if an allocation failed.
fn layer_of<A: Allocator + Copy + Send + Sync>(
    alloc: A,
    parts: &[Part<'_>],
    rule: Rule,
    k: u32,
) -> Option<Vec<Span, A>> {
    let Ok(solid) = solid_of(alloc, parts) else {
        return None;
    };
    match Grid::fit(&solid, 2, 2) {
        Ok(g) if k < g.layers() => layer(alloc, &solid, &g, rule, k).ok(),
        _ => None,
    }
}

/// What is in one of two cubes that overlap, in layer 1.
const ODD: &[Span] = &spans![0: 0, 2; 1: 0, 1; 1: 2, 3; 2: 1, 3];

/// The first of them alone, in layer 0.
const LOW: &[Span] = &spans![0: 0, 2; 1: 0, 2];

/// Boxes, a rule, and the spans of a layer by it.
type Row<'a> = (&'a [Part<'a>], Rule, u32, &'a [Span]);

/// `Ok`, or the number of the first row with other spans.
fn all_layers(alloc: Global, rows: &[Row<'_>]) -> Result<(), usize> {
    for (n, (parts, rule, k, told)) in rows.iter().enumerate() {
        match layer_of(alloc, parts, *rule, *k) {
            Some(spans) if spans.as_slice() == *told => {}
            _ => return Err(n),
        }
    }
    Ok(())
}

static LAYERS: [Row; 5] = [
    (TWO_CUBES, Rule::EvenOdd, 1, ODD),
    (
        TWO_CUBES,
        Rule::NonZero,
        1,
        &spans![0: 0, 2; 1: 0, 3; 2: 1, 3],
    ),
    (TWO_CUBES, Rule::EvenOdd, 0, LOW),
    (ONE_INWARD, Rule::Positive, 1, &spans![0: 0, 2; 1: 0, 1]),
    (ONE_INWARD, Rule::NonZero, 1, ODD),
];

#[test]
fn layers_of_two_cubes(rt: HostRuntime) -> Result<(), usize> {
    all_layers(rt.alloc(), &LAYERS)
}

/// Writes the image of a layer after others: whether memory sufficed.
fn push_image(
    w: &mut Counted<Vec<u8>>,
    alloc: Global,
    s: &Solid<Global>,
    g: &Grid,
    rule: Rule,
    k: u32,
) -> bool
    requires { k < g.now.layers }
{
    match layer(alloc, s, g, rule, k) {
        Ok(spans) => write_layer(g, spans.as_slice(), w).is_ok(),
        Err(_) => false,
    }
}

/// A mesh, a rule, the size of voxels, and the images of all layers, one after the other, each from its last row down.
type Images<'a> = (&'a [Part<'a>], Rule, u8, &'a [u8]);

/// Whether the layers of a solid in a grid have these images.
fn are_images_in(alloc: Global, s: &Solid<Global>, g: &Grid, rule: Rule, told: &[u8]) -> bool {
    let mut w = Counted::new(Vec::new(alloc));
    for k in 0..g.layers() {
        if !push_image(&mut w, alloc, s, g, rule, k) {
            return false;
        }
    }
    w.inner().as_slice() == told
}

/// Whether the layers of a mesh have these images.
fn are_images(alloc: Global, (parts, rule, size, told): Images<'_>) -> bool {
    if size == 0 {
        return false;
    }
    let Ok(solid) = solid_of(alloc, parts) else {
        return false;
    };
    match Grid::fit(&solid, u32::from(size), u32::from(size)) {
        Ok(g) => are_images_in(alloc, &solid, &g, rule, told),
        Err(_) => false,
    }
}

/// `Ok`, or the number of the first mesh with other images.
fn all_images(alloc: Global, rows: &[Images<'_>]) -> Result<(), usize> {
    for (n, row) in rows.iter().enumerate() {
        if !are_images(alloc, *row) {
            return Err(n);
        }
    }
    Ok(())
}

static IMAGES: [Images; 10] = [
    (
        CUBE,
        Rule::EvenOdd,
        1,
        b"P4\n2 2\n\xc0\xc0P4\n2 2\n\xc0\xc0",
    ),
    (INWARD_CUBE, Rule::NonZero, 2, b"P4\n1 1\n\x80"),
    (INWARD_CUBE, Rule::Positive, 2, b"P4\n1 1\n\x00"),
    // its tips are too thin to have a voxel's centre in them
    (
        OCTAHEDRON,
        Rule::Positive,
        1,
        b"P4\n4 4\n\x00\x00\x00\x00P4\n4 4\n\x00\x60\x60\x00P4\n4 4\n\x00\x60\x60\x00P4\n4 4\n\x00\x00\x00\x00",
    ),
    (
        TOUCHING,
        Rule::EvenOdd,
        1,
        b"P4\n3 3\n\x00\x00\x80P4\n3 3\n\x60\x60\x00P4\n3 3\n\x60\x60\x00",
    ),
    (
        TWO_CUBES,
        Rule::EvenOdd,
        2,
        b"P4\n3 3\n\x00\xc0\xc0P4\n3 3\n\x60\xa0\xc0P4\n3 3\n\x60\x60\x00",
    ),
    (
        TWO_CUBES,
        Rule::NonZero,
        2,
        b"P4\n3 3\n\x00\xc0\xc0P4\n3 3\n\x60\xe0\xc0P4\n3 3\n\x60\x60\x00",
    ),
    (
        TWO_CUBES,
        Rule::Positive,
        2,
        b"P4\n3 3\n\x00\xc0\xc0P4\n3 3\n\x60\xe0\xc0P4\n3 3\n\x60\x60\x00",
    ),
    (
        ONE_INWARD,
        Rule::NonZero,
        2,
        b"P4\n3 3\n\x00\xc0\xc0P4\n3 3\n\x60\xa0\xc0P4\n3 3\n\x60\x60\x00",
    ),
    (
        ONE_INWARD,
        Rule::Positive,
        2,
        b"P4\n3 3\n\x00\xc0\xc0P4\n3 3\n\x00\x80\xc0P4\n3 3\n\x00\x00\x00",
    ),
];

#[test]
fn images_of_all_layers(rt: HostRuntime) -> Result<(), usize> {
    all_images(rt.alloc(), &IMAGES)
}

/// Whether a layer of a solid has these spans, by a filler that may have filled others.
fn is_filled(
    filler: &mut Filler<Global>,
    alloc: Global,
    solid: &Solid<Global>,
    g: &Grid,
    k: u32,
    told: &[Span],
) -> bool {
    if k >= g.layers() {
        return false;
    }
    match layer_by(filler, alloc, solid, g, Rule::EvenOdd, k) {
        Ok(spans) => spans.as_slice() == told,
        Err(_) => false,
    }
}

/// Whether layers of a solid in a grid have these spans, by one filler for all.
fn are_filled(alloc: Global, solid: &Solid<Global>, g: &Grid, layers: &[(u32, &[Span])]) -> bool {
    let mut filler = Filler::new(alloc);
    for (k, told) in layers {
        if !is_filled(&mut filler, alloc, solid, g, *k, told) {
            return false;
        }
    }
    true
}

/// The same of two cubes.
fn are_cubes_filled(alloc: Global, layers: &[(u32, &[Span])]) -> bool {
    let Ok(solid) = solid_of(alloc, TWO_CUBES) else {
        return false;
    };
    match Grid::fit(&solid, 2, 2) {
        Ok(g) => are_filled(alloc, &solid, &g, layers),
        Err(_) => false,
    }
}

static TURNS: [(u32, &[Span]); 2] = [(1, ODD), (0, LOW)];

#[test]
fn layers_of_one_filler(rt: HostRuntime) {
    assert!(rt; are_cubes_filled(rt.alloc(), &TURNS));
}

/// The spans of a layer of two cubes.
struct Spans;

impl Count for Spans {
    fn count(memory: &ShortMemory<Global>) -> Option<usize> {
        match layer_of(memory, TWO_CUBES, Rule::EvenOdd, 1) {
            Some(spans) => Some(spans.len()),
            None => None,
        }
    }
}

#[test]
fn each_allocation_fails_in_turn(rt: HostRuntime) {
    assert!(rt; first_free_turn::<Spans>(rt.alloc(), 100, 4) > Some(8));
}
