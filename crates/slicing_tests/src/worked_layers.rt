//! Worked meshes, layer by layer: the filled pixels, and the bytes of the image. Rows count from the least y, and an
//! image shows the row of the greatest y first.
ghost use Rattle.std.specs.Prelude.{◌<◌};
ghost use Rattle.raster.specs.Span.{AreSpans};

use crate::spans::spans;
use mesh_weld::Solid;
use raster::{Counted, Grid, Rule, Span, write_layer};
use std::alloc::{AllocError, Global};
use test_layers::layer;
use test_meshes::published::MOST_COLUMNS;
use test_meshes::{
    BEAM, CUBE_OF_THREE, INWARD_CUBE, NINE_IN_A_ROW, OCTAHEDRON, Part, SHEET, TOUCHING,
};
use test_solids::solid_of;

/// The spans of a layer, and the bytes of its image.
type Layer<'a> = (&'a [Span], &'a [u8]);

/// A mesh, the size of voxels in micrometres, and the layers, from the lowest up.
type Worked<'a> = (&'a [Part<'a>], u8, &'a [Layer<'a>]);

/// Whether these spans have this image in a grid.
fn is_image(alloc: Global, g: &Grid, spans: &[Span], image: &[u8]) -> bool
    requires { AreSpans g.now.columns g.now.rows spans.now }
{
    let mut w = Counted::new(Vec::new(alloc));
    write_layer(g, spans, &mut w).is_ok() && w.inner().as_slice() == image
}

/// Whether a layer has these spans and this image.
fn is_layer(alloc: Global, s: &Solid<Global>, g: &Grid, rule: Rule, k: u32, told: Layer<'_>) -> bool
    requires { k < g.now.layers }
{
    let (spans, image) = told;
    match layer(alloc, s, g, rule, k) {
        Ok(found) => { found.as_slice() == spans && is_image(alloc, g, found.as_slice(), image) }
        Err(_) => false,
    }
}

/// Whether the layers of a solid in a grid are just these by a rule.
fn are_layers_in(
    alloc: Global,
    s: &Solid<Global>,
    g: &Grid,
    rule: Rule,
    told: &[Layer<'_>],
) -> bool {
    for k in 0..g.layers() {
        match told.get(k as usize) {
            Some(layer) if is_layer(alloc, s, g, rule, k, *layer) => {}
            _ => return false,
        }
    }
    g.layers() as usize == told.len()
}

/// Whether the layers of a mesh are just these by a rule.
fn are_layers(alloc: Global, (parts, size, told): Worked<'_>, rule: Rule) -> bool {
    if size == 0 {
        return false;
    }
    let Ok(solid) = solid_of(alloc, parts) else {
        return false;
    };
    match Grid::fit(&solid, u32::from(size), u32::from(size)) {
        Ok(g) => are_layers_in(alloc, &solid, &g, rule, told),
        Err(_) => false,
    }
}

/// The same by each rule.
fn are_layers_by_each(alloc: Global, worked: Worked<'_>) -> bool {
    are_layers(alloc, worked, Rule::EvenOdd)
        && are_layers(alloc, worked, Rule::NonZero)
        && are_layers(alloc, worked, Rule::Positive)
}

/// The layers of a grid of 2 x 2 x 2 voxels in which only the one of least x, y and z is filled.
const LEAST_OF_EIGHT: &[Layer] = &[
    (&spans![0: 0, 1], b"P4\n2 2\n\x00\x80"),
    (&[], b"P4\n2 2\n\x00\x00"),
];

/// The centres lie at 1 and 3 micrometres; those at 3 lie in the far faces.
static THREE_BY_TWOS: Worked = (CUBE_OF_THREE, 2, LEAST_OF_EIGHT);

#[test]
fn far_faces_hold_no_centre(rt: HostRuntime) {
    assert!(rt; are_layers_by_each(rt.alloc(), THREE_BY_TWOS));
}

/// The first centre is the far corner of one cube and the near corner of the other.
static SHARED_CORNER: Worked = (TOUCHING, 2, LEAST_OF_EIGHT);

#[test]
fn a_shared_corner_lies_in_one_cube(rt: HostRuntime) {
    assert!(rt; are_layers_by_each(rt.alloc(), SHARED_CORNER));
}

static ONE_CENTRE: Worked = (OCTAHEDRON, 4, &[(&spans![0: 0, 1], b"P4\n1 1\n\x80")]);

/// The plane and the scanline of the only centre pass through four corners.
#[test]
fn an_octahedron_round_one_centre(rt: HostRuntime) {
    assert!(rt; are_layers_by_each(rt.alloc(), ONE_CENTRE));
}

static INWARD: Worked = (
    INWARD_CUBE,
    1,
    &[
        (&spans![0: 0, 2; 1: 0, 2], b"P4\n2 2\n\xc0\xc0"),
        (&spans![0: 0, 2; 1: 0, 2], b"P4\n2 2\n\xc0\xc0"),
    ],
);

static NOTHING: Worked = (
    INWARD_CUBE,
    1,
    &[(&[], b"P4\n2 2\n\x00\x00"), (&[], b"P4\n2 2\n\x00\x00")],
);

#[test]
fn an_inward_cube_by_each_rule(rt: HostRuntime) {
    assert!(rt; are_layers(rt.alloc(), INWARD, Rule::EvenOdd));
    assert!(rt; are_layers(rt.alloc(), INWARD, Rule::NonZero));
    assert!(rt; are_layers(rt.alloc(), NOTHING, Rule::Positive));
}

static NINE: Worked = (
    NINE_IN_A_ROW,
    1,
    &[(&spans![0: 0, 9], b"P4\n9 1\n\xff\x80")],
);

#[test]
fn nine_pixels_take_two_bytes(rt: HostRuntime) {
    assert!(rt; are_layers(rt.alloc(), NINE, Rule::EvenOdd));
}

static EMPTY: Worked = (SHEET, 1, &[(&[], b"P4\n2 2\n\x00\x00")]);

#[test]
fn a_sheet_holds_no_centre(rt: HostRuntime) {
    assert!(rt; are_layers_by_each(rt.alloc(), EMPTY));
}

/// The image of one row of as many black pixels as there may be.
fn widest_image(alloc: Global) -> Result<Vec<u8>, AllocError> {
    let mut image = Vec::new(alloc);
    image.extend_from_slice(b"P4\n16384 1\n")?;
    for _ in 0..2048 {
        image.push(0xff)?;
    }
    Ok(image)
}

const WIDEST: &[Span] = &[Span {
    row: 0,
    from: 0,
    to: MOST_COLUMNS,
}];

/// Whether the beam has that row and that image.
fn is_widest(alloc: Global) -> bool {
    match widest_image(alloc) {
        Ok(image) => are_layers(
            alloc,
            (BEAM, 1, &[(WIDEST, image.as_slice())]),
            Rule::EvenOdd,
        ),
        Err(_) => false,
    }
}

#[test]
fn the_widest_row(rt: HostRuntime) {
    assert!(rt; is_widest(rt.alloc()));
}
