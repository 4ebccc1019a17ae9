//! Worked grids, and the images of spans.
ghost use Rattle.raster.specs.Span.{AreSpans};

use crate::spans::spans;
use geometry::Point;
use raster::{Counted, Grid, GridFault, Span, write_layer};
use std::alloc::Global;
use test_meshes::published::{FARTHEST, MOST_COLUMNS, MOST_LAYERS};
use test_meshes::{BEAM, CUBE_OF_THREE, LONG_BEAM, Part};
use test_solids::solid_of;

/// How many columns, rows and layers a grid has.
type Counts = Result<[u32; 3], GridFault>;

fn counts(found: Result<Grid, GridFault>) -> Counts {
    let g = found?;
    Ok([g.columns(), g.rows(), g.layers()])
}

/// A corner, a pitch and a layer height, how many columns, rows and layers are asked for, and those of the grid.
type Given = ([i32; 3], [u8; 2], [u32; 3], Counts);

/// One column more than a grid may have.
const TOO_WIDE: Counts = Err(GridFault::TooLarge {
    columns: MOST_COLUMNS + 1,
    rows: 1,
    layers: 1,
});

static GIVEN: [Given; 14] = [
    ([-1; 3], [1, 2], [4, 4, 1], Ok([4, 4, 1])),
    ([-1; 3], [1, 1], [0, 1, 1], Err(GridFault::NoCells)),
    ([-1; 3], [1, 1], [MOST_COLUMNS + 1, 1, 1], TOO_WIDE),
    (
        [-1; 3],
        [1, 1],
        [1, MOST_COLUMNS + 1, 1],
        Err(GridFault::TooLarge {
            columns: 1,
            rows: MOST_COLUMNS + 1,
            layers: 1,
        }),
    ),
    (
        [-1; 3],
        [1, 1],
        [1, 1, MOST_LAYERS],
        Ok([1, 1, MOST_LAYERS]),
    ),
    (
        [-1; 3],
        [1, 1],
        [1, 1, MOST_LAYERS + 1],
        Err(GridFault::TooLarge {
            columns: 1,
            rows: 1,
            layers: MOST_LAYERS + 1,
        }),
    ),
    (
        [FARTHEST, 0, 0],
        [100, 1],
        [MOST_COLUMNS, 1, 1],
        Err(GridFault::FarCentre),
    ),
    // along each axis the farthest centre that a grid may have, and one cell more
    ([FARTHEST, 0, 0], [64, 1], [1563, 1, 1], Ok([1563, 1, 1])),
    (
        [FARTHEST, 0, 0],
        [64, 1],
        [1564, 1, 1],
        Err(GridFault::FarCentre),
    ),
    ([0, FARTHEST, 0], [64, 1], [1, 1563, 1], Ok([1, 1563, 1])),
    (
        [0, FARTHEST, 0],
        [64, 1],
        [1, 1564, 1],
        Err(GridFault::FarCentre),
    ),
    ([0, 0, FARTHEST], [1, 64], [1, 1, 1563], Ok([1, 1, 1563])),
    (
        [0, 0, FARTHEST],
        [1, 64],
        [1, 1, 1564],
        Err(GridFault::FarCentre),
    ),
    // too large as well as too far
    (
        [FARTHEST, 0, 0],
        [64, 1],
        [MOST_COLUMNS + 1, 1, 1],
        TOO_WIDE,
    ),
];

fn given([x, y, z]: [i32; 3], [pitch, height]: [u8; 2], asked: [u32; 3]) -> Option<Counts> {
    let origin = Point::new(x, y, z)?;
    if pitch == 0 || height == 0 {
        return None;
    }
    let [columns, rows, layers] = asked;
    Some(counts(Grid::given(
        origin,
        u32::from(pitch),
        u32::from(height),
        columns,
        rows,
        layers,
    )))
}

/// `Ok`, or the number of the first row with another grid.
fn all_given(rows: &[Given]) -> Result<(), usize> {
    for (n, (corner, sizes, asked, told)) in rows.iter().enumerate() {
        if given(*corner, *sizes, *asked) != Some(*told) {
            return Err(n);
        }
    }
    Ok(())
}

#[test]
fn given_grids() -> Result<(), usize> {
    all_given(&GIVEN)
}

/// A mesh, the size of voxels, and how many columns, rows and layers of them it fits in.
type Fitted<'a> = (&'a [Part<'a>], u8, Counts);

static FITTED: [Fitted; 4] = [
    (CUBE_OF_THREE, 2, Ok([2, 2, 2])),
    (&[], 1, Err(GridFault::EmptyMesh)),
    (LONG_BEAM, 1, TOO_WIDE),
    (BEAM, 1, Ok([MOST_COLUMNS, 1, 1])),
];

fn fitted(alloc: Global, parts: &[Part<'_>], size: u8) -> Option<Counts> {
    match solid_of(alloc, parts) {
        Ok(solid) if size > 0 => {
            Some(counts(Grid::fit(&solid, u32::from(size), u32::from(size))))
        }
        _ => None,
    }
}

/// `Ok`, or the number of the first row with another grid.
fn all_fitted(alloc: Global, rows: &[Fitted<'_>]) -> Result<(), usize> {
    for (n, (parts, size, told)) in rows.iter().enumerate() {
        if fitted(alloc, parts, *size) != Some(*told) {
            return Err(n);
        }
    }
    Ok(())
}

#[test]
fn fitted_grids(rt: HostRuntime) -> Result<(), usize> {
    all_fitted(rt.alloc(), &FITTED)
}

/// The voxels of a cube of 3 micrometres at a pitch and a layer height of 2, by column, row and layer, and their centres in
/// half-micrometres.
static CENTRES: [([u32; 3], [i64; 3]); 5] = [
    ([0, 0, 0], [2, 2, 2]),
    ([1, 0, 0], [6, 2, 2]),
    ([0, 1, 0], [2, 6, 2]),
    ([0, 0, 1], [2, 2, 6]),
    ([1, 1, 1], [6, 6, 6]),
];

fn centre(g: &Grid, [column, row, layer]: [u32; 3]) -> Option<[i64; 3]> {
    if column >= g.columns() || row >= g.rows() || layer >= g.layers() {
        return None;
    }
    let centre = g.centre(column, row, layer);
    Some([centre.x2(), centre.y2(), centre.z2()])
}

/// Whether voxels of a grid have these centres.
fn are_centres(g: &Grid, rows: &[([u32; 3], [i64; 3])]) -> bool {
    for (voxel, told) in rows {
        if centre(g, *voxel) != Some(*told) {
            return false;
        }
    }
    true
}

/// The same of the grid that a mesh fits in, at a pitch and a layer height of 2.
fn are_centres_of(alloc: Global, parts: &[Part<'_>], rows: &[([u32; 3], [i64; 3])]) -> bool {
    let Ok(solid) = solid_of(alloc, parts) else {
        return false;
    };
    match Grid::fit(&solid, 2, 2) {
        Ok(g) => are_centres(&g, rows),
        Err(_) => false,
    }
}

#[test]
fn centres_of_voxels(rt: HostRuntime) {
    assert!(rt; are_centres_of(rt.alloc(), CUBE_OF_THREE, &CENTRES));
}

/// Whether the image of these spans, in a grid of these counts of columns and rows, has these bytes.
fn is_image(alloc: Global, columns: u32, rows: u32, spans: &[Span], bytes: &[u8]) -> Option<bool>
    requires { AreSpans columns rows spans.now }
{
    match Grid::given(Point::new(0, 0, 0)?, 1, 1, columns, rows, 1) {
        Ok(g) => {
            let mut w = Counted::new(Vec::new(alloc));
            Some(write_layer(&g, spans, &mut w).is_ok() && w.inner().as_slice() == bytes)
        }
        Err(_) => None,
    }
}

#[test]
fn images(rt: HostRuntime) {
    let alloc = rt.alloc();
    let found = [
        is_image(alloc, 2, 2, &spans![0: 0, 2; 1: 0, 2], b"P4\n2 2\n\xc0\xc0"),
        // near faces alone
        is_image(alloc, 2, 2, &spans![0: 0, 1], b"P4\n2 2\n\x00\x80"),
        is_image(alloc, 1, 1, &spans![0: 0, 1], b"P4\n1 1\n\x80"),
        // two boxes
        is_image(
            alloc,
            3,
            3,
            &spans![0: 0, 2; 1: 0, 1; 1: 2, 3; 2: 1, 3],
            b"P4\n3 3\n\x60\xa0\xc0",
        ),
        is_image(alloc, 9, 1, &spans![0: 0, 9], b"P4\n9 1\n\xff\x80"),
        is_image(alloc, 2, 2, &[], b"P4\n2 2\n\x00\x00"),
    ];
    assert!(rt; found == [Some(true); 6]);
}
