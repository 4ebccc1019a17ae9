//! Small closed meshes, by tables of corners and facets.
ghost use Rattle.std.specs.Prelude.{◌≡◌, ◌++◌, IfOk, OnOk, flat_map};
ghost use Rattle.geometry.specs.Indexed.{indexed_facet, indexed_facets, indexed_point};

use geometry::{Facet, Point};
use std::alloc::{AllocError, Allocator};

/// Corners, and facets by the numbers of their corners.
pub type Part<'a> = (&'a [[i32; 3]], &'a [[u8; 3]]);

/// The corners of a box in ascending order, as `WEST SOUTH BOTTOM to EAST NORTH TOP`.
macro_rules! corners {
    ($w:literal $s:literal $b:literal to $e:literal $n:literal $t:literal) => {
        &[
            [$w, $s, $b],
            [$w, $s, $t],
            [$w, $n, $b],
            [$w, $n, $t],
            [$e, $s, $b],
            [$e, $s, $t],
            [$e, $n, $b],
            [$e, $n, $t],
        ]
    };
}

/// The facets of a box by the numbers of its corners, behind these. In the numbers 4 stands for the greater x, 2 for the greater
/// y, 1 for the greater z.
macro_rules! facets_behind {
    ($($first:expr),*) => {
        &[
            $($first,)*
            [0, 6, 4],
            [1, 5, 7],
            [1, 7, 3],
            [0, 4, 5],
            [0, 5, 1],
            [2, 3, 7],
            [2, 7, 6],
            [0, 1, 3],
            [0, 3, 2],
            [4, 6, 7],
            [4, 7, 5],
        ]
    };
}

/// The facets of a box.
pub const BOX: &[[u8; 3]] = facets_behind![[0, 2, 6]];

/// The same without the first one.
pub const OPEN_BOX: &[[u8; 3]] = facets_behind![];

/// The facets of a box inward: each with its last two corners exchanged.
pub const INWARD: &[[u8; 3]] = &[
    [0, 6, 2],
    [0, 4, 6],
    [1, 7, 5],
    [1, 3, 7],
    [0, 5, 4],
    [0, 1, 5],
    [2, 7, 3],
    [2, 6, 7],
    [0, 3, 1],
    [0, 2, 3],
    [4, 7, 6],
    [4, 5, 7],
];

/// The corners of a cube.
pub const CORNERS: &[[i32; 3]] = corners![0 0 0 to 2 2 2];

pub const CUBE: &[Part] = &[(CORNERS, BOX)];

/// Its facet 10 once more, and the mirror of that.
pub const CUBE_AND_PAIR: &[Part] = &[(CORNERS, BOX), (CORNERS, &[[4, 6, 7], [4, 7, 6]])];

/// The cube, and a facet with two equal corners.
pub const CUBE_AND_FLAT: &[Part] = &[(CORNERS, BOX), (CORNERS, &[[0, 0, 4]])];

pub const INWARD_CUBE: &[Part] = &[(CORNERS, INWARD)];

/// Two cubes that touch in one corner.
pub const TOUCHING: &[Part] = &[
    (corners![0 0 0 to 1 1 1], BOX),
    (corners![1 1 1 to 3 3 3], BOX),
];

const NEAR: &[[i32; 3]] = corners![0 0 0 to 4 4 4];

const FAR: &[[i32; 3]] = corners![2 2 2 to 6 6 6];

/// Two cubes that overlap.
pub const TWO_CUBES: &[Part] = &[(NEAR, BOX), (FAR, BOX)];

/// The same, of which the second is inward.
pub const ONE_INWARD: &[Part] = &[(NEAR, BOX), (FAR, INWARD)];

/// A cube with a cavity. The cavity's facets face into it, which is outward from the solid between the two.
pub const HOLLOW_CUBE: &[Part] = &[
    (corners![0 0 0 to 8 8 8], BOX),
    (corners![2 2 2 to 6 6 6], INWARD),
];

pub const CUBE_OF_THREE: &[Part] = &[(corners![0 0 0 to 3 3 3], BOX)];

/// Two facets back to back, with nothing between them.
pub const SHEET: &[Part] = &[(CORNERS, &[[0, 4, 2], [0, 2, 4]])];

/// A box of nine voxels in a row.
pub const NINE_IN_A_ROW: &[Part] = &[(corners![0 0 0 to 9 1 1], BOX)];

/// A row of all columns, two voxels of row 5, and the last eight of row 27.
pub const WIDE_ROWS: &[Part] = &[
    (ROW_OF_ALL, BOX),
    (corners![8 5 0 to 10 6 1], BOX),
    (LAST_EIGHT, BOX),
];

const ROW_OF_ALL: &[[i32; 3]] = corners![0 0 0 to 16384 1 1];

const LAST_EIGHT: &[[i32; 3]] = corners![16376 27 0 to 16384 28 1];

/// A box of 17 layers of one voxel, in stripes of 8, 8 and 1.
pub const COLUMN: &[Part] = &[(corners![0 0 0 to 1 1 17], BOX)];

/// A box with as many columns as a grid may have.
pub const BEAM: &[Part] = &[(corners![0 0 0 to 16384 1 1], BOX)];

/// One with a column more.
pub const LONG_BEAM: &[Part] = &[(corners![0 0 0 to 16385 1 1], BOX)];

/// An octahedron. Its corners are east, north, west, south, top and bottom.
pub const OCTAHEDRON: &[Part] = &[(
    &[
        [2, 0, 0],
        [0, 2, 0],
        [-2, 0, 0],
        [0, -2, 0],
        [0, 0, 2],
        [0, 0, -2],
    ],
    &[
        [0, 1, 4],
        [1, 2, 4],
        [2, 3, 4],
        [3, 0, 4],
        [1, 0, 5],
        [2, 1, 5],
        [3, 2, 5],
        [0, 3, 5],
    ],
)];

/// The corner with a number. `Err` if there is none, or one out of range.
fn corner(corners: &[[i32; 3]], number: u8) -> Result<Point, AllocError>
    ensures { IfOk result (λ point. point ≡ indexed_point corners.now number) }
{
    let [x, y, z] = *corners.get(usize::from(number)).ok_or(AllocError)?;
    Point::new(x, y, z).ok_or(AllocError)
}

/// The facet with these corners. `Err` if one of them is missing or out of range.
fn facet(corners: &[[i32; 3]], numbers: &[u8; 3]) -> Result<Facet, AllocError>
    ensures { IfOk result (λ facet. facet ≡ indexed_facet corners.now numbers.now) }
{
    let [a, b, c] = *numbers;
    Ok(Facet::of(
        corner(corners, a)?,
        corner(corners, b)?,
        corner(corners, c)?,
    ))
}

/// Adds the facets of a part to a list, in their order. `Err` only if an allocation failed, or the part has
/// no such corner.
pub fn push_facets<A: Allocator>(list: &mut Vec<Facet, A>, part: Part<'_>) -> Result<(), AllocError>
    ensures { OnOk result (list.new.items ≡ list.old.items ++ indexed_facets part.entry.0.now part.entry.1.now) }
{
    let (corners, facets) = part;
    for numbers in facets {
        list.push(facet(corners, numbers)?)?;
    }
    Ok(())
}

/// The facets of a mesh, part by part. `Err` only if an allocation failed, or a part has no such corner.
pub fn facets_of<A: Allocator + Copy>(
    alloc: A,
    parts: &[Part<'_>],
) -> Result<Vec<Facet, A>, AllocError>
    ensures { IfOk result (λ list. list.items ≡ flat_map (λ part. indexed_facets part.0.now part.1.now) parts.now) }
{
    let mut list = Vec::new(alloc);
    for part in parts {
        push_facets(&mut list, *part)?;
    }
    Ok(list)
}
