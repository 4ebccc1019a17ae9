//! The plain records that C gets of a file's facets, of an open mesh and of a voxel.
ghost use Rattle.std.specs.Prelude.{◌≡◌};
ghost use Rattle.stlslice_c.specs.Shape.{corners_told, shape_told};

use geometry::Point;
use layer_session::Session;
use std::alloc::Global;

/// How many facets were read, and their least and greatest coordinates in micrometres; zeros if there is none.
#[repr(C)]
#[derive(Clone, Copy)]
pub struct Corners {
    pub facets: u64,
    pub low_x: i32,
    pub low_y: i32,
    pub low_z: i32,
    pub high_x: i32,
    pub high_y: i32,
    pub high_z: i32,
}

/// The corners of no facet.
pub(crate) const NO_CORNERS: Corners = Corners {
    facets: 0,
    low_x: 0,
    low_y: 0,
    low_z: 0,
    high_x: 0,
    high_y: 0,
    high_z: 0,
};

/// A grid: its counts of voxels, and its corner of least x, y and z in micrometres; on a screen in multiplied ones.
#[repr(C)]
#[derive(Clone, Copy)]
pub struct Cells {
    pub columns: u32,
    pub rows: u32,
    pub layers: u32,
    pub origin_x: i32,
    pub origin_y: i32,
    pub origin_z: i32,
}

/// The facets of an open mesh as they were read, and its grid.
#[repr(C)]
#[derive(Clone, Copy)]
pub struct Shape {
    pub corners: Corners,
    pub cells: Cells,
    /// A voxel along x and y, in micrometres; on a screen in multiplied ones.
    pub pitch: u32,
    /// A voxel along z, in micrometres.
    pub layer: u32,
    /// By what x is multiplied on a screen; else 1.
    pub times_x: u64,
    /// By what y is multiplied on a screen; else 1.
    pub times_y: u64,
}

/// The signed crossings of the mesh by the rays from a voxel's centre.
#[repr(C)]
#[derive(Clone, Copy)]
pub struct Rays {
    pub along_x: i32,
    pub along_y: i32,
}

/// The number and the box of facets.
pub(crate) fn corners_told(facets: usize, corners: Option<(Point, Point)>) -> Corners
    ensures { result ≡ corners_told facets corners }
{
    match corners {
        None => Corners {
            facets: facets as u64,
            ..NO_CORNERS
        },
        Some((low, high)) => Corners {
            facets: facets as u64,
            low_x: low.x(),
            low_y: low.y(),
            low_z: low.z(),
            high_x: high.x(),
            high_y: high.y(),
            high_z: high.z(),
        },
    }
}

/// The facets and the grid of a session.
pub(crate) fn shape_told(session: &Session<Global>) -> Shape
    ensures { result ≡ shape_told session.now }
{
    let grid = session.grid();
    let origin = grid.origin();
    let (times_x, times_y) = session.times();
    Shape {
        corners: corners_told(session.facet_count(), session.bounds()),
        cells: Cells {
            columns: grid.columns(),
            rows: grid.rows(),
            layers: grid.layers(),
            origin_x: origin.x(),
            origin_y: origin.y(),
            origin_z: origin.z(),
        },
        pitch: grid.pitch(),
        layer: grid.layer_height(),
        times_x,
        times_y,
    }
}
