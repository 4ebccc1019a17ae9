//! The place of a grid: that of the mesh, or a given one.
ghost use Rattle.std.specs.Prelude.{◌≡◌};
ghost use Rattle.geometry.specs.Limits.{IsStep};
ghost use Rattle.raster.specs.Placing.{placed_grid};

use crate::grid::{Grid, GridFault};
use geometry::Point;
use mesh_weld::Solid;
use std::alloc::Allocator;

/// The place of a grid.
#[derive(Clone, Copy, Debug, PartialEq, Eq)]
pub enum Placing {
    /// It begins at the mesh's least x, y and z and has the fewest columns, rows and layers that cover the mesh.
    Fitted,
    /// It has these counts of voxels along x, y and z.
    Given {
        columns: u32,
        rows: u32,
        layers: u32,
        /// The corner of least x, y and z, in micrometres.
        origin: Point,
    },
}

impl Placing {
    /// The grid of this placing, with this pitch and layer height (micrometres, 1 to `STEP_LIMIT`), for a mesh. It is what
    /// [`Grid::fit`] returns for `Fitted`, and what [`Grid::given`] returns for `Given`.
    pub fn grid<A: Allocator>(
        self,
        s: &Solid<A>,
        pitch: u32,
        layer_height: u32,
    ) -> Result<Grid, GridFault>
        requires pitch { IsStep pitch }
        requires height { IsStep layer_height }
        ensures { result ≡ placed_grid self s.now.facets pitch layer_height }
    {
        match self {
            Placing::Fitted => Grid::fit(s, pitch, layer_height),
            Placing::Given {
                columns,
                rows,
                layers,
                origin,
            } => Grid::given(origin, pitch, layer_height, columns, rows, layers),
        }
    }
}
