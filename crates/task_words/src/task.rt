//! What the program is asked to do.
use geometry::Point;
use layer_png::{Depth, Mirrors};
use micro_num::Unit;
use raster::Rule;

/// A given grid, in place of one that fits the mesh: the counts of its columns, rows and layers, and its origin. The texts of
/// `--grid` may give any counts; whether there is such a grid is judged later.
#[derive(Clone, Copy, Debug, PartialEq, Eq)]
pub struct Given {
    pub columns: u32,
    pub rows: u32,
    pub layers: u32,
    /// Its corner of least x, y and z, in micrometres.
    pub origin: Point,
}

/// What the program is to do with the mesh on its input, whose numbers are in `unit`. Pitch (`pitch`) and layer height
/// (`layer`) are in micrometres, 1 to `STEP_LIMIT`, and there are 1 to `PASS_LIMIT` workers. Without a `grid` the grid fits
/// the mesh.
#[derive(Clone, Copy, Debug, PartialEq, Eq)]
pub enum Task {
    /// Write how many facets there are, and their bounding box.
    Box {
        unit: Unit,
    },
    /// Write the images of all layers, or a report of them.
    Slice {
        unit: Unit,
        pitch: u32,
        layer: u32,
        rule: Rule,
        workers: u32,
        report: bool,
        grid: Option<Given>,
    },
    /// Write the images of all layers as PNGs, one after the other.
    Png {
        unit: Unit,
        pitch: u32,
        layer: u32,
        rule: Rule,
        workers: u32,
        grid: Option<Given>,
        depth: Depth,
        mirrors: Mirrors,
    },
    /// Write the sums of signed crossings at column `i`, row `j` and layer `k`, by a ray along x and one along y.
    Probe {
        unit: Unit,
        pitch: u32,
        layer: u32,
        grid: Option<Given>,
        i: u32,
        j: u32,
        k: u32,
    },
}
