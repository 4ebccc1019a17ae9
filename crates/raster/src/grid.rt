//! The voxels that a mesh is sliced into: their number, and their centres.
ghost use Rattle.std.specs.Prelude.{◌≡◌, ◌<◌, ◌≤◌, ◌≤ℤ◌, Some, ◌-◌, int_lt, pos};
ghost use Rattle.raster.specs.GridFault.{grid_fault_text};
ghost use Rattle.exact_int.specs.Bounds.{IsAtMost};
ghost use Rattle.geometry.specs.BoundingBox.{IsBox};
ghost use Rattle.geometry.specs.Limits.{IsStep};
ghost use Rattle.raster.specs.Grid.{IsGrid, cell_count, centre, exceeds, fitted_grid, given_grid, grid_of_box, grid_with, middle, plane, reaches_too_far};
ghost use Rattle.geometry.specs.declared.limits.TheConstants.{CENTRE_LIMIT, COLUMN_LIMIT, COORDINATE_LIMIT, LAYER_LIMIT, STEP_LIMIT};

use exact_cut::{Centre, Lattice};
use geometry::{CENTRE_LIMIT, COLUMN_LIMIT, LAYER_LIMIT, Point};
use mesh_weld::Solid;
use std::alloc::Allocator;
use std::fmt::{self, Display, Formatter, Write};
use std::marker::Model;
use thiserror::Error;

/// Why [`Grid::fit`] or [`Grid::given`] returns no grid.
#[derive(Clone, Copy, Debug, PartialEq, Eq, Error)]
pub enum GridFault {
    /// The mesh that the grid is to fit has no facet with three distinct corners.
    EmptyMesh,
    /// There are more than `COLUMN_LIMIT` columns or rows, or more than `LAYER_LIMIT` layers. These are all three counts of the
    /// grid that was asked for.
    TooLarge {
        columns: u32,
        rows: u32,
        layers: u32,
    },
    /// A count of a given grid is 0.
    NoCells,
    /// The centre of the last column, row or layer of a given grid lies more than `CENTRE_LIMIT` half-micrometres from 0.
    FarCentre,
}

impl Display for GridFault {
    ghost output = { λ fault. Some (grid_fault_text fault) };

    fn fmt<W: Write>(&self, f: &mut Formatter<W>) -> fmt::Result {
        match self {
            GridFault::EmptyMesh => f.write_str("no facet is left"),
            GridFault::TooLarge {
                columns,
                rows,
                layers,
            } => write!(
                f,
                "grid too large: {columns} columns, {rows} rows, {layers} layers"
            ),
            GridFault::NoCells => f.write_str("grid has no cells"),
            GridFault::FarCentre => f.write_str("grid reaches too far"),
        }
    }
}

/// The voxels that a mesh is sliced into: columns along x, rows along y and layers along z, from an origin on. Lengths are in
/// micrometres. Each coordinate of a voxel's centre lies within `CENTRE_LIMIT` half-micrometres of 0.
#[derive(Clone, Copy, Debug, PartialEq, Eq)]
pub struct Grid {
    pitch: u32,
    layer_height: u32,
    columns: u32,
    rows: u32,
    layers: u32,
    origin: Point,
}

impl Model for Grid {
    ghost use Rattle.raster.specs.Grid.{IsGrid, Grid, grid_with};

    ghost Value = { Grid };

    ghost view = { λ g. grid_with g.origin g.pitch g.layer_height g.columns g.rows g.layers };

    ghost invariant = { λ g. IsGrid (grid_with g.origin g.pitch g.layer_height g.columns g.rows g.layers) };

    ghost inverse = { λ g. record {
      origin = g.origin;
      pitch = g.pitch;
      layer_height = g.layer_height;
      columns = g.columns;
      rows = g.rows;
      layers = g.layers;
    } };
}

impl Grid {
    /// The grid of this pitch and layer height (micrometres, 1 to `STEP_LIMIT`) that begins at the mesh's least x, y and z. It
    /// has the fewest columns, rows and layers that cover the mesh, at least one of each.
    ///
    /// # Errors
    /// - `EmptyMesh` if the mesh has no facet,
    /// - `TooLarge` if that takes more than `COLUMN_LIMIT` columns or rows, or more than `LAYER_LIMIT` layers.
    pub fn fit<A: Allocator>(s: &Solid<A>, pitch: u32, layer_height: u32) -> Result<Grid, GridFault>
        requires pitch { IsStep pitch }
        requires height { IsStep layer_height }
        ensures { result ≡ fitted_grid s.now.facets pitch layer_height }
    {
        match s.corners() {
            None => Err(GridFault::EmptyMesh),
            Some((low, high)) => fit_box(low, high, pitch, layer_height),
        }
    }

    /// The grid with this origin (micrometres), pitch and layer height (micrometres, 1 to `STEP_LIMIT`) and these counts.
    ///
    /// # Errors
    /// The first of these that applies:
    /// - `NoCells` if a count is 0,
    /// - `TooLarge` if there are more than `COLUMN_LIMIT` columns or rows, or more than `LAYER_LIMIT` layers,
    /// - `FarCentre` if the centre of the last column, row or layer lies more than `CENTRE_LIMIT` half-micrometres from 0.
    pub fn given(
        origin: Point,
        pitch: u32,
        layer_height: u32,
        columns: u32,
        rows: u32,
        layers: u32,
    ) -> Result<Grid, GridFault>
        requires pitch { IsStep pitch }
        requires height { IsStep layer_height }
        ensures { result ≡ given_grid (grid_with origin pitch layer_height columns rows layers) }
    {
        if columns == 0 || rows == 0 || layers == 0 {
            return Err(GridFault::NoCells);
        }
        if is_too_large(columns, rows, layers) {
            return Err(GridFault::TooLarge {
                columns,
                rows,
                layers,
            });
        }
        if reaches_too_far(origin, columns, rows, layers, pitch, layer_height) {
            return Err(GridFault::FarCentre);
        }
        Ok(Grid {
            origin,
            pitch,
            layer_height,
            columns,
            rows,
            layers,
        })
    }

    /// The grid's least corner, in micrometres.
    pub fn origin(&self) -> Point
        ensures { result ≡ self.now.origin }
    {
        self.origin
    }

    /// The length of a voxel along x and along y, in micrometres.
    pub fn pitch(&self) -> u32
        ensures value { result ≡ self.now.pitch }
        ensures step { IsStep result }
    {
        self.pitch
    }

    /// The length of a voxel along z, in micrometres.
    pub fn layer_height(&self) -> u32
        ensures value { result ≡ self.now.layer_height }
        ensures step { IsStep result }
    {
        self.layer_height
    }

    /// The number of voxels along x.
    pub fn columns(&self) -> u32
        ensures value { result ≡ self.now.columns }
        ensures low { 1 ≤ result }
        ensures high { result ≤ COLUMN_LIMIT }
    {
        self.columns
    }

    /// The number of voxels along y.
    pub fn rows(&self) -> u32
        ensures value { result ≡ self.now.rows }
        ensures low { 1 ≤ result }
        ensures high { result ≤ COLUMN_LIMIT }
    {
        self.rows
    }

    /// The number of voxels along z.
    pub fn layers(&self) -> u32
        ensures value { result ≡ self.now.layers }
        ensures low { 1 ≤ result }
        ensures high { result ≤ LAYER_LIMIT }
    {
        self.layers
    }

    /// States the limits of every grid: of its counts, and of its centres. A caller can use the clause. It does nothing at run
    /// time.
    pub fn hold_limits(&self)
        ensures { IsGrid self.now }
    {
        // wakes the invariant
        let _columns = self.columns;
    }

    /// The centre of the voxel of column i, row j and layer k, each below the grid's count, from 0: columns along x,
    /// rows along y, layers along z.
    pub fn centre(&self, i: u32, j: u32, k: u32) -> Centre
        requires column { i < self.now.columns }
        requires row { j < self.now.rows }
        requires layer { k < self.now.layers }
        ensures { result ≡ centre self.now i j k }
    {
        let x2 = middle_before(self.origin.x(), self.pitch, i, self.columns);
        let y2 = middle_before(self.origin.y(), self.pitch, j, self.rows);
        let z2 = middle_before(self.origin.z(), self.layer_height, k, self.layers);
        match Centre::new(x2, y2, z2) {
            Some(centre) => centre,
            None => unreachable!(),
        }
    }

    /// The centres of a layer's pixels.
    pub(crate) fn pixels(&self) -> Lattice
        ensures columns { result.columns ≡ self.now.columns }
        ensures rows { result.rows ≡ self.now.rows }
        ensures x2 { result.x2 ≡ middle self.now.origin.x self.now.pitch 0 }
        ensures y2 { result.y2 ≡ middle self.now.origin.y self.now.pitch 0 }
        ensures step { result.step ≡ self.now.pitch }
    {
        Lattice {
            x2: middle_before(self.origin.x(), self.pitch, 0, self.columns),
            y2: middle_before(self.origin.y(), self.pitch, 0, self.rows),
            step: self.pitch,
            columns: self.columns,
            rows: self.rows,
        }
    }

    /// The height of the plane of layer k, below `layers`, in half-micrometres: that of the centres of its voxels.
    pub fn plane(&self, k: u32) -> i64
        requires { k < self.now.layers }
        ensures value { result ≡ plane self.now k }
        ensures within { IsAtMost CENTRE_LIMIT result }
    {
        middle(self.origin.z(), self.layer_height, k)
    }
}

/// The grid of this pitch and layer height that fits a box.
fn fit_box(low: Point, high: Point, pitch: u32, layer_height: u32) -> Result<Grid, GridFault>
    requires pitch { IsStep pitch }
    requires height { IsStep layer_height }
    requires order { IsBox low high }
    ensures { result ≡ grid_of_box (Some (record { low = low; high = high })) pitch layer_height }
{
    let columns = cell_count(low.x(), high.x(), pitch);
    let rows = cell_count(low.y(), high.y(), pitch);
    let layers = cell_count(low.z(), high.z(), layer_height);
    Grid::given(low, pitch, layer_height, columns, rows, layers)
}

/// The number of cells of length `step` that cover the range from `low` to `high`; at least one.
fn cell_count(low: i32, high: i32, step: u32) -> u32
    requires low { IsAtMost COORDINATE_LIMIT low }
    requires high { IsAtMost COORDINATE_LIMIT high }
    requires order { low ≤ℤ high }
    requires step { IsStep step }
    ensures value { result ≡ cell_count low high step }
    ensures low { 1 ≤ result }
    ensures last { middle low step (result - 1) ≤ℤ pos CENTRE_LIMIT }
{
    high.abs_diff(low).div_ceil(step).max(1)
}

/// Whether one of these counts is above its limit.
fn is_too_large(columns: u32, rows: u32, layers: u32) -> bool
    ensures { result ≡ exceeds columns rows layers }
{
    columns > COLUMN_LIMIT || rows > COLUMN_LIMIT || layers > LAYER_LIMIT
}

/// Whether the centre of the last column, row or layer lies beyond `CENTRE_LIMIT`. The first centres cannot: a
/// coordinate is within `COORDINATE_LIMIT` micrometres, and half a step more is within `CENTRE_LIMIT` half-micrometres.
fn reaches_too_far(
    origin: Point,
    columns: u32,
    rows: u32,
    layers: u32,
    pitch: u32,
    layer_height: u32,
) -> bool
    // the sides of a voxel
    requires pitch { pitch ≤ STEP_LIMIT }
    requires height { layer_height ≤ STEP_LIMIT }
    // the numbers of voxels
    requires columns { 1 ≤ columns }
    requires columns_high { columns ≤ COLUMN_LIMIT }
    requires rows { 1 ≤ rows }
    requires rows_high { rows ≤ COLUMN_LIMIT }
    requires layers { 1 ≤ layers }
    requires layers_high { layers ≤ LAYER_LIMIT }
    // the answer
    ensures { result ≡ reaches_too_far (grid_with origin pitch layer_height columns rows layers) }
{
    is_beyond(origin.x(), pitch, columns)
        || is_beyond(origin.y(), pitch, rows)
        || is_beyond(origin.z(), layer_height, layers)
}

/// Whether the middle of the last of `count` cells lies beyond `CENTRE_LIMIT`. Cell 0 begins at `start`, and each has
/// length `step`, in micrometres.
fn is_beyond(start: i32, step: u32, count: u32) -> bool
    requires start { IsAtMost COORDINATE_LIMIT start }
    requires step { step ≤ STEP_LIMIT }
    requires count { 1 ≤ count }
    requires count_high { count ≤ LAYER_LIMIT }
    ensures { result ≡ int_lt (pos CENTRE_LIMIT) (middle start step (count - 1)) }
{
    middle(start, step, count - 1) > CENTRE_LIMIT as i64
}

/// The middle of the cell with this number, in half-micrometres. Cell 0 begins at `start`, and each has length `step`, in
/// micrometres.
fn middle(start: i32, step: u32, number: u32) -> i64
    requires start { IsAtMost COORDINATE_LIMIT start }
    requires step { step ≤ STEP_LIMIT }
    requires number { number ≤ LAYER_LIMIT }
    ensures { result ≡ middle start step number }
{
    let reach = u64::from(step) * (2 * u64::from(number) + 1);
    2 * i64::from(start) + reach as i64
}

/// The middle of one of `count` cells, in half-micrometres. It is within `CENTRE_LIMIT`, as that of the last one is.
fn middle_before(start: i32, step: u32, number: u32, count: u32) -> i64
    requires start { IsAtMost COORDINATE_LIMIT start }
    requires step { step ≤ STEP_LIMIT }
    requires number { number < count }
    requires count { count ≤ LAYER_LIMIT }
    requires last { middle start step (count - 1) ≤ℤ pos CENTRE_LIMIT }
    ensures value { result ≡ middle start step number }
    ensures within { IsAtMost CENTRE_LIMIT result }
{
    middle(start, step, number)
}
