//! From meshes to images: grids of voxels, fill rules, the filled pixels of a layer, and images of layers in raw PBM.
//!
//! For a welded solid `s`, a layer number `k`, and the segments `list` in which the plane of that layer cuts the solid:
//!
//! ```text
//! let g = Grid::fit(&s, 50, 100)?;                              // pitch 50, layer height 100 micrometres
//! let spans = fill(alloc, &s, &g, Rule::NonZero, k, list)?;     // the filled pixels of layer k
//! let pixels = area(spans.as_slice());                          // their number
//! write_layer(&g, spans.as_slice(), &mut sink)?;                // their image, in raw PBM
//! ```
//!
//! - [`Grid`]: the voxels that a mesh is sliced into; [`GridFault`] says why there is none.
//! - [`Placing`]: whether a grid fits the mesh, or is given by its place and counts.
//! - [`hold_grid_laws`]: states when given parts are a grid, and how many cells cover a mesh.
//! - [`a_stream_of_images_is_cut_in_one_way`]: a law of images one behind another.
//! - [`Rule`]: which sums of signed crossings count as inside.
//! - [`Span`]: filled pixels side by side in a row; [`area`]: the number of pixels in a layer's spans.
//! - [`Filler`]: fills one layer after another, and keeps its memory; [`fill`] fills one.
//! - [`ImageWriter`]: writes images one after another, by few calls of the sink; [`write_layer`] writes one; [`image_len`]:
//!   the length of an image, in bytes.
//! - [`Page`]: a few images that are drawn before they are written.
//! - [`Source`], [`Sink`], [`Failures`], [`Failed`], [`Counted`], [`put_all`], [`WriteFault`]: the devices that are read and
//!   written, re-exported from `devices`.
//!
//! Lengths are in micrometres. Coordinates of centres and planes are in half-micrometres, so that they are whole. Columns, rows
//! and layers count from 0 along x, y and z.
#![tactic(auto)]

mod column_sums;
mod crossings;
mod filler;
mod grid;
mod laws;
mod pbm;
mod placing;
mod row_spans;
mod rule;
mod span;

pub use devices::{Counted, Failed, Failures, Sink, Source, WriteFault, put_all};
pub use filler::{Filler, fill};
pub use grid::{Grid, GridFault};
pub use laws::{a_stream_of_images_is_cut_in_one_way, hold_grid_laws};
pub use pbm::{ImageWriter, Page, image_len, write_layer};
pub use placing::Placing;
pub use rule::Rule;
pub use span::{Span, area};
