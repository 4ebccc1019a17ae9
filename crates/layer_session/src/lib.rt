//! Sessions: a mesh that is read once and then asked layer by layer, in any order, as a preview asks.
//!
//! ```text
//! let setup = Setup {
//!     unit: Unit::Millimetre,
//!     layer: 100,                                 // micrometres
//!     rule: Rule::NonZero,
//!     place: Place::Grid {
//!         pitch: 50,
//!         placing: Placing::Fitted,
//!     },
//! };
//! let session = Session::open(alloc, bytes, &setup)?;
//! let session = Session::open_mesh(alloc, points, triangles, &setup)?;    // the same from arrays
//! for k in 0..session.layers() {
//!     let image = session.image(k)?;              // raw PBM, just as the program writes it
//!     let png = session.png(k, Depth::Eight, Mirrors { x: false, y: false })?;
//!     let pixels = session.area(k)?;              // how many of its pixels are filled
//!     let found = session.loops(k)?;              // the closed loops of its plane, by the facets that it cuts
//!     let drawn = session.outlines(k)?;           // the same as points, in half-micrometres
//! }
//! let (along_x, along_y) = session.probe(3, 4, 5)?;
//! ```
//!
//! - [`Session`]: the closed mesh of a file, binary STL or ASCII STL, or of arrays, in its grid, with a rule. No call changes it.
//! - [`read_file`], [`read_file_at_most`]: the facets of a file of either form.
//! - [`SessionReader`]: opens an ASCII STL text that arrives in chunks.
//! - [`Setup`]: what a file or arrays are opened with.
//! - [`Place`]: where the mesh is, in a grid that fits it or in a given one ([`Placing`]); or on a printer's screen ([`Screen`]).
//! - [`SessionFault`]: why there is no session, or no answer. Its `Display` is what the program writes for the fault after
//!   `stlslice: `. There are four exceptions: the program refuses `Step` as it reads its words, and has no binary files, arrays
//!   or screens.
//! - [`Loops`] of [`Segment`]s between [`Node`]s, and [`Outlines`] of [`PlanePoint`]s: what `Session::loops` and
//!   `Session::outlines` return, re-exported from `contour`.
//! - [`BinaryFault`], re-exported from `binary_stl`; [`ArrayFault`], re-exported from `mesh_arrays`; [`Unit`], re-exported from
//!   `micro_num`; [`Rule`] and [`Grid`], re-exported from `raster`; [`Depth`] and [`Mirrors`] of a PNG, re-exported from
//!   `layer_png`.
//! - [`STEP_LIMIT`]: the greatest pitch and layer height; [`STRIPE_LAYERS`]: the number of layers of a stripe.
//! - [`one_answer`]: a law. A setup and a file, or arrays, have one answer, a session or a fault, if memory suffices.
//! - [`same_answer`]: a law. A file and arrays, or two files, that are read as the same facets have the same answer.
//! - [`text_as_file`]: a law. The file of a text has the answer of the text, unless its bytes 80 to 83 imitate a count.
//!
//! Pitch, layer height, origin and box are in micrometres. Columns, rows and layers count from 0 along x, y and z, and
//! stripes, which are eight layers each, from the lowest up.
#![tactic(auto)]

mod file;
mod laws;
mod layers;
mod place;
mod session;
mod session_fault;
mod session_reader;
mod setup;

pub use binary_stl::BinaryFault;
pub use build_book::STRIPE_LAYERS;
pub use contour::{Loops, Node, Outlines, PlanePoint, Segment};
pub use file::{read_file, read_file_at_most};
pub use geometry::STEP_LIMIT;
pub use laws::{one_answer, same_answer, text_as_file};
pub use layer_png::{Depth, Mirrors};
pub use mesh_arrays::ArrayFault;
pub use micro_num::Unit;
pub use part_on_screen::{PixelSide, Quarters, Screen, ScreenFault};
pub use place::Place;
pub use raster::{Grid, Placing, Rule};
pub use session::Session;
pub use session_fault::SessionFault;
pub use session_reader::SessionReader;
pub use setup::Setup;
