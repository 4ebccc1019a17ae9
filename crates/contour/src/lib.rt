//! Slices of a closed mesh by horizontal planes: the segments of a plane, and the closed loops that they make. A sweep finds
//! the segments of rising planes without a look at every facet.
//!
//! ```text
//! let mut sweep = Sweep::start(alloc, &solid, heights[0])?;
//! let mut linker = Linker::new(alloc);
//! for z2 in heights {
//!     sweep.advance(*z2)?;
//!     let list = sweep.segments()?;
//!     let found = linker.loops(&solid, list.as_slice())?;
//! }
//! ```
//!
//! - [`Segment`], [`Node`], [`segment_at`], [`segments`]: the cuts of one facet and of all facets by a plane, re-exported from
//!   `plane_segments`.
//! - [`Sweep`]: a rising plane with its list of active facets, those that it cuts.
//! - [`Loops`], [`Linker`], [`loops`]: the loops of a plane's segments. A linker keeps its memory from plane to plane. Once it
//!   has linked many segments, it keeps four bytes for each edge of the mesh too.
//! - [`Outlines`]: the loops as points, to the nearest half-micrometre, each a [`PlanePoint`].
//! - [`loop_ray`]: the signed ray crossings of one loop's facets.
//! - [`hold_loop_laws`]: states what holds of every loop.
//!
//! Heights of planes are in half-micrometres, coordinates of a mesh in micrometres. The tie rule of `geometry` says which
//! corners count as below a plane.
#![tactic(auto)]

mod active;
mod edge_table;
mod laws;
mod linker;
mod loop_list;
mod outlines;
mod sweep;

pub use exact_cut::PlanePoint;
pub use laws::hold_loop_laws;
pub use linker::{Linker, loops};
// The module is not called `loops`, since a module and a function of one name are refused.
pub use loop_list::{Loops, loop_ray};
pub use outlines::Outlines;
pub use plane_segments::{Node, Segment, segment_at, segments};
pub use sweep::Sweep;
