//! Cuts of a closed mesh by a horizontal plane, facet by facet: one segment of each facet that it cuts.
//!
//! ```text
//! let list = segments(alloc, &solid, z2)?;             // of all facets, in their order
//! let first = segment_at(&solid, list[0].facet, z2);   // of one facet: Some(list[0])
//! ```
//!
//! - [`Segment`]: the cut of one facet, from one [`Node`] to another. A node is an edge of the mesh, by the numbers of its
//!   vertices; no coordinate of a cut is computed for it.
//! - [`segment_at`], [`segments_in`], [`segments`]: the segment of one facet, those of some, and those of all, at one height.
//!
//! Heights are in half-micrometres; their names end in `2`. The tie rule of `geometry` says which corners count as below a
//! plane.
#![tactic(auto)]

mod node;
mod segment;

pub use node::Node;
pub use segment::{Segment, segment_at, segments, segments_in};
