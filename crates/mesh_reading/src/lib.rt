//! From bytes to a mesh: reads ASCII STL from a source, or as a text in memory, and welds its facets as they come.
//!
//! ```text
//! let solid = read_solid_by(&rt, alloc, &mut source, unit, 4)?;  // the closed mesh, read by four workers
//! let extent = read_extent(alloc, &mut source, unit)?;           // of another source, facets and bounding box
//! ```
//!
//! - [`read_solid`]: the closed mesh that a source spells. [`read_solid_by`]: the same, read by several workers.
//! - [`load`]: the closed mesh of a text in memory.
//! - [`read_extent`]: the number of facets that a source spells, and their bounding box, an [`Extent`].
//! - [`ReadFault`]: why there is no mesh, or no extent.
//!
//! A source is read to its end, also after a fault of its text, unless a read or an allocation fails. Coordinates are in
//! micrometres.
#![tactic(auto)]

mod extent;
mod loading;
mod read_fault;
mod round;
mod round_work;
mod window;

pub use extent::Extent;
pub use loading::{load, read_extent, read_solid, read_solid_by};
pub use read_fault::ReadFault;
