//! Triangle meshes read from ASCII STL.
//!
//! - [`read_stl`], [`read_stl_at_most`]: the facets of a text in file order, or its one fault.
//! - [`read_stl_by`]: the same, read in parts by several workers.
//! - [`TextReader`]: the same for a text that arrives in chunks, and is not kept; several workers may read each chunk.
//! - [`ChunkParts`], [`FacetRuns`]: such a chunk in parts that workers draw, and what they find in them.
//! - [`StlFault`]: why a text does not read as facets, with the byte offset of the fault; [`Word`]: what is wanted there.
//! - [`one_outcome`], [`reads_as_written`]: laws. Each text has one outcome, and it reads as facets exactly if it is these
//!   facets written as STL.
//! - [`Point`], [`Facet`], [`extent`], [`points_in_order`], [`equal_points`] and [`FACET_LIMIT`], re-exported from `geometry`.
//!
//! ```
//! let text = b"solid part\nfacet normal 0 0 1 outer loop\n\
//!     vertex 0 0 0 vertex 1 0 0 vertex 0 1 0 endloop endfacet\nendsolid\n";
//! let facets = read_stl(alloc, text, Unit::Millimetre)?;
//! assert!(rt; facets.len() == 1 && facets[0].corner(1).x() == 1000);
//! let fault = read_stl(alloc, b"solid\nendloop", Unit::Millimetre);
//! assert!(rt; fault == Err(StlFault::Expected { word: Word::FacetOrEnd, at: 6 }));
//! ```
//!
//! Units: a text's numbers are in the unit that the caller names. Points are in whole micrometres. Offsets are in bytes, from 0.
#![tactic(auto)]

mod chunk_parts;
mod facet_run;
mod grammar;
mod laws;
mod layout;
mod reader;
mod reading;
mod scanning;
mod stage;
mod stl_fault;
mod text_reader;
mod word;

pub use chunk_parts::{ChunkParts, FacetRuns};
pub use geometry::{FACET_LIMIT, Facet, Point, equal_points, extent, points_in_order};
pub use laws::{one_outcome, reads_as_written};
pub use reading::{read_stl, read_stl_at_most, read_stl_by};
pub use stl_fault::StlFault;
pub use text_reader::TextReader;
pub use word::Word;
