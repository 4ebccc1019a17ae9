//! Closed meshes: facets welded at equal corners, with as many half-edges from any point to another as back.
//!
//! ```text
//! let solid = weld(alloc, facets)?;
//! let lowest_first = solid.by_height();
//! let (along_x, along_y) = probe(&solid, &centre);
//! ```
//!
//! A [`Welder`] takes facets as they come, drops the degenerate ones (two equal corners) and makes a [`Solid`] of the others. A
//! solid has its vertices, the numbers of corners and edges of each facet, the [`HeightRange`] of each, the order of the facets
//! by height, and the top of each block of this order ([`split_block`]). If the half-edges of a mesh do not balance, the welder
//! returns [`WeldFault::Open`] with the least pair of points between which they do not. A list of facets is welded at once by
//! [`weld`]. The functions [`lowest`] and [`highest`] return the least and the greatest height of a facet's corners.
//!
//! The functions [`probe`] and [`step`] count the signed crossings of a solid by rays. The law [`hold_mesh_laws`] states what
//! holds of every closed mesh: for example, its signed crossings by a whole line sum to 0. The law [`closed_or_open`] states
//! that each list of facets is closed or has one least open edge.
//!
//! Points are in micrometres, centres of rays in half-micrometres.
//!
//! Corners are named by hashes as facets come. In large meshes the edges are numbered by chains meanwhile, and at the end
//! groups put the points in order (`by_hash`). Otherwise sorts do both (`by_sort`).
#![tactic(auto)]

mod adding;
mod by_hash;
mod by_sort;
mod facets;
mod half_edge;
mod height_order;
mod laws;
mod names;
mod numbering;
mod packing;
mod probing;
mod same_ends;
mod solid;
mod weld_fault;
mod welder;
mod welding;

pub use height_order::{BLOCK_LEN, HeightRange, highest, lowest, split_block};
pub use laws::{closed_or_open, hold_mesh_laws};
pub use probing::{probe, step};
pub use solid::Solid;
pub use weld_fault::WeldFault;
pub use welder::Welder;
pub use welding::weld;
