//! Triangle meshes from arrays: points by their coordinates in whole micrometres, and triangles by the indices of their points.
//!
//! - [`read_arrays`]: the facets of the triangles, in order, or the one fault of the arrays.
//! - [`ArrayFault`]: why arrays are no facets, with the number of the triangle.
//! - [`one_outcome`]: a law. Arrays have one outcome.
//! - [`Point`], [`Facet`], [`FACET_LIMIT`] and [`COORDINATE_LIMIT`], re-exported from `geometry`.
//!
//! ```
//! let points = [[0, 0, 0], [1000, 0, 0], [0, 1000, 0]];
//! let facets = read_arrays(alloc, &points, &[[0, 1, 2]])?;
//! assert!(rt; facets.len() == 1 && facets[0].corner(1).x() == 1000);
//! let fault = read_arrays(alloc, &points, &[[0, 1, 2], [0, 1, 3]]);
//! assert!(rt; fault == Err(ArrayFault::Missing { triangle: 1, point: 3 }));
//! ```
//!
//! Points and triangles count from 0.
#![tactic(auto)]

mod array_fault;
mod laws;
mod reading;

pub use array_fault::ArrayFault;
pub use geometry::{COORDINATE_LIMIT, FACET_LIMIT, Facet, Point};
pub use laws::one_outcome;
pub use reading::read_arrays;
