//! The geometry of triangle meshes, in whole numbers.
//!
//! - [`Point`]: a point of a mesh, in whole micrometres; [`equal_points`], [`points_in_order`]: when points are equal, and
//!   their order.
//! - [`Facet`]: a triangle by its three corners, counterclockwise as seen from outside.
//! - [`extent`], [`extent_with`]: the bounding box of facets, and of facets and earlier ones; [`lower`], [`higher`]: the
//!   corners of the bounding box of two points.
//! - [`is_below`], [`rises_through`]: the tie rule, the same for every cut and every ray.
//! - [`COORDINATE_LIMIT`], [`CENTRE_LIMIT`]: the limits of coordinates; [`STEP_LIMIT`], [`COLUMN_LIMIT`], [`LAYER_LIMIT`]: the
//!   limits of grids; [`FACET_LIMIT`], [`CORNER_LIMIT`]: the limits of meshes.
//!
//! ```
//! // each corner is a `Some` of `Point::new`
//! let facets = [Facet::of(corner(0, 0, 0), corner(5, 0, 0), corner(0, 5, 5))];
//! assert!(rt; extent(&facets) == Some((corner(0, 0, 0), corner(5, 5, 5))));
//! assert!(rt; is_below(4, 4) && rises_through(4, 5, 4) && !rises_through(3, 4, 4));
//! ```
//!
//! Units: points are in whole micrometres. The centre of a pixel may lie halfway between two of them, so coordinates
//! that are compared with a centre are in half-micrometres (units of 0.5 µm). In this unit every centre is a whole
//! number, and no comparison rounds. In code coordinates `x`, `y` and `z` in this unit are called `x2`, `y2` and `z2`;
//! other names say the unit in their comment.
//!
//! The definitions that other crates cite are in `specs/`: winding and signed ray crossings (`Winding`), touch
//! (`Touch`), half-edges (`Facet`), the tie rule (`TieRule`).
#![tactic(auto)]

mod bounding_box;
mod facet;
mod laws;
mod limits;
mod point;
mod tie_rule;

pub use bounding_box::{extent, extent_with, higher, lower};
pub use facet::Facet;
pub use laws::{equal_points, points_in_order};
pub use limits::{
    CENTRE_LIMIT, COLUMN_LIMIT, COORDINATE_LIMIT, CORNER_LIMIT, FACET_LIMIT, LAYER_LIMIT,
    STEP_LIMIT,
};
pub use point::Point;
pub use tie_rule::{is_below, rises_through};
