//! Cuts of facets by planes, and crossings of facets by scanlines and rays, computed exactly in whole numbers.
//!
//! ```text
//! let f = Facet::of(Point::new(0, 0, 0)?, Point::new(10, 10, 0)?, Point::new(0, 0, 10)?);
//! cuts(&f, 10)                            // at the height 5 µm: Some(Cut { down: 2, up: 1 })
//! let c = crossing(&f, 10, 4)?;           // there, on the scanline y = 2 µm: num / den is 4, so x = 2 µm
//! column(&c, 1, 1, 8)                     // 2: the first of the pixel centres 0.5, 1.5, 2.5 .. µm that is not left of it
//! ray_hit(&f, &Centre::new(1, 4, 10)?)    // 1: the ray from (0.5, 2, 5) µm along x crosses the facet
//! ray_hit(&f, &Centre::new(5, 4, 10)?)    // 0: the facet lies behind
//! ```
//!
//! - [`Cut`], [`cuts`]: the two edges of a facet that pass a height; [`corner_heights`], [`cuts_at`]: the same by the heights
//!   of the corners alone.
//! - [`Crossing`], [`crossing`]: where a scanline crosses a facet, as a fraction; [`column`]: the first pixel that is not left
//!   of it.
//! - [`Lattice`]: the pixel centres of a layer; [`Walk`]: a facet's crossings with all of their rows. A digital differential
//!   analyser (DDA) replaces a division a row.
//! - [`Centre`]: a point that a ray starts from; [`ray_hit`], [`ray_hit_y`]: how the ray from there along x, and along y,
//!   crosses a facet.
//! - [`PlanePoint`], [`start_point`]: where a plane passes a facet's edge, to the nearest half-micrometre.
//! - [`hold_laws`]: states the laws that hold for every facet.
//!
//! Coordinates are in half-micrometres, so the centres between whole micrometres are whole. Names of such numbers end in `2`.
//! Facets and steps between pixels are in micrometres.
#![tactic(auto)]

mod centre;
mod cut;
mod dda;
mod hit;
mod laws;
mod plane_point;
mod scanline;

pub use centre::Centre;
pub use cut::{Cut, corner_heights, cuts, cuts_at};
pub use dda::lattice::Lattice;
pub use dda::walk::Walk;
pub use hit::{ray_hit, ray_hit_y};
pub use laws::hold_laws;
pub use plane_point::{PlanePoint, start_point};
pub use scanline::column;
pub use scanline::crossing::Crossing;
pub use scanline::section::crossing;
