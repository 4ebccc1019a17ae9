//! Triangle meshes read from binary STL.
//!
//! - [`read_binary`], [`read_binary_at_most`]: the facets of a binary STL, in order, or the one fault of its bytes.
//! - [`is_binary`]: whether bytes have the length of a binary STL, which few texts have.
//! - [`BinaryFault`]: why bytes are no facets, with facet, corner and [`Axis`]; [`CoordinateFault`]: why a number stands for no
//!   coordinate.
//! - [`one_outcome`], [`equal_numbers`], [`same_as_text`], [`no_text`]: laws. Bytes have one outcome; equal numbers are equal
//!   coordinates, also in a text; a text is no binary STL, unless its bytes 80 to 83 imitate a count.
//! - [`FACETS_START`], [`FACET_LEN`], [`CORNER_LEN`], [`NUMBER_LEN`], [`COUNT_START`]: the layout of a binary STL;
//!   [`TEXT_LIMIT`]: how long a text may be for [`no_text`].
//! - [`Point`], [`Facet`], [`FACET_LIMIT`] and [`COORDINATE_LIMIT`], re-exported from `geometry`; [`Unit`], re-exported from
//!   `micro_num`.
//!
//! ```text
//! let facets = read_binary(alloc, bytes, Unit::Millimetre)?;
//! let fault = read_binary(alloc, bytes.split_at(83).0, Unit::Millimetre);
//! assert!(rt; fault == Err(BinaryFault::Ended));
//! ```
//!
//! Units: the numbers of a binary STL are in the unit that the caller names. Points are in whole micrometres. Facets and corners
//! count from 0.
#![tactic(auto)]

mod binary_fault;
mod form;
mod laws;
mod limits;
mod reading;
mod single;

pub use binary_fault::{Axis, BinaryFault, CoordinateFault};
pub use form::is_binary;
pub use geometry::{COORDINATE_LIMIT, FACET_LIMIT, Facet, Point};
pub use laws::{equal_numbers, no_text, one_outcome, same_as_text};
pub use limits::{CORNER_LEN, COUNT_START, FACET_LEN, FACETS_START, NUMBER_LEN, TEXT_LIMIT};
pub use micro_num::Unit;
pub use reading::{read_binary, read_binary_at_most};
