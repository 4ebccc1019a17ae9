//! Decimal texts read as whole micrometres, exactly: no float, and one rounding at the end.
//!
//! - [`read_micro`]: the coordinate that a word stands for, or a [`NumFault`].
//! - [`read_front`]: the same for a word at the front of a longer text, with the length of the word.
//! - [`signed_coordinate`]: the coordinate of a magnitude and a sign, if it is in range.
//! - [`Unit`]: the unit of the text's numbers: millimetres, inches, centimetres or metres.
//! - [`WORD_LIMIT`]: the greatest length of a number's text, in bytes.
//! - [`one_spelling`]: the law that a number's text and its parts determine each other.
//! - [`ceil_div`], re-exported from `exact_int`.
//!
//! ```
//! assert!(rt; read_micro(b"-1.5e1", Unit::Millimetre) == Ok(-15000));
//! assert!(rt; read_micro(b"0.0005", Unit::Millimetre) == Ok(1)); // half a micrometre: away from zero
//! assert!(rt; read_micro(b"1", Unit::Inch) == Ok(25400));
//! assert!(rt; read_micro(b"0.0505", Unit::Metre) == Ok(50500));
//! assert!(rt; read_micro(b"1,5", Unit::Millimetre) == Err(NumFault::NotNumber));
//! assert!(rt; read_front(b"1.5 2.5", Unit::Millimetre) == Some((1500, 3)));
//! ```
//!
//! Units: results are whole micrometres, from -`COORDINATE_LIMIT` to `COORDINATE_LIMIT` of `geometry`.
#![tactic(auto)]

mod digits;
mod laws;
mod limits;
mod mantissa;
mod num_fault;
mod powers;
mod reading;
mod scaling;
mod short_number;
mod unit;

pub use exact_int::ceil_div;
pub use laws::one_spelling;
pub use limits::WORD_LIMIT;
pub use num_fault::NumFault;
pub use reading::{read_front, read_micro};
pub use scaling::signed_coordinate;
pub use unit::Unit;
