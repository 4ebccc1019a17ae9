//! The faults of a number's text.
ghost use Rattle.std.specs.Prelude.{Some};
ghost use Rattle.micro_num.specs.NumFault.{num_fault_text};

use std::fmt::{self, Display, Formatter, Write};
use thiserror::Error;

/// Why a word stands for no coordinate.
#[derive(Clone, Copy, Debug, PartialEq, Eq, Error)]
pub enum NumFault {
    /// The word is outside the grammar of numbers.
    NotNumber = 1,
    /// The word has more than `WORD_LIMIT` bytes.
    TooLong = 2,
    /// The rounded value is more than `COORDINATE_LIMIT` micrometres from 0.
    OutOfRange = 3,
}

impl Display for NumFault {
    ghost output = { λ fault. Some (num_fault_text fault) };

    fn fmt<W: Write>(&self, f: &mut Formatter<W>) -> fmt::Result {
        f.write_str(match self {
            NumFault::NotNumber => "not a number",
            NumFault::TooLong => "too long",
            NumFault::OutOfRange => "out of range",
        })
    }
}
