//! The fault of a binary STL: what is wrong, and at which coordinate.
ghost use Rattle.std.specs.Prelude.{◌≡◌, Some};
ghost use Rattle.binary_stl.specs.BinaryFault.{axis_text, binary_fault_text, coordinate_fault_text};
ghost use Rattle.binary_stl.specs.declared.binary_fault.BinaryFault.TheVariants.{Memory};

use std::alloc::{AllocError, AllocFailed};
use std::fmt::{self, Display, Formatter, Write};
use thiserror::Error;

/// Why a number of single precision stands for no coordinate.
#[derive(Clone, Copy, Debug, PartialEq, Eq, Error)]
pub enum CoordinateFault {
    /// It is a NaN.
    NotNumber,
    /// It is an infinity.
    Infinite,
    /// The rounded value is more than `COORDINATE_LIMIT` micrometres from 0.
    OutOfRange,
}

impl Display for CoordinateFault {
    ghost output = { λ fault. Some (coordinate_fault_text fault) };

    fn fmt<W: Write>(&self, f: &mut Formatter<W>) -> fmt::Result {
        f.write_str(match self {
            CoordinateFault::NotNumber => "not a number",
            CoordinateFault::Infinite => "infinite",
            CoordinateFault::OutOfRange => "out of range",
        })
    }
}

/// One of the three coordinates of a corner.
#[derive(Clone, Copy, Debug, PartialEq, Eq)]
pub enum Axis {
    X,
    Y,
    Z,
}

impl Display for Axis {
    ghost output = { λ axis. Some (axis_text axis) };

    fn fmt<W: Write>(&self, f: &mut Formatter<W>) -> fmt::Result {
        f.write_str(match self {
            Axis::X => "x",
            Axis::Y => "y",
            Axis::Z => "z",
        })
    }
}

/// Why bytes are no facets. Facets and corners count from 0.
#[derive(Clone, Copy, Debug, PartialEq, Eq, Error)]
pub enum BinaryFault {
    /// The bytes end before the end of the count: there are fewer than `FACETS_START`.
    Ended,
    /// This many facets take `wanted` bytes, but there are `found`.
    Length {
        facets: u32,
        wanted: u64,
        found: usize,
    },
    /// The count is above the limit.
    TooMany {
        facets: u32,
    },
    /// The number stands for no coordinate, for the reason that `cause` gives.
    Number {
        cause: CoordinateFault,
        facet: usize,
        corner: usize,
        axis: Axis,
    },
    /// An allocation failed.
    Memory,
}

impl Display for BinaryFault {
    ghost output = { λ fault. Some (binary_fault_text fault) };

    fn fmt<W: Write>(&self, f: &mut Formatter<W>) -> fmt::Result {
        match self {
            BinaryFault::Ended => f.write_str("input ended before the count of facets"),
            BinaryFault::Length {
                facets,
                wanted,
                found,
            } => {
                write!(
                    f,
                    "{facets} facets take {wanted} bytes, but there are {found}"
                )
            }
            BinaryFault::TooMany { facets } => write!(f, "too many facets: {facets}"),
            BinaryFault::Number {
                cause,
                facet,
                corner,
                axis,
            } => { write!(f, "{axis} of corner {corner} of facet {facet}: {cause}") }
            BinaryFault::Memory => f.write_str("out of memory"),
        }
    }
}

impl<T: Drop> From<AllocFailed<T>> for BinaryFault {
    ghost from_gives = { λ _ fault. fault ≡ Memory };

    fn from(_failed: AllocFailed<T>) -> BinaryFault {
        BinaryFault::Memory
    }
}

impl From<AllocError> for BinaryFault {
    ghost from_gives = { λ _ fault. fault ≡ Memory };

    fn from(_error: AllocError) -> BinaryFault {
        BinaryFault::Memory
    }
}
