//! The fault of arrays: what is wrong with the first triangle that is no facet, and which triangle that is.
ghost use Rattle.std.specs.Prelude.{◌≡◌, Some};
ghost use Rattle.mesh_arrays.specs.ArrayFault.{array_fault_text};
ghost use Rattle.mesh_arrays.specs.declared.array_fault.ArrayFault.TheVariants.{Memory};

use std::alloc::{AllocError, AllocFailed};
use std::fmt::{self, Display, Formatter, Write};
use thiserror::Error;

/// Why arrays are no facets. Triangles and points count from 0.
#[derive(Clone, Copy, Debug, PartialEq, Eq, Error)]
pub enum ArrayFault {
    /// The triangle has this index, and there is no such point.
    Missing { triangle: usize, point: u32 },
    /// The triangle has this point, and a coordinate of it is more than `COORDINATE_LIMIT` micrometres from 0.
    OutOfRange { triangle: usize, point: u32 },
    /// This triangle is one more than `FACET_LIMIT`.
    TooMany { triangle: usize },
    /// An allocation failed.
    Memory,
}

impl Display for ArrayFault {
    ghost output = { λ fault. Some (array_fault_text fault) };

    fn fmt<W: Write>(&self, f: &mut Formatter<W>) -> fmt::Result {
        match self {
            ArrayFault::Missing { triangle, point } => {
                write!(f, "point {point} of triangle {triangle} is missing")
            }
            ArrayFault::OutOfRange { triangle, point } => {
                write!(f, "point {point} of triangle {triangle} is out of range")
            }
            ArrayFault::TooMany { triangle } => {
                write!(f, "too many facets at triangle {triangle}")
            }
            ArrayFault::Memory => f.write_str("out of memory"),
        }
    }
}

impl<T: Drop> From<AllocFailed<T>> for ArrayFault {
    ghost from_gives = { λ _ fault. fault ≡ Memory };

    fn from(_failed: AllocFailed<T>) -> ArrayFault {
        ArrayFault::Memory
    }
}

impl From<AllocError> for ArrayFault {
    ghost from_gives = { λ _ fault. fault ≡ Memory };

    fn from(_error: AllocError) -> ArrayFault {
        ArrayFault::Memory
    }
}
