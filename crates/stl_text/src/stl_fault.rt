//! The fault of a text: what is wrong at the first word that does not fit, and where that word is.
ghost use Rattle.std.specs.Prelude.{◌≡◌, Some};
ghost use Rattle.stl_text.specs.StlFault.{stl_fault_text};
ghost use Rattle.stl_text.specs.declared.stl_fault.StlFault.TheVariants.{Memory};

use crate::word::Word;
use micro_num::NumFault;
use std::alloc::{AllocError, AllocFailed};
use std::fmt::{self, Display, Formatter, Write};
use thiserror::Error;

/// Why a text does not read as facets. `at` is a byte offset, from 0.
#[derive(Clone, Copy, Debug, PartialEq, Eq, Error)]
pub enum StlFault {
    /// `word` is wanted, but another word is at `at`.
    Expected { word: Word, at: usize },
    /// `word` is wanted, but the text ends.
    Ended { word: Word },
    /// The word at `at` stands for no coordinate, for the reason that `cause` gives.
    Number { cause: NumFault, at: usize },
    /// One facet more than the limit begins at `at`.
    TooMany { at: usize },
    /// An allocation failed.
    Memory,
}

impl Display for StlFault {
    ghost output = { λ fault. Some (stl_fault_text fault) };

    fn fmt<W: Write>(&self, f: &mut Formatter<W>) -> fmt::Result {
        match self {
            StlFault::Expected { word, at } => write!(f, "expected {word} at byte {at}"),
            StlFault::Ended { word } => write!(f, "input ended before {word}"),
            StlFault::Number { cause, at } => write!(f, "number at byte {at}: {cause}"),
            StlFault::TooMany { at } => write!(f, "too many facets at byte {at}"),
            StlFault::Memory => f.write_str("out of memory"),
        }
    }
}

impl<T: Drop> From<AllocFailed<T>> for StlFault {
    ghost from_gives = { λ _ fault. fault ≡ Memory };

    fn from(_failed: AllocFailed<T>) -> StlFault {
        StlFault::Memory
    }
}

impl From<AllocError> for StlFault {
    ghost from_gives = { λ _ fault. fault ≡ Memory };

    fn from(_error: AllocError) -> StlFault {
        StlFault::Memory
    }
}
