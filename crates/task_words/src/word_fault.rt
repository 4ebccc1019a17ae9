//! Why words stand for no task.
ghost use Rattle.std.specs.Prelude.{◌≡◌, ◌≢◌, Some};
ghost use Rattle.clap.specs.Words.{kind_of};
ghost use Rattle.clap.specs.declared.error.kind.ErrorKind.TheVariants.{OutOfMemory};
ghost use Rattle.task_words.specs.declared.word_fault.WordFault.TheVariants.{Memory, Refused};
ghost use Rattle.task_words.specs.WordFault.{IsNoMemoryRefusal, IsWordStatus, png_option_text, wanted_text, word_fault_text};

use clap::Error as Refusal;
use clap::error::ErrorKind;
use std::alloc::AllocError;
use std::fmt::{self, Display, Formatter, Write};
use thiserror::Error;

/// A wanted option: one that every task but the box needs. [`WordFault::Missing`] names the one that is not given.
#[derive(Clone, Copy, Debug, PartialEq, Eq)]
pub enum Wanted {
    Pitch,
    Layer,
}

impl Display for Wanted {
    ghost output = { λ option. Some (wanted_text option) };

    /// The option as it is written in the command.
    fn fmt<W: Write>(&self, f: &mut Formatter<W>) -> fmt::Result {
        f.write_str(match self {
            Wanted::Pitch => "--pitch",
            Wanted::Layer => "--layer",
        })
    }
}

/// An option that says how PNGs are written. [`WordFault::WithoutPng`] names the first one that is given without `--png`.
#[derive(Clone, Copy, Debug, PartialEq, Eq)]
pub enum PngOption {
    Depth,
    MirrorX,
    MirrorY,
}

impl Display for PngOption {
    ghost output = { λ option. Some (png_option_text option) };

    /// The option as it is written in the command.
    fn fmt<W: Write>(&self, f: &mut Formatter<W>) -> fmt::Result {
        f.write_str(match self {
            PngOption::Depth => "--depth",
            PngOption::MirrorX => "--mirror-x",
            PngOption::MirrorY => "--mirror-y",
        })
    }
}

/// Why words are no task. Its `Display` is the program's line on standard error; that of `Refused` is a text of several
/// lines, of which no clause speaks.
#[derive(Debug, Drop, Error)]
pub enum WordFault {
    /// The words do not fit the command, or ask for its help or its version.
    Refused(Refusal),
    /// A task other than the box needs this option.
    Missing { option: Wanted },
    /// The text of `--rule` is not among the rules.
    BadRule,
    /// An allocation failed.
    Memory,
    /// The text of `--unit` is not among the units.
    BadUnit,
    /// The text of `--grid` is no grid.
    BadGrid,
    /// The text of `--probe` is no voxel.
    BadProbe,
    /// The text of `--depth` is no depth.
    BadDepth,
    /// This option is given without `--png`.
    WithoutPng { option: PngOption },
}

impl Display for WordFault {
    ghost output = { word_fault_text };

    fn fmt<W: Write>(&self, f: &mut Formatter<W>) -> fmt::Result {
        match self {
            WordFault::Refused(refusal) => refusal.fmt(f),
            WordFault::Missing { option } => write!(f, "stlslice: {option} is missing"),
            WordFault::BadRule => {
                f.write_str("stlslice: --rule takes evenodd, nonzero or positive")
            }
            WordFault::Memory => f.write_str("stlslice: out of memory"),
            WordFault::BadUnit => f.write_str("stlslice: --unit takes mm or inch"),
            WordFault::BadGrid => {
                f.write_str("stlslice: --grid takes COLUMNS,ROWS,LAYERS,X0,Y0,Z0")
            }
            WordFault::BadProbe => f.write_str("stlslice: --probe takes I,J,K"),
            WordFault::BadDepth => f.write_str("stlslice: --depth takes 8 or 1"),
            WordFault::WithoutPng { option } => write!(f, "stlslice: {option} goes with --png"),
        }
    }
}

impl WordFault {
    /// The exit status of a program that ends with this fault: 0 if the words ask for help or for the version, 6 for `Memory`,
    /// otherwise 2.
    pub fn status(&self) -> u8
        ensures { IsWordStatus self.now result }
    {
        match self {
            WordFault::Refused(refusal) => { if refusal.use_stderr() { 2 } else { 0 } }
            WordFault::Memory => 6,
            WordFault::Missing { .. }
            | WordFault::BadRule
            | WordFault::BadUnit
            | WordFault::BadGrid
            | WordFault::BadProbe
            | WordFault::BadDepth
            | WordFault::WithoutPng { .. } => 2,
        }
    }
}

impl From<Refusal> for WordFault {
    ghost from_gives = { λ refusal fault. (kind_of refusal ≡ OutOfMemory → fault ≡ Memory)
        × (kind_of refusal ≢ OutOfMemory → fault ≡ Refused refusal) × IsNoMemoryRefusal fault };

    fn from(refusal: Refusal) -> WordFault {
        match refusal.kind() {
            ErrorKind::OutOfMemory => WordFault::Memory,
            _ => WordFault::Refused(refusal),
        }
    }
}

impl From<AllocError> for WordFault {
    ghost from_gives = { λ _ fault. fault ≡ Memory };

    fn from(_error: AllocError) -> WordFault {
        WordFault::Memory
    }
}
