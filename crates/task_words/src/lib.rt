//! The words of the command, and the task that they stand for.
//!
//! ```text
//! match read_words(alloc, words) {
//!     Ok(task) => ..,                        // run it
//!     Err(fault) => exit(fault.status()),
//! }
//! ```
//!
//! [`read_words`] takes the words after the program's name, as `--pitch 50 --layer 100 --rule positive`, and returns a [`Task`]
//! or a [`WordFault`]. The `Display` of a fault is the line on standard error, and its `status` the exit status. A [`Wanted`]
//! is an option that is missing, and a [`PngOption`] one that goes with `--png` alone. For `--help` and `--version` the fault
//! is `Refused`, with status 0.
//!
//! [`wants_progress`] says whether such words ask for the progress of the run to be shown, which is no part of the task.
//!
//! Pitch, layer height and the origin of a [`Given`] grid are in micrometres. The greatest count of workers, [`PASS_LIMIT`], is
//! re-exported from `stripe_claims`; [`Depth`] and [`Mirrors`] are re-exported from `layer_png`.
#![tactic(auto)]

mod command;
mod task;
mod texts;
mod word_fault;
mod words;

pub use layer_png::{Depth, Mirrors};
pub use stripe_claims::PASS_LIMIT;
pub use task::{Given, Task};
pub use word_fault::{PngOption, Wanted, WordFault};
pub use words::{read_words, wants_progress};
