//! How far a run of the program is, shown on standard error.
//!
//! ```text
//! let progress = Progress::new(&rt, &task, rt.stderr().is_terminal());
//! // the gate of the workers is `&progress`, and the images go to
//! let writer = ProgressWriter::new(rt.stdout(), &progress);
//! progress.end();
//! ```
//!
//! - [`Progress`]: the gate of the workers. It shows the layers that are made, then what is written.
//! - [`ProgressWriter`]: a writer that tells a progress what it writes.
//! - [`Bar`], [`Phase`], [`Images`]: how far a run is, in layers or bytes. [`BarText`] is its text.
//! - [`PngCount`]: counts the PNGs in a stream that is cut anywhere.
//!
//! What is shown changes nothing that a run writes. No clause speaks of it; tests do.
#![tactic(auto)]

mod png_count;
mod progress;

pub use png_count::PngCount;
pub use progress::{Bar, BarText, Images, Phase, Progress, ProgressWriter};
