//! The program `stlslice`, but for its `main`: a run of one task, over any source of bytes and any sink.
//!
//! ```text
//! let task = read_words(alloc, words)?;             // --pitch 50 --layer 100
//! run(&rt, alloc, &task, &mut source, &mut sink)?;  // a P4 image a layer
//! ```
//!
//! - [`read_words`]: turns the command's words into a [`Task`], whose grid may be a [`Given`] one. A [`WordFault`] says why
//!   words are no task: by [`Wanted`] which option is missing, and by [`PngOption`] which one goes with PNGs alone.
//! - [`wants_progress`]: whether the words ask for the progress of the run to be shown.
//! - [`Depth`], [`Mirrors`]: how PNGs show a layer.
//! - [`run`]: does a task. It reads ASCII STL to its end. It writes the images of all layers, as P4 or as PNGs, a report, the
//!   box of the mesh, or the two rays of a voxel.
//! - [`RunFault`]: why a run wrote nothing, or not all. Its `Display` is the line on standard error, and its `status` the exit
//!   status.
//! - [`run_watched`]: does a task, and tells a [`Gate`] which stripe a worker begins, and which [`Piece`], the layers of that
//!   stripe, it has made.
//! - [`Source`], [`Sink`]: the devices that a run reads and writes. A call of them that fails returns [`Failed`], and
//!   [`Failures`] counts those. [`Counted`] makes a device of any reader or writer.
//! - [`image_len`]: the length of the image of a layer, in bytes.
//! - [`load`]: the closed mesh of a text in memory.
//! - [`one_answer`]: a law. A task and an input have one outcome, whatever the number of workers.
//! - [`written_pixels`]: a law. A pixel that slicing writes follows the ray of all facets that were read.
//! - [`written_files`]: a law. Images or PNGs that slicing writes are cut into those of the layers in one way.
//!
//! Pitch, layer height and the box are in micrometres.
#![tactic(auto)]

mod laws;
mod loading;
mod run_fault;
mod running;
mod write;

pub use build_book::Piece;
pub use devices::{Counted, Failed, Failures, Sink, Source};
pub use laws::{one_answer, written_files, written_pixels};
pub use layer_pool::Gate;
pub use loading::load;
pub use raster::image_len;
pub use run_fault::RunFault;
pub use running::{run, run_watched};
pub use task_words::{
    Depth, Given, Mirrors, PngOption, Task, Wanted, WordFault, read_words, wants_progress,
};
