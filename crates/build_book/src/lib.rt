//! Jobs of slicing, the pieces that workers make of them, and the book in which pieces are filed.
//!
//! ```text
//! let job = Job::new(solid, grid, rule);
//! let mut book = Book::open(alloc, &job)?;
//! for s in 0..job.stripes() {
//!     let _ = book.file(slice_stripe(alloc, &job, s)?);
//! }
//! let build = book.finish(&job)?;
//! ```
//!
//! - [`Job`]: what is to be sliced, in which grid, and by which rule. Its layers are cut into stripes, slabs of
//!   [`STRIPE_LAYERS`] layers. A job with the most layers has [`MOST_STRIPES`] of them.
//! - [`Layer`]: the loops, the filled pixels and their area, of one plane. Areas are counts of pixels.
//! - [`Piece`]: the layers of one stripe. [`slice_stripe`] makes one; a [`Slicer`] makes several and keeps its memory.
//! - [`Book`]: a place for each layer. Pieces are filed in any order, and [`FileFault`] says why one is not.
//! - [`Build`]: all layers. `Book::finish` and `finish_own` make what is not filed; these layers are `late`.
//!
//! Each layer of a piece, a book or a build is lawful: it is the one that the job makes there by the definition in
//! `specs/Layer`. By [`one_layer`], no other layer is lawful. The law [`headline`] says what a lawful layer has: closed loops,
//! exactly the pixels that the rule fills, and the number of these. It says so in terms of the facets that were read.
#![tactic(auto)]

mod book;
mod build;
mod file_fault;
mod job;
mod laws;
mod layer;
mod limits;
mod piece;
mod places;
mod slicer;

pub use book::Book;
pub use build::Build;
pub use file_fault::FileFault;
pub use job::Job;
pub use laws::{headline, one_layer};
pub use layer::Layer;
pub use limits::{MOST_STRIPES, STRIPE_LAYERS};
pub use piece::Piece;
pub use slicer::{Slicer, slice_stripe};
