//! Images of layers in raw PBM ("P4", pbm(5)): packed rows, gathered in chunks, written to a sink one after another.

mod bits;
mod chunk;
mod header;
mod image;
mod image_writer;
mod page;
mod rows;

pub use image::{image_len, write_layer};
pub use image_writer::ImageWriter;
pub use page::Page;
