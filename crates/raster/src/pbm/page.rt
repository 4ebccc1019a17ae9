//! Images that are drawn into memory, so that several threads can draw before one of them writes, or a caller can take them.
ghost use Rattle.std.specs.Prelude.{◌≡◌, ◌≤◌, ◌+◌, [], ◌++◌, IfOk, length};
ghost use Rattle.std.specs.Int.{div_ceil};
ghost use Rattle.raster.specs.Span.{AreSpans, covers};
ghost use Rattle.raster.specs.Image.{image_of_pixels, row_bytes};
ghost use Rattle.raster.specs.Rows.{IsRowStart};

use crate::grid::Grid;
use crate::pbm::header::Header;
use crate::pbm::rows::draw_layer_row;
use crate::span::Span;
use std::alloc::{AllocError, Allocator};
use std::marker::Model;

/// The images of a few layers, one after the other, in raw PBM ("P4", pbm(5)): the same bytes as an
/// [`ImageWriter`](crate::ImageWriter) writes. Their memory is allocated when the page is made, and kept when it is cleared.
/// All bytes of the free room after them are 0, so a row is drawn by setting bits.
#[derive(Drop)]
pub struct Page<A: Allocator> {
    room: Vec<u8, A>,
    filled: usize,
}

impl<A: Allocator> Model for Page<A> {
    ghost use Rattle.std.specs.Prelude.{◌≡◌, ◌≤◌, ℕ, length, slice_index, take};
    ghost use Rattle.raster.specs.Page.{Page};

    ghost Value = { Page };

    ghost view = { λ p. record { bytes = take p.filled p.room.items; room = length p.room.items } };

    ghost invariant = { λ p. (p.filled ≤ length p.room.items) × ((k : ℕ) → p.filled ≤ k → slice_index p.room.items k ≡ 0) };
}

impl<A: Allocator> Page<A> {
    /// A page without images, of `room` bytes.
    pub fn new(alloc: A, room: usize) -> Result<Page<A>, AllocError>
        ensures { IfOk result (λ page. page ≡ record { bytes = []; room = room }) }
    {
        Ok(Page {
            room: vec![in alloc; 0; room]?,
            filled: 0,
        })
    }

    /// The bytes of the images.
    pub fn bytes(&self) -> &[u8]
        ensures { result.now ≡ self.now.bytes }
    {
        let (bytes, _) = self.room.split_at(self.filled);
        bytes
    }

    /// The bytes of the images, in the page's memory, without the free room after them.
    pub fn into_bytes(self) -> Vec<u8, A>
        ensures { result.items ≡ self.bytes }
    {
        let Page { mut room, filled } = self;
        room.truncate(filled);
        room
    }

    /// Removes all images: sets the bytes that they took to 0, as the others are.
    pub fn clear(&mut self)
        ensures { self.new ≡ record { bytes = []; room = self.old.room } }
    {
        let filled = self.filled;
        let (drawn, _) = self.room.split_at_mut(filled);
        drawn.fill(0);
        self.filled = 0;
    }

    /// Draws the image of a layer after those before it. The pixels in the spans are black, and the row of the greatest number
    /// is at the top. The spans are those of one layer of the grid: in it, by ascending row, then column, not empty and not
    /// touching.
    ///
    /// `room`: the image fits the page. [`image_len`](crate::image_len) returns its length.
    pub fn draw(&mut self, g: &Grid, spans: &[Span])
        requires form { AreSpans g.now.columns g.now.rows spans.now }
        requires room { length self.old.bytes + length (image_of_pixels g.now.columns g.now.rows (covers spans.now)) ≤ self.old.room }
        ensures drawn { self.new.bytes ≡ self.old.bytes ++ image_of_pixels g.now.columns g.now.rows (covers spans.now) }
        ensures room { self.new.room ≡ self.old.room }
    {
        self.push_all(Header::of(g.columns(), g.rows()).bytes());
        let mut end = spans.len();
        let mut row = g.rows();
        while row > 0 {
            row -= 1;
            end = self.push_row(g, spans, row, end);
        }
    }

    /// Appends bytes.
    fn push_all(&mut self, text: &[u8])
        requires { length self.old.bytes + length text.now ≤ self.old.room }
        ensures added { self.new.bytes ≡ self.old.bytes ++ text.now }
        ensures room { self.new.room ≡ self.old.room }
    {
        let end = self.filled + text.len();
        self.room[self.filled..end].copy_from_slice(text);
        self.filled = end;
    }

    /// Appends row `number` of a layer. The first `end` spans are those of this row and of the rows below. Returns the number
    /// of those in the rows below.
    fn push_row(&mut self, g: &Grid, spans: &[Span], number: u32, end: usize) -> usize
        requires form { AreSpans g.now.columns g.now.rows spans.now }
        requires split { IsRowStart spans.now end (number + 1) }
        requires room { length self.old.bytes + div_ceil g.now.columns 8 ≤ self.old.room }
        ensures split { IsRowStart spans.now result number }
        ensures drawn { self.new.bytes ≡ self.old.bytes ++ row_bytes g.now.columns (λ i. covers spans.now i number) }
        ensures room { self.new.room ≡ self.old.room }
    {
        let filled = self.filled + g.columns().div_ceil(8) as usize;
        let start = draw_layer_row(&mut self.room[self.filled..filled], g, spans, number, end);
        self.filled = filled;
        start
    }
}
