//! The bytes of images on their way to a sink, gathered so that one call of the sink takes many rows and images.
ghost use Rattle.std.specs.Prelude.{◌≡◌, ◌≤◌, ◌+◌, ◌-◌, [], ◌++◌, drop, length, OnOk, IfErr, IfOk};
ghost use Rattle.std.specs.Int.{div_ceil};
ghost use Rattle.std.specs.Io.KnownBytes.{Appends};
ghost use Rattle.devices.specs.Devices.{greatest_count};
ghost use Rattle.devices.specs.Sent.{IsCutOff, IsSentTo};
ghost use Rattle.devices.specs.Transcript.{transcript_of};
ghost use Rattle.raster.specs.Image.{header, row_bytes};
ghost use Rattle.raster.specs.Rows.{IsRowStart};
ghost use Rattle.raster.specs.Span.{AreSpans, covers};
ghost use Rattle.raster.specs.declared.pbm.chunk.TheConstants.{CHUNK_LEN};
ghost use Rattle.raster.specs.declared.pbm.header.TheConstants.{HEADER_LIMIT};
ghost use Rattle.geometry.specs.declared.limits.TheConstants.{COLUMN_LIMIT};

use crate::grid::Grid;
use crate::pbm::header::{HEADER_LIMIT, Header};
use crate::pbm::rows::draw_layer_row;
use crate::span::Span;
use devices::{Sink, WriteFault, put_all};
use geometry::COLUMN_LIMIT;
use std::marker::Model;

/// The greatest number of bytes that one call of a sink is given: twelve rows of the greatest width.
const CHUNK_LEN: usize = 12 * (COLUMN_LIMIT as usize / 8);

/// Bytes on their way to a sink. They lie on the stack, so that writing allocates no memory. All bytes of the free room after
/// them are 0, so a row is drawn by setting bits.
#[derive(Drop)]
pub(crate) struct Chunk {
    bytes: [u8; CHUNK_LEN],
    filled: usize,
}

impl Model for Chunk {
    ghost use Rattle.std.specs.Prelude.{◌≡◌, ◌≤◌, List, ℕ, length, slice_index, take};
    ghost use Rattle.raster.specs.declared.pbm.chunk.TheConstants.{CHUNK_LEN};

    ghost Value = { List ℕ };

    ghost view = { λ c. take c.filled c.bytes };

    ghost invariant = { λ c. (c.filled ≤ CHUNK_LEN) × (length c.bytes ≡ CHUNK_LEN) × ((k : ℕ) → c.filled ≤ k → slice_index c.bytes k ≡ 0) };
}

impl Chunk {
    /// An empty chunk.
    pub(crate) fn new() -> Chunk
        ensures { result ≡ [] }
    {
        Chunk {
            bytes: [0; CHUNK_LEN],
            filled: 0,
        }
    }

    /// The number of bytes that still fit the chunk.
    pub(crate) fn free_room(&self) -> usize
        ensures { result + length self.now ≡ CHUNK_LEN }
    {
        CHUNK_LEN - self.filled
    }

    /// Appends bytes.
    fn push_all(&mut self, text: &[u8])
        requires { length self.old + length text.now ≤ CHUNK_LEN }
        ensures { self.new ≡ self.old ++ text.now }
    {
        let end = self.filled + text.len();
        self.bytes[self.filled..end].copy_from_slice(text);
        self.filled = end;
    }

    /// Appends the header of an image of this width and height.
    pub(crate) fn push_header(&mut self, width: u32, height: u32)
        requires room { length self.old + HEADER_LIMIT ≤ CHUNK_LEN }
        requires width { width ≤ COLUMN_LIMIT }
        requires height { height ≤ COLUMN_LIMIT }
        ensures { self.new ≡ self.old ++ header width height }
    {
        self.push_all(Header::of(width, height).bytes());
    }

    /// Appends row `number` of a layer. The first `end` spans are those of this row and of the rows below. Returns the number
    /// of those in the rows below.
    #[inline(always)]
    pub(crate) fn push_row(&mut self, g: &Grid, spans: &[Span], number: u32, end: usize) -> usize
        requires form { AreSpans g.now.columns g.now.rows spans.now }
        requires split { IsRowStart spans.now end (number + 1) }
        requires room { length self.old + div_ceil g.now.columns 8 ≤ CHUNK_LEN }
        ensures split { IsRowStart spans.now result number }
        ensures drawn { self.new ≡ self.old ++ row_bytes g.now.columns (λ i. covers spans.now i number) }
    {
        let filled = self.filled + g.columns().div_ceil(8) as usize;
        let start = draw_layer_row(&mut self.bytes[self.filled..filled], g, spans, number, end);
        self.filled = filled;
        start
    }

    /// Makes room for `needed` more bytes: sends the chunk if it has less. `before` is the number of bytes sent so far. Returns
    /// the number of bytes sent then.
    #[inline(always)]
    pub(crate) fn make_room<W: Sink>(
        &mut self,
        needed: usize,
        w: &mut W,
        before: u64,
    ) -> Result<u64, WriteFault>
        requires needed { needed ≤ CHUNK_LEN }
        requires count { before + length self.old ≤ greatest_count }
        ensures room { OnOk result (length self.new + needed ≤ CHUNK_LEN) }
        ensures kept { IfOk result (λ total. self.new ≡ drop (total - before) self.old) }
        ensures ok { IfOk result (IsSentTo (transcript_of W.contents W.Failures.failure_count w.old w.new) self.old before) }
        ensures err { IfErr result (λ fault. IsCutOff (transcript_of W.contents W.Failures.failure_count w.old w.new) self.old before fault.written) }
    {
        if self.free_room() < needed {
            self.send(w, before)
        } else {
            Ok(before)
        }
    }

    /// Sends the bytes to a sink, and empties the chunk. `before` is the number of bytes sent so far. Returns the number of
    /// bytes sent then.
    pub(crate) fn send<W: Sink>(&mut self, w: &mut W, before: u64) -> Result<u64, WriteFault>
        requires { before + length self.old ≤ greatest_count }
        ensures emptied { OnOk result (self.new ≡ []) }
        ensures ok { OnOk result (Appends (W.contents w.old) (W.contents w.new) self.old) }
        ensures total { IfOk result (λ total. total ≡ before + length self.old) }
        ensures same { OnOk result (W.Failures.failure_count w.new ≡ W.Failures.failure_count w.old) }
        ensures err { IfErr result (λ fault. IsCutOff (transcript_of W.contents W.Failures.failure_count w.old w.new) self.old before fault.written) }
    {
        let filled = self.filled;
        match put_all(w, &self.bytes[..filled]) {
            Ok(()) => {
                self.bytes[..filled].fill(0);
                self.filled = 0;
                Ok(before + filled as u64)
            }
            Err(fault) => Err(WriteFault {
                written: before + fault.written,
            }),
        }
    }
}
