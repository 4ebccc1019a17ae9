//! Writes the images of layers one after another, each row by row from the greatest row to the least, through one chunk on the
//! stack.
ghost use Rattle.std.specs.Prelude.{◌≡◌, ◌≤◌, ◌+◌, ◌-◌, [], drop, length, IfErr, IfOk, OnOk};
ghost use Rattle.std.specs.Io.KnownBytes.{Appends};
ghost use Rattle.devices.specs.Devices.{greatest_count};
ghost use Rattle.devices.specs.Sent.{IsCutOff, IsSentTo};
ghost use Rattle.devices.specs.Transcript.{transcript_of};
ghost use Rattle.raster.specs.Span.{AreSpans};
ghost use Rattle.raster.specs.Image.{image_limit};
ghost use Rattle.raster.specs.ImageWriter.{pending};

use crate::grid::Grid;
use crate::pbm::chunk::Chunk;
use crate::pbm::header::HEADER_LIMIT;
use crate::span::Span;
use devices::{Sink, WriteFault};
use std::marker::Model;

/// Writes images of layers in raw PBM ("P4", pbm(5)) one after another. It gathers their bytes in a chunk. So one call of the
/// sink takes many rows of a large image, or many small images. It sends the bytes that it holds if the next row or header no
/// longer fits. [`ImageWriter::finish`] sends the rest, which is lost without that call.
///
/// A call of the sink that fails is not tried again, and the writer is of no use after it. No memory is allocated.
#[derive(Drop)]
pub struct ImageWriter {
    chunk: Chunk,
    sent: u64,
}

impl Model for ImageWriter {
    ghost use Rattle.raster.specs.ImageWriter.{ImageWriter};

    ghost Value = { ImageWriter };

    ghost view = { λ writer. record { held = writer.chunk; sent = writer.sent } };
}

impl ImageWriter {
    /// A writer that has written nothing.
    pub fn new() -> ImageWriter
        ensures { result ≡ record { held = []; sent = 0 } }
    {
        ImageWriter {
            chunk: Chunk::new(),
            sent: 0,
        }
    }

    /// Adds the image of a layer to those before it. The pixels in the spans are black, and the row of the greatest number is
    /// at the top. The spans are those of one layer of the grid: in it, by ascending row, then column, not empty and not
    /// touching.
    ///
    /// `count`: the bytes so far, those that are held and those of one more image can be counted in 64 bits. The bytes that
    /// went out since the writer was made are the first ones of all images. On an error they are the first `written`, which are
    /// fewer than all.
    pub fn add<W: Sink>(&mut self, g: &Grid, spans: &[Span], w: &mut W) -> Result<(), WriteFault>
        requires form { AreSpans g.now.columns g.now.rows spans.now }
        requires count { self.old.sent + length self.old.held + image_limit ≤ greatest_count }
        ensures ok { OnOk result (IsSentTo (transcript_of W.contents W.Failures.failure_count w.old w.new)
            (pending self.old.held g.now spans.now) self.old.sent self.new.sent) }
        ensures held { OnOk result (self.new.held ≡ drop (self.new.sent - self.old.sent)
            (pending self.old.held g.now spans.now)) }
        ensures few { OnOk result (self.new.sent + length self.new.held ≤ self.old.sent + length self.old.held + image_limit) }
        ensures err { IfErr result (λ fault. IsCutOff (transcript_of W.contents W.Failures.failure_count w.old w.new)
            (pending self.old.held g.now spans.now) self.old.sent fault.written) }
    {
        self.sent = push_image(&mut self.chunk, g, spans, w, self.sent)?;
        Ok(())
    }

    /// Sends the bytes that the writer still holds, and returns the number of bytes that it has sent in all. On an error the
    /// first `written` bytes of all images went out since the writer was made, which are fewer than all.
    pub fn finish<W: Sink>(self, w: &mut W) -> Result<u64, WriteFault>
        requires { self.sent + length self.held ≤ greatest_count }
        ensures ok { OnOk result (Appends (W.contents w.old) (W.contents w.new) self.held) }
        ensures total { IfOk result (λ total. total ≡ self.sent + length self.held) }
        ensures same { OnOk result (W.Failures.failure_count w.new ≡ W.Failures.failure_count w.old) }
        ensures err { IfErr result (λ fault. IsCutOff (transcript_of W.contents W.Failures.failure_count w.old w.new) self.held self.sent fault.written) }
    {
        let ImageWriter { mut chunk, sent } = self;
        chunk.send(w, sent)
    }
}

/// Adds an image to the chunk, which is sent whenever the next row does not fit it. `before` is the number of bytes sent so
/// far. Returns the number of bytes sent then.
fn push_image<W: Sink>(
    chunk: &mut Chunk,
    g: &Grid,
    spans: &[Span],
    w: &mut W,
    before: u64,
) -> Result<u64, WriteFault>
    requires form { AreSpans g.now.columns g.now.rows spans.now }
    requires count { before + length chunk.old + image_limit ≤ greatest_count }
    ensures ok { IfOk result (IsSentTo (transcript_of W.contents W.Failures.failure_count w.old w.new) (pending chunk.old g.now spans.now) before) }
    ensures held { IfOk result (λ total. chunk.new ≡ drop (total - before)
        (pending chunk.old g.now spans.now)) }
    ensures few { IfOk result (λ total. total + length chunk.new ≤ before + length chunk.old + image_limit) }
    ensures err { IfErr result (λ fault. IsCutOff (transcript_of W.contents W.Failures.failure_count w.old w.new)
        (pending chunk.old g.now spans.now) before fault.written) }
{
    let needed = g.columns().div_ceil(8) as usize;
    let mut written = chunk.make_room(HEADER_LIMIT, w, before)?;
    chunk.push_header(g.columns(), g.rows());
    let mut end = spans.len();
    let mut row = g.rows();
    while row > 0 {
        row -= 1;
        written = chunk.make_room(needed, w, written)?;
        end = chunk.push_row(g, spans, row, end);
    }
    Ok(written)
}
