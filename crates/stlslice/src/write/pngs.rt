//! The output of `--png`: the PNGs of all layers, one after the other.
ghost use Rattle.std.specs.Prelude.{◌≡◌, ◌≤◌, ◌+◌, ◌++◌, length, vec_capacity, vec_len};
ghost use Rattle.layer_png.specs.Depth.{bits};
ghost use Rattle.layer_png.specs.Layer.{shown_in};
ghost use Rattle.layer_png.specs.Text.{most_png_bytes, png_text};
ghost use Rattle.devices.specs.Transcript.{transcript_of};
ghost use Rattle.raster.specs.Span.{AreSpans};
ghost use Rattle.stlslice.specs.Pngs.{HasPngRoom, pngs_of};
ghost use Rattle.stlslice.specs.Put.{IsPut};
ghost use Rattle.stlslice.specs.Writing.{IsMadeAndWritten};

use crate::run_fault::RunFault;
use crate::write::flush::{put_more, settle};
use build_book::Build;
use devices::{Sink, WriteFault};
use layer_png::{Depth, Mirrors, most_png_bytes, write_png};
use raster::{Grid, Span};
use std::alloc::Allocator;

/// Writes the PNGs of all layers of a build, one after another, and flushes them. The memory for the longest is allocated
/// before the first byte is written. If there is none, the fault is `Memory`, and nothing was written. On another fault exactly
/// the first `written` bytes of all went out; these are all if the flush failed.
pub(crate) fn write_pngs<A: Allocator + Copy + Send + Sync, O: Sink>(
    alloc: A,
    build: &Build<'_, A>,
    depth: Depth,
    mirrors: Mirrors,
    sink: &mut O,
) -> Result<(), RunFault>
    ensures { IsMadeAndWritten result
        (transcript_of O.contents O.Failures.failure_count sink.old sink.new)
        (O.is_settled sink.new) (pngs_of build.now.job depth mirrors) }
{
    let room = room_for_png(build, depth);
    let buffer = Vec::with_capacity(alloc, room)?;
    let written = put_pngs(build, depth, mirrors, buffer, sink)?;
    settle(sink, written)
}

/// A number of bytes that is enough for the PNG of each layer of a build.
pub(crate) fn room_for_png<A: Allocator>(build: &Build<'_, A>, depth: Depth) -> usize
    ensures { HasPngRoom build.now.job.grid depth build.now.layers result }
{
    let grid = build.job().grid();
    let mut room: u64 = 0;
    for layer in build.layers() {
        room = room.max(most_png_bytes(grid, layer.spans().len(), depth));
    }
    room as usize
}

/// Writes the PNGs of all layers of a build, each made in a buffer that it fits. Returns the number of bytes written.
fn put_pngs<A: Allocator, O: Sink>(
    build: &Build<'_, A>,
    depth: Depth,
    mirrors: Mirrors,
    mut buffer: Vec<u8, A>,
    sink: &mut O,
) -> Result<u64, WriteFault>
    requires { HasPngRoom build.now.job.grid depth build.now.layers (vec_capacity buffer) }
    ensures { IsPut result
        (transcript_of O.contents O.Failures.failure_count sink.old sink.new)
        (pngs_of build.now.job depth mirrors) 0 }
{
    let grid = build.job().grid();
    // the limits bound the count of the bytes
    grid.hold_limits();
    let mut written = 0;
    for layer in build.layers() {
        buffer.clear();
        buffer = add_png(buffer, grid, layer.spans(), depth, mirrors);
        written = put_more(buffer.as_slice(), sink, written)?;
    }
    Ok(written)
}

/// What the buffer holds, and behind it the PNG of a layer. It fits the buffer, so that no memory is allocated.
pub(crate) fn add_png<A: Allocator>(
    buffer: Vec<u8, A>,
    grid: &Grid,
    spans: &[Span],
    depth: Depth,
    mirrors: Mirrors,
) -> Vec<u8, A>
    requires form { AreSpans grid.now.columns grid.now.rows spans.now }
    requires room { vec_len buffer + most_png_bytes (bits depth) grid.now.columns grid.now.rows (length spans.now) ≤ vec_capacity buffer }
    ensures text { result.items ≡ buffer.items
        ++ png_text (bits depth) grid.now.columns grid.now.rows (shown_in grid.now mirrors spans.now) }
    ensures most { vec_len result ≤ vec_len buffer + most_png_bytes (bits depth) grid.now.columns grid.now.rows (length spans.now) }
    ensures capacity { vec_capacity buffer ≤ vec_capacity result }
{
    write_png(buffer, grid, spans, depth, mirrors).unwrap()
}
