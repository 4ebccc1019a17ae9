//! Draws the rows of an image: finds the spans of a row among those of its layer, and sets their pixels.
ghost use Rattle.std.specs.Prelude.{◌≡◌, ◌≤◌, ◌+◌, ℕ, length, slice_index, true};
ghost use Rattle.std.specs.Int.{div_ceil};
ghost use Rattle.raster.specs.Span.{AreSpans, covers};
ghost use Rattle.raster.specs.Image.{row_bytes};
ghost use Rattle.raster.specs.Rows.{IsRowStart, are_within, crosses};

use crate::grid::Grid;
use crate::pbm::bits::set_pixels;
use crate::span::Span;

/// Sets the pixels of these spans in a packed row of this width. No pixel is set in it yet.
#[inline(always)]
fn draw_row(row: &mut [u8], width: u32, spans: &[Span])
    requires size { length row.old ≡ div_ceil width 8 }
    requires blank { (k : ℕ) → slice_index row.old k ≡ 0 }
    requires within { are_within width spans.now ≡ true }
    ensures { row.new ≡ row_bytes width (crosses spans.now) }
{
    for span in spans {
        set_pixels(row, span.from as usize, span.to as usize);
    }
}

/// Draws row `number` of a layer into a packed row, in which no pixel is set yet. The first `end` spans are those of this row
/// and of the rows below. Returns the number of those in the rows below.
#[inline(always)]
pub(crate) fn draw_layer_row(
    row: &mut [u8],
    g: &Grid,
    spans: &[Span],
    number: u32,
    end: usize,
) -> usize
    requires form { AreSpans g.now.columns g.now.rows spans.now }
    requires split { IsRowStart spans.now end (number + 1) }
    requires size { length row.old ≡ div_ceil g.now.columns 8 }
    requires blank { (k : ℕ) → slice_index row.old k ≡ 0 }
    ensures split { IsRowStart spans.now result number }
    ensures drawn { row.new ≡ row_bytes g.now.columns (λ i. covers spans.now i number) }
{
    let start = start_of_row(g, spans, number, end);
    draw_row(row, g.columns(), &spans[start..end]);
    start
}

/// The number of spans in the rows below row `number`. The first `end` spans are those in it and in the rows below.
fn start_of_row(g: &Grid, spans: &[Span], number: u32, end: usize) -> usize
    requires form { AreSpans g.now.columns g.now.rows spans.now }
    requires split { IsRowStart spans.now end (number + 1) }
    ensures split { IsRowStart spans.now result number }
    ensures order { result ≤ end }
{
    let mut start = end;
    while start > 0 && spans[start - 1].row == number {
        start -= 1;
    }
    start
}
