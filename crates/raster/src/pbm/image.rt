//! Writes the image of one layer, and computes the length of an image.
ghost use Rattle.std.specs.Prelude.{◌≡◌, ◌<◌, ◌≤◌, ℕ, Bool, decimal, length, IfErr, OnErr, OnOk};
ghost use Rattle.std.specs.Io.KnownBytes.{Appends};
ghost use Rattle.devices.specs.Devices.{AppendsFirst, Fails};
ghost use Rattle.raster.specs.Span.{AreSpans, covers};
ghost use Rattle.raster.specs.Image.{image_limit, image_of_pixels};

use crate::grid::Grid;
use crate::pbm::image_writer::ImageWriter;
use crate::span::Span;
use devices::{Sink, WriteFault};

/// Writes the image of a layer in raw PBM ("P4", pbm(5)). The pixels in the spans are black, and the row of the greatest number
/// is at the top. The spans are those of one layer of the grid: in it, by ascending row, then column, not empty and not
/// touching.
///
/// A call of the sink that fails is not tried again: the first `written` bytes of the image went out, and no more. No memory is
/// allocated.
pub fn write_layer<W: Sink>(g: &Grid, spans: &[Span], w: &mut W) -> Result<(), WriteFault>
    requires { AreSpans g.now.columns g.now.rows spans.now }
    ensures ok { OnOk result (Appends (W.contents w.old) (W.contents w.new) (image_of_pixels g.now.columns g.now.rows (covers spans.now))) }
    ensures same { OnOk result (W.Failures.failure_count w.new ≡ W.Failures.failure_count w.old) }
    ensures written { IfErr result (λ fault. AppendsFirst (W.contents w.old) (W.contents w.new) fault.written
        (image_of_pixels g.now.columns g.now.rows (covers spans.now))) }
    ensures within { IfErr result (λ fault. fault.written < length (image_of_pixels g.now.columns g.now.rows (covers spans.now))) }
    ensures failed { OnErr result (Fails (W.Failures.failure_count w.old) (W.Failures.failure_count w.new)) }
{
    let mut writer = ImageWriter::new();
    writer.add(g, spans, w)?;
    writer.finish(w)?;
    Ok(())
}

/// The length in bytes of the image of a layer of this grid, which is the same for all of them.
pub fn image_len(grid: &Grid) -> u64
    ensures value { (pixel : ℕ → ℕ → Bool) → length (image_of_pixels grid.now.columns grid.now.rows pixel) ≡ result }
    ensures small { result ≤ image_limit }
{
    // `P4`, a blank and two line breaks are 5 bytes
    let header = 5 + digit_count(grid.columns()) + digit_count(grid.rows());
    header + u64::from(grid.rows()) * u64::from(grid.columns().div_ceil(8))
}

/// The number of digits of a number above 0 in plain decimal.
fn digit_count(n: u32) -> u64
    requires { 1 ≤ n }
    ensures value { result ≡ length (decimal n) }
    ensures few { result ≤ 10 }
{
    u64::from(n.ilog10()) + 1
}
