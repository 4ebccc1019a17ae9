//! The output of slicing: the images of all layers, one after the other.
ghost use Rattle.devices.specs.Transcript.{transcript_of};
ghost use Rattle.stlslice.specs.Pages.{images_of};
ghost use Rattle.stlslice.specs.Writing.{IsWritten};

use crate::run_fault::RunFault;
use crate::write::flush::settle;
use build_book::Build;
use devices::Sink;
use raster::ImageWriter;
use std::alloc::Allocator;

/// Writes the images of all layers of a build, by one writer, and flushes them. On a fault exactly the first `written` bytes of
/// all went out; these are all if the flush failed.
pub(crate) fn write_images<A: Allocator, O: Sink>(
    build: &Build<'_, A>,
    sink: &mut O,
) -> Result<(), RunFault>
    ensures { IsWritten result
        (transcript_of O.contents O.Failures.failure_count sink.old sink.new)
        (O.is_settled sink.new) (images_of build.now.job) }
{
    let grid = build.job().grid();
    // the limits bound the count of the bytes
    grid.hold_limits();
    let mut writer = ImageWriter::new();
    for layer in build.layers() {
        writer.add(grid, layer.spans(), sink)?;
    }
    let written = writer.finish(sink)?;
    settle(sink, written)
}
