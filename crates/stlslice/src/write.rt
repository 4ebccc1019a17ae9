//! What a run writes. Each output has a module of its own, and all are flushed by [`flush`]. For several workers `image_pages` and
//! `png_pages` draw by [`pages`]. This module chooses among the outputs of slicing.
ghost use Rattle.std.specs.Prelude.{◌≡◌};
ghost use Rattle.devices.specs.Transcript.{transcript_of};
ghost use Rattle.stlslice.specs.SlicedText.{output_of, sliced_text};
ghost use Rattle.stlslice.specs.Writing.{IsMadeAndWritten};

pub(crate) mod box_line;
pub(crate) mod flush;
pub(crate) mod image_pages;
pub(crate) mod images;
pub(crate) mod pages;
pub(crate) mod png_pages;
pub(crate) mod pngs;
pub(crate) mod probe_line;
pub(crate) mod report;

use crate::run_fault::RunFault;
use crate::write::flush::write_all;
use crate::write::image_pages::write_images_by;
use crate::write::png_pages::write_pngs_by;
use crate::write::report::report;
use build_book::Build;
use devices::Sink;
use layer_png::{Depth, Mirrors};
use std::alloc::Allocator;
use std::thread::Threads;

/// What slicing writes.
#[derive(Clone, Copy)]
pub(crate) enum Output {
    /// The images of all layers, one after the other.
    Images,
    /// The loops and the area of each layer, and the area of all.
    Report,
    /// The PNGs of all layers, one after the other.
    Pngs { depth: Depth, mirrors: Mirrors },
}

impl Output {
    /// A report if the task asks for one, else the images.
    pub(crate) fn of(report: bool) -> Output
        ensures { result ≡ output_of report }
    {
        if report {
            Output::Report
        } else {
            Output::Images
        }
    }
}

/// Writes and flushes an output of a build, by up to `workers` workers. A report is made as a whole before its first byte is
/// written. Images and PNGs are written one after another if there is no memory to draw several first. PNGs are made in memory
/// that is allocated before the first byte is written.
pub(crate) fn write_build<R: Threads + Sync, A: Allocator + Copy + Send + Sync, O: Sink>(
    rt: &R,
    alloc: A,
    build: &Build<'_, A>,
    output: Output,
    workers: u32,
    sink: &mut O,
) -> Result<(), RunFault>
    ensures { IsMadeAndWritten result
        (transcript_of O.contents O.Failures.failure_count sink.old sink.new)
        (O.is_settled sink.new) (sliced_text output build.now.job.grid build.now.job.rule build.now.job.solid.facets) }
{
    match output {
        Output::Images => write_images_by(rt, alloc, build, sink, workers),
        Output::Report => {
            let text = report(alloc, build)?;
            write_all(sink, text.as_bytes())
        }
        Output::Pngs { depth, mirrors } => write_pngs_by(
            rt, alloc, build, depth, mirrors, workers, sink,
        ),
    }
}
