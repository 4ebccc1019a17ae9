//! The images of all layers by several workers, which draw them into pages, and whether they do.
ghost use Rattle.std.specs.Prelude.{◌<◌};
ghost use Rattle.devices.specs.Transcript.{transcript_of};
ghost use Rattle.stlslice.specs.Pages.{images_of};
ghost use Rattle.stlslice.specs.Writing.{IsWritten};

use crate::run_fault::RunFault;
use crate::write::images::write_images;
use crate::write::pages::{Drawing, SET_LEN, page_sets, share_out, write_by_pages};
use build_book::Build;
use devices::Sink;
use raster::{Page, image_len};
use std::alloc::{AllocError, Allocator};
use std::thread::Threads;

/// The greatest length of an image that is drawn into a page.
const DRAWN_LIMIT: usize = 1 << 20;

/// The same as [`write_images`], for a build by several workers. If rows have many spans, up to `workers` workers draw images at
/// the same time, beside the thread that writes those drawn before. The memory for that is allocated before the first byte is
/// written; if there is none, or an image is longer than `DRAWN_LIMIT`, one worker does all.
pub(crate) fn write_images_by<R: Threads + Sync, A: Allocator + Copy + Send + Sync, O: Sink>(
    rt: &R,
    alloc: A,
    build: &Build<'_, A>,
    sink: &mut O,
    workers: u32,
) -> Result<(), RunFault>
    ensures { IsWritten result
        (transcript_of O.contents O.Failures.failure_count sink.old sink.new)
        (O.is_settled sink.new) (images_of build.now.job) }
{
    let size = image_len(build.job().grid()) as usize;
    let workers = if size <= DRAWN_LIMIT { workers } else { 1 };
    let share = share_out(build, size, SET_LEN, workers);
    let images = Images {
        alloc,
        build,
        per: share.per,
    };
    match page_sets(alloc, &images, share.workers) {
        Some((drawn, free)) => write_by_pages(rt, &images, drawn, free, sink),
        None => write_images(build, sink),
    }
}

/// The images of a build, of which up to `per` are drawn into a page.
#[derive(Drop)]
struct Images<'a, 'b, A: Allocator> {
    alloc: A,
    build: &'a Build<'b, A>,
    per: usize,
    ghost some: { 0 < per },
}

impl<'a, 'b, A: Allocator + Copy + Send + Sync> Drawing<Page<A>> for Images<'a, 'b, A> {
    ghost use Rattle.raster.specs.Image.{layer_image};
    ghost use Rattle.stlslice.specs.Pages.{image_size};

    ghost layers = { λ it. it.build.now.job.grid.layers };

    ghost image = { λ it. layer_image it.build.now.job.grid it.build.now.job.rule it.build.now.job.solid.facets };

    ghost per = { λ it. it.per };

    ghost size = { λ it. image_size it.build.now.job.grid };

    ghost bytes = { λ page. page.bytes };

    ghost capacity = { λ page. page.room };

    fn layers(&self) -> usize {
        // the limits bound the count of the bytes
        self.build.job().grid().hold_limits();
        self.build.layers().len()
    }

    fn per(&self) -> usize {
        self.per
    }

    fn size(&self) -> usize {
        image_len(self.build.job().grid()) as usize
    }

    fn page(&self, room: usize) -> Result<Page<A>, AllocError> {
        Page::new(self.alloc, room)
    }

    fn clear(page: &mut Page<A>) {
        page.clear();
    }

    fn add(&self, k: usize, page: &mut Page<A>) {
        let grid = self.build.job().grid();
        let layers = self.build.layers();
        page.draw(grid, layers[k].spans());
    }

    fn bytes(page: &Page<A>) -> &[u8] {
        page.bytes()
    }
}
