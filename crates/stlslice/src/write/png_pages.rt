//! The PNGs of all layers by several workers, which make them in pages, and whether they do.
ghost use Rattle.std.specs.Prelude.{◌<◌};
ghost use Rattle.devices.specs.Transcript.{transcript_of};
ghost use Rattle.stlslice.specs.Pngs.{HasPngRoom, pngs_of};
ghost use Rattle.stlslice.specs.Writing.{IsMadeAndWritten};

use crate::run_fault::RunFault;
use crate::write::pages::{Drawing, page_sets, share_out, write_by_pages};
use crate::write::pngs::{add_png, room_for_png, write_pngs};
use build_book::Build;
use devices::Sink;
use layer_png::{Depth, Mirrors};
use std::alloc::{AllocError, Allocator};
use std::mem::replace;
use std::thread::Threads;

/// The greatest number of bytes of a page, unless one PNG takes more. A worker fills a page in some milliseconds, so the thread
/// that writes seldom waits.
const PAGE_LEN: usize = 1 << 20;

/// The same as [`write_pngs`], for a build by several workers. If rows have many spans, up to `workers` workers make PNGs
/// at the same time, beside the thread that writes those made before. The memory for that is allocated before the first byte is
/// written; if there is none, one worker does all.
pub(crate) fn write_pngs_by<R: Threads + Sync, A: Allocator + Copy + Send + Sync, O: Sink>(
    rt: &R,
    alloc: A,
    build: &Build<'_, A>,
    depth: Depth,
    mirrors: Mirrors,
    workers: u32,
    sink: &mut O,
) -> Result<(), RunFault>
    ensures { IsMadeAndWritten result
        (transcript_of O.contents O.Failures.failure_count sink.old sink.new)
        (O.is_settled sink.new) (pngs_of build.now.job depth mirrors) }
{
    let size = room_for_png(build, depth);
    let share = share_out(build, size, PAGE_LEN, workers);
    let pngs = Pngs {
        alloc,
        build,
        depth,
        mirrors,
        size,
        per: share.per,
    };
    match page_sets(alloc, &pngs, share.workers) {
        Some((drawn, free)) => write_by_pages(rt, &pngs, drawn, free, sink),
        None => write_pngs(alloc, build, depth, mirrors, sink),
    }
}

/// The PNGs of a build, of which up to `per` are made in a page. Each has at most `size` bytes.
#[derive(Drop)]
struct Pngs<'a, 'b, A: Allocator> {
    alloc: A,
    build: &'a Build<'b, A>,
    depth: Depth,
    mirrors: Mirrors,
    size: usize,
    per: usize,
    ghost some: { 0 < per },
    ghost each: { HasPngRoom build.now.job.grid depth build.now.layers size },
}

impl<'a, 'b, A: Allocator + Copy + Send + Sync> Drawing<Vec<u8, A>> for Pngs<'a, 'b, A> {
    ghost use Rattle.std.specs.Prelude.{vec_capacity};
    ghost use Rattle.layer_png.specs.Text.{layer_png};

    ghost layers = { λ it. it.build.now.job.grid.layers };

    ghost image = { λ it. layer_png it.build.now.job.grid it.build.now.job.rule it.build.now.job.solid.facets it.depth it.mirrors };

    ghost per = { λ it. it.per };

    ghost size = { λ it. it.size };

    ghost bytes = { λ page. page.items };

    ghost capacity = { λ page. vec_capacity page };

    fn layers(&self) -> usize {
        // the limits bound the count of the bytes
        self.build.job().grid().hold_limits();
        self.build.layers().len()
    }

    fn per(&self) -> usize {
        self.per
    }

    fn size(&self) -> usize {
        self.size
    }

    fn page(&self, room: usize) -> Result<Vec<u8, A>, AllocError> {
        Vec::with_capacity(self.alloc, room)
    }

    fn clear(page: &mut Vec<u8, A>) {
        page.clear();
    }

    fn add(&self, k: usize, page: &mut Vec<u8, A>) {
        let grid = self.build.job().grid();
        let layers = self.build.layers();
        let bytes = replace(page, Vec::new(self.alloc));
        *page = add_png(bytes, grid, layers[k].spans(), self.depth, self.mirrors);
    }

    fn bytes(page: &Vec<u8, A>) -> &[u8] {
        page.as_slice()
    }
}
