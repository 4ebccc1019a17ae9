//! Images of several layers that are drawn at the same time, while those drawn before are written in order.
ghost use Rattle.std.specs.Prelude.{◌≡◌, ◌<◌, ◌≤◌, ◌+◌, ◌*◌, ℕ, [], ◌++◌, All, IfOk, IfSome, List, flat_map, length, min, vec_len};
ghost use Rattle.devices.specs.Transcript.{transcript_of};
ghost use Rattle.devices.specs.Devices.{greatest_count};
ghost use Rattle.stlslice.specs.Pages.{ArePageSets, Holds, all_images, images_between};
ghost use Rattle.stlslice.specs.Put.{IsPut};
ghost use Rattle.stlslice.specs.Writing.{IsWritten};

use crate::run_fault::RunFault;
use crate::write::flush::{put_more, settle};
use build_book::Build;
use devices::{Sink, WriteFault};
use std::alloc::{AllocError, Allocator};
use std::mem::swap;
use std::thread::{Threads, for_each_mut, join_mut};

/// The greatest number of bytes of a set of pages.
pub(crate) const SET_LEN: usize = 1 << 24;

/// If a row has more spans than this on average, drawing images takes longer than writing them.
const FEW_SPANS: u64 = 8;

/// The images of all layers of a build in a format, and how they are added to pages, up to `per` a page. A page is memory for
/// the images of a few layers, one after the other.
pub(crate) trait Drawing<P> {
    /// The number of layers.
    ghost layers: { Self → ℕ };

    /// The image of each layer.
    ghost image: { Self → ℕ → List ℕ };

    /// The greatest number of images of a page.
    ghost per: { Self → ℕ };

    /// A number of bytes that no image exceeds.
    ghost size: { Self → ℕ };

    /// The images that a page has.
    ghost bytes: { P → List ℕ };

    /// A number of bytes that fit a page.
    ghost capacity: { P → ℕ };

    /// The number of layers. The bytes of all images can be counted.
    fn layers(&self) -> usize
        ensures value { result ≡ layers self.now }
        ensures few { length (all_images (image self.now) (layers self.now)) ≤ greatest_count };

    /// The greatest number of images of a page.
    fn per(&self) -> usize
        ensures value { result ≡ per self.now }
        ensures some { 0 < per self.now };

    /// A number of bytes that no image exceeds.
    fn size(&self) -> usize
        ensures { result ≡ size self.now };

    /// A page without images, that `room` bytes fit.
    fn page(&self, room: usize) -> Result<P, AllocError>
        ensures blank { IfOk result (λ page. bytes page ≡ []) }
        ensures room { IfOk result (λ page. room ≤ capacity page) };

    /// Removes the images of a page, and keeps its memory.
    fn clear(page: &mut P)
        ensures blank { bytes page.new ≡ [] }
        ensures kept { capacity page.old ≤ capacity page.new };

    /// Adds the image of layer `k` to those of a page.
    fn add(&self, k: usize, page: &mut P)
        requires within { k < layers self.now }
        requires room { length (bytes page.old) + size self.now ≤ capacity page.old }
        ensures added { bytes page.new ≡ bytes page.old ++ image self.now k }
        ensures most { length (bytes page.new) ≤ length (bytes page.old) + size self.now }
        ensures kept { capacity page.old ≤ capacity page.new };

    /// The bytes of a page's images.
    fn bytes(page: &P) -> &[u8]
        ensures { result.now ≡ bytes page.now };
}

/// How the images of a build are drawn: by how many workers at the same time, and up to how many a page.
#[derive(Clone, Copy)]
pub(crate) struct Share {
    pub(crate) workers: usize,
    pub(crate) per: usize,
}

/// How up to `workers` workers draw images of at most `size` bytes into pages of at most `page_len` bytes, or of one image. One
/// worker does all if a set of pages has no room for two images, or rows have few spans.
pub(crate) fn share_out<A: Allocator>(
    build: &Build<'_, A>,
    size: usize,
    page_len: usize,
    workers: u32,
) -> Share
    ensures { 0 < result.per }
{
    let drawers = (workers as usize).min(SET_LEN / size.max(1));
    let workers = if drawers > 1 && has_many_spans(build) {
        drawers
    } else {
        1
    };
    let even = build.layers().len().div_ceil(workers);
    let most = (SET_LEN / workers).min(page_len) / size.max(1);
    Share {
        workers,
        per: most.min(even).max(1),
    }
}

/// Two sets of pages for several workers. A set has a page for each of them, but no more than all layers fill. The images of any
/// `per` layers fit each page. Those of the first set have no image. It is `None` if there is one worker, or no memory for them.
pub(crate) fn page_sets<P: Drop, D: Drawing<P>, A: Allocator + Copy>(
    alloc: A,
    drawing: &D,
    workers: usize,
) -> Option<(Vec<P, A>, Vec<P, A>)>
    ensures some_drawn { IfSome result (λ sets. 0 < vec_len sets.0) }
    ensures some_free { IfSome result (λ sets. 0 < vec_len sets.1) }
    ensures sets { IfSome result (λ sets. ArePageSets D.bytes (Holds D.capacity (D.per drawing.now) (D.size drawing.now))
        sets.0.items sets.1.items) }
{
    if workers < 2 {
        return None;
    }
    let layers = drawing.layers();
    let count = layers.div_ceil(drawing.per()).min(workers).max(1);
    let drawn = blank_pages(alloc, drawing, count).ok()?;
    let free = blank_pages(alloc, drawing, count).ok()?;
    Some((drawn, free))
}

/// Pages without images. The images of any `per` layers fit each.
fn blank_pages<P: Drop, D: Drawing<P>, A: Allocator + Copy>(
    alloc: A,
    drawing: &D,
    count: usize,
) -> Result<Vec<P, A>, AllocError>
    ensures count { IfOk result (λ pages. vec_len pages ≡ count) }
    ensures blank { IfOk result (λ pages. All (λ page. D.bytes page ≡ []) pages.items) }
    ensures room { IfOk result (λ pages. All (Holds D.capacity (D.per drawing.now) (D.size drawing.now)) pages.items) }
{
    // no memory is larger than a count of bytes
    let room = drawing.per().checked_mul(drawing.size()).ok_or(AllocError)?;
    let mut pages = Vec::with_capacity(alloc, count)?;
    for _ in 0..count {
        let page = drawing.page(room)?;
        pages.push(page)?;
    }
    Ok(pages)
}

/// Writes the images of all layers, drawn into two sets of pages as [`put_by_pages`] does, and flushes them.
pub(crate) fn write_by_pages<
    R: Threads + Sync,
    P: Send + Sync + Drop,
    D: Drawing<P> + Sync,
    A: Allocator + Copy + Send + Sync,
    O: Sink,
>(rt: &R, drawing: &D, drawn: Vec<P, A>, free: Vec<P, A>, sink: &mut O) -> Result<(), RunFault>
    requires sets { ArePageSets D.bytes (Holds D.capacity (D.per drawing.now) (D.size drawing.now)) drawn.items free.items }
    requires some_drawn { 0 < vec_len drawn }
    requires some_free { 0 < vec_len free }
    ensures { IsWritten result
        (transcript_of O.contents O.Failures.failure_count sink.old sink.new)
        (O.is_settled sink.new) (all_images (D.image drawing.now) (D.layers drawing.now)) }
{
    let written = put_by_pages(rt, drawing, drawn, free, sink)?;
    settle(sink, written)
}

/// Writes the images of all layers, and returns the number of bytes written. They are drawn into the pages `free`, by one worker
/// a page. Meanwhile those in the pages `drawn` are written. At first the pages `drawn` have no image.
fn put_by_pages<
    R: Threads + Sync,
    P: Send + Sync + Drop,
    D: Drawing<P> + Sync,
    A: Allocator + Copy + Send + Sync,
    O: Sink,
>(
    rt: &R,
    drawing: &D,
    mut drawn: Vec<P, A>,
    mut free: Vec<P, A>,
    sink: &mut O,
) -> Result<u64, WriteFault>
    requires sets { ArePageSets D.bytes (Holds D.capacity (D.per drawing.now) (D.size drawing.now)) drawn.items free.items }
    requires some_drawn { 0 < vec_len drawn }
    requires some_free { 0 < vec_len free }
    ensures { IsPut result
        (transcript_of O.contents O.Failures.failure_count sink.old sink.new)
        (all_images (D.image drawing.now) (D.layers drawing.now)) 0 }
{
    let count = drawing.layers();
    let per = drawing.per();
    let mut first = 0;
    let mut written = 0;
    while first < count {
        let end = start_of_page(first, per, free.len(), count);
        written = draw_and_put(
            rt,
            drawing,
            first,
            &mut free,
            drawn.as_slice(),
            sink,
            written,
        )?;
        swap(&mut drawn, &mut free);
        first = end;
    }
    put_pages::<P, D, O>(drawn.as_slice(), sink, written)
}

/// Draws the images of the layers from `first` on into the pages `free`, while the pages `drawn` are written. The number of
/// bytes that were written so far is `before`. Returns the number afterwards.
fn draw_and_put<
    R: Threads + Sync,
    P: Send + Sync + Drop,
    D: Drawing<P> + Sync,
    A: Allocator + Copy + Send + Sync,
    O: Sink,
>(
    rt: &R,
    drawing: &D,
    first: usize,
    free: &mut Vec<P, A>,
    drawn: &[P],
    sink: &mut O,
    before: u64,
) -> Result<u64, WriteFault>
    requires low { first ≤ D.layers drawing.now }
    requires some { 0 < vec_len free.old }
    requires room { All (Holds D.capacity (D.per drawing.now) (D.size drawing.now)) free.old.items }
    requires count { before + length (flat_map D.bytes drawn.now) ≤ greatest_count }
    ensures images { flat_map D.bytes free.new.items ≡ images_between (D.image drawing.now) first
        (min (first + vec_len free.old * D.per drawing.now) (D.layers drawing.now)) }
    ensures room { All (Holds D.capacity (D.per drawing.now) (D.size drawing.now)) free.new.items }
    ensures count { vec_len free.new ≡ vec_len free.old }
    ensures put { IsPut result
        (transcript_of O.contents O.Failures.failure_count sink.old sink.new)
        (flat_map D.bytes drawn.now) before }
{
    let ((), put) = join_mut(
        rt,
        &mut ||
            requires low { first ≤ D.layers drawing.now }
            requires some { 0 < vec_len free.now }
            requires room { All (Holds D.capacity (D.per drawing.now) (D.size drawing.now)) free.now.items }
        { draw_set(rt, drawing, first, free) },
        &mut || put_pages::<P, D, O>(drawn, sink, before),
    );
    put
}

/// Draws the images of the layers from `first` on into a set of pages, each page by a worker of its own.
fn draw_set<
    R: Threads + Sync,
    P: Send + Sync + Drop,
    D: Drawing<P> + Sync,
    A: Allocator + Copy + Send + Sync,
>(rt: &R, drawing: &D, first: usize, set: &mut Vec<P, A>)
    requires low { first ≤ D.layers drawing.now }
    requires some { 0 < vec_len set.old }
    requires room { All (Holds D.capacity (D.per drawing.now) (D.size drawing.now)) set.old.items }
    ensures images { flat_map D.bytes set.new.items ≡ images_between (D.image drawing.now) first
        (min (first + vec_len set.old * D.per drawing.now) (D.layers drawing.now)) }
    ensures room { All (Holds D.capacity (D.per drawing.now) (D.size drawing.now)) set.new.items }
    ensures count { vec_len set.new ≡ vec_len set.old }
{
    let workers = set.len();
    for_each_mut(
        rt,
        set.as_mut_slice(),
        workers,
        &|i, page| draw_page(drawing, first, i, page),
    );
}

/// Draws the images of page `i` in place of those that the page has. Page 0 begins with layer `first`.
fn draw_page<P, D: Drawing<P>>(drawing: &D, first: usize, i: usize, page: &mut P)
    requires { Holds D.capacity (D.per drawing.now) (D.size drawing.now) page.old }
    ensures images { let layers = D.layers drawing.now in let start = min (first + i * D.per drawing.now) layers in
        D.bytes page.new ≡ images_between (D.image drawing.now) start (min (start + D.per drawing.now) layers) }
    ensures room { Holds D.capacity (D.per drawing.now) (D.size drawing.now) page.new }
{
    let count = drawing.layers();
    let per = drawing.per();
    let start = start_of_page(first, per, i, count);
    let end = start_of_page(start, per, 1, count);
    draw_layers(drawing, start, end, page);
}

/// Draws the images of the layers from `start` up to, but not including, `end`, in place of those that the page has.
fn draw_layers<P, D: Drawing<P>>(drawing: &D, start: usize, end: usize, page: &mut P)
    requires order { start ≤ end }
    requires within { end ≤ D.layers drawing.now }
    requires few { end ≤ start + D.per drawing.now }
    requires room { Holds D.capacity (D.per drawing.now) (D.size drawing.now) page.old }
    ensures images { D.bytes page.new ≡ images_between (D.image drawing.now) start end }
    ensures room { Holds D.capacity (D.per drawing.now) (D.size drawing.now) page.new }
{
    D::clear(page);
    for k in start..end {
        drawing.add(k, page);
    }
}

/// The first layer of page `i`. Page 0 begins with layer `first`, and each page has `per` layers. There are `count` layers: a
/// page for which none is left begins at `count`.
fn start_of_page(first: usize, per: usize, i: usize, count: usize) -> usize
    ensures { result ≡ min (first + i * per) count }
{
    i.saturating_mul(per).saturating_add(first).min(count)
}

/// Writes pages one after another. `before` is the number of bytes that were written so far. Returns the number afterwards.
fn put_pages<P, D: Drawing<P>, O: Sink>(
    pages: &[P],
    sink: &mut O,
    before: u64,
) -> Result<u64, WriteFault>
    requires { before + length (flat_map D.bytes pages.now) ≤ greatest_count }
    ensures { IsPut result
        (transcript_of O.contents O.Failures.failure_count sink.old sink.new)
        (flat_map D.bytes pages.now) before }
{
    let mut written = before;
    for page in pages {
        written = put_more(D::bytes(page), sink, written)?;
    }
    Ok(written)
}

/// Whether the rows of a build have more than `FEW_SPANS` spans on average, so that drawing takes longer than writing.
fn has_many_spans<A: Allocator>(build: &Build<'_, A>) -> bool {
    let grid = build.job().grid();
    let rows = u64::from(grid.rows()).saturating_mul(u64::from(grid.layers()));
    let mut spans: u64 = 0;
    for layer in build.layers() {
        spans = spans.saturating_add(layer.spans().len() as u64);
    }
    spans > rows.saturating_mul(FEW_SPANS)
}
