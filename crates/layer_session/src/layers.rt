//! What is made of a job's layers: loops, as segments and as points, filled pixels and their number, images and PNGs.
ghost use Rattle.std.specs.Prelude.{◌≡◌, ◌<◌, ◌≤◌, ◌≤ℤ◌, ◌+◌, ◌-◌, ◌++◌, All, IfOk, OnOk, length, ℕ};
ghost use Rattle.build_book.specs.Job.{stripe_count};
ghost use Rattle.build_book.specs.Layer.{layer_segments};
ghost use Rattle.plane_segments.specs.Segment.{HasOrderedNodes};
ghost use Rattle.contour.specs.Loops.{AreLoops, loops};
ghost use Rattle.contour.specs.Outlines.{outlines};
ghost use Rattle.layer_png.specs.Depth.{bits};
ghost use Rattle.layer_png.specs.Layer.{grey};
ghost use Rattle.layer_png.specs.Png.{IsPng};
ghost use Rattle.raster.specs.Filler.{IsFillOf, area_of};
ghost use Rattle.raster.specs.Grid.{plane};
ghost use Rattle.raster.specs.Span.{AreSpans};
ghost use Rattle.raster.specs.declared.rule.Rule.{Rule as RuleModel};
ghost use Rattle.layer_session.specs.Answers.{areas_of, image_of, images_between, is_white_pixel, png_of_layer, stripe_images};

use build_book::Job;
use contour::{Linker, Loops, Outlines, Segment, Sweep};
use layer_png::{Depth, Mirrors, write_png};
use raster::{Filler, Page, Rule, Span, area, fill, image_len};
use std::alloc::{AllocError, Allocator};

/// The segments of layer k of a job, by a sweep that starts at its plane: it looks at no facet of a block that ends below it.
fn segments_of_layer<A: Allocator + Copy + Send + Sync>(
    alloc: A,
    job: &Job<A>,
    k: u32,
) -> Result<Vec<Segment, A>, AllocError>
    requires { k < job.now.grid.layers }
    ensures segments { IfOk result (λ list. list.items ≡ layer_segments job.now k) }
    ensures ordered { IfOk result (λ list. All HasOrderedNodes list.items) }
{
    Sweep::start(alloc, job.solid(), job.grid().plane(k))?.segments()
}

/// The loops of layer k of a job.
pub(crate) fn layer_loops<A: Allocator + Copy + Send + Sync>(
    alloc: A,
    job: &Job<A>,
    k: u32,
) -> Result<Loops<A>, AllocError>
    requires { k < job.now.grid.layers }
    ensures loops { IfOk result (λ found. found ≡ loops (layer_segments job.now k)) }
    ensures closed { IfOk result (AreLoops (layer_segments job.now k)) }
    ensures ordered { IfOk result (All (All HasOrderedNodes)) }
{
    let list = segments_of_layer(alloc, job, k)?;
    Linker::new(alloc).loops(job.solid(), list.as_slice())
}

/// The loops of layer k of a job as points.
pub(crate) fn layer_outlines<A: Allocator + Copy + Send + Sync>(
    alloc: A,
    job: &Job<A>,
    k: u32,
) -> Result<Outlines<A>, AllocError>
    requires { k < job.now.grid.layers }
    ensures { IfOk result (λ found. found ≡ outlines job.now.solid.facets (plane job.now.grid k)) }
{
    let found = layer_loops(alloc, job, k)?;
    Outlines::of(alloc, job.solid(), found, job.grid().plane(k))
}

/// The filled pixels of layer k of a job.
fn layer_spans<A: Allocator + Copy + Send + Sync>(
    alloc: A,
    job: &Job<A>,
    k: u32,
) -> Result<Vec<Span, A>, AllocError>
    requires { k < job.now.grid.layers }
    ensures { IfOk result (λ spans. IsFillOf job.now.grid job.now.rule job.now.solid.facets k spans.items) }
{
    let list = segments_of_layer(alloc, job, k)?;
    fill(
        alloc,
        job.solid(),
        job.grid(),
        job.rule(),
        k,
        list.as_slice(),
    )
}

/// The number of the filled pixels of layer k of a job.
pub(crate) fn layer_area<A: Allocator + Copy + Send + Sync>(
    alloc: A,
    job: &Job<A>,
    k: u32,
) -> Result<u64, AllocError>
    requires { k < job.now.grid.layers }
    ensures { IfOk result (λ area. area ≡ area_of job.now.grid job.now.rule job.now.solid.facets k) }
{
    let spans = layer_spans(alloc, job, k)?;
    Ok(area_of_spans(job, spans.as_slice()))
}

/// The number of the filled pixels of a layer of a job by a rule, which are these spans.
fn area_of_spans<A: Allocator>(job: &Job<A>, spans: &[Span]) -> u64
    requires { AreSpans job.now.grid.columns job.now.grid.rows spans.now }
    ensures { (rule : RuleModel) (k : ℕ) → IsFillOf job.now.grid rule job.now.solid.facets k spans.now
        → result ≡ area_of job.now.grid rule job.now.solid.facets k }
{
    // `area` requires counts within their limits
    job.grid().hold_limits();
    area(spans)
}

/// The numbers of the filled pixels of the layers from `first` up to, but not including, `end`, by a rule and by one sweep.
pub(crate) fn layer_areas<A: Allocator + Copy + Send + Sync>(
    alloc: A,
    job: &Job<A>,
    rule: Rule,
    first: u32,
    end: u32,
) -> Result<Vec<u64, A>, AllocError>
    requires some { first < end }
    requires within { end ≤ job.now.grid.layers }
    ensures { IfOk result (λ areas. areas.items ≡ areas_of job.now rule first (end - first)) }
{
    let mut areas = Vec::with_capacity(alloc, (end - first) as usize)?;
    let mut sweep = Sweep::start(alloc, job.solid(), job.grid().plane(first))?;
    let mut filler = Filler::new(alloc);
    for k in first..end {
        let spans = spans_by_sweep(job, rule, k, &mut sweep, &mut filler)?;
        areas.push(area_of_spans(job, spans.as_slice()))?;
    }
    Ok(areas)
}

/// The image of layer k of a job.
pub(crate) fn layer_image<A: Allocator + Copy + Send + Sync>(
    alloc: A,
    job: &Job<A>,
    k: u32,
) -> Result<Vec<u8, A>, AllocError>
    requires { k < job.now.grid.layers }
    ensures { IfOk result (λ image. image.items ≡ image_of job.now k) }
{
    let spans = layer_spans(alloc, job, k)?;
    let mut page = Page::new(alloc, image_len(job.grid()) as usize)?;
    draw_spans(job, k, spans.as_slice(), &mut page);
    Ok(page.into_bytes())
}

/// The PNG of layer k of a job.
pub(crate) fn layer_as_png<A: Allocator + Copy + Send + Sync>(
    alloc: A,
    job: &Job<A>,
    k: u32,
    depth: Depth,
    mirrors: Mirrors,
) -> Result<Vec<u8, A>, AllocError>
    requires { k < job.now.grid.layers }
    ensures png { IfOk result (λ png. png.items ≡ png_of_layer job.now k depth mirrors) }
    ensures pixels { IfOk result (λ png. IsPng png.items job.now.grid.columns job.now.grid.rows (bits depth)
        (λ x y. grey (bits depth) (is_white_pixel job.now k mirrors x y))) }
{
    let spans = layer_spans(alloc, job, k)?;
    write_png(
        Vec::new(alloc),
        job.grid(),
        spans.as_slice(),
        depth,
        mirrors,
    )
}

/// The images of the layers of stripe s of a job, from the lowest up.
pub(crate) fn stripe_images<A: Allocator + Copy + Send + Sync>(
    alloc: A,
    job: &Job<A>,
    s: u64,
) -> Result<Vec<u8, A>, AllocError>
    requires { s < stripe_count job.now.grid }
    ensures { IfOk result (λ images. images.items ≡ stripe_images job.now s) }
{
    let (first, end) = job.layer_range(s);
    let room = u64::from(end - first) * image_len(job.grid());
    let mut page = Page::new(alloc, room as usize)?;
    draw_layers(alloc, job, first, end, &mut page)?;
    Ok(page.into_bytes())
}

/// Draws the images of the layers from `first` up to, but not including, `end`, by one sweep.
fn draw_layers<A: Allocator + Copy + Send + Sync>(
    alloc: A,
    job: &Job<A>,
    first: u32,
    end: u32,
    page: &mut Page<A>,
) -> Result<(), AllocError>
    requires some { first < end }
    requires within { end ≤ job.now.grid.layers }
    requires room { length page.old.bytes + length (images_between job.now first end) ≤ page.old.room }
    ensures { OnOk result (page.new.bytes ≡ page.old.bytes ++ images_between job.now first end) }
{
    let mut sweep = Sweep::start(alloc, job.solid(), job.grid().plane(first))?;
    let mut filler = Filler::new(alloc);
    for k in first..end {
        draw_layer(job, k, &mut sweep, &mut filler, page)?;
    }
    Ok(())
}

/// Raises the sweep to the plane of layer k, and draws the image of the layer.
fn draw_layer<A: Allocator + Copy + Send + Sync>(
    job: &Job<A>,
    k: u32,
    sweep: &mut Sweep<'_, A>,
    filler: &mut Filler<A>,
    page: &mut Page<A>,
) -> Result<(), AllocError>
    requires place { k < job.now.grid.layers }
    requires solid { sweep.old.facets ≡ job.now.solid.facets }
    requires height { sweep.old.height ≤ℤ plane job.now.grid k }
    requires room { length page.old.bytes + length (image_of job.now k) ≤ page.old.room }
    ensures solid { OnOk result (sweep.new.facets ≡ sweep.old.facets) }
    ensures height { OnOk result (sweep.new.height ≡ plane job.now.grid k) }
    ensures drawn { OnOk result (page.new.bytes ≡ page.old.bytes ++ image_of job.now k) }
    ensures room { OnOk result (page.new.room ≡ page.old.room) }
{
    let spans = spans_by_sweep(job, job.rule(), k, sweep, filler)?;
    draw_spans(job, k, spans.as_slice(), page);
    Ok(())
}

/// Raises the sweep to the plane of layer k: the filled pixels of the layer by a rule.
fn spans_by_sweep<A: Allocator + Copy + Send + Sync>(
    job: &Job<A>,
    rule: Rule,
    k: u32,
    sweep: &mut Sweep<'_, A>,
    filler: &mut Filler<A>,
) -> Result<Vec<Span, A>, AllocError>
    requires place { k < job.now.grid.layers }
    requires solid { sweep.old.facets ≡ job.now.solid.facets }
    requires height { sweep.old.height ≤ℤ plane job.now.grid k }
    ensures solid { OnOk result (sweep.new.facets ≡ sweep.old.facets) }
    ensures height { OnOk result (sweep.new.height ≡ plane job.now.grid k) }
    ensures filled { IfOk result (λ spans. IsFillOf job.now.grid rule job.now.solid.facets k spans.items) }
{
    sweep.advance(job.grid().plane(k))?;
    let list = sweep.segments()?;
    let spans = filler.fill(job.solid(), job.grid(), rule, k, list.as_slice())?;
    Ok(spans)
}

/// Draws the image of layer k, of which these spans are the filled pixels.
fn draw_spans<A: Allocator>(job: &Job<A>, k: u32, spans: &[Span], page: &mut Page<A>)
    requires filled { IsFillOf job.now.grid job.now.rule job.now.solid.facets k spans.now }
    requires room { length page.old.bytes + length (image_of job.now k) ≤ page.old.room }
    ensures drawn { page.new.bytes ≡ page.old.bytes ++ image_of job.now k }
    ensures room { page.new.room ≡ page.old.room }
{
    page.draw(job.grid(), spans);
}
