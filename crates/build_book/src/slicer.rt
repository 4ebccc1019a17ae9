//! Slicing: the layers of a stripe from the lowest up, by one sweep.
ghost use Rattle.std.specs.Prelude.{◌≡◌, ◌+◌, ◌<◌, ◌≤◌, ℕ, IfOk, OnOk, length, ◌-◌};
ghost use Rattle.raster.specs.Span.{AreSpans, covers};
ghost use Rattle.raster.specs.Filler.{area_of, is_filled};
ghost use Rattle.raster.specs.Grid.{centre, plane};
ghost use Rattle.build_book.specs.Job.{stripe_count};
ghost use Rattle.build_book.specs.Layer.{AreLawfulFrom, IsLawful};
ghost use Rattle.build_book.specs.Piece.{IsStripe};

use crate::job::Job;
use crate::layer::Layer;
use crate::piece::Piece;
use contour::{Linker, Sweep};
use raster::{Filler, Span, area};
use std::alloc::{AllocError, Allocator};
use std::marker::Model;

/// Slices stripes of one job, in any order. It keeps the sweep of the last stripe. So a higher stripe looks only at the facets
/// in between, while a lower one begins a new sweep. It also keeps the memory in which layers are linked and filled.
#[derive(Drop)]
pub struct Slicer<'m, A: Allocator> {
    alloc: A,
    job: &'m Job<A>,
    linker: Linker<A>,
    filler: Filler<A>,
    sweep: Option<Sweep<'m, A>>,
}

impl<'m, A: Allocator> Model for Slicer<'m, A> {
    ghost use Rattle.std.specs.Prelude.{◌≡◌, Some};
    ghost use Rattle.contour.specs.Sweep.{Sweep};
    ghost use Rattle.build_book.specs.Job.{Job};

    ghost Value = { Job };

    ghost view = { λ s. s.job.now };

    ghost invariant = { λ s. (sweep : Sweep) → s.sweep ≡ Some sweep → sweep.facets ≡ s.job.now.solid.facets };
}

impl<'m, A: Allocator + Copy + Send + Sync> Slicer<'m, A> {
    /// A slicer of the job. It allocates no memory.
    pub fn new(alloc: A, job: &'m Job<A>) -> Slicer<'m, A>
        ensures { result ≡ job.now }
    {
        Slicer {
            alloc,
            job,
            linker: Linker::new(alloc),
            filler: Filler::new(alloc),
            sweep: None,
        }
    }

    /// Slices stripe s of the job, its layers from the lowest up; s is below `Job::stripes`. `Err` only if an allocation
    /// failed; the slicer can be used again.
    pub fn slice(&mut self, s: u64) -> Result<Piece<'m, A>, AllocError>
        requires { s < stripe_count self.old.grid }
        ensures job { IfOk result (λ piece. piece.job ≡ self.old) }
        ensures stripe { IfOk result (λ piece. piece.stripe ≡ s) }
        ensures lawful { IfOk result (λ piece. IsStripe piece.job piece.stripe piece.layers) }
        ensures kept { self.new ≡ self.old }
    {
        let (first, end) = self.job.layer_range(s);
        let mut sweep = self.sweep_at(first)?;
        let layers = slice_layers(
            self.alloc,
            self.job,
            first,
            end,
            &mut sweep,
            &mut self.linker,
            &mut self.filler,
        )?;
        self.sweep = Some(sweep);
        Ok(Piece::of(self.job, s, layers))
    }

    /// A sweep at the plane of layer k: the kept one, raised, or a new one if none is kept or the kept one is higher.
    fn sweep_at(&mut self, k: u32) -> Result<Sweep<'m, A>, AllocError>
        requires { k < self.old.grid.layers }
        ensures solid { IfOk result (λ sweep. sweep.facets ≡ self.old.solid.facets) }
        ensures height { IfOk result (λ sweep. sweep.height ≡ plane self.old.grid k) }
        ensures kept { self.new ≡ self.old }
    {
        let height = self.job.grid().plane(k);
        if let Some(mut sweep) = self.sweep.take() {
            if sweep.height() <= height {
                sweep.advance(height)?;
                return Ok(sweep);
            }
        }
        Sweep::start(self.alloc, self.job.solid(), height)
    }
}

/// Slices stripe s of a job, its layers from the lowest up; s is below `Job::stripes`. `Err` only if an allocation failed. For
/// many stripes use a [`Slicer`], which keeps its sweep and its memory from stripe to stripe.
pub fn slice_stripe<'m, A: Allocator + Copy + Send + Sync>(
    alloc: A,
    job: &'m Job<A>,
    s: u64,
) -> Result<Piece<'m, A>, AllocError>
    requires { s < stripe_count job.now.grid }
    ensures job { IfOk result (λ piece. piece.job ≡ job.now) }
    ensures stripe { IfOk result (λ piece. piece.stripe ≡ s) }
    ensures lawful { IfOk result (λ piece. IsStripe piece.job piece.stripe piece.layers) }
{
    Slicer::new(alloc, job).slice(s)
}

/// Slices the layers from `first` up to, but not including, `end` by a sweep that is at the first.
fn slice_layers<A: Allocator + Copy + Send + Sync>(
    alloc: A,
    job: &Job<A>,
    first: u32,
    end: u32,
    sweep: &mut Sweep<'_, A>,
    linker: &mut Linker<A>,
    filler: &mut Filler<A>,
) -> Result<Vec<Layer<A>, A>, AllocError>
    requires some { first < end }
    requires within { end ≤ job.now.grid.layers }
    requires solid { sweep.old.facets ≡ job.now.solid.facets }
    requires height { sweep.old.height ≡ plane job.now.grid first }
    ensures whole { IfOk result (λ layers. first + length layers.items ≡ end) }
    ensures lawful { IfOk result (λ layers. AreLawfulFrom job.now first layers.items) }
    ensures solid { sweep.new.facets ≡ sweep.old.facets }
{
    let mut layers = Vec::with_capacity(alloc, (end - first) as usize)?;
    layers.push(slice_layer(job, first, sweep, linker, filler)?)?;
    for k in first + 1..end {
        step_up(job, k, sweep)?;
        layers.push(slice_layer(job, k, sweep, linker, filler)?)?;
    }
    Ok(layers)
}

/// Raises a sweep from the plane of the layer below to that of layer k.
fn step_up<A: Allocator + Copy + Send + Sync>(
    job: &Job<A>,
    k: u32,
    sweep: &mut Sweep<'_, A>,
) -> Result<(), AllocError>
    requires place { k < job.now.grid.layers }
    requires before { sweep.old.height ≡ plane job.now.grid (k - 1) }
    ensures solid { sweep.new.facets ≡ sweep.old.facets }
    ensures height { OnOk result (sweep.new.height ≡ plane job.now.grid k) }
{
    sweep.advance(job.grid().plane(k))
}

/// Slices layer k. The sweep is at its plane.
fn slice_layer<A: Allocator + Copy + Send + Sync>(
    job: &Job<A>,
    k: u32,
    sweep: &Sweep<'_, A>,
    linker: &mut Linker<A>,
    filler: &mut Filler<A>,
) -> Result<Layer<A>, AllocError>
    requires place { k < job.now.grid.layers }
    requires solid { sweep.now.facets ≡ job.now.solid.facets }
    requires height { sweep.now.height ≡ plane job.now.grid k }
    ensures { IfOk result (λ layer. IsLawful job.now k layer) }
{
    let list = sweep.segments()?;
    let spans = filler.fill(job.solid(), job.grid(), job.rule(), k, list.as_slice())?;
    let area = filled_area(job, k, spans.as_slice());
    let loops = linker.loops(job.solid(), list.as_slice())?;
    Ok(Layer::of(k, loops, spans, area))
}

/// The number of filled pixels of a layer with these spans.
fn filled_area<A: Allocator>(job: &Job<A>, k: u32, spans: &[Span]) -> u64
    requires form { AreSpans job.now.grid.columns job.now.grid.rows spans.now }
    requires filled { (i j : ℕ) → i < job.now.grid.columns → j < job.now.grid.rows
        → covers spans.now i j ≡ is_filled job.now.rule job.now.solid.facets (centre job.now.grid i j k) }
    ensures { result ≡ area_of job.now.grid job.now.rule job.now.solid.facets k }
{
    // `area` requires counts within their limits
    job.grid().hold_limits();
    area(spans)
}
