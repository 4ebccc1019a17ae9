//! The places of a book: counting and searching them, filling the free ones, making what is missing.
ghost use Rattle.std.specs.Prelude.{◌≡◌, ◌+◌, ◌*◌, ◌<◌, ◌≤◌, ℕ, IfOk, IfNone, IfSome, IsTrue, None, length, replicate, not, is_some, flat_map, option_to_list};
ghost use Rattle.build_book.specs.Job.{stripe_count};
ghost use Rattle.build_book.specs.Places.{AreFree, IsTaken, IsTakenAt, with_layers, or_layer, filed_count, place_area, total_area};
ghost use Rattle.build_book.specs.Book.{IsLawfulBook};
ghost use Rattle.build_book.specs.declared.limits.TheConstants.{STRIPE_LAYERS, VOXEL_LIMIT};
ghost use Rattle.geometry.specs.declared.limits.TheConstants.{LAYER_LIMIT};

use crate::job::Job;
use crate::layer::Layer;
use crate::slicer::Slicer;
use std::alloc::{AllocError, Allocator};

/// A list of `count` empty places.
pub(crate) fn empty_places<A: Allocator>(
    alloc: A,
    count: u32,
) -> Result<Vec<Option<Layer<A>>, A>, AllocError>
    ensures { IfOk result (λ places. places.items ≡ replicate count None) }
{
    let mut places = Vec::with_capacity(alloc, count as usize)?;
    for _ in 0..count {
        places.push(None)?;
    }
    Ok(places)
}

/// The number of places that are taken.
pub(crate) fn filed_count<A: Allocator>(places: &[Option<Layer<A>>]) -> u32
    requires { length places.now ≤ LAYER_LIMIT }
    ensures { result ≡ filed_count places.now }
{
    places.iter().filter(|place| place.is_some()).count() as u32
}

/// The sum of the areas of the layers in the places.
pub(crate) fn total_area<A: Allocator>(places: &[Option<Layer<A>>]) -> u64
    requires { total_area places.now ≤ VOXEL_LIMIT }
    ensures { result ≡ total_area places.now }
{
    let mut sum = 0;
    for place in places {
        sum += place_area(place);
    }
    sum
}

/// The area of a place's layer, or 0 if it is empty.
fn place_area<A: Allocator>(place: &Option<Layer<A>>) -> u64
    ensures { result ≡ place_area place.now }
{
    match place {
        Some(layer) => layer.area(),
        None => 0,
    }
}

/// The least taken place from `first` up to, but not including, `end`; `None` if none of these is taken.
pub(crate) fn first_taken<A: Allocator>(
    places: &[Option<Layer<A>>],
    first: usize,
    end: usize,
) -> Option<usize>
    requires { end ≤ length places.now }
    ensures some { IfSome result (λ k. IsTakenAt places.now first end k) }
    ensures none { IfNone result (AreFree places.now first end) }
{
    for k in first..end {
        if places[k].is_some() {
            return Some(k);
        }
    }
    None
}

/// Puts layers into the places from `first` on, one each, if the place is free; a taken place stays as it is. Returns the
/// number of places that were free.
pub(crate) fn fill_gaps<A: Allocator>(
    places: &mut [Option<Layer<A>>],
    first: usize,
    layers: Vec<Layer<A>, A>,
) -> u32
    requires room { first + length layers.items ≤ length places.old }
    requires few { length layers.items ≤ STRIPE_LAYERS }
    ensures places { places.new ≡ with_layers first layers.items places.old }
    ensures made { result + filed_count places.old ≡ filed_count places.new }
{
    let mut made = 0u32;
    let mut at = first;
    for layer in layers {
        made += u32::from(fill_gap(&mut places[at], layer));
        at += 1;
    }
    made
}

/// Puts a layer into a place if that is free. Returns whether it was.
fn fill_gap<A: Allocator>(place: &mut Option<Layer<A>>, layer: Layer<A>) -> bool
    ensures place { place.new ≡ or_layer place.old layer }
    ensures made { result ≡ not (is_some place.old) }
{
    if place.is_some() {
        return false;
    }
    *place = Some(layer);
    true
}

/// Makes the layers that are missing in the places of a job. Returns their number.
pub(crate) fn make_missing<A: Allocator + Copy + Send + Sync>(
    alloc: A,
    job: &Job<A>,
    places: &mut [Option<Layer<A>>],
) -> Result<u32, AllocError>
    requires { IsLawfulBook (record { job = job.now; places = places.old }) }
    ensures lawful { IfOk result (λ late. IsLawfulBook (record { job = job.now; places = places.new })) }
    ensures all { IfOk result (λ late. (k : ℕ) → k < length places.new → IsTaken places.new k) }
    ensures late { IfOk result (λ late. late + filed_count places.old ≡ filed_count places.new) }
{
    if is_full(places, 0, places.len()) {
        return Ok(0);
    }
    let mut slicer = Slicer::new(alloc, job);
    let mut late = 0u32;
    for s in 0..job.stripes() {
        late += make_stripe(job, &mut slicer, s, places)?;
    }
    Ok(late)
}

/// Makes the layers that are missing in the places of a stripe. Returns their number.
fn make_stripe<A: Allocator + Copy + Send + Sync>(
    job: &Job<A>,
    slicer: &mut Slicer<'_, A>,
    s: u64,
    places: &mut [Option<Layer<A>>],
) -> Result<u32, AllocError>
    requires slicer { slicer.old ≡ job.now }
    requires stripe { s < stripe_count job.now.grid }
    requires lawful { IsLawfulBook (record { job = job.now; places = places.old }) }
    requires below { (k : ℕ) → k < STRIPE_LAYERS * s → k < length places.old → IsTaken places.old k }
    ensures lawful { IfOk result (λ made. IsLawfulBook (record { job = job.now; places = places.new })) }
    ensures below { IfOk result (λ made. (k : ℕ) → k < STRIPE_LAYERS * (s + 1) → k < length places.new → IsTaken places.new k) }
    ensures made { IfOk result (λ made. made + filed_count places.old ≡ filed_count places.new) }
    ensures slicer { slicer.new ≡ slicer.old }
{
    let (first, end) = job.layer_range(s);
    if is_full(places, first as usize, end as usize) {
        return Ok(0);
    }
    let piece = slicer.slice(s)?;
    Ok(fill_gaps(places, first as usize, piece.into_layers()))
}

/// Whether all places from `first` up to, but not including, `end` are taken.
fn is_full<A: Allocator>(places: &[Option<Layer<A>>], first: usize, end: usize) -> bool
    requires { end ≤ length places.now }
    ensures { IsTrue result → (k : ℕ) → first ≤ k → k < end → IsTaken places.now k }
{
    for k in first..end {
        if places[k].is_none() {
            return false;
        }
    }
    true
}

/// The layers in the places, in order.
pub(crate) fn all_layers<A: Allocator>(
    alloc: A,
    places: Vec<Option<Layer<A>>, A>,
) -> Result<Vec<Layer<A>, A>, AllocError>
    ensures { IfOk result (λ layers. layers.items ≡ flat_map option_to_list places.items) }
{
    let mut layers = Vec::with_capacity(alloc, places.len())?;
    for place in places {
        if let Some(layer) = place {
            layers.push(layer)?;
        }
    }
    Ok(layers)
}
