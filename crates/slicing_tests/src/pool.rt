//! What no clause of the pool says:
//! - one worker goes on while another is held,
//! - no layer is late if memory suffices,
//! - after a failed allocation there is no build, or a whole one, perhaps with late layers.
//!
//! And a book that is filed between locks.
ghost use Rattle.std.specs.Prelude.{◌≤◌};
ghost use Rattle.stripe_claims.specs.declared.limits.TheConstants.{PASS_LIMIT};

use crate::book::{FILINGS, Filing, piece_of, refusal, shown};
use crate::jobs::job_of;
use crate::spans::spans;
use build_book::{Book, Build, Job, Piece};
use contour::Loops;
use layer_pool::{Gate, OpenGate, PASS_LIMIT, build};
use raster::{Rule, Span};
use short_memory::ShortMemory;
use std::alloc::{AllocError, Allocator, Global};
use std::sync::atomic::AtomicU64;
use std::sync::atomic::Ordering::SeqCst;
use std::sync::{Mutex, Wait};
use std::thread;
use std::thread::Threads;
use test_meshes::{COLUMN, CUBE, CUBE_AND_PAIR, OCTAHEDRON, Part, TWO_CUBES};

const PIXEL: &[Span] = &spans![0: 0, 1];

/// Whether this is all of the column: each layer is one loop round one pixel.
fn is_column<A: Allocator>(build: &Build<'_, A>) -> bool {
    for (k, layer) in build.layers().iter().enumerate() {
        if layer.number() as usize != k
            || layer.area() != 1
            || layer.spans() != PIXEL
            || layer.loops().count() != 1
        {
            return false;
        }
    }
    build.layers().len() == 17 && build.total_area() == 17
}

/// Whether what this number of workers builds of a job is the column, and how many layers are late.
fn built<A: Allocator + Copy + Send + Sync, R: Threads + Wait + Sync, G: Gate<A> + Sync>(
    rt: &R,
    alloc: A,
    job: &Job<A>,
    workers: u32,
    gate: &G,
) -> Result<(bool, u32), AllocError>
    requires some { 1 ≤ workers }
    requires few { workers ≤ PASS_LIMIT }
{
    let build = build(rt, alloc, job, workers, gate)?;
    Ok((is_column(&build), build.late()))
}

/// Whether one, two and the most workers build the column, which has three stripes, with no late layer.
fn is_column_by_each<R: Threads + Wait + Sync>(rt: &R, alloc: Global) -> bool {
    match job_of(alloc, COLUMN, 1, Rule::EvenOdd) {
        Ok(job) => {
            job.stripes() == 3
                && built(rt, alloc, &job, 1, &OpenGate) == Ok((true, 0))
                && built(rt, alloc, &job, 2, &OpenGate) == Ok((true, 0))
                && built(rt, alloc, &job, PASS_LIMIT, &OpenGate) == Ok((true, 0))
        }
        Err(AllocError) => false,
    }
}

#[test]
fn any_number_of_workers(rt: HostRuntime) {
    assert!(rt; is_column_by_each(&rt, rt.alloc()));
}

/// Whether these are the same loops, each the same list of segments.
fn are_same_loops(one: &Loops<Global>, other: &Loops<Global>) -> bool {
    for number in 0..one.count() {
        if one.get(number) != other.get(number) {
            return false;
        }
    }
    one.count() == other.count()
}

/// Whether two builds have the same layers: their numbers, their spans and their loops.
fn are_same(one: &Build<'_, Global>, other: &Build<'_, Global>) -> bool {
    for (layer, twin) in one.layers().iter().zip(other.layers()) {
        if layer.number() != twin.number()
            || layer.spans() != twin.spans()
            || !are_same_loops(layer.loops(), twin.loops())
        {
            return false;
        }
    }
    one.layers().len() == other.layers().len()
}

/// Whether this number of workers builds a job as it was built, with no late layer.
fn is_built_again<R: Threads + Wait + Sync>(
    rt: &R,
    alloc: Global,
    job: &Job<Global>,
    workers: u32,
    one: &Build<'_, Global>,
) -> bool
    requires some { 1 ≤ workers }
    requires few { workers ≤ PASS_LIMIT }
{
    match build(rt, alloc, job, workers, &OpenGate) {
        Ok(other) => other.late() == 0 && are_same(one, &other),
        Err(AllocError) => false,
    }
}

/// Whether one, two and the most workers build a job alike, with no late layer.
fn is_built_alike<R: Threads + Wait + Sync>(rt: &R, alloc: Global, job: &Job<Global>) -> bool {
    match build(rt, alloc, job, 1, &OpenGate) {
        Ok(one) => {
            one.late() == 0
                && is_built_again(rt, alloc, job, 2, &one)
                && is_built_again(rt, alloc, job, PASS_LIMIT, &one)
        }
        Err(AllocError) => false,
    }
}

/// The same for a mesh in voxels of a micrometre, by a rule.
fn is_mesh_built_alike<R: Threads + Wait + Sync>(
    rt: &R,
    alloc: Global,
    parts: &[Part<'_>],
    rule: Rule,
) -> bool {
    match job_of(alloc, parts, 1, rule) {
        Ok(job) => is_built_alike(rt, alloc, &job),
        Err(AllocError) => false,
    }
}

/// A tetrahedron of 26 layers in four stripes, each layer smaller than the one below it.
const SPIRE: &[Part] = &[(
    &[[0, 0, 0], [20, 0, 0], [0, 20, 0], [0, 0, 26]],
    &[[0, 2, 1], [0, 1, 3], [1, 2, 3], [2, 0, 3]],
)];

#[test]
fn builds_are_the_same_by_any_number_of_workers(rt: HostRuntime) {
    for parts in [COLUMN, CUBE_AND_PAIR, OCTAHEDRON, SPIRE, TWO_CUBES] {
        assert!(rt; is_mesh_built_alike(&rt, rt.alloc(), parts, Rule::EvenOdd));
        assert!(rt; is_mesh_built_alike(&rt, rt.alloc(), parts, Rule::NonZero));
    }
}

/// Holds the worker that arrives first, or the one that is the first to have made a piece, until the other has made two
/// pieces, for at most `TURNS` turns.
#[derive(Drop)]
struct HoldsTheFirst {
    at_made: bool,
    /// Workers by their numbers plus 1, or 0 for nobody.
    held: AtomicU64,
    /// Such a worker in each of three bytes, for the stripe that it came to or made: byte s is that of stripe s.
    arrived: AtomicU64,
    made: AtomicU64,
    made_by_others: AtomicU64,
    let_go: AtomicU64,
    twice: AtomicU64,
    early: AtomicU64,
}

const TURNS: u32 = 10_000_000;

/// The values of a byte.
const BYTE: u64 = 256;

/// The unit of a stripe's byte; 0 if there is no such stripe.
fn unit_of(stripe: u64) -> u64 {
    match stripe {
        0 => 1,
        1 => BYTE,
        2 => BYTE * BYTE,
        _ => 0,
    }
}

impl HoldsTheFirst {
    fn new(at_made: bool) -> HoldsTheFirst {
        HoldsTheFirst {
            at_made,
            held: AtomicU64::new(0),
            arrived: AtomicU64::new(0),
            made: AtomicU64::new(0),
            made_by_others: AtomicU64::new(0),
            let_go: AtomicU64::new(0),
            twice: AtomicU64::new(0),
            early: AtomicU64::new(0),
        }
    }

    /// Notes who came to a stripe. It counts if somebody had, or if there is no such stripe or worker.
    fn note(&self, places: &AtomicU64, worker: u64, stripe: u64) {
        let unit = unit_of(stripe);
        let before = places.fetch_add(worker.wrapping_mul(unit), SeqCst);
        if unit == 0 || worker > 2 || before / unit % BYTE != 0 {
            self.twice.fetch_add(1, SeqCst);
        }
    }

    /// Counts if a worker has made a stripe that it had not come to before.
    fn note_order(&self, worker: u64, stripe: u64) {
        let unit = unit_of(stripe);
        if unit == 0 || self.arrived.load(SeqCst) / unit % BYTE != worker {
            self.early.fetch_add(1, SeqCst);
        }
    }

    fn hold_first(&self, worker: u64) {
        if self
            .held
            .compare_exchange(0, worker, SeqCst, SeqCst)
            .is_ok()
        {
            self.hold();
        }
    }

    fn hold(&self) {
        for _ in 0..TURNS {
            if self.made_by_others.load(SeqCst) >= 2 {
                self.let_go.store(1, SeqCst);
                return;
            }
            thread::yield_now();
        }
    }

    /// Whether each stripe was made once, by the worker that had come to it before, and the one held was let go.
    fn is_served(&self) -> bool {
        let made = self.made.load(SeqCst);
        made % BYTE != 0
            && made / BYTE % BYTE != 0
            && made / (BYTE * BYTE) % BYTE != 0
            && made == self.arrived.load(SeqCst)
            && self.twice.load(SeqCst) == 0
            && self.early.load(SeqCst) == 0
            && self.let_go.load(SeqCst) == 1
    }
}

impl Gate<Global> for HoldsTheFirst {
    fn arrived(&self, worker: u32, stripe: u64) {
        let me = u64::from(worker) + 1;
        self.note(&self.arrived, me, stripe);
        if !self.at_made {
            self.hold_first(me);
        }
    }

    fn made(&self, worker: u32, piece: &Piece<'_, Global>) {
        let me = u64::from(worker) + 1;
        self.note_order(me, piece.stripe());
        self.note(&self.made, me, piece.stripe());
        if self.at_made {
            self.hold_first(me);
        }
        if self.held.load(SeqCst) != me {
            self.made_by_others.fetch_add(1, SeqCst);
        }
    }
}

/// Whether two workers build the column with no late layer, served by a gate that holds the first of them.
fn is_built_while_held<R: Threads + Wait + Sync>(rt: &R, alloc: Global, at_made: bool) -> bool {
    match job_of(alloc, COLUMN, 1, Rule::EvenOdd) {
        Ok(job) => {
            let gate = HoldsTheFirst::new(at_made);
            built(rt, alloc, &job, 2, &gate) == Ok((true, 0)) && gate.is_served()
        }
        Err(AllocError) => false,
    }
}

#[test]
fn one_worker_is_held_while_the_other_works(rt: HostRuntime) {
    assert!(rt; is_built_while_held(&rt, rt.alloc(), false));
}

/// So nobody holds the book's lock from the slicing of a piece on.
#[test]
fn one_worker_is_held_with_its_piece_while_the_other_works(rt: HostRuntime) {
    assert!(rt; is_built_while_held(&rt, rt.alloc(), true));
}

/// Holds the worker that arrives first in an allocation, with which it slices, until the other has made two pieces.
#[derive(Drop)]
struct HoldsASlice<'a> {
    memory: &'a ShortMemory<Global>,
    arrived: AtomicU64,
    made: AtomicU64,
    /// Whether the first was still held when the other had made two pieces.
    went_on: AtomicU64,
}

impl<'a> HoldsASlice<'a> {
    fn new(memory: &'a ShortMemory<Global>) -> HoldsASlice<'a> {
        HoldsASlice {
            memory,
            arrived: AtomicU64::new(0),
            made: AtomicU64::new(0),
            went_on: AtomicU64::new(0),
        }
    }

    /// Waits until the other worker comes to its first stripe: then it allocates nothing until the next allocation is held.
    fn wait_for_the_other(&self) {
        for _ in 0..TURNS {
            if self.arrived.load(SeqCst) >= 2 {
                return;
            }
            thread::yield_now();
        }
    }

    fn wait_for_the_held(&self) {
        for _ in 0..TURNS {
            if self.memory.is_holding() {
                return;
            }
            thread::yield_now();
        }
    }
}

impl<'a> Gate<&'a ShortMemory<Global>> for HoldsASlice<'a> {
    fn arrived(&self, _worker: u32, _stripe: u64) {
        match self.arrived.fetch_add(1, SeqCst) {
            0 => {
                self.wait_for_the_other();
                self.memory.hold_next();
            }
            1 => self.wait_for_the_held(),
            _ => {}
        }
    }

    fn made(&self, _worker: u32, _piece: &Piece<'_, &'a ShortMemory<Global>>) {
        if self.made.fetch_add(1, SeqCst) == 1 && self.memory.is_holding() {
            self.went_on.store(1, SeqCst);
            self.memory.let_go();
        }
    }
}

/// Whether two workers build the column with no late layer while the first of them is held in the middle of a slice.
fn is_built_beside_a_slice<R: Threads + Wait + Sync>(rt: &R, memory: &ShortMemory<Global>) -> bool {
    match job_of(memory, COLUMN, 1, Rule::EvenOdd) {
        Ok(job) => {
            let gate = HoldsASlice::new(memory);
            built(rt, memory, &job, 2, &gate) == Ok((true, 0)) && gate.went_on.load(SeqCst) == 1
        }
        Err(AllocError) => false,
    }
}

/// So nobody holds the book's lock while it slices.
#[test]
fn one_worker_is_held_in_a_slice_while_the_other_works(rt: HostRuntime) {
    let memory = ShortMemory::new(rt.alloc(), 0);
    assert!(rt; is_built_beside_a_slice(&rt, &memory));
}

/// The same for the column in memory of which one allocation fails.
fn column_in<R: Threads + Wait + Sync>(
    rt: &R,
    memory: &ShortMemory<Global>,
    workers: u32,
) -> Result<(bool, u32), AllocError>
    requires some { 1 ≤ workers }
    requires few { workers ≤ PASS_LIMIT }
{
    let job = job_of(memory, COLUMN, 1, Rule::EvenOdd)?;
    built(rt, memory, &job, workers, &OpenGate)
}

/// More allocations than the job and the build of the column ask for.
const ALLOCATIONS: u64 = 2000;

/// Fails each allocation in turn until none is left to fail. Returns how many of the builds had late layers. The result is
/// `None` if an answer was neither the column nor a failed allocation. It is also `None` if a build with all its memory fails or
/// has such layers.
fn fail_each<R: Threads + Wait + Sync>(rt: &R, alloc: Global, workers: u32) -> Option<u32>
    requires some { 1 ≤ workers }
    requires few { workers ≤ PASS_LIMIT }
{
    let mut made_up = 0u32;
    for turn in 1..ALLOCATIONS {
        let memory = ShortMemory::new(alloc, turn);
        let built = column_in(rt, &memory, workers);
        if !memory.has_failed() {
            return (built == Ok((true, 0))).then_some(made_up);
        }
        match built {
            Ok((true, 0)) | Err(_) => {}
            Ok((true, _)) => made_up = made_up.saturating_add(1),
            Ok((false, _)) => return None,
        }
    }
    None
}

#[test]
fn each_allocation_of_a_build_fails_in_turn(rt: HostRuntime) {
    assert!(rt; fail_each(&rt, rt.alloc(), 1) > Some(0));
    assert!(rt; fail_each(&rt, rt.alloc(), 2).is_some());
}

/// Whether filing a stripe under the lock has this outcome. The book is looked at under a later lock.
fn is_filed_between<'m, R: Wait>(
    rt: &R,
    alloc: Global,
    book: &Mutex<Book<'m, Global>>,
    job: &'m Job<Global>,
    other: &'m Job<Global>,
    (is_other, stripe, refused, told): Filing,
) -> Result<bool, AllocError> {
    let piece = piece_of(alloc, if is_other { other } else { job }, stripe)?;
    let found = refusal(&mut book.lock(rt), piece);
    Ok(found == refused && shown(&book.lock(rt)) == told)
}

/// The number of the first stripe with another outcome.
fn first_other_filing<'m, R: Wait>(
    rt: &R,
    alloc: Global,
    book: &Mutex<Book<'m, Global>>,
    job: &'m Job<Global>,
    other: &'m Job<Global>,
) -> Option<usize> {
    for (n, row) in FILINGS.iter().enumerate() {
        if is_filed_between(rt, alloc, book, job, other, *row) != Ok(true) {
            return Some(n);
        }
    }
    None
}

/// The same for a book of a job; and whether it is finished as the column, and how many layers are late.
fn finished_between_locks<R: Wait>(
    rt: &R,
    alloc: Global,
    job: &Job<Global>,
    other: &Job<Global>,
) -> Result<(Option<usize>, (bool, u32)), AllocError> {
    let book = Mutex::new(Book::open(alloc, job)?);
    let first = first_other_filing(rt, alloc, &book, job, other);
    let build = book.into_inner().finish(job)?;
    Ok((first, (is_column(&build), build.late())))
}

/// The same for the column and another box.
fn column_between_locks<R: Wait>(
    rt: &R,
    alloc: Global,
) -> Result<(Option<usize>, (bool, u32)), AllocError> {
    let job = job_of(alloc, COLUMN, 1, Rule::EvenOdd)?;
    let other = job_of(alloc, CUBE, 1, Rule::EvenOdd)?;
    finished_between_locks(rt, alloc, &job, &other)
}

#[test]
fn a_book_between_locks(rt: HostRuntime) {
    assert!(rt; column_between_locks(&rt, rt.alloc()) == Ok((None, (true, 8))));
}
