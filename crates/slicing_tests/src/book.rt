//! What no clause of a book says: that there are loops and layers with ample memory, worked areas, and what happens
//! if an allocation fails.
ghost use Rattle.std.specs.Prelude.{◌≡◌, IfOk};

use crate::jobs::job_of;
use crate::spans::spans;
use build_book::{Book, Build, FileFault, Job, Piece, Slicer, slice_stripe};
use raster::{Rule, Span};
use short_memory::{Count, ShortMemory, first_free_turn};
use std::alloc::{AllocError, Allocator, Global};
use test_meshes::{COLUMN, CUBE, Part, TWO_CUBES};

/// Whether a layer has this number of loops and this area.
fn is_layer(build: &Build<'_, Global>, k: u32, (loops, area): (usize, u64)) -> bool {
    match build.layer(k) {
        Some(layer) => layer.loops().count() == loops && layer.area() == area,
        None => false,
    }
}

/// The loops and the areas of three layers, and the area of all.
type Layers = ([(usize, u64); 3], u64);

/// Whether the build of an empty book has exactly these layers, which are late then.
fn is_built(
    alloc: Global,
    job: &Job<Global>,
    ([low, middle, high], total): Layers,
) -> Result<bool, AllocError> {
    let build = Book::open(alloc, job)?.finish(job)?;
    Ok(
        is_layer(&build, 0, low)
            && is_layer(&build, 1, middle)
            && is_layer(&build, 2, high)
            && build.layer(3).is_none()
            && build.late() == 3
            && build.total_area() == total,
    )
}

/// The same of two cubes, in voxels of two micrometres, by a rule.
fn are_two_cubes(alloc: Global, rule: Rule, told: Layers) -> Result<bool, AllocError> {
    let job = job_of(alloc, TWO_CUBES, 2, rule)?;
    is_built(alloc, &job, told)
}

#[test]
fn two_cubes_by_each_rule(rt: HostRuntime) {
    let odd = are_two_cubes(rt.alloc(), Rule::EvenOdd, ([(1, 4), (2, 6), (1, 4)], 14));
    assert!(rt; odd == Ok(true));
    let some = are_two_cubes(rt.alloc(), Rule::NonZero, ([(1, 4), (2, 7), (1, 4)], 15));
    assert!(rt; some == Ok(true));
}

/// Whether a layer has these spans.
fn has_spans(build: &Build<'_, Global>, k: u32, told: &[Span]) -> bool {
    match build.layer(k) {
        Some(layer) => layer.spans() == told,
        None => false,
    }
}

/// Whether three layers have these spans in the build of an empty book.
fn have_spans(
    alloc: Global,
    job: &Job<Global>,
    [low, middle, high]: [&[Span]; 3],
) -> Result<bool, AllocError> {
    let build = Book::open(alloc, job)?.finish(job)?;
    Ok(has_spans(&build, 0, low) && has_spans(&build, 1, middle) && has_spans(&build, 2, high))
}

/// The same of two cubes, in voxels of two micrometres, by a rule.
fn have_two_cubes_spans(
    alloc: Global,
    rule: Rule,
    spans: [&[Span]; 3],
) -> Result<bool, AllocError> {
    let job = job_of(alloc, TWO_CUBES, 2, rule)?;
    have_spans(alloc, &job, spans)
}

/// The layer of the first cube alone, and that of the second.
const FIRST: &[Span] = &spans![0: 0, 2; 1: 0, 2];

const SECOND: &[Span] = &spans![1: 1, 3; 2: 1, 3];

/// The layer between, of which the middle pixel lies in both cubes.
const WITHOUT_THE_MIDDLE: &[Span] = &spans![0: 0, 2; 1: 0, 1; 1: 2, 3; 2: 1, 3];

const WITH_THE_MIDDLE: &[Span] = &spans![0: 0, 2; 1: 0, 3; 2: 1, 3];

#[test]
fn spans_of_two_cubes_by_each_rule(rt: HostRuntime) {
    let alloc = rt.alloc();
    let odd = have_two_cubes_spans(alloc, Rule::EvenOdd, [FIRST, WITHOUT_THE_MIDDLE, SECOND]);
    assert!(rt; odd == Ok(true));
    let some = have_two_cubes_spans(alloc, Rule::NonZero, [FIRST, WITH_THE_MIDDLE, SECOND]);
    assert!(rt; some == Ok(true));
    let more = have_two_cubes_spans(alloc, Rule::Positive, [FIRST, WITH_THE_MIDDLE, SECOND]);
    assert!(rt; more == Ok(true));
}

/// A stripe of a job, which has it.
pub(crate) fn piece_of<'m, A: Allocator + Copy + Send + Sync>(
    alloc: A,
    job: &'m Job<A>,
    stripe: u64,
) -> Result<Piece<'m, A>, AllocError>
    ensures { IfOk result (λ piece. piece.job ≡ job.now) }
{
    if stripe < job.stripes() {
        slice_stripe(alloc, job, stripe)
    } else {
        Err(AllocError)
    }
}

/// The fault of a piece that a book does not take, with the stripe of the piece that comes back.
pub(crate) type Refusal = Option<(FileFault, u64)>;

/// What a book shows: how many places are taken, the area of their layers, and that of layer 8 and of layer 0.
pub(crate) type Shown = (u32, u64, Option<u64>, Option<u64>);

/// Why a book does not take a piece.
pub(crate) fn refusal<'m>(book: &mut Book<'m, Global>, piece: Piece<'m, Global>) -> Refusal {
    match book.file(piece) {
        Ok(()) => None,
        Err((fault, back)) => Some((fault, back.stripe())),
    }
}

fn area_at(book: &Book<'_, Global>, k: u32) -> Option<u64> {
    let layer = book.layer(k)?;
    Some(layer.area())
}

/// What a book shows now.
pub(crate) fn shown(book: &Book<'_, Global>) -> Shown {
    (
        book.filed(),
        book.total_area(),
        area_at(book, 8),
        area_at(book, 0),
    )
}

/// Whether a stripe is of the other one of two jobs, and its number; why a book of the first does not take it, and what
/// the book shows then.
pub(crate) type Filing = (bool, u64, Refusal, Shown);

/// Whether filing a stripe has this outcome.
fn is_filed<'m>(
    alloc: Global,
    book: &mut Book<'m, Global>,
    job: &'m Job<Global>,
    other: &'m Job<Global>,
    (is_other, stripe, refused, told): Filing,
) -> Result<bool, AllocError> {
    let piece = piece_of(alloc, if is_other { other } else { job }, stripe)?;
    Ok(refusal(book, piece) == refused && shown(book) == told)
}

/// The number of the first stripe, filed in turn, with another outcome.
fn first_other_in<'m>(
    alloc: Global,
    book: &mut Book<'m, Global>,
    job: &'m Job<Global>,
    other: &'m Job<Global>,
    rows: &[Filing],
) -> Option<usize> {
    for (n, row) in rows.iter().enumerate() {
        if is_filed(alloc, book, job, other, *row) != Ok(true) {
            return Some(n);
        }
    }
    None
}

/// The same for a new book of a job.
fn first_other_filing<'m>(
    alloc: Global,
    job: &'m Job<Global>,
    other: &'m Job<Global>,
    rows: &[Filing],
) -> Result<Option<usize>, AllocError> {
    let mut book = Book::open(alloc, job)?;
    Ok(first_other_in(alloc, &mut book, job, other, rows))
}

/// The same for the column and another mesh.
fn first_other_beside(
    alloc: Global,
    parts: &[Part<'_>],
    rows: &[Filing],
) -> Result<Option<usize>, AllocError> {
    let job = job_of(alloc, COLUMN, 1, Rule::EvenOdd)?;
    let other = job_of(alloc, parts, 1, Rule::EvenOdd)?;
    first_other_filing(alloc, &job, &other, rows)
}

/// Stripes of the column, and one of another job.
pub(crate) static FILINGS: [Filing; 4] = [
    (false, 1, None, (8, 8, Some(1), None)),
    (
        false,
        1,
        Some((FileFault::Double { layer: 8 }, 1)),
        (8, 8, Some(1), None),
    ),
    (false, 2, None, (9, 9, Some(1), None)),
    (
        true,
        0,
        Some((FileFault::Stranger, 0)),
        (9, 9, Some(1), None),
    ),
];

#[test]
fn stripes_of_a_column(rt: HostRuntime) {
    assert!(rt; first_other_beside(rt.alloc(), CUBE, &FILINGS) == Ok(None));
}

static STRANGER: [Filing; 1] = [(true, 0, Some((FileFault::Stranger, 0)), (0, 0, None, None))];

static SAME: [Filing; 1] = [(true, 0, None, (8, 8, None, Some(1)))];

#[test]
fn stripe_of_another_job(rt: HostRuntime) {
    assert!(rt; first_other_beside(rt.alloc(), CUBE, &STRANGER) == Ok(None));
    assert!(rt; first_other_beside(rt.alloc(), COLUMN, &SAME) == Ok(None));
}

/// Whether a book takes the stripe of a job that a slicer makes.
fn takes_slice<'m>(
    book: &mut Book<'m, Global>,
    slicer: &mut Slicer<'m, Global>,
    job: &'m Job<Global>,
    stripe: u64,
) -> bool
    requires { slicer.old ≡ job.now }
    ensures { slicer.new ≡ slicer.old }
{
    if stripe >= job.stripes() {
        return false;
    }
    match slicer.slice(stripe) {
        Ok(piece) => refusal(book, piece).is_none(),
        Err(AllocError) => false,
    }
}

/// Whether a book takes the stripes of a job that one slicer makes in this order.
fn takes_in_order<'m>(
    alloc: Global,
    book: &mut Book<'m, Global>,
    job: &'m Job<Global>,
    order: &[u64],
) -> bool {
    let mut slicer = Slicer::new(alloc, job);
    for stripe in order {
        if !takes_slice(book, &mut slicer, job, *stripe) {
            return false;
        }
    }
    true
}

/// Stripes, how many layers a book of them has, and how many are late at its end.
type Order<'a> = (&'a [u64], u32, u32);

/// Whether a book of a job, each layer of which is one voxel, has these counts.
fn is_finished(
    alloc: Global,
    job: &Job<Global>,
    (order, filed, late): Order<'_>,
) -> Result<bool, AllocError> {
    let mut book = Book::open(alloc, job)?;
    let is_filed = takes_in_order(alloc, &mut book, job, order)
        && book.filed() == filed
        && book.total_area() == u64::from(filed);
    let build = book.finish(job)?;
    Ok(is_filed && build.late() == late && build.total_area() == 17)
}

/// Files the stripes of the column in each of these orders. Returns the number of the first order after which the book
/// has other counts than those given.
fn first_other_order(alloc: Global, orders: &[Order<'_>]) -> Result<Option<usize>, AllocError> {
    let job = job_of(alloc, COLUMN, 1, Rule::EvenOdd)?;
    for (n, order) in orders.iter().enumerate() {
        if !is_finished(alloc, &job, *order)? {
            return Ok(Some(n));
        }
    }
    Ok(None)
}

static ORDERS: [Order; 4] = [
    (&[0, 1, 2], 17, 0),
    (&[0, 2, 1], 17, 0),
    (&[2, 1, 0], 17, 0),
    // what is not filed is late
    (&[1, 2], 9, 8),
];

#[test]
fn one_slicer_in_any_order(rt: HostRuntime) {
    assert!(rt; first_other_order(rt.alloc(), &ORDERS) == Ok(None));
}

/// Why a book of this job does not take a piece of it if it compares no jobs.
fn own_refusal<'m, A: Allocator + Copy + Send + Sync>(
    book: &mut Book<'m, A>,
    piece: Piece<'m, A>,
) -> Refusal
    requires { piece.job ≡ book.old.job }
    ensures { book.new.job ≡ book.old.job }
{
    match book.file_own(piece) {
        Ok(()) => None,
        Err((fault, back)) => Some((fault, back.stripe())),
    }
}

/// A stripe that is filed without a comparison of jobs, the result, and how many layers the book has then.
type OwnFiling = (u64, Refusal, u32);

/// Stripes of the column, filed in turn.
static OWN_FILINGS: [OwnFiling; 5] = [
    (2, None, 1),
    (0, None, 9),
    (0, Some((FileFault::Double { layer: 0 }, 0)), 9),
    (1, None, 17),
    (2, Some((FileFault::Double { layer: 16 }, 2)), 17),
];

/// Whether filing a stripe has this outcome.
fn is_filed_own<'m>(
    alloc: Global,
    book: &mut Book<'m, Global>,
    job: &'m Job<Global>,
    filing: OwnFiling,
) -> bool
    requires { book.old.job ≡ job.now }
    ensures { book.new.job ≡ job.now }
{
    let (stripe, refused, filed) = filing;
    match piece_of(alloc, job, stripe) {
        Ok(piece) => {
            own_refusal(book, piece) == refused
                && book.filed() == filed
                && book.total_area() == u64::from(filed)
        }
        Err(AllocError) => false,
    }
}

/// Whether filing these stripes in turn has their outcomes.
fn are_filed_own<'m>(
    alloc: Global,
    book: &mut Book<'m, Global>,
    job: &'m Job<Global>,
    rows: &[OwnFiling],
) -> bool
    requires { book.old.job ≡ job.now }
{
    for row in rows {
        if !is_filed_own(alloc, book, job, *row) {
            return false;
        }
    }
    true
}

/// The same for a new book of a job.
fn are_filed_first(alloc: Global, job: &Job<Global>, rows: &[OwnFiling]) -> bool {
    match Book::open(alloc, job) {
        Ok(mut book) => are_filed_own(alloc, &mut book, job, rows),
        Err(AllocError) => false,
    }
}

/// The same for the column.
fn are_filed_of_column(alloc: Global, rows: &[OwnFiling]) -> bool {
    match job_of(alloc, COLUMN, 1, Rule::EvenOdd) {
        Ok(job) => are_filed_first(alloc, &job, rows),
        Err(AllocError) => false,
    }
}

#[test]
fn own_stripes_of_a_column(rt: HostRuntime) {
    assert!(rt; are_filed_of_column(rt.alloc(), &OWN_FILINGS));
}

/// How many layers of a job are late if a book of it has the piece of stripe 1. It is 0 if the book refused it, or the area of
/// all is another.
fn late_after_a_piece<A: Allocator + Copy + Send + Sync>(
    alloc: A,
    job: &Job<A>,
) -> Result<usize, AllocError> {
    let mut book = Book::open(alloc, job)?;
    let piece = piece_of(alloc, job, 1)?;
    if own_refusal(&mut book, piece).is_some() {
        return Ok(0);
    }
    let build = book.finish(job)?;
    Ok(if build.total_area() == 17 {
        build.late() as usize
    } else {
        0
    })
}

/// The layers of the column that are late after a piece.
struct Late;

impl Count for Late {
    fn count(memory: &ShortMemory<Global>) -> Option<usize> {
        match job_of(memory, COLUMN, 1, Rule::EvenOdd) {
            Ok(job) => late_after_a_piece(memory, &job).ok(),
            Err(_) => None,
        }
    }
}

/// How many layers of a job a book has with its first stripe, which is all of them. It is 0 if the book refused the stripe, a
/// layer is late, or the area of all is another.
fn filed_of_one_stripe<A: Allocator + Copy + Send + Sync>(
    alloc: A,
    job: &Job<A>,
) -> Result<usize, AllocError> {
    let mut book = Book::open(alloc, job)?;
    if book.file(piece_of(alloc, job, 0)?).is_err() {
        return Ok(0);
    }
    let filed = book.filed();
    let build = book.finish(job)?;
    Ok(if build.late() == 0 && build.total_area() == 14 {
        filed as usize
    } else {
        0
    })
}

/// The layers of two cubes, filed.
struct Filed;

impl Count for Filed {
    fn count(memory: &ShortMemory<Global>) -> Option<usize> {
        match job_of(memory, TWO_CUBES, 2, Rule::EvenOdd) {
            Ok(job) => filed_of_one_stripe(memory, &job).ok(),
            Err(_) => None,
        }
    }
}

/// How many layers of a job are late with an empty book; 0 if the area of all is another.
fn late_of_none<A: Allocator + Copy + Send + Sync>(
    alloc: A,
    job: &Job<A>,
) -> Result<usize, AllocError> {
    let build = Book::open(alloc, job)?.finish(job)?;
    Ok(if build.total_area() == 14 {
        build.late() as usize
    } else {
        0
    })
}

/// The layers of two cubes, all of them late.
struct AllLate;

impl Count for AllLate {
    fn count(memory: &ShortMemory<Global>) -> Option<usize> {
        match job_of(memory, TWO_CUBES, 2, Rule::EvenOdd) {
            Ok(job) => late_of_none(memory, &job).ok(),
            Err(_) => None,
        }
    }
}

/// More allocations than any of these counts asks for.
const TURNS: u64 = 10_000;

#[test]
fn each_allocation_fails_in_turn(rt: HostRuntime) {
    assert!(rt; first_free_turn::<Late>(rt.alloc(), TURNS, 9) > Some(17));
    assert!(rt; first_free_turn::<Filed>(rt.alloc(), TURNS, 3) > Some(17));
    assert!(rt; first_free_turn::<AllLate>(rt.alloc(), TURNS, 3) > Some(17));
}
