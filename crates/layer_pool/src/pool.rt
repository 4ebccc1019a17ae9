//! The build of a job by several workers.
ghost use Rattle.std.specs.Prelude.{◌≡◌, ◌≤◌, ◌<◌, All, IfOk, length};
ghost use Rattle.build_book.specs.Build.{IsComplete};
ghost use Rattle.build_book.specs.Job.{stripe_count};
ghost use Rattle.stripe_claims.specs.Claims.{IsOwned};
ghost use Rattle.stripe_claims.specs.declared.limits.TheConstants.{PASS_LIMIT};

use crate::gate::Gate;
use crate::own_book::{OfJob, OwnBook};
use build_book::{Book, Build, Job, Slicer};
use std::alloc::{AllocError, Allocator};
use std::marker::Brand;
use std::sync::{Mutex, Wait};
use std::thread;
use std::thread::Threads;
use stripe_claims::{Claims, Pass};

/// The complete build of a job, for 1 to `PASS_LIMIT` workers and every gate. The law `headline` of `build_book` says what its
/// layers are, and that there is one such build. `Err` only if an allocation failed on the caller's thread.
///
/// A single worker is the caller's own thread; several have a thread each, and the caller waits for them. Each draws stripes
/// from claims without a lock. It takes the lock on the book to file one piece, and for nothing else. If a worker gets no
/// memory for a stripe, the stripe is made at the end, on the caller's thread. If a worker cannot be started, the others draw
/// its share.
///
/// The clauses promise only that the build is complete. Tests show that a worker goes on while a gate holds another, and that
/// layers are made up at the end if workers had no memory. The rest is read in this file.
pub fn build<'m, R: Threads + Wait + Sync, A: Allocator + Copy + Send + Sync, G: Gate<A> + Sync>(
    rt: &R,
    alloc: A,
    job: &'m Job<A>,
    workers: u32,
    gate: &G,
) -> Result<Build<'m, A>, AllocError>
    requires some { 1 ≤ workers }
    requires few { workers ≤ PASS_LIMIT }
    ensures job { IfOk result (λ build. build.job ≡ job.now) }
    ensures complete { IfOk result (λ build. IsComplete build.job build.layers) }
{
    build_of::<Brand, R, A, G>(rt, alloc, job, workers, gate)
}

/// The build of the job that `J` stands for.
fn build_of<
    'm,
    J: OfJob + Send + Sync,
    R: Threads + Wait + Sync,
    A: Allocator + Copy + Send + Sync,
    G: Gate<A> + Sync,
>(rt: &R, alloc: A, job: &'m Job<A>, workers: u32, gate: &G) -> Result<Build<'m, A>, AllocError>
    requires some { 1 ≤ workers }
    requires few { workers ≤ PASS_LIMIT }
    requires of { job.now ≡ J.job }
    ensures job { IfOk result (λ build. build.job ≡ job.now) }
    ensures complete { IfOk result (λ build. IsComplete build.job build.layers) }
{
    let (claims, passes) = Claims::open(alloc, job.stripes(), workers)?;
    let own: OwnBook<'m, A, J> = OwnBook::of(Book::open(alloc, job)?);
    let book = Mutex::new(own);
    let shared = Shared {
        rt,
        alloc,
        job,
        claims: &claims,
        book: &book,
        gate,
    };
    run_workers(&shared, passes);
    book.into_inner().into_book().finish_own()
}

/// What the workers of a build share.
#[derive(Drop)]
struct Shared<'a, 'm, J: OfJob, R, A: Allocator, G> {
    rt: &'a R,
    alloc: A,
    job: &'m Job<A>,
    claims: &'a Claims<A>,
    book: &'a Mutex<OwnBook<'m, A, J>>,
    gate: &'a G,
    ghost stripes: { claims.now.stripes ≡ stripe_count job.now.grid },
    ghost of: { job.now ≡ J.job },
}

/// Runs a worker for each pass, a single one on the caller's thread and several on threads of their own. It returns when all
/// have ended. A thread that begins may have to share a processor with the one that made it until that one waits. So if there
/// are several workers, the caller is none of them.
fn run_workers<
    'm,
    J: OfJob + Send + Sync,
    R: Threads + Wait + Sync,
    A: Allocator + Copy + Send + Sync,
    G: Gate<A> + Sync,
>(shared: &Shared<'_, 'm, J, R, A, G>, mut passes: Vec<Pass, A>)
    requires owned { All (IsOwned shared.now.claims.now) passes.items }
    requires count { length passes.items ≤ PASS_LIMIT }
{
    if passes.len() == 1 {
        if let Some(pass) = passes.pop() {
            run_worker(shared, 0, pass);
        }
        return;
    }
    thread::scope(
        thread::scope_env(),
        shared.rt,
        |scope|
            requires { All (IsOwned shared.now.claims.now) passes.items × (length passes.items ≤ PASS_LIMIT) }
        {
            while let Some(pass) = passes.pop() {
                let worker = passes.len() as u32;
                let started = scope.spawn(
                    move ||
                        requires { IsOwned shared.now.claims.now pass }
                    { run_worker(shared, worker, pass) },
                );
                drop(started);
            }
        },
    );
}

/// Slices and files the stripes that one worker draws with its pass.
fn run_worker<'m, J: OfJob, R: Wait, A: Allocator + Copy + Send + Sync, G: Gate<A>>(
    shared: &Shared<'_, 'm, J, R, A, G>,
    worker: u32,
    mut pass: Pass,
)
    requires { IsOwned shared.now.claims.now pass }
{
    let mut slicer = Slicer::new(shared.alloc, shared.job);
    // A bound on the turns of the loop, so that it ends: a pass draws at most all stripes, and then nothing.
    for _ in 0..=shared.job.stripes() {
        let Some(stripe) = shared.claims.draw(&mut pass) else {
            return;
        };
        slice_and_file(shared, worker, &mut slicer, stripe);
    }
}

/// Slices a stripe of the job and files its piece. If there is no memory for the piece, `finish` makes its layers.
fn slice_and_file<'m, J: OfJob, R: Wait, A: Allocator + Copy + Send + Sync, G: Gate<A>>(
    shared: &Shared<'_, 'm, J, R, A, G>,
    worker: u32,
    slicer: &mut Slicer<'m, A>,
    stripe: u64,
)
    requires slicer { slicer.old ≡ shared.now.job.now }
    requires stripe { stripe < stripe_count shared.now.job.now.grid }
    ensures { slicer.new ≡ slicer.old }
{
    shared.gate.arrived(worker, stripe);
    if let Ok(piece) = slicer.slice(stripe) {
        shared.gate.made(worker, &piece);
        shared.book.lock(shared.rt).file(piece);
    }
}
