//! A chunk of a text in parts. Workers draw the parts, and look in them for runs of facets.
//!
//! The workers share a count, from which each takes the number of the next part, until none is left. A worker that joins later
//! takes fewer parts. No proof needs a fact about these numbers. What a run says holds of the text whichever worker found it,
//! and the reader reads a part by itself if no worker did.
ghost use Rattle.std.specs.Prelude.{◌≡◌, All, IfOk, IfSome};
ghost use Rattle.stl_text.specs.FacetRun.{IsFacetRun};

use crate::facet_run::{FacetRun, run_of};
use micro_num::Unit;
use std::alloc::{AllocError, Allocator};
use std::cmp::Reverse;
use std::marker::Model;
use std::sync::atomic::{AtomicUsize, Ordering};
use std::thread::{Threads, map_indices};

/// The least length of a part of a chunk, in bytes. A chunk that is too short for two parts has none.
const LEAST_PART: usize = 1 << 15;

/// The number of parts for each worker, so that the workers end at about the same time.
const PARTS_OF_A_WORKER: usize = 4;

/// A chunk of a text in parts. Workers share it by reference, and each draws one part after another.
#[derive(Drop)]
pub struct ChunkParts<'t, A: Allocator> {
    alloc: A,
    chunk: &'t [u8],
    unit: Unit,
    /// The number of parts.
    count: usize,
    /// The length of a part, in bytes. The last one may be shorter.
    len: usize,
    /// The number of draws. It may exceed `count`, since draws that find no part left count too.
    drawn: AtomicUsize,
}

impl<'t, A: Allocator> Model for ChunkParts<'t, A> {
    ghost use Rattle.stl_text.specs.ChunkParts.{Chunk};

    ghost Value = { Chunk };

    ghost view = { λ p. record { unit = p.unit; bytes = p.chunk.now } };
}

/// Runs of facets that were found in a chunk of a text.
#[derive(Drop)]
pub struct FacetRuns<'t, A: Allocator> {
    chunk: &'t [u8],
    unit: Unit,
    runs: Vec<FacetRun<'t, A>, A>,
}

impl<'t, A: Allocator> Model for FacetRuns<'t, A> {
    ghost use Rattle.std.specs.Prelude.{All};
    ghost use Rattle.stl_text.specs.ChunkParts.{Chunk};
    ghost use Rattle.stl_text.specs.FacetRun.{IsFacetRun};

    ghost Value = { Chunk };

    ghost view = { λ r. record { unit = r.unit; bytes = r.chunk.now } };

    ghost invariant = { λ r. All (λ run. IsFacetRun r.unit r.chunk.now run.facets.items run.from.now run.to.now) r.runs.items };
}

impl<'t, A: Allocator> FacetRuns<'t, A> {
    /// Adds a run, or drops it and returns `false` if an allocation fails.
    fn push(&mut self, run: FacetRun<'t, A>) -> bool
        requires { IsFacetRun self.old.unit self.old.bytes run.facets.items run.from.now run.to.now }
        ensures { self.new ≡ self.old }
    {
        self.runs.push(run).is_ok()
    }

    /// Takes over the runs that were found elsewhere in the chunk, or drops them if an allocation fails.
    pub fn add(&mut self, more: FacetRuns<'t, A>)
        requires { more ≡ self.old }
        ensures { self.new ≡ self.old }
    {
        let FacetRuns { mut runs, .. } = more;
        let _ = self.runs.append(&mut runs);
    }

    /// The unit in which the numbers of the runs were read.
    pub(crate) fn unit(&self) -> Unit
        ensures { result ≡ self.now.unit }
    {
        self.unit
    }

    /// The chunk, and its runs in the order in which they begin, so that the reader meets each in its turn.
    pub(crate) fn in_order(self) -> (&'t [u8], Vec<FacetRun<'t, A>, A>)
        ensures chunk { result.0.now ≡ self.entry.bytes }
        ensures runs { All (λ run. IsFacetRun self.entry.unit self.entry.bytes run.facets.items run.from.now run.to.now) result.1.items }
    {
        let FacetRuns {
            chunk,
            mut runs,
            ..
        } = self;
        runs.sort_unstable_by_key(|run| Reverse(run.from.len()));
        (chunk, runs)
    }
}

impl<'t, A: Allocator + Copy> ChunkParts<'t, A> {
    /// The parts of a chunk for up to `workers` workers. There are none for a single worker: the reader itself is that worker.
    pub(crate) fn of(alloc: A, chunk: &'t [u8], unit: Unit, workers: u32) -> ChunkParts<'t, A>
        ensures unit { result.unit ≡ unit }
        ensures bytes { result.bytes ≡ chunk.now }
    {
        let most = (workers as usize).saturating_mul(PARTS_OF_A_WORKER);
        let parts = (chunk.len() / LEAST_PART).min(most);
        let count = if workers < 2 || parts < 2 { 0 } else { parts };
        ChunkParts {
            alloc,
            chunk,
            unit,
            count,
            len: (chunk.len() / count.max(1)).saturating_add(1),
            drawn: AtomicUsize::new(0),
        }
    }

    /// The runs of the parts that nobody has drawn yet. It stops if an allocation fails.
    pub fn runs(&self) -> FacetRuns<'t, A>
        ensures { result ≡ self.now }
    {
        let mut found = self.none();
        // the bound shows that the loop ends: after this number of draws no part is left
        'draw: for _ in 0..self.count {
            if !self.find(&mut found) {
                return found;
            }
        }
        found
    }

    /// Adds the run of the next part. Returns `false` if no part is left, or an allocation fails.
    fn find(&self, found: &mut FacetRuns<'t, A>) -> bool
        requires { found.old ≡ self.now }
        ensures { found.new ≡ found.old }
    {
        match self.next_run() {
            Some(run) => found.push(run),
            None => false,
        }
    }

    /// No runs.
    fn none(&self) -> FacetRuns<'t, A>
        ensures { result ≡ self.now }
    {
        FacetRuns {
            chunk: self.chunk,
            unit: self.unit,
            runs: Vec::new(self.alloc),
        }
    }

    /// The run of the next part, if one is left.
    fn next_run(&self) -> Option<FacetRun<'t, A>>
        ensures { IfSome result (λ run. IsFacetRun self.now.unit self.now.bytes run.facets.items run.from.now run.to.now) }
    {
        let number = self.drawn.fetch_add(1, Ordering::SeqCst);
        if number >= self.count {
            return None;
        }
        let start = self.len.saturating_mul(number).min(self.chunk.len());
        let len = self.len.min(self.chunk.len() - start);
        Some(run_of(self.alloc, self.chunk, self.unit, start, len))
    }
}

impl<'t, A: Allocator + Copy + Send + Sync> ChunkParts<'t, A> {
    /// The runs of the parts that nobody has drawn yet, found by up to `workers` workers at the same time. Some of them are
    /// missing if an allocation fails.
    pub fn runs_by<R: Threads + Sync>(&self, rt: &R, workers: u32) -> FacetRuns<'t, A>
        ensures { result ≡ self.now }
    {
        let mut all = self.none();
        if let Ok(mut lists) = self.lists_by(rt, self.count.min(workers as usize)) {
            'add: while let Some(list) = lists.pop() {
                all.add(list);
            }
        }
        all
    }

    /// The runs that each of some workers finds.
    fn lists_by<R: Threads + Sync>(
        &self,
        rt: &R,
        workers: usize,
    ) -> Result<Vec<FacetRuns<'t, A>, A>, AllocError>
        ensures { IfOk result (λ lists. All (λ list. list ≡ self.now) lists.items) }
    {
        let draw = |_: usize| -> FacetRuns<A>
            ensures { result ≡ self.entry.now }
        { self.runs() };
        map_indices(rt, self.alloc, workers, &draw)
    }
}
