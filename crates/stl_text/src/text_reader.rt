//! The reader of a text that is fed in chunks. The bytes *ahead* are those of a chunk that it has not read yet.
ghost use Rattle.std.specs.Prelude.{◌≡◌, ◌≢◌, ◌↔◌, ◌<◌, ◌≤◌, ◌+◌, ℕ, [], ◌∷◌, ◌++◌, All, List, IfErr, IfOk, IfSome, IsTrue, MatchResult, None, length};
ghost use Rattle.geometry.specs.Facet.{Facet};
ghost use Rattle.micro_num.specs.declared.unit.Unit.{Unit as LengthUnit};
ghost use Rattle.stl_text.specs.declared.stl_fault.StlFault.TheVariants.{Memory};
ghost use Rattle.stl_text.specs.Text.{IsFaultOf, Reads};
ghost use Rattle.stl_text.specs.FacetRun.{IsFacetRun};
ghost use Rattle.stl_text.specs.Stage.{AtWord, in_facets, word_front};
ghost use Rattle.stl_text.specs.TextReader.{EndsAt, Feeds, IsAfter, IsReading, ReadsOn, StandsAt, WhateverFed, at_line, at_word};

use crate::chunk_parts::{ChunkParts, FacetRuns};
use crate::facet_run::{FacetRun, layout_within};
use crate::layout::{Layout, front_facet};
use crate::scanning::{skip_line, skip_space, word_len};
use crate::stage::{ReaderState, Stage, Step};
use crate::stl_fault::StlFault;
use crate::word::WORD_FRONT;
use geometry::Facet;
use micro_num::Unit;
use std::alloc::Allocator;
use std::marker::Model;
use std::mem::swap;
use std::thread::Threads;

/// Whether `facet` or `endsolid` is wanted.
fn is_among_facets(state: ReaderState) -> bool
    ensures { IsTrue result ↔ (state ≡ at_word in_facets) }
{
    matches!(state, ReaderState::Word(Stage::Facets))
}

/// Adds a facet, if memory suffices.
#[inline(always)]
fn add<A: Allocator>(facets: &mut Vec<Facet, A>, facet: Facet) -> Result<(), StlFault>
    ensures added { IfOk result (λ _. facets.new.items ≡ facets.old.items ++ facet ∷ []) }
    ensures fault { IfErr result (λ fault. fault ≡ Memory) }
{
    facets.push(facet)?;
    Ok(())
}

/// Adds the facets of a run, if memory suffices.
fn add_all<A: Allocator>(facets: &mut Vec<Facet, A>, run: &[Facet]) -> Result<(), StlFault>
    ensures added { IfOk result (λ _. facets.new.items ≡ facets.old.items ++ run.now) }
    ensures fault { IfErr result (λ fault. fault ≡ Memory) }
{
    facets.extend_from_slice(run)?;
    Ok(())
}

/// Keeps the front of a word that goes on with these bytes, if memory suffices.
fn hold<A: Allocator>(held: &mut Vec<u8, A>, bytes: &[u8]) -> Result<(), StlFault>
    ensures held { IfOk result (λ _. (word : List ℕ) → held.old.items ≡ word_front word
        → held.new.items ≡ word_front (word ++ bytes.now)) }
    ensures fault { IfErr result (λ fault. fault ≡ Memory) }
{
    let room = WORD_FRONT.saturating_sub(held.len());
    let (front, _) = bytes.split_at(room.min(bytes.len()));
    match held.extend_from_slice(front) {
        Ok(()) => Ok(()),
        Err(_) => Err(StlFault::Memory),
    }
}

/// Reads a whole word that begins at the byte offset `at`, and adds the facet that it ends. A long word may be given by its
/// front.
fn read_word<A: Allocator>(
    stage: Stage,
    word: &[u8],
    at: usize,
    limit: usize,
    unit: Unit,
    facets: &mut Vec<Facet, A>,
) -> ReaderState
    ensures { (taken : List Facet) (text after : List ℕ)
        → AtWord (length taken + limit) unit stage (taken ++ facets.old.items) text after word.now at
        → StandsAt (length taken + limit) unit result (taken ++ facets.new.items) text after }
{
    let room = limit.saturating_sub(facets.len());
    let step = match stage.step(word, at, room, unit) {
        Ok(step) => step,
        Err(fault) => return ReaderState::Stopped(fault),
    };
    match step {
        Step::To(next) => ReaderState::Word(next),
        Step::Line(next) => ReaderState::Line(next),
        Step::Whole(facet) => match add(facets, facet) {
            Ok(()) => ReaderState::Word(Stage::Facets),
            Err(fault) => ReaderState::Stopped(fault),
        },
    }
}

/// A reader of an ASCII STL text that arrives in chunks. They may be cut anywhere, also in a word, a number, a name or a line
/// break. It keeps the facets until they are taken, and between two chunks no more of the text than the first 256 bytes of a
/// word that is not whole yet. After a fault it reads no further. No clause says how much memory it takes.
#[derive(Drop)]
pub struct TextReader<A: Allocator> {
    /// The number of facets that the text may have in addition to those that were taken.
    limit: usize,
    /// The unit of its numbers.
    unit: Unit,
    /// The number of bytes so far.
    count: usize,
    /// The stage of the reading.
    state: ReaderState,
    /// The front of a word that is not whole yet, at most `WORD_FRONT` bytes.
    held: Vec<u8, A>,
    /// The byte offset at which that word begins.
    held_at: usize,
    /// The facets so far that were not taken.
    facets: Vec<Facet, A>,
}

impl<A: Allocator> Model for TextReader<A> {
    ghost use Rattle.stl_text.specs.TextReader.{TextReader};

    ghost Value = { TextReader };

    ghost view = { λ r. record {
      limit = r.limit;
      unit = r.unit;
      count = r.count;
      state = r.state;
      held = r.held.items;
      held_at = r.held_at;
      facets = r.facets.items;
    } };
}

impl<A: Allocator + Copy> TextReader<A> {
    /// A reader of a text that may have up to `limit` facets. Its numbers are in `unit`.
    pub fn new(alloc: A, limit: u32, unit: Unit) -> TextReader<A>
        ensures { IsAfter limit unit [] result [] }
    {
        TextReader {
            limit: limit as usize,
            unit,
            count: 0,
            state: ReaderState::Word(Stage::Between { some: false }),
            held: Vec::new(alloc),
            held_at: 0,
            facets: Vec::new(alloc),
        }
    }
}

impl<A: Allocator> TextReader<A> {
    /// Reads the next chunk of the text. Chunks may be cut anywhere.
    pub fn feed(&mut self, chunk: &[u8])
        ensures { Feeds self.old self.new chunk.now }
    {
        self.count_chunk(chunk);
        let rest = self.resume(chunk);
        self.read_to(rest, &layout_within(chunk), 0);
    }

    /// Reads the next chunk of the text, in which runs of facets were found. The result is that of [`TextReader::feed`] with
    /// this chunk, whichever runs they are.
    pub fn feed_runs(&mut self, found: FacetRuns<'_, A>)
        ensures { Feeds self.old self.new found.entry.bytes }
    {
        let is_own = found.unit() == self.unit;
        let (chunk, runs) = found.in_order();
        if !is_own || matches!(self.state, ReaderState::Stopped(_)) {
            self.feed(chunk);
            return;
        }
        self.read_by_runs(chunk, &runs);
    }

    /// Reads the next chunk of the text. Some of its runs are known, in the order in which they begin.
    fn read_by_runs<'p>(&mut self, chunk: &'p [u8], runs: &[FacetRun<'p, A>])
        ensures { WhateverFed self.old (λ limit unit taken fed.
            All (λ run. IsFacetRun unit chunk.now run.facets.items run.from.now run.to.now) runs.now
            → IsAfter limit unit taken self.new (fed ++ chunk.now)) }
    {
        self.count_chunk(chunk);
        let layout = layout_within(chunk);
        let mut rest = self.resume(chunk);
        for run in runs {
            rest = self.read_to(rest, &layout, run.from.len());
            rest = self.jump(rest, run);
        }
        self.read_to(rest, &layout, 0);
    }

    /// Jumps over a run and returns the bytes after it. It does so only if the bytes ahead begin with the run, `facet` or
    /// `endsolid` is wanted there, and the facets stay within the limit. Otherwise it returns the bytes ahead.
    fn jump<'p>(&mut self, ahead: &'p [u8], run: &FacetRun<'p, A>) -> &'p [u8]
        requires free { 0 < length ahead.now → self.old.held ≡ [] }
        ensures read { (limit : ℕ) (unit : LengthUnit) (taken : List Facet) (fed chunk : List ℕ)
            → IsFacetRun unit chunk run.now.facets.items run.now.from.now run.now.to.now
            → IsReading limit unit taken self.old (fed ++ chunk) ahead.now
            → IsReading limit unit taken self.new (fed ++ chunk) result.now }
        ensures free { 0 < length result.now → self.new.held ≡ [] }
    {
        if ahead.is_empty() || ahead.len() != run.from.len() {
            return ahead;
        }
        if !is_among_facets(self.state) {
            return ahead;
        }
        if self.limit.saturating_sub(self.facets.len()) < run.facets.len() {
            return ahead;
        }
        let rest = run.to;
        if let Err(fault) = add_all(&mut self.facets, &run.facets) {
            self.state = ReaderState::Stopped(fault);
            return rest;
        }
        rest
    }

    /// Reads the bytes ahead until at most `left` of them are left, and returns these.
    fn read_to<'p>(&mut self, ahead: &'p [u8], layout: &Option<Layout<'_>>, left: usize) -> &'p [u8]
        requires free { 0 < length ahead.now → self.old.held ≡ [] }
        ensures read { ReadsOn self.old ahead.now self.new result.now }
        ensures free { 0 < length result.now → self.new.held ≡ [] }
        ensures left { length result.now ≤ left }
    {
        let mut rest = ahead;
        'ahead: while rest.len() > left {
            rest = self.advance(rest, layout);
        }
        rest
    }

    /// Exchanges `list` for the facets that were read since the last call, in file order. `list` is emptied first, and its room
    /// serves the facets to come. Facets that were taken still count for the limit. They are facets of the text only if
    /// [`TextReader::finish`] reports no fault either.
    pub fn take_facets(&mut self, list: &mut Vec<Facet, A>)
        ensures after { WhateverFed self.old (λ limit unit taken fed. IsAfter limit unit (taken ++ self.old.facets) self.new fed) }
        ensures none { self.new.facets ≡ [] }
        ensures given { list.new.items ≡ self.old.facets }
    {
        self.limit = self.limit.saturating_sub(self.facets.len());
        list.clear();
        swap(&mut self.facets, list);
    }

    /// The facets of the text that was fed, in file order, without those that were taken.
    ///
    /// # Errors
    /// A text that does not read as facets has exactly one fault, that of [`read_stl_at_most`](crate::read_stl_at_most). It is
    /// returned unless memory runs out. The fault `Memory` comes only if an allocation failed, or after `usize::MAX` bytes.
    pub fn finish(self) -> Result<Vec<Facet, A>, StlFault>
        ensures found { WhateverFed self (λ limit unit taken fed. IfOk result (λ facets. Reads limit unit fed (taken ++ facets.items))) }
        ensures only { WhateverFed self (λ limit unit taken fed. (facets : List Facet) → Reads limit unit fed facets
            → MatchResult result (λ found. taken ++ found.items ≡ facets) (λ fault. fault ≡ Memory)) }
        ensures fault { WhateverFed self (λ limit unit taken fed. IfErr result (λ fault. fault ≢ Memory → IsFaultOf limit unit fed fault)) }
    {
        let mut reader = self;
        let state = reader.close();
        match state {
            ReaderState::Stopped(fault) => Err(fault),
            ReaderState::Word(stage) | ReaderState::Line(stage) => match stage.end() {
                Ok(()) => Ok(reader.facets),
                Err(fault) => Err(fault),
            },
        }
    }

    /// Counts the bytes of a chunk.
    fn count_chunk(&mut self, chunk: &[u8])
        ensures { WhateverFed self.old (λ limit unit taken fed. IsReading limit unit taken self.new (fed ++ chunk.now) chunk.now) }
    {
        match self.count.checked_add(chunk.len()) {
            Some(count) => self.count = count,
            None => self.state = ReaderState::Stopped(StlFault::Memory),
        }
    }

    /// Goes on with a word that the last chunk cut. Returns the bytes after it.
    fn resume<'p>(&mut self, chunk: &'p [u8]) -> &'p [u8]
        ensures read { ReadsOn self.old chunk.now self.new result.now }
        ensures free { 0 < length result.now → self.new.held ≡ [] }
    {
        if self.held.is_empty() {
            return chunk;
        }
        let (word, rest) = chunk.split_at(word_len(chunk));
        let ReaderState::Word(stage) = self.state else {
            return &[];
        };
        if let Err(fault) = hold(&mut self.held, word) {
            self.state = ReaderState::Stopped(fault);
            return &[];
        }
        if rest.is_empty() {
            return rest;
        }
        self.read_held(stage);
        rest
    }

    /// Reads what is at the front of the bytes ahead, at least one, and returns the bytes after it.
    fn advance<'p>(&mut self, ahead: &'p [u8], layout: &Option<Layout<'_>>) -> &'p [u8]
        requires free { self.old.held ≡ [] }
        requires some { 0 < length ahead.now }
        ensures read { ReadsOn self.old ahead.now self.new result.now }
        ensures free { 0 < length result.now → self.new.held ≡ [] }
        ensures shorter { length result.now < length ahead.now }
    {
        match self.state {
            ReaderState::Stopped(_) => &[],
            ReaderState::Line(stage) => self.line(stage, ahead),
            ReaderState::Word(stage) => {
                if matches!(stage, Stage::Facets) {
                    if let Some(rest) = self.facet(ahead, layout) {
                        return rest;
                    }
                }
                self.word(stage, ahead)
            },
        }
    }

    /// Reads the rest of a line, and its line break.
    fn line<'p>(&mut self, stage: Stage, ahead: &'p [u8]) -> &'p [u8]
        requires free { self.old.held ≡ [] }
        requires some { 0 < length ahead.now }
        requires state { self.old.state ≡ at_line stage }
        ensures read { ReadsOn self.old ahead.now self.new result.now }
        ensures free { 0 < length result.now → self.new.held ≡ [] }
        ensures shorter { length result.now < length ahead.now }
    {
        let rest = skip_line(ahead);
        if rest.is_empty() {
            return rest;
        }
        let (_, after) = rest.split_at(1);
        self.state = ReaderState::Word(stage);
        after
    }

    /// Reads a whole facet at the front, if there is one and it is within the limit. Returns the bytes after it.
    #[inline(always)]
    fn facet<'p>(&mut self, ahead: &'p [u8], layout: &Option<Layout<'_>>) -> Option<&'p [u8]>
        requires free { self.old.held ≡ [] }
        requires state { self.old.state ≡ at_word in_facets }
        ensures read { IfSome result (λ rest. ReadsOn self.old ahead.now self.new rest.now) }
        ensures free { IfSome result (λ rest. self.new.held ≡ []) }
        ensures shorter { IfSome result (λ rest. length rest.now < length ahead.now) }
        ensures none { result ≡ None → self.new ≡ self.old }
    {
        if self.facets.len() >= self.limit {
            return None;
        }
        let Some(found) = front_facet(ahead, self.unit, layout) else {
            return None;
        };
        let rest = found.1;
        if let Err(fault) = add(&mut self.facets, found.0) {
            self.state = ReaderState::Stopped(fault);
            return Some(&[]);
        }
        Some(rest)
    }

    /// Reads the word at the front, or keeps its front if the chunk ends in it. Returns the bytes after it.
    fn word<'p>(&mut self, stage: Stage, ahead: &'p [u8]) -> &'p [u8]
        requires free { self.old.held ≡ [] }
        requires some { 0 < length ahead.now }
        requires state { self.old.state ≡ at_word stage }
        ensures read { ReadsOn self.old ahead.now self.new result.now }
        ensures free { 0 < length result.now → self.new.held ≡ [] }
        ensures shorter { length result.now < length ahead.now }
    {
        let front = skip_space(ahead);
        if front.is_empty() {
            return front;
        }
        let (word, rest) = front.split_at(word_len(front));
        let at = self.count.saturating_sub(front.len());
        if rest.is_empty() {
            self.held_at = at;
            if let Err(fault) = hold(&mut self.held, word) {
                self.state = ReaderState::Stopped(fault);
            }
            return rest;
        }
        self.state = read_word(stage, word, at, self.limit, self.unit, &mut self.facets);
        rest
    }

    /// Reads the last word of the text. Returns the state at the end of the text.
    fn close(&mut self) -> ReaderState
        ensures { WhateverFed self.old (λ limit unit taken fed. EndsAt limit unit result (taken ++ self.new.facets) fed) }
    {
        let ReaderState::Word(last) = self.state else {
            return self.state;
        };
        if self.held.is_empty() {
            return self.state;
        }
        self.read_held(last);
        self.state
    }

    /// Reads the held word, which is whole now.
    fn read_held(&mut self, stage: Stage)
        ensures read { (taken : List Facet) (text after : List ℕ)
            → AtWord (length taken + self.old.limit) self.old.unit stage (taken ++ self.old.facets) text after self.old.held
            self.old.held_at
            → StandsAt (length taken + self.old.limit) self.old.unit self.new.state (taken ++ self.new.facets) text after }
        ensures same { (self.new.limit ≡ self.old.limit) × (self.new.unit ≡ self.old.unit) × (self.new.count ≡ self.old.count) }
        ensures free { self.new.held ≡ [] }
    {
        self.state = read_word(
            stage,
            self.held.as_slice(),
            self.held_at,
            self.limit,
            self.unit,
            &mut self.facets,
        );
        self.held.clear();
    }
}

impl<A: Allocator + Copy + Send + Sync> TextReader<A> {
    /// The parts of the next chunk of the text, in which up to `workers` workers look for runs of facets. There are none if the
    /// reader stopped at a fault.
    pub fn parts<'t>(&self, chunk: &'t [u8], workers: u32) -> ChunkParts<'t, A>
        ensures unit { result.unit ≡ self.now.unit }
        ensures bytes { result.bytes ≡ chunk.now }
    {
        let workers = if matches!(self.state, ReaderState::Stopped(_)) {
            0
        } else {
            workers
        };
        ChunkParts::of(*self.facets.allocator(), chunk, self.unit, workers)
    }

    /// Reads the next chunk of the text. A long one is read in parts by up to `workers` workers at the same time. The result is
    /// that of [`TextReader::feed`], for every number of workers.
    pub fn feed_by<R: Threads + Sync>(&mut self, rt: &R, chunk: &[u8], workers: u32)
        ensures { Feeds self.old self.new chunk.now }
    {
        let parts = self.parts(chunk, workers);
        self.feed_runs(parts.runs_by(rt, workers));
    }
}
