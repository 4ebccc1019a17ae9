//! The work on a round of a text that several workers share. They weld the facets of the round before, fill the next round, and
//! look for runs of facets in parts of this round.
ghost use Rattle.std.specs.Prelude.{◌≡◌, ◌≤◌, ◌+◌, ◌++◌, IfErr, List, Ok, OnOk, length, ℕ};
ghost use Rattle.std.specs.Result.{result_and};
ghost use Rattle.geometry.specs.Facet.{Facet};
ghost use Rattle.geometry.specs.declared.limits.TheConstants.{FACET_LIMIT};
ghost use Rattle.mesh_weld.specs.Welder.{welder_of};
ghost use Rattle.micro_num.specs.declared.unit.Unit.{Unit as LengthUnit};
ghost use Rattle.stl_text.specs.TextReader.{IsAfter};
ghost use Rattle.mesh_reading.specs.Loading.{HasWelded, IsFilled};
ghost use Rattle.mesh_reading.specs.declared.read_fault.ReadFault.TheVariants.{Memory};

use crate::read_fault::ReadFault;
use crate::round::{Round, Rounds};
use devices::Source;
use geometry::{FACET_LIMIT, Facet};
use mesh_weld::Welder;
use std::alloc::{AllocError, Allocator};
use std::thread::{Threads, join_mut};
use stl_text::{ChunkParts, FacetRuns, TextReader};

/// Feeds a reader with a round, and takes off the reader the facets that are whole then. Meanwhile the facets of the round
/// before are welded, and the next round is filled. Up to `workers` workers find runs of facets in parts of the round. The
/// reader jumps over these, and reads the rest by itself.
pub(crate) fn read_and_weld<R: Threads + Sync, A: Allocator + Copy + Send + Sync, I: Source>(
    rt: &R,
    workers: u32,
    source: &mut I,
    reader: &mut TextReader<A>,
    welder: &mut Welder<A>,
    rounds: &mut Rounds<A>,
) -> Result<(), ReadFault>
    ensures fed { (unit : LengthUnit) (taken : List Facet) (fed : List ℕ) → IsAfter FACET_LIMIT unit taken reader.old fed
        → IsAfter FACET_LIMIT unit (taken ++ rounds.new.facets.items) reader.new (fed ++ rounds.old.round.bytes) }
    ensures welded { OnOk result (HasWelded rounds.old.facets.items welder.old welder.new) }
    ensures filled { IsFilled I.remaining I.Failures.failure_count source.old source.new rounds.old.next rounds.new.next result }
    ensures round { rounds.new.round ≡ rounds.old.round }
{
    let parts = reader.parts(rounds.round.bytes(), workers);
    let facets = rounds.facets.as_slice();
    let (found, done) = weld_and_find(
        rt,
        workers,
        source,
        &mut rounds.next,
        &parts,
        welder,
        facets,
    );
    reader.feed_runs(found);
    reader.take_facets(&mut rounds.facets);
    done
}

/// Adds facets to a welder, fills the next round, and finds runs in the parts of a chunk, by up to `workers` workers at the same
/// time. If reading fails and memory is short, the failed read is the fault.
///
/// A new thread may share the processor of the one that made it, until that one waits. Others draw more of the parts meanwhile.
fn weld_and_find<'t, R: Threads + Sync, A: Allocator + Copy + Send + Sync, I: Source>(
    rt: &R,
    workers: u32,
    source: &mut I,
    next: &mut Round<A>,
    parts: &ChunkParts<'t, A>,
    welder: &mut Welder<A>,
    facets: &[Facet],
) -> (FacetRuns<'t, A>, Result<(), ReadFault>)
    ensures found { result.0 ≡ parts.now }
    ensures welded { OnOk result.1 (HasWelded facets.now welder.old welder.new) }
    ensures filled { IsFilled I.remaining I.Failures.failure_count source.old source.new next.old next.new result.1 }
{
    if workers < 3 {
        return weld_then_fill(rt, source, next, parts, welder, facets);
    }
    // three workers have tasks of their own: those that number and name for the welder, and the one that fills
    let others = workers - 3;
    let find = || -> FacetRuns<A>
        ensures { result ≡ parts.entry.now }
    { parts.runs() };
    let mut fill = || -> (FacetRuns<A>, Result<(), ReadFault>)
        ensures found { result.0 ≡ parts.entry.now }
        ensures filled { IsFilled I.remaining I.Failures.failure_count source.entry.now source.exit.now next.entry.now next.exit.now result.1 }
    { fill_beside(rt, others, source, next, parts) };
    let room = with_room(welder, facets);
    let (welded, (first, second), (mut all, filled)) = welder.add_beside(
        rt, room, &find, &mut fill,
    );
    all.add(first);
    all.add(second);
    (all, filled.and(weld_fault(welded)))
}

/// A failed allocation of a welder, as a fault of reading.
fn weld_fault(welded: Result<(), AllocError>) -> Result<(), ReadFault>
    ensures welded { OnOk result (welded ≡ Ok tt) }
    ensures only { IfErr result (λ fault. fault ≡ Memory) }
{
    welded?;
    Ok(())
}

/// The same as [`weld_and_find`] by two workers, of which one looks for runs alone.
fn weld_then_fill<'t, R: Threads + Sync, A: Allocator + Copy + Send + Sync, I: Source>(
    rt: &R,
    source: &mut I,
    next: &mut Round<A>,
    parts: &ChunkParts<'t, A>,
    welder: &mut Welder<A>,
    facets: &[Facet],
) -> (FacetRuns<'t, A>, Result<(), ReadFault>)
    ensures found { result.0 ≡ parts.now }
    ensures welded { OnOk result.1 (HasWelded facets.now welder.old welder.new) }
    ensures filled { IsFilled I.remaining I.Failures.failure_count source.old source.new next.old next.new result.1 }
{
    let mut find = || -> FacetRuns<A>
        ensures { result ≡ parts.entry.now }
    { parts.runs() };
    let mut rest = || -> (Result<(), ReadFault>, (FacetRuns<A>, Result<(), ReadFault>))
        ensures welded { OnOk result.0 (HasWelded facets.entry.now welder.entry.now welder.exit.now) }
        ensures only { IfErr result.0 (λ fault. fault ≡ Memory) }
        ensures found { result.1.0 ≡ parts.entry.now }
        ensures filled { IsFilled I.remaining I.Failures.failure_count source.entry.now source.exit.now next.entry.now next.exit.now result.1.1 }
    {
        let welded = weld_next(welder, facets);
        (welded, fill_first(source, next, parts))
    };
    let (mut found, (welded, (more, filled))) = join_mut(rt, &mut find, &mut rest);
    found.add(more);
    (found, filled.and(welded))
}

/// Fills the next round as [`fill_first`] does, while `others` workers look for runs too.
fn fill_beside<'t, R: Threads + Sync, A: Allocator + Copy + Send + Sync, I: Source>(
    rt: &R,
    others: u32,
    source: &mut I,
    next: &mut Round<A>,
    parts: &ChunkParts<'t, A>,
) -> (FacetRuns<'t, A>, Result<(), ReadFault>)
    ensures found { result.0 ≡ parts.now }
    ensures filled { IsFilled I.remaining I.Failures.failure_count source.old source.new next.old next.new result.1 }
{
    if others == 0 {
        return fill_first(source, next, parts);
    }
    let (mut found, (more, filled)) = join_mut(
        rt,
        &mut || parts.runs_by(rt, others),
        &mut || fill_first(source, next, parts),
    );
    found.add(more);
    (found, filled)
}

/// Fills the next round from a source, and then finds runs in the parts that nobody has drawn yet.
fn fill_first<'t, A: Allocator + Copy, I: Source>(
    source: &mut I,
    next: &mut Round<A>,
    parts: &ChunkParts<'t, A>,
) -> (FacetRuns<'t, A>, Result<(), ReadFault>)
    ensures found { result.0 ≡ parts.now }
    ensures filled { IsFilled I.remaining I.Failures.failure_count source.old source.new next.old next.new result.1 }
{
    let filled = next.fill(source);
    (parts.runs(), filled)
}

/// Adds facets to a welder, unless it would then have more than `FACET_LIMIT`: a text with more is at fault and makes
/// no mesh.
pub(crate) fn weld_next<A: Allocator + Copy + Send + Sync>(
    welder: &mut Welder<A>,
    facets: &[Facet],
) -> Result<(), ReadFault>
    ensures welded { OnOk result (HasWelded facets.now welder.old welder.new) }
    ensures only { IfErr result (λ fault. fault ≡ Memory) }
{
    let room = with_room(welder, facets);
    welder.add(room)?;
    Ok(())
}

/// The facets, or none of them if a welder would then have more than `FACET_LIMIT`.
fn with_room<'f, A: Allocator + Copy + Send + Sync>(
    welder: &Welder<A>,
    facets: &'f [Facet],
) -> &'f [Facet]
    ensures few { length welder.now.kept + length welder.now.degenerate + length result.now ≤ FACET_LIMIT }
    ensures all { (taken : List Facet) → welder.now ≡ welder_of taken → length (taken ++ facets.now) ≤ FACET_LIMIT → result.now ≡ facets.now }
{
    if facets.len() > (FACET_LIMIT as usize).saturating_sub(welder.count()) {
        return &[];
    }
    facets
}
