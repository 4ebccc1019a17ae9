//! Reads a text to its end: the facets that it spells, and the closed mesh that they make.
ghost use Rattle.std.specs.Prelude.{◌≡◌, ◌≤◌, ◌++◌, IfErr, List, Ok, OnOk, Option, false, length, ℕ};
ghost use Rattle.std.specs.Io.KnownBytes.{IsAtEnd};
ghost use Rattle.geometry.specs.Facet.{Facet};
ghost use Rattle.micro_num.specs.declared.unit.Unit.{Unit as LengthUnit};
ghost use Rattle.devices.specs.Devices.{Fails};
ghost use Rattle.mesh_reading.specs.Loading.{IsAllWelded, IsFedBySource, IsLoadFault, IsLoaded, IsMadeOfSource, IsMisread, IsReadToEnd, IsSolidOf, IsTextExtent, OfText};
ghost use Rattle.devices.specs.Transcript.{transcript_of};
ghost use Rattle.mesh_reading.specs.declared.read_fault.ReadFault.TheVariants.{Read};

use crate::extent::Extent;
use crate::read_fault::ReadFault;
use crate::round::Rounds;
use crate::round_work::{read_and_weld, weld_next};
use crate::window::{LEAST_READ, WINDOW_LEN, fill};
use devices::Source;
use geometry::{FACET_LIMIT, Facet};
use mesh_weld::{Solid, Welder};
use micro_num::Unit;
use std::alloc::Allocator;
use std::thread::Threads;
use stl_text::TextReader;

/// The number of bytes for each worker, if several read at the same time.
const WORKER_LEN: usize = 1 << 20;

/// The greatest number of bytes that a round waits for. A round may have up to a window more. Two rounds and the program itself
/// take less than 20 MB.
const ROUND_LIMIT: usize = 7 << 20;

/// The closed mesh of an ASCII STL text whose numbers are in `unit`. Facets with two equal corners are dropped.
///
/// # Errors
/// - `Stl` if the text does not read as facets,
/// - else `Weld` if the edges of all its facets do not balance.
///
/// Memory aside, a text has one result. `Memory` comes only if an allocation failed. No other fault comes.
pub fn load<A: Allocator + Copy + Send + Sync>(
    alloc: A,
    bytes: &[u8],
    unit: Unit,
) -> Result<Solid<A>, ReadFault>
    ensures { IsLoaded unit bytes.now result }
{
    let welder = Welder::new(alloc);
    let mut reader = TextReader::new(alloc, FACET_LIMIT, unit);
    reader.feed(bytes);
    weld_end(reader, welder)
}

/// The closed mesh that a source spells. The source is read to its end, and its facets are welded as they come. A window of the
/// text is held, with the front of a word that it cuts, and the facets of a window that are not welded yet.
///
/// # Errors
/// Those of [`load`], and `Read` if a call of the source failed, which is not tried again. The source is read to its end
/// unless the fault is `Read` or `Memory`.
pub fn read_solid<A: Allocator + Copy + Send + Sync, I: Source>(
    alloc: A,
    source: &mut I,
    unit: Unit,
) -> Result<Solid<A>, ReadFault>
    ensures { IsMadeOfSource (IsSolidOf unit) (IsLoadFault unit) result
        (transcript_of I.remaining I.Failures.failure_count source.old source.new) }
{
    let mut fresh = Vec::new(alloc);
    let mut reader = TextReader::new(alloc, FACET_LIMIT, unit);
    let mut welder = Welder::new(alloc);
    weld_windows(source, &mut reader, &mut welder, &mut fresh)?;
    weld_end(reader, welder)
}

/// [`read_solid`] by up to `workers` workers at the same time. Several workers read rounds instead of windows. Two rounds are
/// held: one is read, and the other is filled. The facets of two rounds are held: some are welded, and some are read meanwhile.
///
/// # Errors
/// Those of [`read_solid`].
pub fn read_solid_by<R: Threads + Sync, A: Allocator + Copy + Send + Sync, I: Source>(
    rt: &R,
    alloc: A,
    source: &mut I,
    unit: Unit,
    workers: u32,
) -> Result<Solid<A>, ReadFault>
    ensures { IsMadeOfSource (IsSolidOf unit) (IsLoadFault unit) result
        (transcript_of I.remaining I.Failures.failure_count source.old source.new) }
{
    if workers < 2 {
        return read_solid(alloc, source, unit);
    }
    let mut reader = TextReader::new(alloc, FACET_LIMIT, unit);
    let mut welder = Welder::new(alloc);
    weld_by_workers(rt, workers, alloc, source, &mut reader, &mut welder)?;
    weld_end_by(rt, reader, welder)
}

/// Reads a source to its end in windows. It feeds a reader with each window, and adds the facets that it takes off the reader
/// to a welder. It overwrites `fresh`, which has the facets of one window after another.
fn weld_windows<A: Allocator + Copy + Send + Sync, I: Source>(
    source: &mut I,
    reader: &mut TextReader<A>,
    welder: &mut Welder<A>,
    fresh: &mut Vec<Facet, A>,
) -> Result<(), ReadFault>
    ensures { IsReadToEnd I.remaining I.Failures.failure_count source.old source.new reader.old reader.new welder.old welder.new result }
{
    let mut window = [0; WINDOW_LEN];
    // the bound proves that the loop ends; no input is that long
    for _ in 0..u64::MAX {
        let is_more = next_facets(source, &mut window, reader, fresh)?;
        weld_next(welder, fresh.as_slice())?;
        if !is_more {
            return Ok(());
        }
    }
    // never reached
    Err(ReadFault::Memory)
}

/// The same as [`weld_windows`], in rounds that up to `workers` workers read at the same time.
fn weld_by_workers<R: Threads + Sync, A: Allocator + Copy + Send + Sync, I: Source>(
    rt: &R,
    workers: u32,
    alloc: A,
    source: &mut I,
    reader: &mut TextReader<A>,
    welder: &mut Welder<A>,
) -> Result<(), ReadFault>
    ensures { IsReadToEnd I.remaining I.Failures.failure_count source.old source.new reader.old reader.new welder.old welder.new result }
{
    let mut rounds = Rounds::new(alloc, round_len(workers))?;
    // the bound proves that the loop ends; no input is that long
    for _ in 0..u64::MAX {
        read_and_weld(rt, workers, source, reader, welder, &mut rounds)?;
        if rounds.round.is_last() {
            return weld_next(welder, rounds.facets.as_slice());
        }
        rounds.turn();
    }
    // never reached
    Err(ReadFault::Memory)
}

/// The closed mesh of the facets that a welder has, and of those after them that a reader still has at the end of its
/// text.
fn weld_end<A: Allocator + Copy + Send + Sync>(
    reader: TextReader<A>,
    welder: Welder<A>,
) -> Result<Solid<A>, ReadFault>
    ensures { OfText welder reader (λ unit fed. IsLoaded unit fed result) }
{
    let all = weld_last(reader, welder)?;
    Ok(all.finish()?)
}

/// [`weld_end`] by several threads at the same time.
fn weld_end_by<R: Threads + Sync, A: Allocator + Copy + Send + Sync>(
    rt: &R,
    reader: TextReader<A>,
    welder: Welder<A>,
) -> Result<Solid<A>, ReadFault>
    ensures { OfText welder reader (λ unit fed. IsLoaded unit fed result) }
{
    let all = weld_last(reader, welder)?;
    Ok(all.finish_by(rt)?)
}

/// The welder with the facets that a reader still has at the end of its text.
fn weld_last<A: Allocator + Copy + Send + Sync>(
    reader: TextReader<A>,
    mut welder: Welder<A>,
) -> Result<Welder<A>, ReadFault>
    ensures { OfText welder reader (λ unit fed. IsAllWelded unit fed result) }
{
    let last = reader.finish()?;
    weld_next(&mut welder, last.as_slice())?;
    Ok(welder)
}

/// The number of bytes that the longest rounds of these workers wait for.
fn round_len(workers: u32) -> usize {
    WORKER_LEN.saturating_mul(workers as usize).min(ROUND_LIMIT)
}

/// How many facets a source spells, and their bounding box. It is read to its end; neither its text nor its facets are
/// held.
///
/// # Errors
/// Those of [`read_solid`], but for `Weld`: the facets need not be closed.
pub fn read_extent<A: Allocator + Copy + Send + Sync, I: Source>(
    alloc: A,
    source: &mut I,
    unit: Unit,
) -> Result<Extent, ReadFault>
    ensures { IsMadeOfSource (IsTextExtent unit) (IsMisread unit) result
        (transcript_of I.remaining I.Failures.failure_count source.old source.new) }
{
    let mut reader = TextReader::new(alloc, FACET_LIMIT, unit);
    let mut extent = Extent::none();
    let mut facets = Vec::new(alloc);
    let mut window = [0; WINDOW_LEN];
    // the bound proves that the loop ends; no input is that long
    for _ in 0..u64::MAX {
        let is_more = next_facets(source, &mut window, &mut reader, &mut facets)?;
        extent = extent.with(facets.as_slice());
        if !is_more {
            let last = reader.finish()?;
            return Ok(extent.with(&last));
        }
    }
    // never reached
    Err(ReadFault::Memory)
}

/// Fills a window from a source, feeds a reader with it, and takes off the reader the facets that are whole then. Returns
/// `false` at the end of the source.
fn next_facets<A: Allocator, I: Source>(
    source: &mut I,
    window: &mut [u8],
    reader: &mut TextReader<A>,
    facets: &mut Vec<Facet, A>,
) -> Result<bool, ReadFault>
    requires { LEAST_READ ≤ length window.old }
    ensures len { length window.new ≡ length window.old }
    ensures fed { OnOk result ((unit : LengthUnit) (taken : List Facet) (start : Option (List ℕ))
        → IsFedBySource unit taken reader.old start (I.remaining source.old)
        → IsFedBySource unit (taken ++ facets.new.items) reader.new start (I.remaining source.new)) }
    ensures whole { result ≡ Ok false → IsAtEnd (I.remaining source.new) }
    ensures err { IfErr result (λ fault. (fault ≡ Read) × Fails (I.Failures.failure_count source.old) (I.Failures.failure_count source.new)) }
    ensures sound { OnOk result (I.Failures.failure_count source.new ≡ I.Failures.failure_count source.old) }
{
    let count = fill(source, window)?;
    reader.feed(&window[..count]);
    reader.take_facets(facets);
    Ok(count > 0)
}
