//! Texts of several parts in memory of which an allocation fails: the result is the usual one, or out of memory.
ghost use Rattle.std.specs.Prelude.{◌≤◌};
ghost use Rattle.geometry.specs.declared.limits.TheConstants.{FACET_LIMIT};

use crate::text_parts::{LEAST_OF_TWO_PARTS, add_facets, are_same, put_facets, put_remark};
use micro_num::Unit;
use short_memory::ShortMemory;
use std::alloc::{AllocError, Allocator, Global};
use std::test::Fail;
use std::thread::Threads;
use stl_text::{FACET_LIMIT, Facet, StlFault, TextReader, Word};

/// The number of groups of facets, of which each part has one, and that of the facets of each.
const GROUPS: u32 = 4;

const FACETS: u32 = 40;

/// The length of the remark before a group, in bytes.
const REMARK: usize = 30_000;

/// The numbers of workers beside the thread that reads.
const OTHERS: [u32; 2] = [2, 63];

/// A text of four parts, which ends after its last facet.
fn unended(alloc: Global) -> Result<Vec<u8>, AllocError> {
    let mut text = Vec::new(alloc);
    text.extend_from_slice(b"solid part\n")?;
    for _ in 0..GROUPS {
        put_remark(&mut text, REMARK)?;
        put_facets(&mut text, FACETS)?;
    }
    Ok(text)
}

/// The facets of that text.
fn facets_of(alloc: Global) -> Result<Vec<Facet>, AllocError> {
    let mut list = Vec::new(alloc);
    for _ in 0..GROUPS {
        add_facets(&mut list, FACETS)?;
    }
    Ok(list)
}

/// The result for a text in whose parts other workers look for runs of facets, and then the thread that reads.
fn in_parts<R: Threads + Sync, A: Allocator + Copy + Send + Sync>(
    rt: &R,
    alloc: A,
    text: &[u8],
    limit: u32,
    others: u32,
) -> Result<Vec<Facet, A>, StlFault>
    requires { limit ≤ FACET_LIMIT }
{
    let mut reader = TextReader::new(alloc, limit, Unit::Millimetre);
    let parts = reader.parts(text, 2);
    let mut found = parts.runs_by(rt, others);
    found.add(parts.runs());
    reader.feed_runs(found);
    reader.finish()
}

/// How many turns had the usual result although an allocation failed, and how many reported that one did.
#[derive(Clone, Copy)]
struct Turns {
    usual: u32,
    lacking: u32,
}

/// Fails each allocation in turn until none is left to fail. It is `None` if a result was neither of the two, or the last one,
/// which has all its memory, is not the usual one.
fn turns_of<R: Threads + Sync>(
    rt: &R,
    alloc: Global,
    text: &[u8],
    limit: u32,
    others: u32,
    usual: &Result<Vec<Facet>, StlFault>,
) -> Option<Turns>
    requires { limit ≤ FACET_LIMIT }
{
    let mut turns = Turns {
        usual: 0,
        lacking: 0,
    };
    for turn in 1..400 {
        let memory = ShortMemory::new(alloc, turn);
        let found = in_parts(rt, &memory, text, limit, others);
        let same = are_same(usual, &found);
        if !memory.has_failed() {
            return same.then_some(turns);
        }
        if same {
            turns.usual = turns.usual.saturating_add(1);
        } else if found.err() == Some(StlFault::Memory) {
            turns.lacking = turns.lacking.saturating_add(1);
        } else {
            return None;
        }
    }
    None
}

/// Whether a text has its usual result or lacks memory, by other workers too. By one thread the turns are always the same. The
/// reader does without what is lacking in the four runs, and reports what is lacking in its own list.
fn fails_well<R: Threads + Sync>(
    rt: &R,
    alloc: Global,
    text: &[u8],
    limit: u32,
    usual: &Result<Vec<Facet>, StlFault>,
) -> bool
    requires { limit ≤ FACET_LIMIT }
{
    for others in OTHERS {
        if turns_of(rt, alloc, text, limit, others, usual).is_none() {
            return false;
        }
    }
    match turns_of(rt, alloc, text, limit, 0, usual) {
        Some(turns) => turns.usual > 4 && turns.lacking > 0,
        None => false,
    }
}

#[test]
fn each_allocation_of_parts_fails_in_turn(rt: HostRuntime) -> Result<(), Fail> {
    let mut text = unended(rt.alloc())?;
    text.extend_from_slice(b"endsolid part\n")?;
    assert!(rt; 2 * LEAST_OF_TWO_PARTS <= text.len());
    let usual = Ok(facets_of(rt.alloc())?);
    assert!(rt; fails_well(&rt, rt.alloc(), &text, FACET_LIMIT, &usual));
    Ok(())
}

#[test]
fn each_allocation_fails_before_a_fault(rt: HostRuntime) -> Result<(), Fail> {
    let text = unended(rt.alloc())?;
    assert!(rt; 2 * LEAST_OF_TWO_PARTS <= text.len());
    let word = Word::FacetOrEnd;
    let usual = Err(StlFault::Ended { word });
    assert!(rt; fails_well(&rt, rt.alloc(), &text, FACET_LIMIT, &usual));
    Ok(())
}

#[test]
fn each_allocation_fails_before_a_facet_too_many(rt: HostRuntime) -> Result<(), Fail> {
    let mut text = unended(rt.alloc())?;
    assert!(rt; 2 * LEAST_OF_TWO_PARTS <= text.len());
    let usual = Err(StlFault::TooMany { at: text.len() });
    put_facets(&mut text, 1)?;
    assert!(rt; fails_well(&rt, rt.alloc(), &text, GROUPS * FACETS, &usual));
    Ok(())
}
