//! The facets of a text that is in memory as a whole: a [`TextReader`] that is fed once.
ghost use Rattle.stl_text.specs.Reading.{IsAnswerTo};
ghost use Rattle.geometry.specs.declared.limits.TheConstants.{FACET_LIMIT};

use crate::stl_fault::StlFault;
use crate::text_reader::TextReader;
use geometry::{FACET_LIMIT, Facet};
use micro_num::Unit;
use std::alloc::Allocator;
use std::thread::Threads;

/// The facets of an ASCII STL text in file order, at most `limit` of them. ASCII STL is a format of 3D Systems'
/// StereoLithography Interface Specification (1989).
///
/// A text is one or more solids: `solid` and a name up to the end of its line, any number of facets, `endsolid` and the rest of
/// its line. Keywords are read in any case, and a normal is any three words. The text's numbers are in `unit`; points are in
/// whole micrometres.
///
/// # Errors
/// A text that does not read as facets has exactly one fault, which is returned unless memory runs out. It is at the first word
/// that does not fit:
/// - `Expected` if a keyword is wanted there,
/// - `Number` if a coordinate of a vertex is wanted there,
/// - `TooMany` if the word is the `facet` of one facet more than `limit`, over all solids,
/// - `Ended` if the text ends and a word is wanted.
///
/// `Memory` comes only if an allocation failed.
pub fn read_stl_at_most<A: Allocator + Copy + Send + Sync>(
    alloc: A,
    bytes: &[u8],
    limit: u32,
    unit: Unit,
) -> Result<Vec<Facet, A>, StlFault>
    ensures { IsAnswerTo limit unit bytes.now result }
{
    let mut reader = TextReader::new(alloc, limit, unit);
    reader.feed(bytes);
    reader.finish()
}

/// The facets of an ASCII STL text in file order, at most [`FACET_LIMIT`] of them: [`read_stl_at_most`] with this
/// limit.
pub fn read_stl<A: Allocator + Copy + Send + Sync>(
    alloc: A,
    bytes: &[u8],
    unit: Unit,
) -> Result<Vec<Facet, A>, StlFault>
    ensures { IsAnswerTo FACET_LIMIT unit bytes.now result }
{
    read_stl_at_most(alloc, bytes, FACET_LIMIT, unit)
}

/// The facets of an ASCII STL text in file order, at most `limit` of them, read by up to `workers` workers at the same time. It
/// returns what [`read_stl_at_most`] returns, for every number of workers, unless memory runs out (`Memory`).
pub fn read_stl_by<R: Threads + Sync, A: Allocator + Copy + Send + Sync>(
    rt: &R,
    alloc: A,
    bytes: &[u8],
    limit: u32,
    unit: Unit,
    workers: u32,
) -> Result<Vec<Facet, A>, StlFault>
    ensures { IsAnswerTo limit unit bytes.now result }
{
    let mut reader = TextReader::new(alloc, limit, unit);
    reader.feed_by(rt, bytes, workers);
    reader.finish()
}
