//! Long texts with a passage among their facets that may be taken for something else: they are cut in two, or their parts meet,
//! at each byte of the passage.
ghost use Rattle.std.specs.Prelude.{◌≤◌};
ghost use Rattle.geometry.specs.declared.limits.TheConstants.{FACET_LIMIT};

use crate::text_parts::{
    LEAST_OF_TWO_PARTS, TWO_AND_MOST, add_facets, are_same, in_two, put_facets, put_remark,
};
use micro_num::Unit;
use std::alloc::{AllocError, Global};
use std::thread::Threads;
use stl_text::{FACET_LIMIT, Facet, StlFault, Word, read_stl_by};

/// The number of facets of each group.
const GROUP: u32 = 3;

/// The length of no remark.
const NO_REMARK: usize = 0;

/// The length of a remark that makes a chunk of two parts.
const LONG_REMARK: usize = LEAST_OF_TWO_PARTS;

/// The length of the remark before a passage in a text whose two parts meet behind the passage, if white space is added.
const REMARK_BEFORE: usize = 33_500;

/// The length of the remark after the passage in that text.
const REMARK_AFTER: usize = 32_200;

/// A passage of a text, and what is read of it: the number of facets with which a solid begins, or else a byte where `outer` is
/// wanted.
#[derive(Clone, Copy)]
struct Passage {
    bytes: &'static [u8],
    facets: u32,
    wants_outer: Option<usize>,
}

/// A rest of a line and a name that spell facets.
const NAMES: Passage = Passage {
    bytes: b"endsolid endfacet facet normal 0 0 0 outer loop vertex 1 1 1 vertex 1 1 2 vertex 1 2 1 endloop endfacet\n\
        solid endfacet facet normal 0 0 0 outer loop vertex 1 1 1 vertex 1 1 2 vertex 1 2 1 endloop endfacet facet\n",
    facets: 0,
    wants_outer: None,
};

/// A solid of one facet between names that end in `endfacet`.
const SOLID: Passage = Passage {
    bytes: b"endsolid facet endfacet\nsolid endfacet\nfacet normal 0 0 1 outer loop vertex 0 0 0 vertex 1.5 0 0\n\
        vertex 0 1 0 endloop endfacet endsolid endfacet\nsolid facet endfacet\n",
    facets: 1,
    wants_outer: None,
};

/// A facet with a normal that spells the end of one and the beginning of another.
const NORMAL: Passage = Passage {
    bytes: b"facet normal endfacet facet normal outer loop vertex 0 0 0 vertex 1.5 0 0 vertex 0 1 0 endloop endfacet\n",
    facets: 1,
    wants_outer: None,
};

/// A normal that spells the end of a facet and that of a solid. The reader wants `outer` at the beginning of the second line.
/// From there on the text would be another solid.
const BROKEN: Passage = Passage {
    bytes: b"facet normal endfacet endsolid a\nsolid b\n",
    facets: 0,
    wants_outer: Some(33),
};

/// A text with a passage among its facets, which begins at the byte `from` and ends at `to`. The second facet of the last group
/// begins at `second`.
#[derive(Drop)]
struct PassageText {
    text: Vec<u8>,
    from: usize,
    to: usize,
    second: usize,
}

/// Begins a text with groups of facets before a passage, and a remark of this length.
fn put_before(text: &mut Vec<u8>, before: usize) -> Result<(), AllocError> {
    text.extend_from_slice(b"solid part\n")?;
    put_facets(text, GROUP)?;
    put_remark(text, before)?;
    put_facets(text, GROUP)
}

/// The length of a solid's first facet.
fn first_length(alloc: Global) -> Result<usize, AllocError> {
    let mut first = Vec::new(alloc);
    put_facets(&mut first, 1)?;
    Ok(first.len())
}

/// Ends a text with groups of facets after a passage, and a remark of this length. Returns where the second facet of the last
/// group begins.
fn put_after(alloc: Global, text: &mut Vec<u8>, after: usize) -> Result<usize, AllocError> {
    put_facets(text, GROUP)?;
    put_remark(text, after)?;
    let second = text.len().saturating_add(first_length(alloc)?);
    put_facets(text, GROUP)?;
    text.extend_from_slice(b"endsolid part\n")?;
    Ok(second)
}

/// A passage between groups of facets, with a remark before it and one after it.
fn text_around(
    alloc: Global,
    before: usize,
    passage: Passage,
    after: usize,
) -> Result<PassageText, AllocError> {
    let mut text = Vec::new(alloc);
    put_before(&mut text, before)?;
    let from = text.len();
    text.extend_from_slice(passage.bytes)?;
    let to = text.len();
    let second = put_after(alloc, &mut text, after)?;
    Ok(PassageText {
        text,
        from,
        to,
        second,
    })
}

/// The result of a reading.
type Answer = Result<Vec<Facet>, StlFault>;

/// The facets of such a text, of which the passage has this many.
fn facets_with(alloc: Global, count: u32) -> Result<Vec<Facet>, AllocError> {
    let mut facets = Vec::new(alloc);
    for number in &[GROUP, GROUP, count, GROUP, GROUP] {
        add_facets(&mut facets, *number)?;
    }
    Ok(facets)
}

/// The result for a text with a passage that begins at the byte `from`.
fn answer(alloc: Global, passage: Passage, from: usize) -> Result<Answer, AllocError> {
    match passage.wants_outer {
        Some(byte) => {
            let at = from.saturating_add(byte);
            let word = Word::Outer;
            Ok(Err(StlFault::Expected { word, at }))
        }
        None => Ok(Ok(facets_with(alloc, passage.facets)?)),
    }
}

/// Whether a text has this result if it is cut in two at each byte of its passage. One of the two chunks has two parts.
fn is_passage_cut_well<R: Threads + Sync>(
    rt: &R,
    alloc: Global,
    cut: &PassageText,
    limit: u32,
    answer: &Answer,
) -> bool
    requires { limit ≤ FACET_LIMIT }
{
    let text = cut.text.as_slice();
    let is_long = cut.from >= LEAST_OF_TWO_PARTS;
    if !is_long && text.len().saturating_sub(cut.to) < LEAST_OF_TWO_PARTS {
        return false;
    }
    for at in cut.from..=cut.to {
        for workers in TWO_AND_MOST {
            let chunks = text.split_at(at.min(text.len()));
            if !are_same(&in_two(rt, alloc, chunks, limit, workers), answer) {
                return false;
            }
        }
    }
    true
}

/// Adds line breaks to a text until its middle is at this byte.
fn stretch(text: &mut Vec<u8>, middle: usize) -> Result<(), AllocError> {
    for _ in text.len()..middle.saturating_mul(2) {
        text.push(b'\n')?;
    }
    Ok(())
}

/// Whether a text has this result if its two parts meet at each byte of its passage.
fn is_parted_well<R: Threads + Sync>(
    rt: &R,
    alloc: Global,
    parted: PassageText,
    limit: u32,
    answer: &Answer,
) -> Result<bool, AllocError>
    requires { limit ≤ FACET_LIMIT }
{
    let PassageText {
        mut text,
        from,
        to,
        ..
    } = parted;
    if from < text.len() / 2 || from < LEAST_OF_TWO_PARTS / 2 {
        return Ok(false);
    }
    for middle in from..=to {
        stretch(&mut text, middle)?;
        for workers in TWO_AND_MOST {
            let found = read_stl_by(rt, alloc, &text, limit, Unit::Millimetre, workers);
            if !are_same(&found, answer) {
                return Ok(false);
            }
        }
    }
    Ok(true)
}

/// Whether a passage is read as it should be at each cut: before a chunk of two parts, after one, and where its parts meet.
fn is_read_well<R: Threads + Sync>(
    rt: &R,
    alloc: Global,
    passage: Passage,
) -> Result<bool, AllocError> {
    for (before, after) in [(NO_REMARK, LONG_REMARK), (LONG_REMARK, NO_REMARK)] {
        let cut = text_around(alloc, before, passage, after)?;
        let told = answer(alloc, passage, cut.from)?;
        if !is_passage_cut_well(rt, alloc, &cut, FACET_LIMIT, &told) {
            return Ok(false);
        }
    }
    let parted = text_around(alloc, REMARK_BEFORE, passage, REMARK_AFTER)?;
    let told = answer(alloc, passage, parted.from)?;
    is_parted_well(rt, alloc, parted, FACET_LIMIT, &told)
}

#[test]
fn a_rest_of_a_line_and_a_name_that_spell_facets(rt: HostRuntime) {
    assert!(rt; is_read_well(&rt, rt.alloc(), NAMES) == Ok(true));
}

#[test]
fn a_solid_of_one_facet(rt: HostRuntime) {
    assert!(rt; is_read_well(&rt, rt.alloc(), SOLID) == Ok(true));
}

#[test]
fn a_normal_that_spells_the_end_of_a_facet(rt: HostRuntime) {
    assert!(rt; is_read_well(&rt, rt.alloc(), NORMAL) == Ok(true));
}

/// The fault comes though a run of facets begins in the normal, and goes on into the solid after it.
#[test]
fn a_normal_that_spells_the_end_of_a_solid(rt: HostRuntime) {
    assert!(rt; is_read_well(&rt, rt.alloc(), BROKEN) == Ok(true));
}

/// A limit that permits the first facet of the last group.
const LATE_LIMIT: u32 = 3 * GROUP + 1;

/// Whether a text has a facet too many at each cut.
fn is_cut_too_many<R: Threads + Sync>(
    rt: &R,
    alloc: Global,
    before: usize,
    after: usize,
) -> Result<bool, AllocError> {
    let cut = text_around(alloc, before, NAMES, after)?;
    let told = Err(StlFault::TooMany { at: cut.second });
    Ok(is_passage_cut_well(rt, alloc, &cut, LATE_LIMIT, &told))
}

/// Whether one has it wherever its parts meet.
fn is_parted_too_many<R: Threads + Sync>(rt: &R, alloc: Global) -> Result<bool, AllocError> {
    let parted = text_around(alloc, REMARK_BEFORE, NAMES, REMARK_AFTER)?;
    let told = Err(StlFault::TooMany { at: parted.second });
    is_parted_well(rt, alloc, parted, LATE_LIMIT, &told)
}

/// The limit is passed in the last group, of which only the first facet is permitted: no run that goes on there is jumped over.
#[test]
fn a_limit_in_a_later_part(rt: HostRuntime) {
    assert!(rt; is_cut_too_many(&rt, rt.alloc(), NO_REMARK, LONG_REMARK) == Ok(true));
    assert!(rt; is_cut_too_many(&rt, rt.alloc(), LONG_REMARK, NO_REMARK) == Ok(true));
    assert!(rt; is_parted_too_many(&rt, rt.alloc()) == Ok(true));
}
