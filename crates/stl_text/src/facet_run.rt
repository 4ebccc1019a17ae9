//! Runs of facets. Workers find them in parts of a text, and its reader jumps over them.
//!
//! A run says that its facets come one after another from some byte of the text on. It does not say that the reader wants a
//! facet at that byte. So a worker may guess where the facets of its part begin. After a wrong guess the reader never comes to
//! the byte where the run begins, and does not use it.
ghost use Rattle.std.specs.Prelude.{◌≡◌, ◌≤◌, ◌<◌, ◌+◌, ℕ, IfSome, List, None, length};
ghost use Rattle.stl_text.specs.FacetRun.{IsFacetRun, IsRestOf};

use crate::grammar::after_solid;
use crate::layout::{Layout, front_facet};
use crate::word::Word;
use geometry::Facet;
use memchr::memmem;
use micro_num::Unit;
use std::alloc::Allocator;

/// The keyword that ends a facet, in capitals.
const END_FACET_IN_CAPITALS: &[u8] = b"ENDFACET";

/// Facets that come one after another in a text, in one solid or in several.
#[derive(Drop)]
pub(crate) struct FacetRun<'t, A: Allocator> {
    /// The text from where the run begins.
    pub(crate) from: &'t [u8],
    pub(crate) facets: Vec<Facet, A>,
    /// The text after the run.
    pub(crate) to: &'t [u8],
}

/// The text after the first `endfacet`, or else `ENDFACET`, that begins in a part of it. The end of the text if none does.
fn after_end_facet<'t>(text: &'t [u8], start: usize, len: usize) -> &'t [u8]
    requires { start + len ≤ length text.now }
    ensures { IsRestOf text.now result.now }
{
    let word = Word::EndFacet.text().as_bytes();
    let rest = text.split_at(start).1;
    let part = rest.split_at(len).0;
    let found = match memmem::find(part, word) {
        Some(at) => Some(at),
        None => memmem::find(part, END_FACET_IN_CAPITALS),
    };
    match found {
        Some(at) => rest.split_at(at + word.len()).1,
        None => rest.split_at(rest.len()).1,
    }
}

/// The layout of the facet after the first `endfacet` of a text, if there is one.
pub(crate) fn layout_within(text: &[u8]) -> Option<Layout<'_>> {
    Layout::of(after_end_facet(text, 0, text.len()))
}

/// Adds the facet at the front of a text to those of a run, or passes the end of a solid and the beginning of the next. Returns
/// the text after it. `None` if the front is neither, memory runs out, or at most `left` bytes follow.
fn run_on<'t, A: Allocator>(
    facets: &mut Vec<Facet, A>,
    to: &'t [u8],
    unit: Unit,
    layout: &Option<Layout<'_>>,
    left: usize,
) -> Option<&'t [u8]>
    ensures run { IfSome result (λ rest. (text from : List ℕ) → IsFacetRun unit text facets.old.items from to.now
        → IsFacetRun unit text facets.new.items from rest.now) }
    ensures shorter { IfSome result (λ rest. length rest.now < length to.now) }
    ensures left { IfSome result (λ rest. left < length rest.now) }
    ensures none { result ≡ None → facets.new.items ≡ facets.old.items }
{
    if let Some(found) = front_facet(to, unit, layout) {
        let rest = found.1;
        if rest.len() <= left {
            return None;
        }
        return match facets.push(found.0) {
            Ok(()) => Some(rest),
            Err(_) => None,
        };
    }
    let rest = after_solid(to)?;
    if rest.len() <= left {
        return None;
    }
    Some(rest)
}

/// The run of a part of a text, from after the first `endfacet` that begins in the part. The facet that ends after the part is
/// left to the reader of the text, which is then at the beginning of the next part's run.
pub(crate) fn run_of<'t, A: Allocator>(
    alloc: A,
    text: &'t [u8],
    unit: Unit,
    start: usize,
    len: usize,
) -> FacetRun<'t, A>
    requires { start + len ≤ length text.now }
    ensures { IsFacetRun unit text.now result.facets.items result.from.now result.to.now }
{
    let from = after_end_facet(text, start, len);
    let left = (text.len() - (start + len)).saturating_sub(Word::EndFacet.text().len());
    let layout = Layout::of(from);
    let mut facets = Vec::new(alloc);
    let mut to = from;
    'run: while let Some(rest) = run_on(&mut facets, to, unit, &layout, left) {
        to = rest;
    }
    FacetRun { from, facets, to }
}
