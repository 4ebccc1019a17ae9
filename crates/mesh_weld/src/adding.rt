//! Facets are added to a welder: by one thread, or by two of its own beside the calling one.
ghost use Rattle.std.specs.Prelude.{◌≡◌, ◌≤◌, ◌+◌, ◌*◌, ◌++◌, [], Ok, OnOk, length};
ghost use Rattle.mesh_weld.specs.Solid.{height_ranges, kept_facets};
ghost use Rattle.mesh_weld.specs.Welder.{AreNamedMore};
ghost use Rattle.geometry.specs.declared.limits.TheConstants.{CORNER_LIMIT};

use crate::by_hash::NumberedFacets;
use crate::height_order::{HeightRange, add_ranges};
use crate::names::Names;
use geometry::Facet;
use std::alloc::{AllocError, Allocator};
use std::thread::{Threads, join_mut};

/// The kept facets: the ids of their corners with the numbers of their edges, and their height ranges.
#[derive(Drop)]
pub(crate) struct Kept<A: Allocator> {
    pub(crate) ids: NumberedFacets<A>,
    pub(crate) ranges: Vec<HeightRange, A>,
}

impl<A: Allocator + Copy> Kept<A> {
    /// No facet.
    pub(crate) fn new(alloc: A) -> Kept<A>
        ensures ids { result.ids ≡ [] }
        ensures ranges { result.ranges.items ≡ [] }
    {
        Kept {
            ids: NumberedFacets::new(alloc),
            ranges: Vec::new(alloc),
        }
    }

    /// Removes all facets.
    pub(crate) fn clear(&mut self)
        ensures ids { self.new.ids ≡ [] }
        ensures ranges { self.new.ranges.items ≡ [] }
    {
        self.ids.clear();
        self.ranges.clear();
    }

    /// Numbers the edges of the facets, between `count` vertices, and appends the height ranges of further ones.
    fn number_with(&mut self, count: usize, facets: &[Facet]) -> Result<(), AllocError>
        ensures ids { self.new.ids ≡ self.old.ids }
        ensures ranges { OnOk result (self.new.ranges.items ≡ self.old.ranges.items ++ height_ranges (kept_facets facets.now)) }
    {
        self.ids.number(count)?;
        add_ranges(&mut self.ranges, facets)
    }
}

/// Adds facets to those that are kept, and numbers their edges.
pub(crate) fn add_facets<A: Allocator + Copy>(
    names: &mut Names<A>,
    kept: &mut Kept<A>,
    facets: &[Facet],
) -> Result<(), AllocError>
    requires { length names.old.points.items + 3 * length facets.now ≤ CORNER_LIMIT }
    ensures named { OnOk result (AreNamedMore names.old kept.old.ids facets.now names.new kept.new.ids) }
    ensures ranges { OnOk result (kept.new.ranges.items ≡ kept.old.ranges.items ++ height_ranges (kept_facets facets.now)) }
{
    names.name(facets, &mut kept.ids)?;
    add_ranges(&mut kept.ranges, facets)?;
    kept.ids.number(names.points.len())
}

/// Adds facets to those that are kept, whose edges are numbered meanwhile, while the calling thread does its own work.
pub(crate) fn add_facets_beside<
    R: Threads + Sync,
    A: Allocator + Copy + Send + Sync,
    F: Fn() -> S + Sync,
    G: FnMut() -> T,
    S: Send,
    T,
>(
    rt: &R,
    names: &mut Names<A>,
    kept: &mut Kept<A>,
    facets: &[Facet],
    then: &F,
    own: &mut G,
) -> (Result<(), AllocError>, (S, S), T)
    requires room { length names.old.points.items + 3 * length facets.now ≤ CORNER_LIMIT }
    requires calls { F.pre then.now × G.pre own.old }
    ensures named { OnOk result.0 (AreNamedMore names.old kept.old.ids facets.now names.new kept.new.ids) }
    ensures ranges { OnOk result.0 (kept.new.ranges.items ≡ kept.old.ranges.items ++ height_ranges (kept_facets facets.now)) }
    ensures then { F.post then.now result.1.0 × F.post then.now result.1.1 }
    ensures own { G.step own.old result.2 own.new }
{
    let mut fresh = NumberedFacets::new(names.alloc);
    let ((numbered, first), ((named, second), done)) = number_and_name(
        rt, names, kept, &mut fresh, facets, then, own,
    );
    let added = append_named(&mut kept.ids, fresh, numbered, named);
    (added, (first, second), done)
}

/// Appends facets that are named to those that are kept and have their numbers.
fn append_named<A: Allocator + Copy>(
    ids: &mut NumberedFacets<A>,
    fresh: NumberedFacets<A>,
    numbered: Result<(), AllocError>,
    named: Result<(), AllocError>,
) -> Result<(), AllocError>
    ensures appended { OnOk result (ids.new ≡ ids.old ++ fresh) }
    ensures numbered { OnOk result (numbered ≡ Ok tt) }
    ensures named { OnOk result (named ≡ Ok tt) }
{
    numbered?;
    named?;
    ids.append(fresh)
}

/// Numbers the edges of the kept facets, names further ones, and does the caller's own work, by three threads at the same time.
fn number_and_name<
    R: Threads + Sync,
    A: Allocator + Copy + Send + Sync,
    F: Fn() -> S + Sync,
    G: FnMut() -> T,
    S: Send,
    T,
>(
    rt: &R,
    names: &mut Names<A>,
    kept: &mut Kept<A>,
    fresh: &mut NumberedFacets<A>,
    facets: &[Facet],
    then: &F,
    own: &mut G,
) -> (
    (Result<(), AllocError>, S),
    ((Result<(), AllocError>, S), T),
)
    requires room { length names.old.points.items + 3 * length facets.now ≤ CORNER_LIMIT }
    requires calls { F.pre then.now × G.pre own.old }
    ensures kept { kept.new.ids ≡ kept.old.ids }
    ensures ranges { OnOk result.0.0 (kept.new.ranges.items ≡ kept.old.ranges.items ++ height_ranges (kept_facets facets.now)) }
    ensures named { OnOk result.1.0.0 (AreNamedMore names.old fresh.old facets.now names.new fresh.new) }
    ensures then { F.post then.now result.0.1 × F.post then.now result.1.0.1 }
    ensures own { G.step own.old result.1.1 own.new }
{
    let count = names.points.len();
    let mut number = move || -> (Result<(), AllocError>, S)
        requires { F.pre then.now }
        ensures kept { kept.exit.now.ids ≡ kept.entry.now.ids }
        ensures ranges { OnOk result.0 (kept.exit.now.ranges.items ≡ kept.entry.now.ranges.items ++ height_ranges (kept_facets facets.entry.now)) }
        ensures then { F.post then.entry.now result.1 }
    { (kept.number_with(count, facets), then()) };
    let mut rest = || -> ((Result<(), AllocError>, S), T)
        requires room { length names.now.points.items + 3 * length facets.now ≤ CORNER_LIMIT }
        requires calls { F.pre then.now × G.pre own.now }
        ensures named { OnOk result.0.0 (AreNamedMore names.entry.now fresh.entry.now facets.entry.now names.exit.now fresh.exit.now) }
        ensures then { F.post then.entry.now result.0.1 }
        ensures own { G.step own.entry.now result.1 own.exit.now }
    { name_beside(rt, names, fresh, facets, then, own) };
    join_mut(rt, &mut number, &mut rest)
}

/// Names facets, and does the caller's own work, by two threads at the same time.
fn name_beside<
    R: Threads + Sync,
    A: Allocator + Copy + Send + Sync,
    F: Fn() -> S + Sync,
    G: FnMut() -> T,
    S: Send,
    T,
>(
    rt: &R,
    names: &mut Names<A>,
    fresh: &mut NumberedFacets<A>,
    facets: &[Facet],
    then: &F,
    own: &mut G,
) -> ((Result<(), AllocError>, S), T)
    requires room { length names.old.points.items + 3 * length facets.now ≤ CORNER_LIMIT }
    requires calls { F.pre then.now × G.pre own.old }
    ensures named { OnOk result.0.0 (AreNamedMore names.old fresh.old facets.now names.new fresh.new) }
    ensures then { F.post then.now result.0.1 }
    ensures own { G.step own.old result.1 own.new }
{
    let mut name = || -> (Result<(), AllocError>, S)
        requires room { length names.now.points.items + 3 * length facets.now ≤ CORNER_LIMIT }
        requires calls { F.pre then.now }
        ensures named { OnOk result.0 (AreNamedMore names.entry.now fresh.entry.now facets.entry.now names.exit.now fresh.exit.now) }
        ensures then { F.post then.entry.now result.1 }
    {
        let named = names.name(facets, fresh);
        (named, then())
    };
    join_mut(rt, &mut name, own)
}
