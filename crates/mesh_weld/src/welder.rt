//! Welding as facets come: each is kept by the ids of its corners, and its edges are numbered soon. So the caller need not keep a
//! list of facets.
ghost use Rattle.std.specs.Prelude.{◌≡◌, ◌≤◌, ◌+◌, [], IfOk, IfSome, List, length};
ghost use Rattle.geometry.specs.Facet.{Facet};
ghost use Rattle.mesh_weld.specs.EdgeChains.{AreInHalfWords};
ghost use Rattle.mesh_weld.specs.Grouping.{AreEdgesOf, AreOrdersOf};
ghost use Rattle.mesh_weld.specs.HalfEdge.{half_edges_from, ArePairNumbers};
ghost use Rattle.mesh_weld.specs.Solid.{facets_by, height_ranges};
ghost use Rattle.mesh_weld.specs.Welder.{AreNamed, IsMoreWelded, welder_by, welder_of};
ghost use Rattle.mesh_weld.specs.Welding.{IsWeldOf};
ghost use Rattle.geometry.specs.declared.limits.TheConstants.{FACET_LIMIT};

use crate::adding::{Kept, add_facets, add_facets_beside};
use crate::by_hash::{Grouping, group_facets, group_facets_by};
use crate::half_edge::EdgeNumbering;
use crate::height_order::HeightRange;
use crate::names::Names;
use crate::numbering::named_numbering;
use crate::solid::Solid;
use crate::weld_fault::WeldFault;
use geometry::{Facet, Point};
use std::alloc::{AllocError, Allocator};
use std::marker::Model;
use std::thread::Threads;

/// The facets to be welded. Those with three distinct corners are kept by the ids of their corners, the numbers of their edges
/// and their height ranges. They take 32 bytes a facet, in addition to the points, the chains of edges and the table. The others
/// are degenerate.
#[derive(Drop)]
pub struct Welder<A: Allocator> {
    names: Names<A>,
    kept: Kept<A>,
}

impl<A: Allocator> Model for Welder<A> {
    ghost use Rattle.std.specs.Prelude.{◌≡◌, ◌≤◌, ◌+◌, length};
    ghost use Rattle.geometry.specs.declared.limits.TheConstants.{FACET_LIMIT};
    ghost use Rattle.mesh_weld.specs.Solid.{facets_by, height_ranges};
    ghost use Rattle.mesh_weld.specs.Welder.{AreNamed, Welder, welder_by};

    ghost Value = { Welder };

    ghost view = { λ w. welder_by w.names.points.items w.kept.ids w.names.degenerate.items };

    ghost invariant = { λ w. AreNamed w.names.points.items w.kept.ids × (length w.kept.ids + length w.names.degenerate.items ≤ FACET_LIMIT)
        × (w.kept.ranges.items ≡ height_ranges (facets_by w.names.points.items w.kept.ids)) };
}

impl<A: Allocator + Copy + Send + Sync> Welder<A> {
    /// A welder with no facet.
    pub fn new(alloc: A) -> Welder<A>
        ensures { result ≡ welder_of [] }
    {
        Welder {
            names: Names::new(alloc),
            kept: Kept::new(alloc),
        }
    }

    /// The number of facets that were added.
    pub fn count(&self) -> usize
        ensures value { result ≡ length self.now.kept + length self.now.degenerate }
        ensures whole { (facets : List Facet) → self.now ≡ welder_of facets → result ≡ length facets }
        ensures few { result ≤ FACET_LIMIT }
    {
        self.kept.ids.len() + self.names.degenerate.len()
    }

    /// Adds facets after those so far, at most `FACET_LIMIT` with these.
    ///
    /// # Errors
    /// If an allocation fails; the welder then has no facets any more.
    pub fn add(&mut self, facets: &[Facet]) -> Result<(), AllocError>
        requires { length self.old.kept + length self.old.degenerate + length facets.now ≤ FACET_LIMIT }
        ensures { IsMoreWelded self.old facets.now self.new result }
    {
        let added = add_facets(&mut self.names, &mut self.kept, facets);
        if added.is_err() {
            self.names.clear();
            self.kept.clear();
        }
        added
    }

    /// [`Welder::add`] by two new threads, while the calling one calls `own`. One numbers the edges of the facets so far and lists
    /// the heights of these facets. The other names their corners. Each of them calls `then` at the end. Returns the result of
    /// [`Welder::add`], what `then` returned in both threads, and what `own` returned.
    ///
    /// # Errors
    /// Those of [`Welder::add`], as the first result. The calls are made all the same.
    pub fn add_beside<R: Threads + Sync, F: Fn() -> S + Sync, G: FnMut() -> T, S: Send, T>(
        &mut self,
        rt: &R,
        facets: &[Facet],
        then: &F,
        own: &mut G,
    ) -> (Result<(), AllocError>, (S, S), T)
        requires few { length self.old.kept + length self.old.degenerate + length facets.now ≤ FACET_LIMIT }
        requires calls { F.pre then.now × G.pre own.old }
        ensures welded { IsMoreWelded self.old facets.now self.new result.0 }
        ensures then { F.post then.now result.1.0 × F.post then.now result.1.1 }
        ensures own { G.step own.old result.2 own.new }
    {
        let (added, others, done) = add_facets_beside(
            rt,
            &mut self.names,
            &mut self.kept,
            facets,
            then,
            own,
        );
        if added.is_err() {
            self.names.clear();
            self.kept.clear();
        }
        (added, others, done)
    }

    /// The solid of all facets that were added. Unless an allocation fails, it succeeds exactly if their half-edges balance.
    /// Degenerate facets, those with two equal corners, are dropped.
    ///
    /// # Errors
    /// `Open` with the least pair of points between which the half-edges do not balance, and the numbers of those there and
    /// back. `Memory` only if an allocation failed.
    pub fn finish(self) -> Result<Solid<A>, WeldFault>
        ensures { IsWeldOf self result }
    {
        let (named, ranges, numbering) = self.numbered()?.without_table()?;
        let found = group_facets(
            named.alloc,
            named.points.as_slice(),
            named.ids.as_slice(),
            ranges,
            numbering,
        );
        named.into_solid(found)
    }

    /// [`Welder::finish`] by several threads at the same time. It takes more memory meanwhile.
    pub fn finish_by<R: Threads + Sync>(self, rt: &R) -> Result<Solid<A>, WeldFault>
        ensures { IsWeldOf self result }
    {
        let (named, ranges, numbering) = self.numbered()?.without_table()?;
        let (points, ids) = (named.points.as_slice(), named.ids.as_slice());
        let found = group_facets_by(rt, named.alloc, points, ids, ranges, numbering);
        named.into_solid(found)
    }

    /// The welder. Its edges all have numbers, if chains serve.
    fn numbered(self) -> Result<Welder<A>, AllocError>
        ensures { IfOk result (λ all. all ≡ self) }
    {
        let Welder { names, mut kept } = self;
        kept.ids.number(names.points.len())?;
        Ok(Welder { names, kept })
    }

    /// The facets, the height ranges of the kept ones, and the numbers of their edges if there are any. The table and the chains
    /// are freed.
    fn without_table(
        self,
    ) -> Result<
        (
            NamedFacets<A>,
            Vec<HeightRange, A>,
            Option<EdgeNumbering<A>>,
        ),
        AllocError,
    >
        ensures value { IfOk result (λ parts. welder_by parts.0.points.items parts.0.ids.items parts.0.degenerate.items ≡ self) }
        ensures named { IfOk result (λ parts. AreNamed parts.0.points.items parts.0.ids.items) }
        ensures few { IfOk result (λ parts. length parts.0.ids.items + length parts.0.degenerate.items ≤ FACET_LIMIT) }
        ensures ranges { IfOk result (λ parts. parts.1.items ≡ height_ranges (facets_by parts.0.points.items parts.0.ids.items)) }
        ensures numbering { IfOk result (λ parts. IfSome parts.2 (λ own. ArePairNumbers (half_edges_from 0 parts.0.ids.items) own.numbers.items own.count)) }
        ensures small { IfOk result (λ parts. IfSome parts.2 (λ own. AreInHalfWords (half_edges_from 0 parts.0.ids.items))) }
    {
        let Welder { names, kept } = self;
        let Kept { ids, ranges } = kept;
        let Names {
            alloc,
            table: _,
            points,
            degenerate,
        } = names;
        let (ids, numbering) = ids.into_parts()?;
        let named = NamedFacets {
            alloc,
            points,
            ids,
            degenerate,
        };
        Ok((named, ranges, numbering))
    }
}

/// The facets of a welder that gets no more of them: the kept ones, by the ids of their corners, and the degenerate ones.
#[derive(Drop)]
struct NamedFacets<A: Allocator> {
    alloc: A,
    points: Vec<Point, A>,
    ids: Vec<[u32; 3], A>,
    degenerate: Vec<Facet, A>,
}

impl<A: Allocator + Copy> NamedFacets<A> {
    /// The solid of the facets, from the grouping of the kept ones if there is one. It fails if the grouping failed.
    fn into_solid(
        self,
        found: Result<Option<Grouping<A>>, AllocError>,
    ) -> Result<Solid<A>, WeldFault>
        requires named { AreNamed self.points.items self.ids.items }
        requires few { length self.ids.items + length self.degenerate.items ≤ FACET_LIMIT }
        requires edges { IfOk found (λ some. IfSome some (λ own. AreEdgesOf self.ids.items own.edges.numbers.items own.edges.count)) }
        requires orders { IfOk found (λ some. IfSome some (λ own. AreOrdersOf self.points.items self.ids.items own.orders)) }
        ensures { IsWeldOf (welder_by self.points.items self.ids.items self.degenerate.items) result }
    {
        let NamedFacets {
            alloc,
            points,
            ids,
            degenerate,
        } = self;
        let numbering = named_numbering(alloc, points, ids, degenerate.as_slice(), found)?;
        let dropped = degenerate.len() as u32;
        Ok(Solid { numbering, dropped })
    }
}
