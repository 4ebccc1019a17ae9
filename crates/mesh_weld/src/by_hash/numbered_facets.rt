//! Facets by the ids of their corners, whose half-edges get the numbers of their edges while further facets come. In each list,
//! all corners are named first, and all edges are numbered then. Naming waits for memory, and numbering in between would hold
//! it up.
ghost use Rattle.std.specs.Prelude.{◌≡◌, ◌≤◌, ◌++◌, [], ◌∷◌, ℕ, List, IfOk, IfSome, IsTrue, OnOk, length, take};
ghost use Rattle.mesh_weld.specs.EdgeChains.{AreInHalfWords, AreNumbered};
ghost use Rattle.mesh_weld.specs.HalfEdge.{half_edges_from, ArePairNumbers};

use crate::by_hash::edges::EdgeChains;
use crate::half_edge::EdgeNumbering;
use std::alloc::{AllocError, Allocator};
use std::marker::Model;

/// Meshes with fewer kept facets are numbered by sorts, which are as fast for them.
const LEAST_CHAINED: usize = 4096;

/// The numbers of the edges of the first facets of a list, three a facet.
#[derive(Drop)]
struct FirstNumbers<A: Allocator> {
    chains: EdgeChains<A>,
    numbers: Vec<u32, A>,
    /// The number of facets.
    facets: usize,
}

impl<A: Allocator + Copy> FirstNumbers<A> {
    /// Numbers the half-edges of the further facets, between `count` vertices. Returns whether the chains gave all their
    /// numbers.
    fn number(&mut self, ids: &[[u32; 3]], count: usize) -> Result<bool, AllocError>
        requires few { self.old.facets ≤ length ids.now }
        requires first { AreNumbered (half_edges_from 0 (take self.old.facets ids.now))
            self.old.chains.heads.items self.old.chains.edges.items self.old.numbers.items }
        ensures all { IfOk result (λ served. IsTrue served → self.new.facets ≡ length ids.now) }
        ensures numbers { IfOk result (λ served. IsTrue served → AreNumbered (half_edges_from 0 ids.now)
            self.new.chains.heads.items self.new.chains.edges.items self.new.numbers.items) }
    {
        self.chains.add_vertices(count)?;
        for at in self.facets..ids.len() {
            let Some(own) = self.chains.numbers(&ids[at])? else {
                return Ok(false);
            };
            self.numbers.extend_from_slice(&own)?;
        }
        self.facets = ids.len();
        Ok(true)
    }

    /// The numbers, if they are those of all facets. The chains are dropped.
    fn of_all(self, ids: &[[u32; 3]]) -> Option<EdgeNumbering<A>>
        requires first { AreNumbered (half_edges_from 0 (take self.facets ids.now)) self.chains.heads.items self.chains.edges.items self.numbers.items }
        ensures numbering { IfSome result (λ own. ArePairNumbers (half_edges_from 0 ids.now) own.numbers.items own.count) }
        ensures small { IfSome result (λ own. AreInHalfWords (half_edges_from 0 ids.now)) }
    {
        let FirstNumbers {
            chains,
            numbers,
            facets,
        } = self;
        if facets < ids.len() {
            return None;
        }
        Some(EdgeNumbering {
            numbers,
            count: chains.edges.len() as u32,
        })
    }
}

/// Facets by ids, and the numbers of the first ones' edges.
#[derive(Drop)]
pub(crate) struct NumberedFacets<A: Allocator> {
    alloc: A,
    ids: Vec<[u32; 3], A>,
    /// The ids of further facets, which [`NumberedFacets::number`] moves to the others. So the thread that appends a list of
    /// facets, while others wait for it, copies none.
    more: Vec<[u32; 3], A>,
    /// `None` if the chains did not give all numbers.
    first: Option<FirstNumbers<A>>,
}

impl<A: Allocator> Model for NumberedFacets<A> {
    ghost use Rattle.std.specs.Prelude.{◌≤◌, ◌++◌, ℕ, List, IfSome, length, take};
    ghost use Rattle.mesh_weld.specs.EdgeChains.{AreNumbered};
    ghost use Rattle.mesh_weld.specs.HalfEdge.{half_edges_from};

    ghost Value = { List (List ℕ) };

    ghost view = { λ f. f.ids.items ++ f.more.items };

    ghost invariant = { λ f. IfSome f.first (λ own. (own.facets ≤ length f.ids.items)
        × AreNumbered (half_edges_from 0 (take own.facets f.ids.items)) own.chains.heads.items own.chains.edges.items own.numbers.items) };
}

impl<A: Allocator + Copy> NumberedFacets<A> {
    /// No facet.
    pub(crate) fn new(alloc: A) -> NumberedFacets<A>
        ensures { result ≡ [] }
    {
        NumberedFacets {
            alloc,
            ids: Vec::new(alloc),
            more: Vec::new(alloc),
            first: Some(FirstNumbers {
                chains: EdgeChains::new(alloc),
                numbers: Vec::new(alloc),
                facets: 0,
            }),
        }
    }

    /// The number of facets.
    pub(crate) fn len(&self) -> usize
        ensures { result ≡ length self.now }
    {
        self.ids.len() + self.more.len()
    }

    /// Appends a facet.
    pub(crate) fn push(&mut self, own: [u32; 3]) -> Result<(), AllocError>
        ensures { OnOk result (self.new ≡ self.old ++ own ∷ []) }
    {
        if self.more.len() > 0 {
            self.more.push(own)?;
            return Ok(());
        }
        self.ids.push(own)?;
        Ok(())
    }

    /// Appends other facets, which get new numbers.
    pub(crate) fn append(&mut self, others: NumberedFacets<A>) -> Result<(), AllocError>
        ensures { OnOk result (self.new ≡ self.old ++ others) }
    {
        let NumberedFacets {
            mut ids,
            mut more,
            ..
        } = others;
        if self.more.len() > 0 {
            self.more.append(&mut ids)?;
        } else {
            self.more = ids;
        }
        self.more.append(&mut more)
    }

    /// Brings all ids into one list.
    fn gather(&mut self) -> Result<(), AllocError>
        ensures { self.new ≡ self.old }
    {
        self.ids.append(&mut self.more)
    }

    /// Numbers the half-edges of facets that have no numbers yet, between `count` vertices. If chains do not serve, all numbers
    /// are dropped, and no more are made.
    pub(crate) fn number(&mut self, count: usize) -> Result<(), AllocError>
        ensures { self.new ≡ self.old }
    {
        self.gather()?;
        if self.ids.len() < LEAST_CHAINED {
            return Ok(());
        }
        let Some(first) = &mut self.first else {
            return Ok(());
        };
        let served = first.number(self.ids.as_slice(), count);
        if served != Ok(true) {
            self.first = None;
        }
        served?;
        Ok(())
    }

    /// Removes all facets.
    pub(crate) fn clear(&mut self)
        ensures { self.new ≡ [] }
    {
        *self = NumberedFacets::new(self.alloc);
    }

    /// The ids, and the numbers of the edges if all facets have them.
    pub(crate) fn into_parts(
        self,
    ) -> Result<(Vec<[u32; 3], A>, Option<EdgeNumbering<A>>), AllocError>
        ensures ids { IfOk result (λ parts. parts.0.items ≡ self) }
        ensures numbering { IfOk result (λ parts. IfSome parts.1 (λ own. ArePairNumbers (half_edges_from 0 self) own.numbers.items own.count)) }
        ensures small { IfOk result (λ parts. IfSome parts.1 (λ own. AreInHalfWords (half_edges_from 0 self))) }
    {
        let NumberedFacets {
            mut ids,
            mut more,
            first,
            ..
        } = self;
        ids.append(&mut more)?;
        let numbering = match first {
            Some(first) => first.of_all(ids.as_slice()),
            None => None,
        };
        Ok((ids, numbering))
    }
}
