//! The names of corners: facets by the ids of their corners, one after the other as they come.
ghost use Rattle.std.specs.Prelude.{◌≡◌, ◌≤◌, ◌+◌, ◌*◌, ◌∷◌, [], OnOk, length};
ghost use Rattle.mesh_weld.specs.Welder.{AreNamedMore};
ghost use Rattle.geometry.specs.declared.limits.TheConstants.{CORNER_LIMIT};

use crate::by_hash::{BLOCK, CornerTable, NONE, NumberedFacets, facet_ids};
use crate::facets::has_distinct_corners;
use geometry::{Facet, Point};
use std::alloc::{AllocError, Allocator};

/// The corners that have ids, which are their numbers among the points, and the degenerate facets, which need none.
#[derive(Drop)]
pub(crate) struct Names<A: Allocator> {
    pub(crate) alloc: A,
    pub(crate) table: CornerTable<A>,
    pub(crate) points: Vec<Point, A>,
    pub(crate) degenerate: Vec<Facet, A>,
}

impl<A: Allocator + Copy> Names<A> {
    /// No corner, and no degenerate facet.
    pub(crate) fn new(alloc: A) -> Names<A>
        ensures points { result.points.items ≡ [] }
        ensures degenerate { result.degenerate.items ≡ [] }
    {
        Names {
            alloc,
            table: CornerTable::new(alloc),
            points: Vec::new(alloc),
            degenerate: Vec::new(alloc),
        }
    }

    /// Appends facets to those that are kept, or to the degenerate ones. If an allocation fails, some may be lost.
    pub(crate) fn name(
        &mut self,
        facets: &[Facet],
        kept: &mut NumberedFacets<A>,
    ) -> Result<(), AllocError>
        requires { length self.old.points.items + 3 * length facets.now ≤ CORNER_LIMIT }
        ensures { OnOk result (AreNamedMore self.old kept.old facets.now self.new kept.new) }
    {
        let mut guesses = [[NONE; 3]; BLOCK];
        for at in 0..facets.len() {
            if at % BLOCK == 0 {
                self.table.guess_ids(&facets[at..], &mut guesses);
            }
            self.name_facet(&facets[at], guesses[at % BLOCK], kept)?;
        }
        Ok(())
    }

    /// [`Names::name`] for a facet. Some of the guesses may be the ids of its corners.
    fn name_facet(
        &mut self,
        facet: &Facet,
        guesses: [u32; 3],
        kept: &mut NumberedFacets<A>,
    ) -> Result<(), AllocError>
        requires { length self.old.points.items + 3 ≤ CORNER_LIMIT }
        ensures { OnOk result (AreNamedMore self.old kept.old (facet.now ∷ []) self.new kept.new) }
    {
        if !has_distinct_corners(facet) {
            self.degenerate.push(*facet)?;
            return Ok(());
        }
        let own = facet_ids(
            self.alloc,
            &mut self.table,
            &mut self.points,
            facet,
            guesses,
        )?;
        kept.push(own)
    }

    /// Removes all corners and all degenerate facets.
    pub(crate) fn clear(&mut self)
        ensures points { self.new.points.items ≡ [] }
        ensures degenerate { self.new.degenerate.items ≡ [] }
    {
        self.points.clear();
        self.degenerate.clear();
    }
}
