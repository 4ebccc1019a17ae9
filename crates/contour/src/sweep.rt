//! A sweep raises a plane through a mesh. It keeps the list of active facets, as a scanline fill of polygons keeps active
//! edges. So a step up looks only at facets that were active before it, and at facets whose lowest corner it passes. A sweep
//! starts at any height: of the facets below, it looks only at those in blocks that reach above the height.
ghost use Rattle.std.specs.Prelude.{◌≡◌, ◌≤ℤ◌, All, IfOk, OnErr, OnOk};
ghost use Rattle.exact_int.specs.Bounds.{IsAtMost};
ghost use Rattle.plane_segments.specs.Segment.{HasOrderedNodes, segments};
ghost use Rattle.contour.specs.Active.{active_facets, reached_count};
ghost use Rattle.geometry.specs.declared.limits.TheConstants.{CENTRE_LIMIT};

use crate::active::{ActiveFacets, Arrivals};
use mesh_weld::Solid;
use plane_segments::{Segment, segments_in};
use std::alloc::{AllocError, Allocator};
use std::marker::Model;
use std::mem::swap;

/// A plane that rises through a mesh, with its active facets: those that it cuts. A step up fills `spare` with the
/// next active facets and exchanges the two lists, whose memory stays from step to step.
#[derive(Drop)]
pub struct Sweep<'m, A: Allocator> {
    alloc: A,
    solid: &'m Solid<A>,
    height: i64,
    passed: usize,
    active: ActiveFacets<A>,
    spare: ActiveFacets<A>,
}

impl<'m, A: Allocator> Model for Sweep<'m, A> {
    ghost use Rattle.contour.specs.Sweep.{IsSwept, Sweep};

    ghost Value = { Sweep };

    ghost view = { λ s. record { facets = s.solid.now.facets; height = s.height } };

    ghost invariant = { λ s. IsSwept s.solid.now.facets s.height s.passed s.active.numbers.items s.active.tops.items };
}

impl<'m, A: Allocator + Copy + Send + Sync> Sweep<'m, A> {
    /// A sweep at the height `z2` in half-micrometres, at most `geometry::CENTRE_LIMIT` from 0. `Err` only if an allocation
    /// failed.
    pub fn start(alloc: A, s: &'m Solid<A>, z2: i64) -> Result<Sweep<'m, A>, AllocError>
        requires { IsAtMost CENTRE_LIMIT z2 }
        ensures mesh { IfOk result (λ sweep. sweep.facets ≡ s.now.facets) }
        ensures at { IfOk result (λ sweep. sweep.height ≡ z2) }
    {
        let mut arrivals = Arrivals::find(alloc, s, s.by_height(), s.block_tops(), z2)?;
        arrivals.active.sort_unstable();
        let active = ActiveFacets::of(alloc, s, arrivals.active.as_slice())?;
        Ok(Sweep {
            alloc,
            solid: s,
            height: z2,
            passed: arrivals.count,
            active,
            spare: ActiveFacets::none(alloc),
        })
    }

    /// Raises the plane to the height `z2` in half-micrometres. That is not below its own height, and at most
    /// `geometry::CENTRE_LIMIT` from 0. `Err` only if an allocation failed, and the sweep is then as before.
    pub fn advance(&mut self, z2: i64) -> Result<(), AllocError>
        requires height { IsAtMost CENTRE_LIMIT z2 }
        requires up { self.old.height ≤ℤ z2 }
        ensures mesh { self.new.facets ≡ self.old.facets }
        ensures at { OnOk result (self.new.height ≡ z2) }
        ensures err { OnErr result (self.new ≡ self.old) }
    {
        let (_, rest) = self.solid.by_height().split_at(self.passed);
        let mut arrivals = Arrivals::scan(self.alloc, self.solid, rest, z2)?;
        arrivals.active.sort_unstable();
        let fresh = arrivals.active.as_slice();
        self.spare.advance(self.solid, &self.active, fresh, z2)?;
        swap(&mut self.active, &mut self.spare);
        self.passed += arrivals.count;
        self.height = z2;
        Ok(())
    }

    /// The height of the plane, in half-micrometres.
    pub fn height(&self) -> i64
        ensures { result ≡ self.now.height }
    {
        self.height
    }

    /// The number of kept facets that the plane has reached: those with a corner that counts as below its height, by the
    /// tie rule.
    pub fn passed(&self) -> u32
        ensures { result ≡ reached_count self.now.facets self.now.height }
    {
        let facets = self.solid.count();
        prove!(self.passed <= facets);
        self.passed as u32
    }

    /// The numbers of the active facets, in ascending order: the kept facets with a corner that counts as below the height,
    /// by the tie rule, and a corner above it.
    pub fn active(&self) -> &[u32]
        ensures { result.now ≡ active_facets self.now.facets self.now.height }
    {
        self.active.numbers.as_slice()
    }

    /// The segments at the height, in order of facets. `Err` only if an allocation failed.
    pub fn segments(&self) -> Result<Vec<Segment, A>, AllocError>
        ensures segments { IfOk result (λ list. list.items ≡ segments self.now.facets self.now.height) }
        ensures ordered { IfOk result (λ list. All HasOrderedNodes list.items) }
    {
        let numbers = self.active.numbers.as_slice();
        let list = segments_in(self.alloc, self.solid, numbers, self.height)?;
        Ok(list)
    }
}
