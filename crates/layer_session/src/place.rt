//! The place of a mesh: in a grid, or on a printer's screen.
ghost use Rattle.std.specs.Prelude.{◌≡◌, ◌≤◌, ◌↔◌, ◌⊎◌, IfErr, IfOk, IsTrue, List, OnOk, vec_len};
ghost use Rattle.geometry.specs.Facet.{Facet as FacetModel};
ghost use Rattle.geometry.specs.Limits.{IsStep};
ghost use Rattle.geometry.specs.Point.{Point as PointModel};
ghost use Rattle.geometry.specs.declared.limits.TheConstants.{FACET_LIMIT};
ghost use Rattle.mesh_weld.specs.Balance.{IsBalanced};
ghost use Rattle.mesh_weld.specs.Solid.{solid_of};
ghost use Rattle.mesh_weld.specs.Welding.{IsWeldFault};
ghost use Rattle.mesh_weld.specs.declared.weld_fault.WeldFault.TheVariants.{Memory as OutOfMemory};
ghost use Rattle.layer_session.specs.Place.{HasPitch, IsGridAt, IsInReach, IsNoGridAt, IsNoSolidAt, point_placed, placed, times_of};
ghost use Rattle.layer_session.specs.declared.session_fault.SessionFault.TheVariants.{Memory, Screen as ScreenCause};
ghost use Rattle.part_on_screen.specs.declared.screen_fault.ScreenFault.TheVariants.{OutOfRange};

use crate::session_fault::SessionFault;
use crate::setup::is_step;
use geometry::{Facet, Point};
use mesh_weld::{Solid, WeldFault, weld};
use part_on_screen::Screen;
use raster::{Grid, Placing};
use std::alloc::Allocator;

/// The place of a mesh, and its voxels along x and y.
#[derive(Clone, Copy, Debug, PartialEq, Eq)]
pub enum Place {
    /// Where its points are, in a grid.
    Grid {
        /// The length of a voxel along x and along y, in micrometres: 1 to `STEP_LIMIT`.
        pitch: u32,
        /// The place of the grid.
        placing: Placing,
    },
    /// In the middle of a printer's screen: turned, and with x and y multiplied, so that pixels are squares.
    Screen(Screen),
}

impl Place {
    /// Whether the pitch is in its range. That of a screen is.
    pub(crate) fn has_pitch(&self) -> bool
        ensures { IsTrue result ↔ HasPitch self.now }
    {
        match self {
            Place::Grid { pitch, .. } => is_step(*pitch),
            Place::Screen(screen) => {
                screen.hold_limits();
                true
            }
        }
    }

    /// By what x and y of facets here are multiplied.
    pub(crate) fn times(&self) -> (u64, u64)
        ensures { result ≡ times_of self.now }
    {
        match self {
            Place::Grid { .. } => (1, 1),
            Place::Screen(screen) => screen.times(),
        }
    }

    /// The facets of a part, as they are here.
    fn put<A: Allocator>(&self, facets: Vec<Facet, A>) -> Result<Vec<Facet, A>, SessionFault>
        ensures placed { IfOk result (λ there. there.items ≡ placed self.now facets.items) }
        ensures reach { OnOk result (IsInReach self.now facets.items) }
        ensures fault { IfErr result (λ fault. (fault ≡ ScreenCause OutOfRange) × (IsInReach self.now facets.items → ⊥)) }
    {
        match self {
            Place::Grid { .. } => Ok(facets),
            Place::Screen(screen) => Ok(screen.place(facets)?),
        }
    }

    /// The solid of the facets of a part, as they are here.
    ///
    /// # Errors
    /// `Screen` of `OutOfRange` if a multiplied coordinate is out of range, else `Weld` if the edges do not balance. Its points
    /// are those of the part. `Memory` only if an allocation failed.
    pub(crate) fn solid<A: Allocator + Copy + Send + Sync>(
        &self,
        alloc: A,
        facets: Vec<Facet, A>,
    ) -> Result<Solid<A>, SessionFault>
        requires pitch { HasPitch self.now }
        requires few { vec_len facets ≤ FACET_LIMIT }
        ensures solid { IfOk result (λ solid. solid ≡ solid_of (placed self.now facets.items)) }
        ensures reach { OnOk result (IsInReach self.now facets.items) }
        ensures closed { OnOk result (IsBalanced (placed self.now facets.items)) }
        ensures fault { IfErr result (λ fault. (fault ≡ Memory) ⊎ IsNoSolidAt self.now facets.items fault) }
        ensures only { IsInReach self.now facets.items → IsBalanced (placed self.now facets.items) → IfErr result (λ fault. fault ≡ Memory) }
    {
        let there = self.put(facets)?;
        match weld(alloc, there) {
            Ok(solid) => Ok(solid),
            Err(fault) => Err(self.own_fault(fault)),
        }
    }

    /// The fault of welding facets that are here, with the points of the part.
    fn own_fault(&self, fault: WeldFault) -> SessionFault
        requires { (part : List FacetModel) × IsWeldFault (placed self.now part) fault }
        ensures own { (part : List FacetModel) → IsInReach self.now part → IsWeldFault (placed self.now part) fault
            → (result ≡ Memory) ⊎ IsNoSolidAt self.now part result }
        ensures memory { fault ≡ OutOfMemory → result ≡ Memory }
    {
        match fault {
            WeldFault::Open {
                from,
                to,
                there,
                back,
            } => SessionFault::Weld(WeldFault::Open {
                from: self.point_at(from),
                to: self.point_at(to),
                there,
                back,
            }),
            WeldFault::Memory => SessionFault::Memory,
        }
    }

    /// The point of a part that is at `there` here, where one is.
    fn point_at(&self, there: Point) -> Point
        requires { (p : PointModel) × (point_placed self.now p ≡ there) }
        ensures { point_placed self.now result ≡ there }
    {
        match self {
            Place::Grid { .. } => there,
            Place::Screen(screen) => screen.point_at(there),
        }
    }

    /// The grid of a solid that is here, with this layer height.
    pub(crate) fn grid<A: Allocator>(
        &self,
        solid: &Solid<A>,
        layer: u32,
    ) -> Result<Grid, SessionFault>
        requires pitch { HasPitch self.now }
        requires layer { IsStep layer }
        ensures found { IfOk result (IsGridAt self.now layer solid.now.facets) }
        ensures fault { IfErr result (IsNoGridAt self.now layer solid.now.facets) }
    {
        match self {
            Place::Grid { pitch, placing } => Ok(placing.grid(solid, *pitch, layer)?),
            Place::Screen(screen) => Ok(screen.grid_of(solid, layer)?),
        }
    }
}
