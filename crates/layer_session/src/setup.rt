//! What a file, a text or arrays are opened with.
ghost use Rattle.std.specs.Prelude.{◌≡◌, ◌↔◌, IfErr, IsTrue, OnOk};
ghost use Rattle.geometry.specs.Limits.{IsStep};
ghost use Rattle.layer_session.specs.Setup.{HasSteps};
ghost use Rattle.layer_session.specs.declared.session_fault.SessionFault.TheVariants.{Step};

use crate::place::Place;
use crate::session_fault::SessionFault;
use geometry::STEP_LIMIT;
use micro_num::Unit;
use raster::Rule;

/// How a file or a text is read, and how a mesh is cut into voxels.
#[derive(Clone, Copy, Debug, PartialEq, Eq)]
pub struct Setup {
    /// The unit of the numbers in a file or a text. Arrays are in micrometres, whatever it is.
    pub unit: Unit,
    /// The length of a voxel along z, in micrometres: 1 to `STEP_LIMIT`.
    pub layer: u32,
    /// Which sums of signed crossings count as inside.
    pub rule: Rule,
    /// The place of the mesh, and its voxels along x and y.
    pub place: Place,
}

impl Setup {
    /// Whether layer height and pitch are in their range.
    pub fn is_in_range(&self) -> bool
        ensures { IsTrue result ↔ HasSteps self.now }
    {
        is_step(self.layer) && self.place.has_pitch()
    }

    /// Refuses layer height or pitch out of range.
    pub(crate) fn check(&self) -> Result<(), SessionFault>
        ensures ok { OnOk result (HasSteps self.now) }
        ensures err { IfErr result (λ fault. (fault ≡ Step) × (HasSteps self.now → ⊥)) }
    {
        if self.is_in_range() {
            Ok(())
        } else {
            Err(SessionFault::Step)
        }
    }
}

/// Whether this number of micrometres is a layer height or a pitch.
pub(crate) fn is_step(micrometres: u32) -> bool
    ensures { IsTrue result ↔ IsStep micrometres }
{
    1 <= micrometres && micrometres <= STEP_LIMIT
}
