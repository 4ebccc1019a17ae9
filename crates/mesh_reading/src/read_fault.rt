//! Why reading ends without a mesh, or without the count and the box of the facets.
ghost use Rattle.std.specs.Prelude.{◌≡◌, ◌≢◌};
ghost use Rattle.mesh_weld.specs.declared.weld_fault.WeldFault.TheVariants as weld_fault;
ghost use Rattle.stl_text.specs.declared.stl_fault.StlFault.TheVariants as stl_fault;
ghost use Rattle.mesh_reading.specs.declared.read_fault.ReadFault.TheVariants.{Memory, Stl, Weld};

use mesh_weld::WeldFault;
use std::alloc::AllocError;
use stl_text::StlFault;
use thiserror::Error;

/// Why reading ends without a mesh, or without the count and the box of the facets.
#[derive(Clone, Copy, Debug, PartialEq, Eq, Error)]
pub enum ReadFault {
    /// The source could not be read.
    #[error("read failed")]
    Read,
    /// The text does not read as facets. It is not `StlFault::Memory`.
    #[error("{0}")]
    Stl(StlFault),
    /// The mesh is not closed. It is not `WeldFault::Memory`.
    #[error("{0}")]
    Weld(WeldFault),
    /// An allocation failed.
    #[error("out of memory")]
    Memory,
}

impl From<AllocError> for ReadFault {
    ghost from_gives = { λ _ fault. fault ≡ Memory };

    fn from(_error: AllocError) -> ReadFault {
        ReadFault::Memory
    }
}

impl From<StlFault> for ReadFault {
    ghost from_gives = { λ cause fault. (cause ≡ stl_fault.Memory → fault ≡ Memory)
        × (cause ≢ stl_fault.Memory → fault ≡ Stl cause) };

    fn from(cause: StlFault) -> ReadFault {
        match cause {
            StlFault::Memory => ReadFault::Memory,
            _ => ReadFault::Stl(cause),
        }
    }
}

impl From<WeldFault> for ReadFault {
    ghost from_gives = { λ cause fault. (cause ≡ weld_fault.Memory → fault ≡ Memory)
        × (cause ≢ weld_fault.Memory → fault ≡ Weld cause) };

    fn from(cause: WeldFault) -> ReadFault {
        match cause {
            WeldFault::Memory => ReadFault::Memory,
            _ => ReadFault::Weld(cause),
        }
    }
}
