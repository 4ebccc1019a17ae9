//! Why there is no session, or no answer of one.
ghost use Rattle.std.specs.Prelude.{◌≡◌, ◌≢◌, Some};
ghost use Rattle.binary_stl.specs.declared.binary_fault.BinaryFault.TheVariants as binary_fault;
ghost use Rattle.mesh_arrays.specs.declared.array_fault.ArrayFault.TheVariants as array_fault;
ghost use Rattle.stl_text.specs.declared.stl_fault.StlFault.TheVariants as stl_fault;
ghost use Rattle.layer_session.specs.SessionFault.{session_fault_text};
ghost use Rattle.layer_session.specs.declared.session_fault.SessionFault.TheVariants.{Arrays, Binary, Grid, Memory, Screen, Stl};

use binary_stl::BinaryFault;
use mesh_arrays::ArrayFault;
use mesh_weld::WeldFault;
use part_on_screen::ScreenFault;
use raster::GridFault;
use std::alloc::AllocError;
use std::fmt::{self, Display, Formatter, Write};
use stl_text::StlFault;
use thiserror::Error;

/// Why there is no session, or no answer of one. Its `Display` is the program's line on standard error, after `stlslice: `, but
/// for `Step`, `Binary`, `Arrays` and `Screen`. The program checks pitch and layer height as it reads its words, and names the
/// option. It reads texts alone, and has no screens.
#[derive(Clone, Copy, Debug, PartialEq, Eq, Error)]
pub enum SessionFault {
    /// Pitch or layer height is out of range.
    Step,
    /// The text does not read as facets. It is not `StlFault::Memory`.
    Stl(StlFault),
    /// The binary STL does not read as facets. It is not `BinaryFault::Memory`.
    Binary(BinaryFault),
    /// The arrays are no facets. It is not `ArrayFault::Memory`.
    Arrays(ArrayFault),
    /// The mesh is not closed. It is not `WeldFault::Memory`. The points are those of the facets that were read, also on a
    /// screen. There the edge is the least as the facets stand, so which one it is may depend on the turn.
    Weld(WeldFault),
    /// There is no grid.
    Grid(GridFault),
    /// The mesh cannot stand on the screen.
    Screen(ScreenFault),
    /// An allocation failed.
    Memory,
    /// The layer, the stripe or the voxel is not in the grid, which has these counts.
    Outside {
        columns: u32,
        rows: u32,
        layers: u32,
    },
}

impl Display for SessionFault {
    ghost output = { λ fault. Some (session_fault_text fault) };

    fn fmt<W: Write>(&self, f: &mut Formatter<W>) -> fmt::Result {
        match self {
            SessionFault::Step => {
                f.write_str("pitch and layer height take 1 to 100000 micrometres")
            }
            SessionFault::Stl(cause) => cause.fmt(f),
            SessionFault::Binary(cause) => cause.fmt(f),
            SessionFault::Arrays(cause) => cause.fmt(f),
            SessionFault::Weld(cause) => cause.fmt(f),
            SessionFault::Grid(cause) => cause.fmt(f),
            SessionFault::Screen(cause) => cause.fmt(f),
            SessionFault::Memory => f.write_str("out of memory"),
            SessionFault::Outside {
                columns,
                rows,
                layers,
            } => write!(
                f,
                "voxel outside the grid: {columns} columns, {rows} rows, {layers} layers"
            ),
        }
    }
}

impl From<AllocError> for SessionFault {
    ghost from_gives = { λ _ fault. fault ≡ Memory };

    fn from(_error: AllocError) -> SessionFault {
        SessionFault::Memory
    }
}

impl From<StlFault> for SessionFault {
    ghost from_gives = { λ cause fault. (cause ≡ stl_fault.Memory → fault ≡ Memory)
        × (cause ≢ stl_fault.Memory → fault ≡ Stl cause) };

    fn from(cause: StlFault) -> SessionFault {
        match cause {
            StlFault::Memory => SessionFault::Memory,
            _ => SessionFault::Stl(cause),
        }
    }
}

impl From<BinaryFault> for SessionFault {
    ghost from_gives = { λ cause fault. (cause ≡ binary_fault.Memory → fault ≡ Memory)
        × (cause ≢ binary_fault.Memory → fault ≡ Binary cause) };

    fn from(cause: BinaryFault) -> SessionFault {
        match cause {
            BinaryFault::Memory => SessionFault::Memory,
            _ => SessionFault::Binary(cause),
        }
    }
}

impl From<ArrayFault> for SessionFault {
    ghost from_gives = { λ cause fault. (cause ≡ array_fault.Memory → fault ≡ Memory)
        × (cause ≢ array_fault.Memory → fault ≡ Arrays cause) };

    fn from(cause: ArrayFault) -> SessionFault {
        match cause {
            ArrayFault::Memory => SessionFault::Memory,
            _ => SessionFault::Arrays(cause),
        }
    }
}

impl From<GridFault> for SessionFault {
    ghost from_gives = { λ cause fault. fault ≡ Grid cause };

    fn from(cause: GridFault) -> SessionFault {
        SessionFault::Grid(cause)
    }
}

impl From<ScreenFault> for SessionFault {
    ghost from_gives = { λ cause fault. fault ≡ Screen cause };

    fn from(cause: ScreenFault) -> SessionFault {
        SessionFault::Screen(cause)
    }
}
