//! Why a run wrote no text, or not all of it.
ghost use Rattle.std.specs.Prelude.{◌≡◌, Some};
ghost use Rattle.stlslice.specs.RunFault.{of_read, of_weld, run_fault_text, run_status};
ghost use Rattle.stlslice.specs.declared.run_fault.RunFault.TheVariants.{Grid, Memory, Write};

use devices::WriteFault;
use geometry::Point;
use mesh_reading::ReadFault;
use mesh_weld::WeldFault;
use raster::GridFault;
use std::alloc::AllocError;
use std::fmt::{self, Display, Formatter, Write as TextWrite};
use stl_text::StlFault;
use thiserror::Error;

/// Why a run wrote no text, or not all of it. Its `Display` is the program's line on standard error.
#[derive(Clone, Copy, Debug, PartialEq, Eq, Error)]
pub enum RunFault {
    /// The input could not be read. Nothing was written.
    Read,
    /// The input does not read as facets. Nothing was written.
    Stl(StlFault),
    /// The mesh is not closed: `there` half-edges run from `from` to `to`, and `back` half-edges run back. Both points are in
    /// micrometres. Of all pairs whose two numbers differ, with `from` before `to`, this is the least. Nothing was written.
    Open {
        from: Point,
        to: Point,
        there: u32,
        back: u32,
    },
    /// There is no grid. Nothing was written.
    Grid(GridFault),
    /// An allocation failed. Nothing was written.
    Memory,
    /// The output could not be written. Its first `written` bytes were.
    Write {
        written: u64,
    },
    /// The voxel is not in the grid, which has these counts. Nothing was written.
    Outside {
        columns: u32,
        rows: u32,
        layers: u32,
    },
}

impl RunFault {
    /// The exit status of a program that ends with this fault: 3 for `Stl`, 4 for `Open`, 5 for `Grid` and `Outside`, 6 for
    /// `Memory`, 7 for `Read` and `Write`.
    pub fn status(&self) -> u8
        ensures { result ≡ run_status self.now }
    {
        match self {
            RunFault::Stl(_) => 3,
            RunFault::Open { .. } => 4,
            RunFault::Grid(_) | RunFault::Outside { .. } => 5,
            RunFault::Memory => 6,
            RunFault::Read | RunFault::Write { .. } => 7,
        }
    }
}

impl Display for RunFault {
    ghost output = { λ fault. Some (run_fault_text fault) };

    fn fmt<W: TextWrite>(&self, f: &mut Formatter<W>) -> fmt::Result {
        match self {
            RunFault::Read => f.write_str("stlslice: read failed"),
            RunFault::Stl(cause) => write!(f, "stlslice: {cause}"),
            RunFault::Open {
                from,
                to,
                there,
                back,
            } => write!(
                f,
                "stlslice: open edge {from} to {to} there {there} back {back}"
            ),
            RunFault::Grid(cause) => write!(f, "stlslice: {cause}"),
            RunFault::Memory => f.write_str("stlslice: out of memory"),
            RunFault::Write { written } => {
                write!(f, "stlslice: write failed after {written} bytes")
            }
            RunFault::Outside {
                columns,
                rows,
                layers,
            } => write!(
                f,
                "stlslice: voxel outside the grid: {columns} columns, {rows} rows, {layers} layers"
            ),
        }
    }
}

impl From<AllocError> for RunFault {
    ghost from_gives = { λ _ fault. fault ≡ Memory };

    fn from(_error: AllocError) -> RunFault {
        RunFault::Memory
    }
}

impl From<ReadFault> for RunFault {
    ghost from_gives = { λ cause fault. fault ≡ of_read cause };

    fn from(cause: ReadFault) -> RunFault {
        match cause {
            ReadFault::Read => RunFault::Read,
            ReadFault::Stl(of_text) => RunFault::Stl(of_text),
            ReadFault::Weld(of_mesh) => RunFault::from(of_mesh),
            ReadFault::Memory => RunFault::Memory,
        }
    }
}

impl From<WeldFault> for RunFault {
    ghost from_gives = { λ cause fault. fault ≡ of_weld cause };

    fn from(cause: WeldFault) -> RunFault {
        match cause {
            WeldFault::Open {
                from,
                to,
                there,
                back,
            } => RunFault::Open {
                from,
                to,
                there,
                back,
            },
            WeldFault::Memory => RunFault::Memory,
        }
    }
}

impl From<GridFault> for RunFault {
    ghost from_gives = { λ cause fault. fault ≡ Grid cause };

    fn from(cause: GridFault) -> RunFault {
        RunFault::Grid(cause)
    }
}

impl From<WriteFault> for RunFault {
    ghost from_gives = { λ cause fault. fault ≡ Write cause.written };

    fn from(cause: WriteFault) -> RunFault {
        RunFault::Write {
            written: cause.written,
        }
    }
}
