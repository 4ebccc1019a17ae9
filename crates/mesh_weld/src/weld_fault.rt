//! Why welding fails.
ghost use Rattle.std.specs.Prelude.{◌≡◌, Some};
ghost use Rattle.mesh_weld.specs.WeldFault.{weld_fault_text};
ghost use Rattle.mesh_weld.specs.declared.weld_fault.WeldFault.TheVariants as weld_fault;

use geometry::Point;
use std::alloc::AllocError;
use std::fmt::{self, Display, Formatter, Write};
use thiserror::Error;

/// Why facets are no solid.
#[derive(Clone, Copy, Debug, PartialEq, Eq, Error)]
pub enum WeldFault {
    /// The least pair of points, `from` before `to`, between which the half-edges there and back differ in number. The points
    /// are in micrometres. Over all facets, `there` half-edges run from `from` to `to`, and `back` half-edges run back.
    Open {
        from: Point,
        to: Point,
        there: u32,
        back: u32,
    },
    /// An allocation failed.
    Memory,
}

impl Display for WeldFault {
    ghost output = { λ fault. Some (weld_fault_text fault) };

    fn fmt<W: Write>(&self, f: &mut Formatter<W>) -> fmt::Result {
        match self {
            WeldFault::Open {
                from,
                to,
                there,
                back,
            } => write!(f, "open edge {from} to {to} there {there} back {back}"),
            WeldFault::Memory => f.write_str("out of memory"),
        }
    }
}

impl From<AllocError> for WeldFault {
    ghost from_gives = { λ _ fault. fault ≡ weld_fault.Memory };

    fn from(_error: AllocError) -> WeldFault {
        WeldFault::Memory
    }
}
