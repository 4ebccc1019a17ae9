//! The statuses that calls return, and their texts.
ghost use Rattle.std.specs.Prelude.{◌≡◌};
ghost use Rattle.stlslice_c.specs.Status.{screen_status, status_of, status_text};

use layer_session::{ScreenFault, SessionFault};

/// What a call returns: [`DONE`], or why not.
pub(crate) type Status = u32;

/// Done.
pub(crate) const DONE: Status = 0;

/// An argument is out of its range, arrays among them; there is no such layer, stripe or voxel; a pointer is null, or a size is
/// one that no object has.
pub(crate) const OUT_OF_RANGE: Status = 1;

/// The file is no STL that can be read.
pub(crate) const TEXT: Status = 3;

/// The mesh has an open edge.
pub(crate) const OPEN_MESH: Status = 4;

/// There is no such grid.
pub(crate) const GRID: Status = 5;

/// An allocation failed.
pub(crate) const MEMORY: Status = 6;

/// The buffer is too small; the call put the size that it needs.
pub(crate) const NO_ROOM: Status = 7;

/// The handle has no mesh: none was opened, or it was closed.
pub(crate) const NOT_OPEN: Status = 8;

/// The part does not fit the screen.
pub(crate) const NO_FIT: Status = 9;

/// The status of a fault: the program's, but for what is out of range or outside the grid, and for arrays.
pub(crate) fn status_of(fault: &SessionFault) -> Status
    ensures { result ≡ status_of fault.now }
{
    match fault {
        SessionFault::Step | SessionFault::Arrays(_) | SessionFault::Outside { .. } => OUT_OF_RANGE,
        SessionFault::Stl(_) | SessionFault::Binary(_) => TEXT,
        SessionFault::Weld(_) => OPEN_MESH,
        SessionFault::Grid(_) => GRID,
        SessionFault::Screen(cause) => screen_status(cause),
        SessionFault::Memory => MEMORY,
    }
}

/// The status of a fault of a screen, or of a part on it.
fn screen_status(fault: &ScreenFault) -> Status
    ensures { result ≡ screen_status fault.now }
{
    match fault {
        ScreenFault::NoPixels
        | ScreenFault::TooManyPixels { .. }
        | ScreenFault::NoSide
        | ScreenFault::NoPitch => OUT_OF_RANGE,
        ScreenFault::DoesNotFit { .. } => NO_FIT,
        ScreenFault::NoFacets
        | ScreenFault::OutOfRange
        | ScreenFault::ScreenOutOfRange
        | ScreenFault::TooHigh { .. } => GRID,
    }
}

/// The text of a status.
pub(crate) fn status_text(status: Status) -> &'static [u8]
    ensures { result.now ≡ status_text status }
{
    match status {
        DONE => b"done",
        OUT_OF_RANGE => b"a number is out of its range, or outside the grid",
        TEXT => b"the file is no STL that can be read",
        OPEN_MESH => b"the mesh has an open edge",
        GRID => b"there is no such grid",
        MEMORY => b"out of memory",
        NO_ROOM => b"the buffer is too small",
        NOT_OPEN => b"no mesh was opened, or it was closed",
        NO_FIT => b"the part does not fit the screen",
        _ => b"no status",
    }
}
