//! Lines of text that end in 0, for C.
ghost use Rattle.std.specs.Prelude.{◌≡◌};
ghost use Rattle.stlslice_c.specs.Answers.{IsFaultLine, IsLine, IsNoSetupLine};
ghost use Rattle.stlslice_c.specs.Status.{status_of, status_text};

use crate::options::NoSetup;
use crate::status::{OUT_OF_RANGE, Status, status_of, status_text};
use layer_session::SessionFault;
use std::alloc::Allocator;

/// The text of `SessionFault::Step`.
const STEP_TEXT: &[u8] = b"pitch and layer height take 1 to 100000 micrometres";

/// Puts as much of a text into a buffer as fits with a 0 after it.
pub(crate) fn put_line(text: &[u8], line: &mut [u8])
    ensures { IsLine text.now line.old line.new }
{
    if line.len() == 0 {
        return;
    }
    let count = text.len().min(line.len() - 1);
    line[..count].copy_from_slice(&text[..count]);
    line[count] = 0;
}

/// Puts the text of a status, and returns the status.
pub(crate) fn put_status(status: Status, line: &mut [u8]) -> Status
    ensures line { IsLine (status_text status) line.old line.new }
    ensures status { result ≡ status }
{
    put_line(status_text(status), line);
    status
}

/// Puts why options stand for no setup, and returns its status.
pub(crate) fn put_no_setup<A: Allocator>(alloc: A, reason: NoSetup, line: &mut [u8]) -> Status
    ensures { IsNoSetupLine reason line.old line.new result }
{
    match reason {
        NoSetup::Number => put_status(OUT_OF_RANGE, line),
        NoSetup::Screen(cause) => put_fault(alloc, &SessionFault::Screen(cause), line),
    }
}

/// Puts the text of a fault, and returns its status. The text is the program's if the program has such a fault.
pub(crate) fn put_fault<A: Allocator>(alloc: A, fault: &SessionFault, line: &mut [u8]) -> Status
    ensures line { IsFaultLine fault.now line.old line.new }
    ensures status { result ≡ status_of fault.now }
{
    let status = status_of(fault);
    match fault {
        SessionFault::Step => put_line(STEP_TEXT, line),
        SessionFault::Memory | SessionFault::Outside { .. } => put_line(status_text(status), line),
        _ => match format!(in alloc; "{fault}") {
            Ok(text) => put_line(text.as_bytes(), line),
            Err(_) => put_line(status_text(status), line),
        },
    }
    status
}
