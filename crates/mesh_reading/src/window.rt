//! The window: what one call of a source may give.
ghost use Rattle.std.specs.Prelude.{◌≡◌, ◌≤◌, IfErr, IfOk, Ok, OnOk, length, take};
ghost use Rattle.std.specs.Io.KnownBytes.{Consumes, IsAtEnd};
ghost use Rattle.devices.specs.Devices.{Fails};
ghost use Rattle.mesh_reading.specs.declared.read_fault.ReadFault.TheVariants.{Read};

use crate::read_fault::ReadFault;
use devices::Source;

/// The length of a window, in bytes.
pub(crate) const WINDOW_LEN: usize = 65_536;

/// The least number of bytes that a call of a source is offered: `PIPE_BUF` of Linux. A pipe in packet mode (`O_DIRECT`, see
/// pipe(2)) gives each call a packet of up to that size, and drops what does not fit the call's buffer.
pub(crate) const LEAST_READ: usize = 4096;

/// Fills the front of a window from a source. Returns how many bytes came, which is 0 only at its end.
pub(crate) fn fill<I: Source>(source: &mut I, window: &mut [u8]) -> Result<usize, ReadFault>
    requires { LEAST_READ ≤ length window.old }
    ensures len { length window.new ≡ length window.old }
    ensures within { IfOk result (λ count. count ≤ length window.old) }
    ensures taken { IfOk result (λ count. Consumes (I.remaining source.old) (I.remaining source.new) (take count window.new)) }
    ensures end { result ≡ Ok 0 → IsAtEnd (I.remaining source.new) }
    ensures err { IfErr result (λ fault. (fault ≡ Read) × Fails (I.Failures.failure_count source.old) (I.Failures.failure_count source.new)) }
    ensures sound { OnOk result (I.Failures.failure_count source.new ≡ I.Failures.failure_count source.old) }
{
    match source.pull(window) {
        Ok(count) => Ok(count),
        Err(_) => Err(ReadFault::Read),
    }
}
