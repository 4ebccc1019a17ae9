//! Writes a whole chunk of bytes to a sink. After a short write it goes on with the rest.
ghost use Rattle.std.specs.Prelude.{◌≡◌, ◌<◌, IfErr, OnErr, OnOk, length};
ghost use Rattle.std.specs.Io.KnownBytes.{Appends};
ghost use Rattle.devices.specs.Devices.{AppendsFirst, Fails};

use crate::device::{Failed, Sink};
use thiserror::Error;

/// A sink failed.
#[derive(Clone, Copy, Debug, PartialEq, Eq, Error)]
#[error("write failed after {written} bytes")]
pub struct WriteFault {
    /// The number of bytes that went out before the failure.
    pub written: u64,
}

/// Writes a whole chunk of bytes out, in as many calls of the sink as it takes.
///
/// A call of the sink that fails is not tried again, so an error is one failed call. The first `written` bytes of the chunk
/// went out, and no more; they are fewer than all. No memory is allocated.
pub fn put_all<W: Sink>(w: &mut W, chunk: &[u8]) -> Result<(), WriteFault>
    ensures ok { OnOk result (Appends (W.contents w.old) (W.contents w.new) chunk.now) }
    ensures same { OnOk result (W.Failures.failure_count w.new ≡ W.Failures.failure_count w.old) }
    ensures written { IfErr result (λ fault. AppendsFirst (W.contents w.old) (W.contents w.new) fault.written chunk.now) }
    ensures within { IfErr result (λ fault. fault.written < length chunk.now) }
    ensures failed { OnErr result (Fails (W.Failures.failure_count w.old) (W.Failures.failure_count w.new)) }
{
    let mut written = 0;
    while written < chunk.len() {
        match w.put(&chunk[written..]) {
            Ok(taken) => written += taken,
            Err(Failed) => {
                return Err(WriteFault {
                    written: written as u64,
                });
            }
        }
    }
    Ok(())
}
