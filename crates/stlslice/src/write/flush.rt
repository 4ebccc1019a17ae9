//! Writes an output to a sink, as a whole or part by part, and flushes the sink at the end.
ghost use Rattle.std.specs.Prelude.{◌≡◌, ◌≤◌, ◌+◌, IfErr, OnOk, length, true};
ghost use Rattle.std.specs.Io.KnownBytes.{Keeps};
ghost use Rattle.devices.specs.Transcript.{transcript_of};
ghost use Rattle.devices.specs.Devices.{Fails, greatest_count};
ghost use Rattle.stlslice.specs.Put.{IsPut};
ghost use Rattle.stlslice.specs.Writing.{IsWritten};
ghost use Rattle.stlslice.specs.declared.run_fault.RunFault.TheVariants.{Write};

use crate::run_fault::RunFault;
use devices::{Sink, WriteFault, put_all};

/// Writes a whole text, and flushes it. On a fault its first `written` bytes went out; these are all if the flush failed.
pub(crate) fn write_all<O: Sink>(sink: &mut O, text: &[u8]) -> Result<(), RunFault>
    ensures { IsWritten result
        (transcript_of O.contents O.Failures.failure_count sink.old sink.new)
        (O.is_settled sink.new) text.now }
{
    put_all(sink, text)?;
    settle(sink, text.len() as u64)
}

/// Writes the next part of a text. `before` is the number of bytes that were written so far. Returns the number afterwards.
pub(crate) fn put_more<O: Sink>(part: &[u8], sink: &mut O, before: u64) -> Result<u64, WriteFault>
    requires { before + length part.now ≤ greatest_count }
    ensures { IsPut result
        (transcript_of O.contents O.Failures.failure_count sink.old sink.new)
        part.now before }
{
    match put_all(sink, part) {
        Ok(()) => Ok(before + part.len() as u64),
        Err(fault) => Err(WriteFault {
            written: before + fault.written,
        }),
    }
}

/// Flushes a sink, after `written` bytes of a run's output.
pub(crate) fn settle<O: Sink>(sink: &mut O, written: u64) -> Result<(), RunFault>
    ensures flushed { OnOk result (O.is_settled sink.new ≡ true) }
    ensures kept { Keeps (O.contents sink.old) (O.contents sink.new) }
    ensures same { OnOk result (O.Failures.failure_count sink.new ≡ O.Failures.failure_count sink.old) }
    ensures err { IfErr result (λ fault. (fault ≡ Write written)
        × Fails (O.Failures.failure_count sink.old) (O.Failures.failure_count sink.new)) }
{
    match sink.settle() {
        Ok(()) => Ok(()),
        Err(_) => Err(RunFault::Write { written }),
    }
}
