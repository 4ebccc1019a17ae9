//! The traits of sources and sinks, which count their failed calls.
ghost use Rattle.std.specs.Prelude.{◌≡◌, Bool, false, true, ◌≤◌, ◌<◌, IfOk, List, OnErr, OnOk, Ok, Option, length, take, ℕ};
ghost use Rattle.std.specs.Io.KnownBytes.{Appends, Consumes, IsAtEnd, Keeps};
ghost use Rattle.devices.specs.Devices.{Fails};

use thiserror::Error;

/// A call of a device failed.
#[derive(Clone, Copy, Debug, PartialEq, Eq, Error)]
#[error("a device failed")]
pub struct Failed;

/// A device that counts its own failed calls.
pub trait Failures {
    ghost failure_count: { Self → ℕ };

    /// The number of failed calls of this device. It stops counting at 2^64 - 1.
    fn failures(&self) -> u64
        ensures { result ≡ failure_count self.now };
}

/// A device that bytes come from. Each call is tried once: an interruption is an error too.
pub trait Source: Failures {
    /// The bytes that are still to come, if they are known.
    ghost remaining: { Self → Option (List ℕ) };

    /// Reads bytes into the front of `buf` and returns their number: 0 only at the end, or if `buf` is empty. On an error it took
    /// none; what `buf` holds then is not said.
    fn pull(&mut self, buf: &mut [u8]) -> Result<usize, Failed>
        ensures length { length buf.new ≡ length buf.old }
        ensures within { IfOk result (λ n. n ≤ length buf.old) }
        ensures taken { IfOk result (λ n. Consumes (remaining self.old) (remaining self.new) (take n buf.new)) }
        ensures end { result ≡ Ok 0 → 0 < length buf.old → IsAtEnd (remaining self.new) }
        ensures none { OnErr result (Keeps (remaining self.old) (remaining self.new)) }
        ensures ok { OnOk result (Self.Failures.failure_count self.new ≡ Self.Failures.failure_count self.old) }
        ensures err { OnErr result (Fails (Self.Failures.failure_count self.old) (Self.Failures.failure_count self.new)) };
}

/// A device that bytes go to. Each call is tried once: an interruption is an error too.
pub trait Sink: Failures {
    /// The bytes that went out, if they are known.
    ghost contents: { Self → Option (List ℕ) };

    /// Whether all that was taken has been flushed.
    ghost is_settled: { Self → Bool };

    /// Takes bytes from the front of `chunk` and returns their number: at least 1, unless `chunk` is empty. On an error it took
    /// none. What it took is not flushed until the next `settle`.
    fn put(&mut self, chunk: &[u8]) -> Result<usize, Failed>
        ensures within { IfOk result (λ n. n ≤ length chunk.now) }
        ensures some { IfOk result (λ n. 0 < length chunk.now → 0 < n) }
        ensures out { IfOk result (λ n. Appends (contents self.old) (contents self.new) (take n chunk.now)) }
        ensures none { OnErr result (Keeps (contents self.old) (contents self.new)) }
        ensures unsettled { IfOk result (λ n. 0 < n → is_settled self.new ≡ false) }
        ensures ok { OnOk result (Self.Failures.failure_count self.new ≡ Self.Failures.failure_count self.old) }
        ensures err { OnErr result (Fails (Self.Failures.failure_count self.old) (Self.Failures.failure_count self.new)) };

    /// Flushes the bytes that were taken, as `std::io::Write::flush` does. It takes no byte itself.
    fn settle(&mut self) -> Result<(), Failed>
        ensures settled { OnOk result (is_settled self.new ≡ true) }
        ensures none { Keeps (contents self.old) (contents self.new) }
        ensures ok { OnOk result (Self.Failures.failure_count self.new ≡ Self.Failures.failure_count self.old) }
        ensures err { OnErr result (Fails (Self.Failures.failure_count self.old) (Self.Failures.failure_count self.new)) };
}
