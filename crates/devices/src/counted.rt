//! An adapter that makes a device of any of std's readers and writers.
ghost use Rattle.std.specs.Prelude.{◌≡◌, true};
ghost use Rattle.devices.specs.Devices.{Fails};

use crate::device::{Failed, Failures, Sink, Source};
use std::io::{Read, Write};
use std::marker::Model;

/// A source over any reader, and a sink over any writer. It counts the failed calls. A writer that takes 0 bytes of a chunk
/// that is not empty counts as failed. No clause says that each call is tried once, that exactly the failed ones are counted,
/// or that `settle` flushes the writer; tests do.
#[derive(Drop)]
pub struct Counted<T> {
    inner: T,
    failures: u64,
    is_settled: bool,
}

impl<T> Model for Counted<T> {
    ghost use Rattle.devices.specs.Devices.{Counted};

    ghost Value = { Counted T };

    ghost view = { λ counted. record { device = counted.inner; count = counted.failures; is_settled = counted.is_settled } };
}

impl<T> Counted<T> {
    /// A device over a reader or a writer, with no failure yet.
    pub fn new(inner: T) -> Counted<T>
        ensures { result ≡ record { device = inner; count = 0; is_settled = true } }
    {
        Counted {
            inner,
            failures: 0,
            is_settled: true,
        }
    }

    /// The reader or writer.
    pub fn inner(&self) -> &T
        ensures { result.now ≡ self.now.device }
    {
        &self.inner
    }

    /// Returns the reader or writer.
    pub fn into_inner(self) -> T
        ensures { result ≡ self.device }
    {
        let Counted {
            inner,
            failures: _,
            is_settled: _,
        } = self;
        inner
    }

    /// Counts a failure.
    fn fail(&mut self) -> Failed
        ensures device { self.new.device ≡ self.old.device }
        ensures count { Fails self.old.count self.new.count }
    {
        self.failures = self.failures.saturating_add(1);
        Failed
    }
}

impl<T> Failures for Counted<T> {
    ghost failure_count = { λ counted. counted.count };

    fn failures(&self) -> u64 {
        self.failures
    }
}

impl<T: Read> Source for Counted<T> {
    ghost remaining = { λ counted. T.remaining counted.device };

    fn pull(&mut self, buf: &mut [u8]) -> Result<usize, Failed> {
        match self.inner.read(buf) {
            Ok(count) => Ok(count),
            Err(_) => Err(self.fail()),
        }
    }
}

impl<T: Write> Sink for Counted<T> {
    ghost contents = { λ counted. T.contents counted.device };

    ghost is_settled = { λ counted. counted.is_settled };

    fn put(&mut self, chunk: &[u8]) -> Result<usize, Failed> {
        self.is_settled = false;
        match self.inner.write(chunk) {
            Ok(0) if !chunk.is_empty() => Err(self.fail()),
            Ok(count) => Ok(count),
            Err(_) => Err(self.fail()),
        }
    }

    fn settle(&mut self) -> Result<(), Failed> {
        match self.inner.flush() {
            Ok(()) => {
                self.is_settled = true;
                Ok(())
            }
            Err(_) => Err(self.fail()),
        }
    }
}
