//! A reader and a writer that move few bytes a call, and fail when a test wants it, and a device that is interrupted once.
ghost use Rattle.std.specs.Prelude.{◌≡◌, [], Some};

use std::alloc::{Allocator, Global};
use std::io::{Error, ErrorKind, Read, Result, Write};

/// Gives one byte a call, and after `calls` calls fails with `fault` at each further one.
#[derive(Drop)]
pub struct OneByteReader<'a> {
    /// The bytes that it still gives.
    pub bytes: &'a [u8],
    /// How many calls are left before it fails.
    pub calls: u64,
    /// The error of the calls that fail.
    pub fault: ErrorKind,
}

impl<'a> Read for OneByteReader<'a> {
    ghost remaining = { λ r. Some r.bytes.now };

    fn read(&mut self, buf: &mut [u8]) -> Result<usize> {
        if self.calls == 0 {
            return Err(Error::from(self.fault));
        }
        self.calls -= 1;
        match (self.bytes.split_first(), buf.first_mut()) {
            (Some((byte, rest)), Some(place)) => {
                *place = *byte;
                self.bytes = rest;
                Ok(1)
            }
            _ => Ok(0),
        }
    }
}

/// Takes at most `most_per_call` bytes a call while it has room. When it has none, it fails with `fault`. If `fault` is `None`,
/// it returns that it took 0 bytes, without an error.
#[derive(Drop)]
pub struct SmallWriter {
    /// The bytes that it took.
    pub taken: Vec<u8>,
    /// How many bytes it still takes.
    pub room: usize,
    /// The most that it takes a call.
    pub most_per_call: usize,
    /// The error of a write once it has no room.
    pub fault: Option<ErrorKind>,
    /// Whether a flush succeeds; if not, it fails with `ErrorKind::Other`.
    pub flushes: bool,
}

impl SmallWriter {
    /// A writer that has taken nothing yet; its parts are those of the fields with these names.
    pub fn new(
        alloc: Global,
        room: usize,
        most_per_call: usize,
        fault: Option<ErrorKind>,
        flushes: bool,
    ) -> SmallWriter
        ensures taken { result.taken.items ≡ [] }
        ensures room { result.room ≡ room }
        ensures most_per_call { result.most_per_call ≡ most_per_call }
        ensures fault { result.fault ≡ fault }
        ensures flushes { result.flushes ≡ flushes }
    {
        SmallWriter {
            taken: Vec::new(alloc),
            room,
            most_per_call,
            fault,
            flushes,
        }
    }
}

impl Write for SmallWriter {
    ghost contents = { λ w. Some w.taken.items };

    fn write(&mut self, buf: &[u8]) -> Result<usize> {
        match self.fault {
            Some(fault) if self.room == 0 => Err(Error::from(fault)),
            _ => {
                let count = buf.len().min(self.most_per_call).min(self.room);
                self.taken.extend_from_slice(&buf[..count])?;
                self.room -= count;
                Ok(count)
            }
        }
    }

    fn flush(&mut self) -> Result<()> {
        if self.flushes {
            Ok(())
        } else {
            Err(Error::from(ErrorKind::Other))
        }
    }
}

/// A reader or a writer of which one call is interrupted: the one after `calls` calls fails with `ErrorKind::Interrupted`,
/// and moves no byte. All others, also those after it, are calls of the device inside.
#[derive(Drop)]
pub struct InterruptedOnce<T> {
    /// The device inside.
    pub inner: T,
    /// How many calls are left before the one that fails; `None` once it has failed.
    pub calls: Option<u64>,
}

impl<T> InterruptedOnce<T> {
    /// Counts a call: whether it is the one that fails.
    fn is_interrupted(&mut self) -> bool
        ensures { self.new.inner ≡ self.old.inner }
    {
        match self.calls {
            Some(0) => {
                self.calls = None;
                true
            }
            Some(left) => {
                self.calls = Some(left - 1);
                false
            }
            None => false,
        }
    }
}

impl<T: Read> Read for InterruptedOnce<T> {
    ghost remaining = { λ r. T.remaining r.inner };

    fn read(&mut self, buf: &mut [u8]) -> Result<usize> {
        if self.is_interrupted() {
            Err(Error::from(ErrorKind::Interrupted))
        } else {
            self.inner.read(buf)
        }
    }
}

impl<T: Write> Write for InterruptedOnce<T> {
    ghost contents = { λ w. T.contents w.inner };

    fn write(&mut self, buf: &[u8]) -> Result<usize> {
        if self.is_interrupted() {
            Err(Error::from(ErrorKind::Interrupted))
        } else {
            self.inner.write(buf)
        }
    }

    fn flush(&mut self) -> Result<()> {
        if self.is_interrupted() {
            Err(Error::from(ErrorKind::Interrupted))
        } else {
            self.inner.flush()
        }
    }
}
