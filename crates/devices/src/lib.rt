//! The devices that a program reads and writes: sources of bytes and sinks, which count their failed calls.
//!
//! ```text
//! let mut sink = Counted::new(writer);                          // a device over any writer of std
//! put_all(&mut sink, bytes)?;                                   // by as many calls as it takes
//! sink.settle()?;                                               // flushes it
//! ```
//!
//! - [`Source`], [`Sink`]: the devices that are read and written. A call of them that fails returns [`Failed`], and
//!   [`Failures`] counts these. [`Counted`] makes a device of any reader or writer.
//! - [`put_all`]: writes a whole chunk of bytes; [`WriteFault`]: how many went out before a failure.
//!
//! No failed call is tried again. Lengths are in bytes.
#![tactic(auto)]

mod counted;
mod device;
mod writing;

pub use counted::Counted;
pub use device::{Failed, Failures, Sink, Source};
pub use writing::{WriteFault, put_all};
