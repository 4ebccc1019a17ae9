//! Gates: observers of the workers. A gate sees what each worker does, to show it, or to make a worker wait in a test.
use build_book::Piece;
use std::alloc::Allocator;

/// An observer of the workers, which count from 0. A worker calls it while it does not hold the lock on the book, so a
/// gate that waits delays only the worker that calls it. No clause says when a gate is called, or with what;
/// tests do.
pub trait Gate<A: Allocator> {
    /// A worker has drawn a stripe and is about to slice it.
    fn arrived(&self, worker: u32, stripe: u64);

    /// A worker has made the piece of a stripe and is about to file it.
    fn made(&self, worker: u32, piece: &Piece<'_, A>);
}

/// The gate that lets every worker pass: it ignores what it is given.
pub struct OpenGate;

impl<A: Allocator> Gate<A> for OpenGate {
    fn arrived(&self, _worker: u32, _stripe: u64) {}

    fn made(&self, _worker: u32, _piece: &Piece<'_, A>) {}
}
