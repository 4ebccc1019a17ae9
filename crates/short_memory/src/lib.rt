//! An allocator, a reader and a writer that fail at a point that a test chooses.
//!
//! [`ShortMemory`] fails one allocation. A test repeats a call, and fails the first allocation, then the second, and so on,
//! until the call has none left to fail. The functions [`first_free_turn`] and [`failures`] do that. It can also hold an
//! allocation, so that a test sees what other threads do meanwhile.
//!
//! The devices [`OneByteReader`] and [`SmallWriter`] move few bytes a call. They fail at a call, or after a byte, that the test
//! chooses. An [`InterruptedOnce`] fails one call of a reader or writer, and goes on.
//!
//! ```text
//! for number in 1..200 {
//!     let memory = ShortMemory::new(alloc, number);
//!     let answer = call(&memory);
//!     if !memory.has_failed() {
//!         return answer; // the call made fewer allocations than `number`, so none failed
//!     }
//! }
//! ```
#![tactic(auto)]

mod devices;
mod turns;

pub use devices::{InterruptedOnce, OneByteReader, SmallWriter};
use std::alloc::{AllocError, Allocator};
use std::sync::atomic::AtomicU64;
use std::sync::atomic::Ordering::SeqCst;
use std::thread;
pub use turns::{Count, Retry, failures, first_free_turn};

/// Takes memory from an inner allocator, except for one allocation, which it fails.
///
/// `&ShortMemory<Global>` is an allocator too, and `Copy + Send + Sync`: several threads share one count.
pub struct ShortMemory<B: Allocator> {
    inner: B,
    // How many allocations are left up to and including the one that fails; after that one the count wraps around.
    left: AtomicU64,
}

impl<B: Allocator> ShortMemory<B> {
    /// An allocator that fails the allocation of this number, counted from 1, and no other of the first 2^60. With the number 0
    /// it fails none of them.
    pub fn new(inner: B, number: u64) -> ShortMemory<B> {
        ShortMemory {
            inner,
            left: AtomicU64::new(number),
        }
    }

    /// Whether the allocation that fails was reached, if its number is 1 to 2^60 and none was held.
    pub fn has_failed(&self) -> bool {
        self.left.load(SeqCst).wrapping_sub(1) > u64::MAX / 2
    }

    /// Holds the next allocation, of whichever thread, until `let_go` is called, for at most ten million turns. Those after it
    /// go on, and none fails any more.
    pub fn hold_next(&self) {
        self.left.store(HELD, SeqCst);
    }

    /// Whether an allocation is held now.
    pub fn is_holding(&self) -> bool {
        is_holding(&self.left)
    }

    /// Lets the allocation go that is held.
    pub fn let_go(&self) {
        self.left.store(LET_GO, SeqCst);
    }
}

impl<B: Allocator> Drop for ShortMemory<B> {
    fn drop(self) {
        let Self { inner: _, left: _ } = self;
    }
}

// The count at the allocation that is held. The allocations after it count down from here.
const HELD: u64 = 1 << 62;

// The count once that one is let go.
const LET_GO: u64 = 1 << 61;

// How many turns an allocation is held at most.
const TURNS: u32 = 10_000_000;

fn is_holding(left: &AtomicU64) -> bool {
    let count = left.load(SeqCst);
    LET_GO < count && count < HELD
}

// Returns once the allocation is let go, which it is after the last turn.
fn hold(left: &AtomicU64) {
    for _ in 0..TURNS {
        if !is_holding(left) {
            return;
        }
        thread::yield_now();
    }
    left.store(LET_GO, SeqCst);
}

// Counts one allocation, and returns whether it is the one that fails. The count is atomic, so the answer is `true` once,
// in one thread.
fn fails(left: &AtomicU64) -> bool {
    let count = left.fetch_sub(1, SeqCst);
    if count == HELD {
        hold(left);
    }
    count == 1
}

unsafe impl<B: Allocator> Allocator for ShortMemory<B> {
    ghost dealloc_token = { λ heap ty ptr. B.dealloc_token heap.inner ty ptr };

    fn allocate(&self, size: usize, align: usize) -> Result<*mut u8, AllocError> {
        if fails(&self.left) {
            return Err(AllocError);
        }
        self.inner.allocate(size, align)
    }

    unsafe fn deallocate(&self, ptr: *mut u8, size: usize, align: usize) {
        self.inner.deallocate(ptr, size, align);
    }
}
