//! Allocations that fail, one after the other.
ghost use Rattle.std.specs.Prelude.{◌≤◌, ◌<◌, IfSome};

use crate::ShortMemory;
use std::alloc::Global;

/// A count that takes memory.
pub trait Count {
    /// The count, unless an allocation failed.
    fn count(memory: &ShortMemory<Global>) -> Option<usize>;
}

/// Fails each allocation in turn until none is left to fail, and returns which turn that was. It is `None` if an earlier turn
/// counted anything, the last one did not reach the usual count, or `turns` turns do not suffice.
pub fn first_free_turn<C: Count>(alloc: Global, turns: u64, usual: usize) -> Option<u64>
    ensures some { IfSome result (λ turn. 1 ≤ turn) }
    ensures within { IfSome result (λ turn. turn < turns) }
{
    for turn in 1..turns {
        let memory = ShortMemory::new(alloc, turn);
        let found = C::count(&memory);
        if !memory.has_failed() {
            return (found == Some(usual)).then_some(turn);
        }
        if found.is_some() {
            return None;
        }
    }
    None
}

/// A call that is tried once more if an allocation failed.
pub trait Retry {
    /// Whether the first try failed, and whether all was right after it and after the one that succeeded. It is `None` if an
    /// allocation failed before the first try.
    fn tried(memory: &ShortMemory<Global>) -> Option<(bool, bool)>;
}

/// Fails each allocation in turn until none is left to fail, and returns how many first tries failed. It is `None` if something
/// was wrong in a turn, or `turns` turns do not suffice.
pub fn failures<R: Retry>(alloc: Global, turns: u64) -> Option<u32>
    ensures { IfSome result (λ failed. failed < turns) }
{
    let mut failed = 0u32;
    for turn in 1..turns {
        let memory = ShortMemory::new(alloc, turn);
        let found = R::tried(&memory);
        if !memory.has_failed() {
            return (found == Some((false, true))).then_some(failed);
        }
        match found {
            Some((true, true)) => failed = failed.saturating_add(1),
            Some(_) => return None,
            None => {}
        }
    }
    None
}
