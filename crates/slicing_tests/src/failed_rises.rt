//! A rise of a sweep for which an allocation fails leaves the sweep as it was, and the next one succeeds.
use contour::Sweep;
use mesh_weld::Solid;
use short_memory::{Retry, ShortMemory, failures};
use std::alloc::{AllocError, Allocator, Global};
use test_meshes::TWO_CUBES;
use test_solids::solid_of;

/// A height of a sweep, how many facets it has passed there, and those that it cuts.
type Stand<'a> = (i64, u32, &'a [u32]);

const LOW: Stand<'static> = (2, 10, &[4, 5, 6, 7, 8, 9, 10, 11]);

const HIGH: Stand<'static> = (
    6,
    20,
    &[4, 5, 6, 7, 8, 9, 10, 11, 16, 17, 18, 19, 20, 21, 22, 23],
);

/// Whether a sweep is so, and has a segment for each facet that it cuts.
fn stands_at<A: Allocator + Copy + Send + Sync>(
    sweep: &Sweep<'_, A>,
    (height, passed, active): Stand<'_>,
) -> Result<bool, AllocError> {
    let segments = sweep.segments()?.len();
    Ok(
        sweep.height() == height
            && sweep.passed() == passed
            && sweep.active() == active
            && segments == active.len(),
    )
}

/// Whether a rise ran out of memory, and whether the sweep was as before then, and at the new height after the rise that
/// succeeded.
fn risen<A: Allocator + Copy + Send + Sync>(
    alloc: A,
    solid: &Solid<A>,
) -> Result<(bool, bool), AllocError> {
    let mut sweep = Sweep::start(alloc, solid, 2)?;
    let started = stands_at(&sweep, LOW)?;
    if sweep.advance(6).is_ok() {
        return Ok((false, started && stands_at(&sweep, HIGH)?));
    }
    let kept = stands_at(&sweep, LOW)?;
    sweep.advance(6)?;
    Ok((true, started && kept && stands_at(&sweep, HIGH)?))
}

/// A rise of a sweep through two cubes.
struct Rise;

impl Retry for Rise {
    fn tried(memory: &ShortMemory<Global>) -> Option<(bool, bool)> {
        match solid_of(memory, TWO_CUBES) {
            Ok(solid) => risen(memory, &solid).ok(),
            Err(_) => None,
        }
    }
}

#[test]
fn active_facets_stay_where_a_rise_fails(rt: HostRuntime) {
    assert!(rt; failures::<Rise>(rt.alloc(), 200) > Some(0));
}
