//! What no clause of the claims says: the order of the draws, threads that really run, and what happens where an
//! allocation fails.
ghost use Rattle.std.specs.Prelude.{◌≤◌, All, IfOk};
ghost use Rattle.stripe_claims.specs.Claims.{IsOwned};

use short_memory::{Count, ShortMemory, first_free_turn};
use std::alloc::{AllocError, Global};
use std::thread;
use std::thread::Threads;
use stripe_claims::{Claims, PASS_LIMIT, Pass};

fn draw_at(claims: &Claims<Global>, passes: &mut Vec<Pass>, k: usize) -> Option<u64>
    requires { All (IsOwned claims.now) passes.old.items }
    ensures { All (IsOwned claims.now) passes.new.items }
{
    if k < passes.len() {
        claims.draw(&mut passes[k])
    } else {
        None
    }
}

/// The number of the first draw, by the pass with a number, that returns something else.
fn first_other_draw(
    claims: &Claims<Global>,
    passes: &mut Vec<Pass>,
    draws: &[(usize, Option<u64>)],
) -> Option<usize>
    requires { All (IsOwned claims.now) passes.old.items }
    ensures { All (IsOwned claims.now) passes.new.items }
{
    for (n, (pass, told)) in draws.iter().enumerate() {
        if draw_at(claims, passes, *pass) != *told {
            return Some(n);
        }
    }
    None
}

/// The same for two passes of claims to this number of stripes, with the word of the claims at the end.
fn drawn_by_two(
    alloc: Global,
    stripes: u64,
    draws: &[(usize, Option<u64>)],
) -> Result<(Option<usize>, u64), AllocError>
    requires { stripes ≤ 8192 }
{
    let (claims, mut passes) = Claims::open(alloc, stripes, 2)?;
    let other = first_other_draw(&claims, &mut passes, draws);
    Ok((other, claims.close(passes)))
}

static THREE: [(usize, Option<u64>); 6] = [
    (0, Some(0)),
    (1, Some(1)),
    (0, Some(2)),
    (1, None),
    (0, None),
    (1, None),
];

#[test]
fn two_passes_draw_three(rt: HostRuntime) {
    assert!(rt; drawn_by_two(rt.alloc(), 3, &THREE) == Ok((None, 5)));
}

static NONE: [(usize, Option<u64>); 3] = [(1, None), (0, None), (1, None)];

#[test]
fn no_stripes(rt: HostRuntime) {
    assert!(rt; drawn_by_two(rt.alloc(), 0, &NONE) == Ok((None, 2)));
}

/// What one of two passes draws, and the word of the claims if neither pass comes back.
fn drawn_by_one(alloc: Global) -> Result<(Option<u64>, u64), AllocError> {
    let (claims, mut passes) = Claims::open(alloc, 3, 2)?;
    let drawn = draw_at(&claims, &mut passes, 1);
    Ok((drawn, claims.close(Vec::new(alloc))))
}

#[test]
fn no_passes_handed_in(rt: HostRuntime) {
    assert!(rt; drawn_by_one(rt.alloc()) == Ok((Some(0), 1)));
}

/// All that one pass draws until it ends, or until memory runs out.
fn draw_all(claims: &Claims<Global>, alloc: Global, mut pass: Pass) -> (Pass, Vec<u64>)
    requires { IsOwned claims.now pass }
    ensures { IsOwned claims.now result.0 }
{
    let mut drawn = Vec::new(alloc);
    for _ in 0..=1000 {
        let Some(number) = claims.draw(&mut pass) else {
            break;
        };
        if drawn.push(number).is_err() {
            break;
        }
    }
    (pass, drawn)
}

/// The passes, and what was drawn with them, each by a thread of its own.
fn drawn_by_threads<R: Threads + Sync>(
    rt: &R,
    claims: &Claims<Global>,
    alloc: Global,
    passes: Vec<Pass>,
) -> Result<(Vec<Pass>, Vec<u64>), AllocError>
    requires { All (IsOwned claims.now) passes.items }
    ensures { IfOk result (λ r. All (IsOwned claims.now) r.0.items) }
{
    let mut done = thread::map_vec(rt, passes, &|pass| draw_all(claims, alloc, pass))?;
    let mut back = Vec::new(alloc);
    let mut all = Vec::new(alloc);
    while let Some((pass, mut drawn)) = done.pop() {
        back.push(pass)?;
        all.append(&mut drawn)?;
    }
    Ok((back, all))
}

/// Whether these are the numbers below a count, each once.
fn are_below(mut numbers: Vec<u64>, count: usize) -> Result<bool, AllocError> {
    numbers.sort()?;
    for (k, number) in numbers.iter().enumerate() {
        if *number != k as u64 {
            return Ok(false);
        }
    }
    Ok(numbers.len() == count)
}

/// Whether four threads draw a thousand numbers, how many passes come back, and the word of the claims at the end.
fn drawn_by_four<R: Threads + Sync>(
    rt: &R,
    alloc: Global,
) -> Result<(bool, usize, u64), AllocError> {
    let (claims, passes) = Claims::open(alloc, 1000, 4)?;
    let (passes, numbers) = drawn_by_threads(rt, &claims, alloc, passes)?;
    let are_drawn = are_below(numbers, 1000)?;
    Ok((are_drawn, passes.len(), claims.close(passes)))
}

#[test]
fn four_threads_draw_a_thousand(rt: HostRuntime) {
    assert!(rt; drawn_by_four(&rt, rt.alloc()) == Ok((true, 4, 1004)));
}

/// The passes that are opened.
struct Opened;

impl Count for Opened {
    fn count(memory: &ShortMemory<Global>) -> Option<usize> {
        let (_claims, passes) = Claims::open(memory, 3, PASS_LIMIT).ok()?;
        Some(passes.len())
    }
}

#[test]
fn each_allocation_fails_in_turn(rt: HostRuntime) {
    assert!(rt; first_free_turn::<Opened>(rt.alloc(), 100, PASS_LIMIT as usize) > Some(1));
}
