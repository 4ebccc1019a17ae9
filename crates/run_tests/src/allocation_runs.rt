//! Runs in which one allocation fails, each in turn: no clause says that a run with enough memory succeeds, nor that an
//! allocation that fails comes out as `Memory`.
use crate::answers::outcome;
use crate::drawn_runs::{COMB, COMB_IMAGES};
use crate::meshes::Mesh::{Boxes, Parts};
use crate::meshes::{Mesh, OPEN, gap, mesh_text};
use crate::png_runs::CUBE_PNGS;
use raster::GridFault;
use short_memory::ShortMemory;
use std::alloc::{AllocError, Global};
use std::sync::Wait;
use std::thread::Threads;
use stlslice::RunFault;
use test_meshes::{BOX, CORNERS, CUBE, text_of};

/// How a run ends as usual, and what it has written then.
type Usual<'a> = (Result<(), RunFault>, &'a [u8]);

/// Whether a run with this end and this text had no allocation that failed. `None` if it ended neither as usual nor out of
/// memory with nothing written.
fn is_free(
    end: Option<Result<(), RunFault>>,
    text: &[u8],
    has_failed: bool,
    usual: &Usual<'_>,
) -> Option<bool> {
    if end == Some(usual.0) && text == usual.1 {
        return Some(!has_failed);
    }
    if has_failed && end == Some(Err(RunFault::Memory)) && text.is_empty() {
        return Some(false);
    }
    None
}

/// Fails the allocation numbered `turn` of a run, and returns whether the run has no allocation of that number; `None`
/// as above.
fn is_free_turn<R: Threads + Wait + Sync + AllocGlobal>(
    rt: &R,
    turn: u64,
    line: &str,
    input: &str,
    usual: &Usual<'_>,
) -> Option<bool> {
    let memory = ShortMemory::new(rt.alloc(), turn);
    let (end, text) = outcome(rt, &memory, line, input);
    is_free(end, text.as_slice(), memory.has_failed(), usual)
}

/// Fails each allocation in turn until none is left to fail, and returns the first turn at which none failed. 0 if a
/// run ends otherwise.
pub(crate) fn first_free_turn<R: Threads + Wait + Sync + AllocGlobal>(
    rt: &R,
    line: &str,
    input: &str,
    usual: &Usual<'_>,
) -> u64 {
    for turn in 1..1000 {
        match is_free_turn(rt, turn, line, input, usual) {
            Some(false) => {}
            Some(true) => return turn,
            None => return 0,
        }
    }
    0
}

/// The same for a run over a mesh.
fn first_free_turn_over<R: Threads + Wait + Sync + AllocGlobal>(
    rt: &R,
    line: &str,
    mesh: Mesh<'_>,
    usual: &Usual<'_>,
) -> u64 {
    match mesh_text(rt.alloc(), mesh) {
        Ok(input) => first_free_turn(rt, line, input.as_str(), usual),
        Err(_) => 0,
    }
}

/// A line of words, the text that a run by them writes for the cube, and a turn at which an allocation still fails.
type Row<'a> = (&'a str, &'a [u8], u64);

static ROWS: [Row; 9] = [
    ("--box", b"facets 12 box 0 0 0 2 2 2\n", 3),
    (
        "--pitch 1 --layer 1 --probe 0,0,0",
        b"voxel 0 0 0 x 1 y 1\n",
        8,
    ),
    (
        "--pitch 1 --layer 1",
        b"P4\n2 2\n\xc0\xc0P4\n2 2\n\xc0\xc0",
        20,
    ),
    (
        "--pitch 1 --layer 1 --workers 2",
        b"P4\n2 2\n\xc0\xc0P4\n2 2\n\xc0\xc0",
        20,
    ),
    (
        "--pitch 1 --layer 1 --workers 3",
        b"P4\n2 2\n\xc0\xc0P4\n2 2\n\xc0\xc0",
        20,
    ),
    (
        "--pitch 1 --layer 1 --workers 4",
        b"P4\n2 2\n\xc0\xc0P4\n2 2\n\xc0\xc0",
        20,
    ),
    ("--pitch 1 --layer 1 --png", CUBE_PNGS, 21),
    ("--pitch 1 --layer 1 --png --workers 2", CUBE_PNGS, 21),
    (
        "--pitch 1 --layer 1 --report",
        b"layer 0 loops 1 area 4\nlayer 1 loops 1 area 4\ntotal 8\n",
        20,
    ),
];

/// Whether each allocation fails in turn of the run of a row.
fn fails_in_turn<R: Threads + Wait + Sync + AllocGlobal>(rt: &R, row: &Row<'_>) -> bool {
    let (line, text, least) = *row;
    first_free_turn_over(rt, line, Parts(CUBE), &(Ok(()), text)) > least
}

#[test]
fn each_allocation_fails_in_turn(rt: HostRuntime) {
    for row in &ROWS {
        assert!(rt; fails_in_turn(&rt, row), "{}", row.0);
    }
}

/// How a run that slices the comb ends.
const DRAWN: Usual = (Ok(()), COMB_IMAGES);

/// If there is no memory to draw by several workers, one worker writes the images.
#[test]
fn each_allocation_fails_where_several_draw(rt: HostRuntime) {
    let line = "--pitch 1 --layer 1 --workers 2";
    assert!(rt; first_free_turn_over(&rt, line, Boxes(&COMB), &DRAWN) > 20);
    let line = "--pitch 1 --layer 1 --workers 4";
    assert!(rt; first_free_turn_over(&rt, line, Boxes(&COMB), &DRAWN) > 20);
}

/// A solid of no facets with a name of `eights` times eight bytes.
fn push_named(text: &mut String, eights: u32) -> Result<(), AllocError> {
    text.push_str("solid ")?;
    for _ in 0..eights {
        text.push_str("--------")?;
    }
    text.push_str("\nendsolid\n")
}

/// The cube, each facet a solid, and before each three of them a solid of no facets with such a name.
fn long_cube(alloc: Global, eights: u32) -> Result<String, AllocError> {
    let mut text = String::new(alloc);
    for (n, facet) in BOX.iter().enumerate() {
        if n % 3 == 0 {
            push_named(&mut text, eights)?;
        }
        let solid = text_of(alloc, &[(CORNERS, &[*facet])])?;
        text.push_str(solid.as_str())?;
    }
    Ok(text)
}

/// How a run that slices the cube ends.
const SLICED: Usual = (Ok(()), b"P4\n2 2\n\xc0\xc0P4\n2 2\n\xc0\xc0");

/// The least length of a part of a text, in bytes.
const PART_LEN: usize = 32_768;

/// How many times eight bytes long the names are in a cube of four parts.
const NAME_OF_PARTS: u32 = 4_096;

/// Whether more than this many allocations fail in turn of a run over a cube of at least this length, with names of `eights`
/// times eight bytes.
fn fails_over_cube<R: Threads + Wait + Sync + AllocGlobal>(
    rt: &R,
    line: &str,
    (eights, least_len): (u32, usize),
    usual: &Usual<'_>,
    least: u64,
) -> bool {
    match long_cube(rt.alloc(), eights) {
        Ok(cube) => {
            least_len <= cube.len() && first_free_turn(rt, line, cube.as_str(), usual) > least
        }
        Err(AllocError) => false,
    }
}

#[test]
fn each_allocation_fails_in_parts(rt: HostRuntime) {
    let cube = (NAME_OF_PARTS, 4 * PART_LEN);
    for line in &[
        "--pitch 1 --layer 1 --workers 2",
        "--pitch 1 --layer 1 --workers 3",
        "--pitch 1 --layer 1 --workers 4",
    ] {
        assert!(rt; fails_over_cube(&rt, line, cube, &SLICED, 40));
    }
}

/// The length of a long round for each of its workers, without the window that it may have more. Shorter rounds come first.
const WORKER_LEN: usize = 1 << 20;

/// The same for a cube of more than a long round of two workers, and of three.
const NAME_OF_TWO_WORKERS: u32 = 68_500;

const NAME_OF_THREE_WORKERS: u32 = 100_400;

/// How a run ends whose grid has no column. The fault comes once the mesh is closed: a facet that was left out would show as an
/// open edge.
const NO_CELLS: Usual = (Err(RunFault::Grid(GridFault::NoCells)), b"");

/// One thread welds and fills.
#[test]
fn each_allocation_of_rounds_fails_by_two_workers(rt: HostRuntime) {
    let line = "--pitch 1 --layer 1 --workers 2 --grid 0,1,1,0,0,0";
    let cube = (NAME_OF_TWO_WORKERS, 2 * WORKER_LEN + 2 * PART_LEN);
    assert!(rt; fails_over_cube(&rt, line, cube, &NO_CELLS, 10));
}

/// One thread welds, and another one fills.
#[test]
fn each_allocation_of_rounds_fails_by_three_workers(rt: HostRuntime) {
    let line = "--pitch 1 --layer 1 --workers 3 --grid 0,1,1,0,0,0";
    let cube = (NAME_OF_THREE_WORKERS, 3 * WORKER_LEN + 2 * PART_LEN);
    assert!(rt; fails_over_cube(&rt, line, cube, &NO_CELLS, 10));
}

/// The same for a cube of more than two long rounds of four workers.
const NAME_OF_FOUR_WORKERS: u32 = 264_200;

/// While a round is read, one thread welds the facets of the one before, another one fills the one after it, and two look for
/// runs of facets alone.
#[test]
fn each_allocation_of_rounds_fails_by_four_workers(rt: HostRuntime) {
    let line = "--pitch 1 --layer 1 --workers 4";
    let cube = (NAME_OF_FOUR_WORKERS, 2 * (4 * WORKER_LEN) + 2 * PART_LEN);
    assert!(rt; fails_over_cube(&rt, line, cube, &SLICED, 40));
}

#[test]
fn each_allocation_fails_before_a_gap(rt: HostRuntime) {
    match gap() {
        Some(fault) => {
            let usual: Usual = (Err(fault), b"");
            assert!(rt; first_free_turn_over(&rt, "--pitch 1 --layer 1", Parts(OPEN), &usual) > 8);
        }
        None => assert!(rt; false),
    }
}
