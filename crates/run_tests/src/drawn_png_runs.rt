//! Runs whose PNGs are long, so that several workers make them while others are written: they write what one worker writes,
//! also to writers that fail, and without memory for several. No clause says that several make them.
use crate::allocation_runs::first_free_turn;
use crate::answers::written;
use crate::drawn_runs::{COMB, each_writes, is_filled_about};
use crate::meshes::Mesh::Boxes;
use crate::meshes::{Corners, mesh_text};
use std::sync::Wait;
use std::thread::Threads;

/// A comb of ten wide teeth. The PNG of each layer takes up to 30 kilobytes, so that 34 fit a page. There are 250 layers: four
/// workers make them in two sets of pages, three in three and two in four.
const HIGH_COMB: [Corners; 10] = [
    [[0, 0, 0], [800, 550, 250]],
    [[1600, 0, 0], [2400, 550, 250]],
    [[3200, 0, 0], [4000, 550, 250]],
    [[4800, 0, 0], [5600, 550, 250]],
    [[6400, 0, 0], [7200, 550, 250]],
    [[8000, 0, 0], [8800, 550, 250]],
    [[9600, 0, 0], [10400, 550, 250]],
    [[11200, 0, 0], [12000, 550, 250]],
    [[12800, 0, 0], [13600, 550, 250]],
    [[14400, 0, 0], [15200, 550, 250]],
];

/// The number of its layers.
const LAYERS: usize = 250;

/// The words that make a PNG of each of them by several numbers of workers.
static LINES: [&str; 4] = [
    "--pitch 1 --layer 1 --png --workers 2",
    "--pitch 1 --layer 1 --png --workers 3",
    "--pitch 1 --layer 1 --png --workers 4",
    "--pitch 1 --layer 1 --png --workers 64",
];

/// The same with layers five times as high.
const HIGH_LAYERS: usize = 50;

static LINES_OF_HIGH_LAYERS: [&str; 4] = [
    "--pitch 1 --layer 5 --png --workers 2",
    "--pitch 1 --layer 5 --png --workers 3",
    "--pitch 1 --layer 5 --png --workers 4",
    "--pitch 1 --layer 5 --png --workers 64",
];

/// How many PNGs a page has.
const PAGE: usize = 34;

/// The PNGs of a comb by a line of words. They are alike, so `None` also if their number does not divide their length.
fn pngs_of<R: Threads + Wait + Sync + AllocGlobal>(
    rt: &R,
    line: &str,
    input: &str,
    count: usize,
) -> Option<Vec<u8>> {
    match written(rt, line, input) {
        Some(pngs) if pngs.len() > 0 && pngs.len().checked_rem(count) == Some(0) => Some(pngs),
        _ => None,
    }
}

/// Whether several lines of words write the PNGs that one writes.
fn is_alike<R: Threads + Wait + Sync + AllocGlobal>(
    rt: &R,
    one: &str,
    lines: &[&str],
    input: &str,
    count: usize,
) -> bool {
    match pngs_of(rt, one, input, count) {
        Some(pngs) => each_writes(rt, lines, input, pngs.as_slice()),
        None => false,
    }
}

/// The same for the comb.
fn is_comb_alike<R: Threads + Wait + Sync + AllocGlobal>(
    rt: &R,
    one: &str,
    lines: &[&str],
    count: usize,
) -> bool {
    match mesh_text(rt.alloc(), Boxes(&HIGH_COMB)) {
        Ok(comb) => is_alike(rt, one, lines, comb.as_str(), count),
        Err(_) => false,
    }
}

#[test]
fn pngs_of_many_spans(rt: HostRuntime) {
    let one = "--pitch 1 --layer 1 --png --workers 1";
    assert!(rt; is_comb_alike(&rt, one, &LINES, LAYERS));
    let one = "--pitch 1 --layer 5 --png --workers 1";
    assert!(rt; is_comb_alike(&rt, one, &LINES_OF_HIGH_LAYERS, HIGH_LAYERS));
}

/// Whether a run by two workers fills writers up to rooms at the borders of the first page, of the first set and of the second,
/// and about the end.
fn is_filled_at_borders<R: Threads + Wait + Sync + AllocGlobal>(rt: &R, input: &str) -> bool {
    match pngs_of(rt, "--pitch 1 --layer 1 --png --workers 1", input, LAYERS) {
        Some(pngs) => {
            is_filled_about(
                rt,
                "--pitch 1 --layer 1 --png --workers 2",
                input,
                pngs.as_slice(),
                LAYERS,
                &[PAGE, 2 * PAGE, 4 * PAGE, LAYERS],
            )
        }
        None => false,
    }
}

/// The same for the comb.
fn is_comb_filled<R: Threads + Wait + Sync + AllocGlobal>(rt: &R) -> bool {
    match mesh_text(rt.alloc(), Boxes(&HIGH_COMB)) {
        Ok(comb) => is_filled_at_borders(rt, comb.as_str()),
        Err(_) => false,
    }
}

#[test]
fn writers_that_fail_between_pages_of_pngs(rt: HostRuntime) {
    assert!(rt; is_comb_filled(&rt));
}

/// The number of layers of `COMB`.
const FEW_LAYERS: usize = 3;

/// Whether each allocation fails in turn of a run that makes the PNGs of a text by several workers.
fn fails_in_turn<R: Threads + Wait + Sync + AllocGlobal>(rt: &R, line: &str, input: &str) -> bool {
    match pngs_of(
        rt,
        "--pitch 1 --layer 1 --png --workers 1",
        input,
        FEW_LAYERS,
    ) {
        Some(pngs) => first_free_turn(rt, line, input, &(Ok(()), pngs.as_slice())) > 20,
        None => false,
    }
}

/// The same for the small comb.
fn comb_fails_in_turn<R: Threads + Wait + Sync + AllocGlobal>(rt: &R, line: &str) -> bool {
    match mesh_text(rt.alloc(), Boxes(&COMB)) {
        Ok(comb) => fails_in_turn(rt, line, comb.as_str()),
        Err(_) => false,
    }
}

/// If there is no memory for the PNGs of several workers, one worker makes them; if there is none for one PNG, nothing is
/// written.
#[test]
fn each_allocation_fails_where_several_make_pngs(rt: HostRuntime) {
    assert!(rt; comb_fails_in_turn(&rt, "--pitch 1 --layer 1 --png --workers 2"));
    assert!(rt; comb_fails_in_turn(&rt, "--pitch 1 --layer 1 --png --workers 4"));
}
