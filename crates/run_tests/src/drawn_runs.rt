//! Runs whose rows have many spans, so that several workers draw images while others are written: they write what one
//! worker writes, also to writers that fail. No clause says that several draw.
use crate::answers::{end_of, writes, written};
use crate::meshes::Mesh::Boxes;
use crate::meshes::{Corners, mesh_text};
use short_memory::SmallWriter;
use std::io::ErrorKind;
use std::sync::Wait;
use std::thread::Threads;
use stlslice::{Counted, Failures, RunFault};

/// Ten boxes side by side, so that each row has ten spans.
pub(crate) const COMB: [Corners; 10] = [
    [[0, 0, 0], [1, 2, 3]],
    [[2, 0, 0], [3, 2, 3]],
    [[4, 0, 0], [5, 2, 3]],
    [[6, 0, 0], [7, 2, 3]],
    [[8, 0, 0], [9, 2, 3]],
    [[10, 0, 0], [11, 2, 3]],
    [[12, 0, 0], [13, 2, 3]],
    [[14, 0, 0], [15, 2, 3]],
    [[16, 0, 0], [17, 2, 3]],
    [[18, 0, 0], [19, 2, 3]],
];

/// The images of the comb's three layers.
pub(crate) const COMB_IMAGES: &[u8] =
    b"P4\n19 2\n\xaa\xaa\xa0\xaa\xaa\xa0P4\n19 2\n\xaa\xaa\xa0\xaa\xaa\xa0P4\n19 2\n\xaa\xaa\xa0\xaa\xaa\xa0";

/// The image of its middle layer.
const ONE_IMAGE: &[u8] = b"P4\n19 2\n\xaa\xaa\xa0\xaa\xaa\xa0";

/// The same with teeth so wide that an image is nearly a mebibyte: two to four workers draw 16 at most at a time, in a set of
/// pages. So there are three sets, and the third is drawn into the pages of the first.
const WIDE_COMB: [Corners; 10] = [
    [[0, 0, 0], [800, 550, 34]],
    [[1600, 0, 0], [2400, 550, 34]],
    [[3200, 0, 0], [4000, 550, 34]],
    [[4800, 0, 0], [5600, 550, 34]],
    [[6400, 0, 0], [7200, 550, 34]],
    [[8000, 0, 0], [8800, 550, 34]],
    [[9600, 0, 0], [10400, 550, 34]],
    [[11200, 0, 0], [12000, 550, 34]],
    [[12800, 0, 0], [13600, 550, 34]],
    [[14400, 0, 0], [15200, 550, 34]],
];

/// The number of its layers.
const WIDE_LAYERS: usize = 34;

/// The words that slice by several numbers of workers.
static LINES: [&str; 5] = [
    "--pitch 1 --layer 1 --workers 1",
    "--pitch 1 --layer 1 --workers 2",
    "--pitch 1 --layer 1 --workers 3",
    "--pitch 1 --layer 1 --workers 4",
    "--pitch 1 --layer 1 --workers 64",
];

/// The same with one layer as high as the comb.
static LINES_OF_ONE_LAYER: [&str; 5] = [
    "--pitch 1 --layer 3 --workers 1",
    "--pitch 1 --layer 3 --workers 2",
    "--pitch 1 --layer 3 --workers 3",
    "--pitch 1 --layer 3 --workers 4",
    "--pitch 1 --layer 3 --workers 64",
];

/// Whether each of these lines of words writes these images.
pub(crate) fn each_writes<R: Threads + Wait + Sync + AllocGlobal>(
    rt: &R,
    lines: &[&str],
    input: &str,
    images: &[u8],
) -> bool {
    for line in lines {
        if !writes(rt, line, input, images) {
            return false;
        }
    }
    true
}

/// Whether the comb is sliced to these images by each of these lines of words.
fn is_comb_sliced<R: Threads + Wait + Sync + AllocGlobal>(
    rt: &R,
    lines: &[&str],
    images: &[u8],
) -> bool {
    match mesh_text(rt.alloc(), Boxes(&COMB)) {
        Ok(comb) => each_writes(rt, lines, comb.as_str(), images),
        Err(_) => false,
    }
}

#[test]
fn rows_of_many_spans(rt: HostRuntime) {
    assert!(rt; is_comb_sliced(&rt, &LINES, COMB_IMAGES));
    assert!(rt; is_comb_sliced(&rt, &LINES_OF_ONE_LAYER, ONE_IMAGE));
}

/// Whether a text is sliced to the images of the wide comb's length, and to the same by several numbers of workers.
fn is_sliced_alike<R: Threads + Wait + Sync + AllocGlobal>(rt: &R, input: &str) -> bool {
    match written(rt, "--pitch 1 --layer 1", input) {
        Some(images) => {
            images.len() == WIDE_LAYERS * (13 + 550 * 1900)
                && each_writes(rt, &LINES, input, images.as_slice())
        }
        None => false,
    }
}

/// The same for the wide comb.
fn is_wide_comb_alike<R: Threads + Wait + Sync + AllocGlobal>(rt: &R) -> bool {
    match mesh_text(rt.alloc(), Boxes(&WIDE_COMB)) {
        Ok(comb) => is_sliced_alike(rt, comb.as_str()),
        Err(_) => false,
    }
}

#[test]
fn sets_of_long_images(rt: HostRuntime) {
    assert!(rt; is_wide_comb_alike(&rt));
}

/// Whether a run that slices a text by a line of words fills a writer up to its room, and ends with one failure unless
/// all images fit.
pub(crate) fn is_filled<R: Threads + Wait + Sync + AllocGlobal>(
    rt: &R,
    line: &str,
    input: &str,
    images: &[u8],
    room: usize,
    most_per_call: usize,
    fault: Option<ErrorKind>,
) -> bool {
    let end = if room < images.len() {
        Err(RunFault::Write {
            written: room as u64,
        })
    } else {
        Ok(())
    };
    let mut source = Counted::new(input.as_bytes());
    let mut sink = Counted::new(SmallWriter::new(rt.alloc(), room, most_per_call, fault, true));
    let found = end_of(rt, rt.alloc(), line, &mut source, &mut sink);
    let taken = sink.inner().taken.as_slice() == &images[..room.min(images.len())];
    found == Some(end) && taken && sink.failures() == u64::from(end.is_err())
}

/// Whether writers of several ways are filled up to each room.
fn fills_each_room<R: Threads + Wait + Sync + AllocGlobal>(
    rt: &R,
    line: &str,
    input: &str,
    images: &[u8],
) -> bool {
    for room in 0..=images.len() {
        for (most_per_call, fault) in [
            (1, Some(ErrorKind::Other)),
            (1, None),
            (5, Some(ErrorKind::Interrupted)),
            (100, None),
        ] {
            if !is_filled(rt, line, input, images, room, most_per_call, fault) {
                return false;
            }
        }
    }
    true
}

/// The same for the comb.
fn comb_fills_each_room<R: Threads + Wait + Sync + AllocGlobal>(rt: &R, line: &str) -> bool {
    match mesh_text(rt.alloc(), Boxes(&COMB)) {
        Ok(comb) => fills_each_room(rt, line, comb.as_str(), COMB_IMAGES),
        Err(_) => false,
    }
}

#[test]
fn writers_with_little_room_for_drawn_images(rt: HostRuntime) {
    assert!(rt; comb_fills_each_room(&rt, "--pitch 1 --layer 1 --workers 2"));
    assert!(rt; comb_fills_each_room(&rt, "--pitch 1 --layer 1 --workers 3"));
    assert!(rt; comb_fills_each_room(&rt, "--pitch 1 --layer 1 --workers 64"));
}

/// The greatest number of bytes that a writer takes in one call there.
const MOST_PER_CALL: usize = 100_000;

/// Whether a run fills writers up to rooms about the ends of these numbers of images, which are alike and `count` in all.
pub(crate) fn is_filled_about<R: Threads + Wait + Sync + AllocGlobal>(
    rt: &R,
    line: &str,
    input: &str,
    images: &[u8],
    count: usize,
    numbers: &[usize],
) -> bool {
    let one = images.len() / count.max(1);
    for number in numbers {
        for shift in 0..3usize {
            let room = number
                .saturating_mul(one)
                .saturating_add(shift)
                .saturating_sub(1);
            if !is_filled(
                rt,
                line,
                input,
                images,
                room,
                MOST_PER_CALL,
                Some(ErrorKind::Other),
            ) {
                return false;
            }
        }
    }
    true
}

/// Whether a run by two workers fills writers up to rooms at the border of the first page and of the first set, and about the
/// end.
fn is_filled_at_borders<R: Threads + Wait + Sync + AllocGlobal>(rt: &R, input: &str) -> bool {
    match written(rt, "--pitch 1 --layer 1", input) {
        Some(images) => {
            is_filled_about(
                rt,
                "--pitch 1 --layer 1 --workers 2",
                input,
                images.as_slice(),
                WIDE_LAYERS,
                &[8, 16, WIDE_LAYERS],
            )
        }
        None => false,
    }
}

/// The same for the wide comb.
fn is_wide_comb_filled<R: Threads + Wait + Sync + AllocGlobal>(rt: &R) -> bool {
    match mesh_text(rt.alloc(), Boxes(&WIDE_COMB)) {
        Ok(comb) => is_filled_at_borders(rt, comb.as_str()),
        Err(_) => false,
    }
}

#[test]
fn writers_that_fail_between_sets(rt: HostRuntime) {
    assert!(rt; is_wide_comb_filled(&rt));
}
