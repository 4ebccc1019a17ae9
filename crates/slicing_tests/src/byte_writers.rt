//! Images through writers that take few bytes a call, stop at any byte, and keep what they took.
ghost use Rattle.raster.specs.Span.{AreSpans};

use mesh_weld::Solid;
use raster::{Counted, Failures, Grid, Rule, Sink, Source, Span, WriteFault, put_all, write_layer};
use short_memory::{InterruptedOnce, OneByteReader, SmallWriter};
use std::alloc::{AllocError, Global};
use std::io::ErrorKind;
use test_layers::layer;
use test_meshes::{CUBE, Part, WIDE_ROWS};
use test_solids::solid_of;

/// How many bytes a writer takes a call, and the fault with which it has no more room.
pub(crate) type Way = (usize, Option<ErrorKind>);

pub(crate) const WAYS: [Way; 6] = [
    (1, Some(ErrorKind::Other)),
    (1, Some(ErrorKind::Interrupted)),
    (1, None),
    (5, Some(ErrorKind::Other)),
    (5, Some(ErrorKind::Interrupted)),
    (5, None),
];

pub(crate) fn writer(
    alloc: Global,
    (most_per_call, fault): Way,
    room: usize,
) -> Counted<SmallWriter> {
    Counted::new(SmallWriter::new(alloc, room, most_per_call, fault, true))
}

/// Whether exactly the first bytes of the image of these spans go out to a writer of this way up to its room. There is one
/// failure if these are not all.
fn is_taken(alloc: Global, g: &Grid, spans: &[Span], image: &[u8], way: Way, room: usize) -> bool
    requires { AreSpans g.now.columns g.now.rows spans.now }
{
    let mut w = writer(alloc, way, room);
    let told = if room < image.len() {
        Err(WriteFault {
            written: room as u64,
        })
    } else {
        Ok(())
    };
    let found = write_layer(g, spans, &mut w);
    let failures = u64::from(told.is_err());
    let is_front = w.inner().taken.as_slice() == &image[..room.min(image.len())];
    found == told && w.failures() == failures && is_front
}

/// Whether the image of the lowest layer of a solid, in voxels of a micrometre, goes out so.
fn is_layer_taken(
    alloc: Global,
    solid: &Solid<Global>,
    image: &[u8],
    way: Way,
    room: usize,
) -> bool {
    let Ok(g) = Grid::fit(solid, 1, 1) else {
        return false;
    };
    match layer(alloc, solid, &g, Rule::EvenOdd, 0) {
        Ok(spans) => is_taken(alloc, &g, spans.as_slice(), image, way, room),
        Err(_) => false,
    }
}

/// The same for the solid of a mesh.
fn is_filled(alloc: Global, parts: &[Part<'_>], image: &[u8], way: Way, room: usize) -> bool {
    match solid_of(alloc, parts) {
        Ok(solid) => is_layer_taken(alloc, &solid, image, way, room),
        Err(_) => false,
    }
}

const SMALL: &[u8] = b"P4\n2 2\n\xc0\xc0";

#[test]
fn each_beginning_of_an_image(rt: HostRuntime) {
    for way in WAYS {
        for room in 0..=9 {
            assert!(rt; is_filled(rt.alloc(), CUBE, SMALL, way, room));
        }
    }
}

/// A row of the image of wide rows: all black, two pixels from column 8 on, the last eight pixels, or white.
fn push_wide_row(image: &mut Vec<u8>, row: u32) -> Result<(), AllocError> {
    for byte in 0..2048 {
        image.push(match (row, byte) {
            (0, _) | (27, 2047) => 0xff,
            (5, 1) => 0xc0,
            _ => 0,
        })?;
    }
    Ok(())
}

/// The image of wide rows, which is longer than what goes out at once.
fn wide_image(alloc: Global) -> Result<Vec<u8>, AllocError> {
    let mut image = Vec::new(alloc);
    image.extend_from_slice(b"P4\n16384 28\n")?;
    for row in (0..28).rev() {
        push_wide_row(&mut image, row)?;
    }
    Ok(image)
}

/// The length of the image of wide rows, in bytes.
const WIDE_LEN: usize = 57_356;

/// The length of the image's header, in bytes.
const HEADER_LEN: usize = 12;

/// The number of bytes of a row.
const ROW_LEN: usize = 2048;

/// The greatest length of a chunk in which an image goes out, in bytes.
pub(crate) const CHUNK_LEN: usize = 24_576;

/// The end of the first chunk: after the header and eleven rows, since a twelfth would go beyond `CHUNK_LEN`.
const FIRST_END: usize = HEADER_LEN + 11 * ROW_LEN;

/// The end of the second chunk: it has twelve rows, and no more fit.
const SECOND_END: usize = FIRST_END + 12 * ROW_LEN;

/// Ways in which the image of wide rows goes out.
const WIDE_WAYS: [Way; 3] = [(1, None), (1000, Some(ErrorKind::Other)), (WIDE_LEN, None)];

/// Whether the image of wide rows goes out to a writer with this room, in each of these ways.
fn is_wide_filled(alloc: Global, image: &[u8], room: usize) -> bool {
    for way in WIDE_WAYS {
        if !is_filled(alloc, WIDE_ROWS, image, way, room) {
            return false;
        }
    }
    true
}

/// Rooms about the ends of the chunks and of the image.
const WIDE_ROOMS: [usize; 11] = [
    0,
    FIRST_END - 1,
    FIRST_END,
    FIRST_END + 1,
    CHUNK_LEN,
    SECOND_END - 1,
    SECOND_END,
    SECOND_END + 1,
    WIDE_LEN - 1,
    WIDE_LEN,
    WIDE_LEN + 1,
];

/// `Ok`, or the first room with which the image of wide rows goes out otherwise. It is 0 too if the image is not as long as it
/// should be.
fn all_wide_filled(alloc: Global, image: &[u8]) -> Result<(), usize> {
    if image.len() != WIDE_LEN {
        return Err(0);
    }
    for room in WIDE_ROOMS {
        if !is_wide_filled(alloc, image, room) {
            return Err(room);
        }
    }
    Ok(())
}

#[test]
fn an_image_beyond_one_chunk(rt: HostRuntime) -> Result<(), usize> {
    match wide_image(rt.alloc()) {
        Ok(image) => all_wide_filled(rt.alloc(), image.as_slice()),
        Err(_) => Err(0),
    }
}

/// Passes on what one call of a source gives: how many bytes, or `None` if either device failed.
fn pass<I: Source, O: Sink>(r: &mut I, w: &mut O) -> Option<usize> {
    let mut buf = [0; 8];
    let count = r.pull(&mut buf).ok()?;
    put_all(w, &buf[..count]).ok()?;
    Some(count)
}

/// Passes on all that a source gives, in at most a hundred calls: whether it came to its end.
fn pass_all<I: Source, O: Sink>(r: &mut I, w: &mut O) -> bool {
    for _ in 0..100 {
        match pass(r, w) {
            Some(0) => return true,
            Some(_) => {}
            None => return false,
        }
    }
    false
}

/// How a reader of this many calls and a writer with this room pass on a text. Returns whether to the end, the bytes that the
/// writer took, and how often either failed.
fn passed(alloc: Global, calls: u64, room: usize) -> (bool, Vec<u8>, [u64; 2]) {
    let mut r = Counted::new(OneByteReader {
        bytes: SMALL,
        calls,
        fault: ErrorKind::Interrupted,
    });
    let mut w = writer(alloc, (1, None), room);
    let ended = pass_all(&mut r, &mut w);
    let failures = [r.failures(), w.failures()];
    (ended, w.into_inner().taken, failures)
}

#[test]
fn a_byte_at_a_time_from_reader_to_writer(rt: HostRuntime) {
    // the call after the nine bytes gives the end
    for (calls, room, told) in [
        (10, 9, (true, 9, [0, 0])),
        (10, 8, (false, 8, [0, 1])),
        (9, 9, (false, 9, [1, 0])),
        (4, 9, (false, 4, [1, 0])),
        (0, 0, (false, 0, [1, 0])),
    ] {
        let (ended, taken, failures) = passed(rt.alloc(), calls, room);
        assert!(rt; (ended, taken.len(), failures) == told);
        assert!(rt; SMALL.starts_with(taken.as_slice()));
    }
}

fn interrupted<T>(inner: T, calls: u64) -> Counted<InterruptedOnce<T>> {
    Counted::new(InterruptedOnce {
        inner,
        calls: Some(calls),
    })
}

/// The same if the call of the reader after `reads` calls, and that of the writer after `writes`, is interrupted. Both would go
/// on. Also returns how many bytes the reader still has.
fn passed_until(alloc: Global, reads: u64, writes: u64) -> (bool, Vec<u8>, usize, [u64; 2]) {
    let reader = OneByteReader {
        bytes: SMALL,
        calls: u64::MAX,
        fault: ErrorKind::Other,
    };
    let mut r = interrupted(reader, reads);
    let mut w = interrupted(SmallWriter::new(alloc, 9, 1, None, true), writes);
    let ended = pass_all(&mut r, &mut w);
    let failures = [r.failures(), w.failures()];
    let left = r.inner().inner.bytes.len();
    (ended, w.into_inner().inner.taken, left, failures)
}

#[test]
fn an_interrupted_call_is_not_tried_again(rt: HostRuntime) {
    for (reads, writes, told) in [
        (0, 100, (false, 0, 9, [1, 0])),
        (4, 100, (false, 4, 5, [1, 0])),
        (9, 100, (false, 9, 0, [1, 0])),
        (100, 0, (false, 0, 8, [0, 1])),
        (100, 4, (false, 4, 4, [0, 1])),
        (100, 8, (false, 8, 0, [0, 1])),
        (100, 100, (true, 9, 0, [0, 0])),
    ] {
        let (ended, taken, left, failures) = passed_until(rt.alloc(), reads, writes);
        assert!(rt; (ended, taken.len(), left, failures) == told);
        assert!(rt; SMALL.starts_with(taken.as_slice()));
    }
}

#[test]
fn an_interrupted_flush_is_not_tried_again(rt: HostRuntime) {
    let mut w = interrupted(SmallWriter::new(rt.alloc(), 9, 1, None, true), 0);
    let first = w.settle().is_ok();
    assert!(rt; !first && w.failures() == 1);
    let second = w.settle().is_ok();
    assert!(rt; second && w.failures() == 1);
}
