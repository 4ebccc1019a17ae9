//! Several images through one writer: which bytes go out, in how many calls of the sink, and how many before it fails.
ghost use Rattle.std.specs.Prelude.{◌≡◌, IfSome};
ghost use Rattle.raster.specs.Span.{AreSpans};

use crate::byte_writers::{CHUNK_LEN, WAYS, Way, writer};
use crate::spans::spans;
use geometry::{COLUMN_LIMIT, Point};
use raster::{Counted, Failures, Grid, ImageWriter, Sink, Span, WriteFault, write_layer};
use short_memory::{InterruptedOnce, SmallWriter};
use std::alloc::Global;
use std::io::ErrorKind;

/// Three images. The first and the third have these spans, the second is white.
#[derive(Drop)]
struct Images<'a> {
    outer: &'a Grid,
    spans: &'a [Span],
    inner: &'a Grid,
    ghost form: { AreSpans outer.now.columns outer.now.rows spans.now },
}

impl<'a> Images<'a> {
    /// Writes the images through one writer, and returns how many bytes went out.
    fn write_by_one<W: Sink>(&self, w: &mut W) -> Result<u64, WriteFault> {
        let mut writer = ImageWriter::new();
        writer.add(self.outer, self.spans, w)?;
        writer.add(self.inner, &[], w)?;
        writer.add(self.outer, self.spans, w)?;
        writer.finish(w)
    }

    /// The bytes of the images, each of which is written by itself.
    fn text(&self, alloc: Global) -> Option<Vec<u8>> {
        let mut w = Counted::new(Vec::new(alloc));
        if write_layer(self.outer, self.spans, &mut w).is_ok()
            && write_layer(self.inner, &[], &mut w).is_ok()
            && write_layer(self.outer, self.spans, &mut w).is_ok()
        {
            return Some(w.into_inner());
        }
        None
    }
}

/// Whether exactly the first bytes of the images' text go out to a writer of this way up to its room, with one failure if these
/// are not all.
fn is_filled(alloc: Global, images: &Images<'_>, text: &[u8], way: Way, room: usize) -> bool {
    let mut w = writer(alloc, way, room);
    let found = images.write_by_one(&mut w);
    let written = room.min(text.len());
    let told = if room < text.len() {
        Err(WriteFault {
            written: written as u64,
        })
    } else {
        Ok(written as u64)
    };
    let failures = u64::from(told.is_err());
    let is_front = w.inner().taken.as_slice() == &text[..written];
    found == told && w.failures() == failures && is_front
}

/// A grid of a layer of voxels of a micrometre, from the origin on.
fn grid_of(columns: u32, rows: u32) -> Option<Grid>
    ensures columns { IfSome result (λ g. g.columns ≡ columns) }
    ensures rows { IfSome result (λ g. g.rows ≡ rows) }
{
    Grid::given(Point::new(0, 0, 0)?, 1, 1, columns, rows, 1).ok()
}

/// Whether exactly the first bytes of three small images go out to a writer of this way up to its room.
fn is_text_filled(alloc: Global, way: Way, room: usize) -> bool {
    match (grid_of(2, 2), grid_of(9, 1)) {
        (Some(outer), Some(inner)) => {
            let images = Images {
                outer: &outer,
                spans: &spans![0: 0, 1; 1: 0, 2],
                inner: &inner,
            };
            is_filled(alloc, &images, TEXT, way, room)
        }
        _ => false,
    }
}

const TEXT: &[u8] = b"P4\n2 2\n\xc0\x80P4\n9 1\n\x00\x00P4\n2 2\n\xc0\x80";

#[test]
fn each_beginning_of_three_images(rt: HostRuntime) {
    for way in WAYS {
        for room in 0..=TEXT.len() + 1 {
            assert!(rt; is_text_filled(rt.alloc(), way, room));
        }
    }
}

/// Whether the call of the sink after this many calls begins at this byte of the images' text. That call is interrupted.
fn begins_at(alloc: Global, images: &Images<'_>, text: &[u8], calls: usize, byte: usize) -> bool {
    let writer = SmallWriter::new(alloc, usize::MAX, usize::MAX, None, true);
    let mut w = Counted::new(InterruptedOnce {
        inner: writer,
        calls: Some(calls as u64),
    });
    let found = images.write_by_one(&mut w);
    let written = byte as u64;
    let told = if byte < text.len() {
        Err(WriteFault { written })
    } else {
        Ok(written)
    };
    found == told && text.get(..byte) == Some(w.inner().inner.taken.as_slice())
}

/// Whether the text of three images goes out in calls of the sink that end at these bytes. Also whether a writer is filled that
/// has room up to the byte before each of them.
fn are_ends(alloc: Global, images: &Images<'_>, text: &[u8], ends: &[usize]) -> bool {
    let way = (1000, Some(ErrorKind::Other));
    for (calls, end) in ends.iter().enumerate() {
        let room = end.saturating_sub(1);
        if !begins_at(alloc, images, text, calls + 1, *end)
            || !is_filled(alloc, images, text, way, room)
        {
            return false;
        }
    }
    begins_at(alloc, images, text, 0, 0) && ends.last() == Some(&text.len())
}

/// Whether three images go out in calls of the sink that end at these bytes. The first and the third are 8 pixels wide, the
/// second as wide as a grid may be.
fn ends_at(
    alloc: Global,
    outer_rows: u32,
    spans: &[Span],
    inner_rows: u32,
    ends: &[usize],
) -> Option<bool>
    requires { AreSpans 8 outer_rows spans.now }
{
    let (outer, inner) = grid_of(8, outer_rows).zip(grid_of(COLUMN_LIMIT, inner_rows))?;
    let images = Images {
        outer: &outer,
        spans,
        inner: &inner,
    };
    match images.text(alloc) {
        Some(text) => Some(are_ends(alloc, &images, text.as_slice(), ends)),
        None => None,
    }
}

/// A call of the sink takes a chunk if the next row, or 15 bytes for the next header, would go beyond it.
#[test]
fn images_at_the_ends_of_chunks(rt: HostRuntime) {
    let alloc = rt.alloc();
    let found = [
        // a byte less than a chunk, just a chunk, and a byte more: the last row of the second image comes later then
        ends_at(
            alloc,
            2025,
            &spans![0: 0, 8],
            11,
            &[CHUNK_LEN - 1, CHUNK_LEN + 2034],
        ),
        ends_at(
            alloc,
            2026,
            &spans![0: 0, 8],
            11,
            &[CHUNK_LEN, CHUNK_LEN + 2036],
        ),
        ends_at(
            alloc,
            2027,
            &spans![0: 0, 8],
            11,
            &[CHUNK_LEN - 2047, CHUNK_LEN + 2038],
        ),
        // a large image after a small one
        ends_at(
            alloc,
            1,
            &spans![0: 0, 8],
            24,
            &[CHUNK_LEN - 2028, 2 * CHUNK_LEN - 2028, 2 * CHUNK_LEN + 28],
        ),
    ];
    assert!(rt; found == [Some(true); 4]);
}
