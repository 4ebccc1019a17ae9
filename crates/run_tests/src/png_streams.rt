//! Tests the counting of PNGs in a stream. No clause speaks of it.
use progress_line::PngCount;

/// A PNG of one pixel.
const SHORT: &[u8] =
    b"\x89\x50\x4e\x47\x0d\x0a\x1a\x0a\x00\x00\x00\x0d\x49\x48\x44\x52\x00\x00\x00\x01\x00\x00\x00\x01\x08\x00\x00\x00\x00\x3a\x7e\x9b\x55\x00\x00\x00\x0a\x49\x44\x41\x54\x78\x9c\x63\xf8\x0f\x00\x01\x01\x01\x00\xb1\x38\xf6\x14\x00\x00\x00\x00\x49\x45\x4e\x44\xae\x42\x60\x82";

/// A PNG of the same form, with the bytes of a last chunk among its data.
const WITH_LAST_CHUNK_INSIDE: &[u8] =
    b"\x89\x50\x4e\x47\x0d\x0a\x1a\x0a\x00\x00\x00\x0d\x49\x48\x44\x52\x00\x00\x00\x01\x00\x00\x00\x01\x08\x00\x00\x00\x00\x3a\x7e\x9b\x55\x00\x00\x00\x0c\x49\x44\x41\x54\x00\x00\x00\x00\x49\x45\x4e\x44\xae\x42\x60\x82\x4a\x9d\x4e\xb1\x00\x00\x00\x00\x49\x45\x4e\x44\xae\x42\x60\x82";

/// The number of PNGs in bytes that come in pieces of this length.
fn in_pieces_of(len: usize, streams: &[&[u8]]) -> u64 {
    let mut count = PngCount::new();
    let mut ended: u64 = 0;
    for bytes in streams {
        for piece in bytes.chunks(len.max(1)) {
            ended = ended.saturating_add(count.take(piece));
        }
    }
    ended
}

/// The number of PNGs in bytes that are cut once.
fn cut_at(place: usize, bytes: &[u8]) -> u64 {
    let mut count = PngCount::new();
    let before = count.take(bytes.get(..place).unwrap_or(bytes));
    before.saturating_add(count.take(bytes.get(place..).unwrap_or(bytes)))
}

#[test]
fn pngs_of_a_stream_that_is_cut_anywhere(rt: HostRuntime) {
    for len in 1..200usize {
        assert!(rt; in_pieces_of(len, &[SHORT]) == 1);
        assert!(rt; in_pieces_of(len, &[SHORT, WITH_LAST_CHUNK_INSIDE, SHORT]) == 3);
    }
    for place in 0..SHORT.len() {
        assert!(rt; cut_at(place, SHORT) == 1);
    }
}

#[test]
fn a_png_that_is_not_whole(rt: HostRuntime) {
    for place in 0..SHORT.len() {
        let mut count = PngCount::new();
        assert!(rt; count.take(SHORT.get(..place).unwrap_or(SHORT)) == 0);
    }
}
