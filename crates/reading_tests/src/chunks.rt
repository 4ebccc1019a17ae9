//! Texts that are fed in chunks: the answer is that of the whole text, however it is cut.
ghost use Rattle.std.specs.Prelude.{◌<◌};

use crate::number_texts::long_word;
use crate::stl_texts::{Text, cube_file, worked_texts};
use crate::text_parts::{add_facets, are_same, put_solid};
use micro_num::Unit;
use short_memory::ShortMemory;
use std::alloc::{AllocError, Global};
use std::test::Fail;
use std::thread::Threads;
use stl_text::{Facet, StlFault, TextReader};

const LIMIT: u8 = 13;

/// A text of two facets, with a name and a rest of a line that look like facets, and each kind of line end.
const TWO: &[u8] = b" solid endfacet facet\r\n\x0bfacet normal nan facet 1e9\touter loop\r\
    vertex 0 0 0\nvertex 1.5 -2 3e1 vertex 1e-3 2E1 +.5\n\n endloop endfacet FACET normal a b c outer\nloop vertex\n1\n2\n3\n\
    vertex 4 5 6 vertex 7 8 9 endloop endfacet endsolid facet normal\n\rsolid\nendsolid";

/// The result for a text that is fed in two chunks.
fn in_two<R: Threads + Sync>(
    rt: &R,
    mut reader: TextReader<Global>,
    chunks: (&[u8], &[u8]),
    workers: u32,
) -> Result<Vec<Facet>, StlFault> {
    reader.feed_by(rt, chunks.0, workers);
    reader.feed_by(rt, chunks.1, workers);
    reader.finish()
}

/// The result for a text that is fed in chunks of this size.
fn in_chunks<R: Threads + Sync>(
    rt: &R,
    mut reader: TextReader<Global>,
    text: &[u8],
    size: usize,
    workers: u32,
) -> Result<Vec<Facet>, StlFault>
    requires { 0 < size }
{
    for chunk in text.chunks(size) {
        reader.feed_by(rt, chunk, workers);
    }
    reader.finish()
}

/// The result for a text that is fed in chunks of this size, if the facets are taken off the reader after each chunk.
fn taken_off(
    alloc: Global,
    mut reader: TextReader<Global>,
    text: &[u8],
    size: usize,
) -> Result<Vec<Facet>, StlFault>
    requires { 0 < size }
{
    let mut facets = Vec::new(alloc);
    let mut next = Vec::new(alloc);
    for chunk in text.chunks(size) {
        reader.feed(chunk);
        reader.take_facets(&mut next);
        facets.extend_from_slice(&next)?;
    }
    let last = reader.finish()?;
    facets.extend_from_slice(&last)?;
    Ok(facets)
}

/// Whether the answer to a text is that of the whole in chunks of 1 to 17 bytes, with its facets taken off the reader or
/// not.
fn is_chopped_well<R: Threads + Sync>(rt: &R, alloc: Global, text: Text<'_>, workers: u32) -> bool {
    let whole = text.whole(alloc);
    for size in 1..=17 {
        let found = in_chunks(rt, text.reader(alloc), text.bytes, size, workers);
        if !are_same(&found, &whole) {
            return false;
        }
        let taken = taken_off(alloc, text.reader(alloc), text.bytes, size);
        if !are_same(&taken, &whole) {
            return false;
        }
    }
    true
}

/// Whether the answer to a text is that of the whole for each cut in two, and in chunks of 1 to 17 bytes.
fn is_cut_well<R: Threads + Sync>(rt: &R, alloc: Global, text: Text<'_>, workers: u32) -> bool {
    let whole = text.whole(alloc);
    for cut in 0..=text.bytes.len() {
        let found = in_two(rt, text.reader(alloc), text.bytes.split_at(cut), workers);
        if !are_same(&found, &whole) {
            return false;
        }
    }
    is_chopped_well(rt, alloc, text, workers)
}

/// The number of the first worked text whose answer is not that of the whole for each cut, if there is one.
fn first_cut_badly<R: Threads + Sync>(
    rt: &R,
    alloc: Global,
    workers: u32,
) -> Result<Option<usize>, AllocError> {
    for (k, worked) in worked_texts(alloc)?.iter().enumerate() {
        if !is_cut_well(rt, alloc, worked.text(), workers) {
            return Ok(Some(k));
        }
    }
    Ok(None)
}

/// The numbers of workers: one, the least that share a text, and the greatest that the program takes. These texts are too short
/// for parts: one thread reads them, whatever the number. Longer ones are in `text_parts` and `part_borders`.
const WORKERS: [u32; 3] = [1, 2, 64];

/// A name that spells two facets, each after an `endfacet`, and the end of a solid.
const SPELLED: &[u8] =
    b"endfacet facet normal 0 0 0 outer loop vertex 1 1 1 vertex 1 1 2 vertex 1 2 1 endloop endfacet \
    FACET NORMAL 0 0 0 OUTER LOOP VERTEX 1 1 1 VERTEX 1 1 2 VERTEX 1 2 1 ENDLOOP ENDFACET endsolid";

/// A text in millimetres that may have up to `LIMIT` facets.
fn limited(bytes: &[u8]) -> Text<'_> {
    Text {
        bytes,
        limit: LIMIT,
        unit: Unit::Millimetre,
    }
}

#[test]
fn worked_texts_in_chunks_by_one_worker(rt: HostRuntime) -> Result<(), Fail> {
    assert_eq!(rt; first_cut_badly(&rt, rt.alloc(), 1)?, None);
    Ok(())
}

#[test]
fn worked_texts_in_chunks_by_two_workers(rt: HostRuntime) -> Result<(), Fail> {
    assert_eq!(rt; first_cut_badly(&rt, rt.alloc(), 2)?, None);
    Ok(())
}

#[test]
fn worked_texts_in_chunks_by_64_workers(rt: HostRuntime) -> Result<(), Fail> {
    assert_eq!(rt; first_cut_badly(&rt, rt.alloc(), 64)?, None);
    Ok(())
}

/// Whether the answer to a text is that of the whole for each cut, by each number of workers.
fn is_cut_well_by_each<R: Threads + Sync>(rt: &R, alloc: Global, text: Text<'_>) -> bool {
    for workers in WORKERS {
        if !is_cut_well(rt, alloc, text, workers) {
            return false;
        }
    }
    true
}

/// Names, and the rests of lines after `endsolid`, that spell facets: those are no facets wherever a chunk begins.
#[test]
fn names_that_spell_facets_in_chunks(rt: HostRuntime) -> Result<(), Fail> {
    let mut bytes = Vec::new(rt.alloc());
    let mut facets = Vec::new(rt.alloc());
    for count in [0, 2] {
        put_solid(&mut bytes, SPELLED, count)?;
        add_facets(&mut facets, count)?;
    }
    let text = limited(bytes.as_slice());
    assert!(rt; are_same(&text.whole(rt.alloc()), &Ok(facets)));
    assert!(rt; is_cut_well_by_each(&rt, rt.alloc(), text));
    Ok(())
}

#[test]
fn solids_of_one_facet_in_chunks(rt: HostRuntime) -> Result<(), Fail> {
    for name in [&b"one"[..], b"endfacet", b"endfacet facet"] {
        let mut bytes = Vec::new(rt.alloc());
        let mut facets = Vec::new(rt.alloc());
        for _ in 0..3 {
            put_solid(&mut bytes, name, 1)?;
            add_facets(&mut facets, 1)?;
        }
        let text = limited(bytes.as_slice());
        assert!(rt; are_same(&text.whole(rt.alloc()), &Ok(facets)));
        assert!(rt; is_cut_well_by_each(&rt, rt.alloc(), text));
    }
    Ok(())
}

/// The places where a word may be long: the text before it, the byte that it repeats, and the text after it.
const LONG_WORDS: [(&[u8], u8, &[u8]); 8] = [
    (b"", b's', b" part\nendsolid"),
    (b"solid\nfacet", b't', b" normal 0 0 0"),
    (b"solid\nendsolid", b'd', b""),
    (
        b"solid\nfacet normal 0 ",
        b'-',
        b" 0 outer loop vertex 0 0 0 vertex 1 0 0 vertex 0 1 0 endloop endfacet endsolid",
    ),
    (
        b"solid\nfacet normal 0 0 0 outer loop vertex 0 ",
        b'0',
        b" 0 vertex 1 0 0 vertex 0 1 0 endloop endfacet endsolid",
    ),
    (
        b"solid\nfacet normal 0 0 0 outer loop vertex 0 0 ",
        b'x',
        b" ",
    ),
    (
        b"solid\nfacet normal 0 0 0 outer loop vertex 0 0 ",
        b'0',
        b"",
    ),
    (b"solid\nfacet normal 0 0 0 outer loop ", b'v', b" 0 0 0"),
];

/// The numbers of bytes of those words: about the 256 that a reader keeps of a word that is cut.
const LONG: [usize; 6] = [251, 254, 255, 256, 257, 300];

#[test]
fn long_words_in_chunks(rt: HostRuntime) -> Result<(), Fail> {
    for (front, byte, back) in LONG_WORDS {
        for count in LONG {
            let bytes = long_word(rt.alloc(), front, byte, count, back)?;
            assert!(rt; is_cut_well(&rt, rt.alloc(), limited(bytes.as_slice()), 2));
        }
    }
    Ok(())
}

/// The thirteenth facet is the last that the limit permits.
#[test]
fn one_facet_too_many_in_chunks(rt: HostRuntime) -> Result<(), Fail> {
    let mut bytes = cube_file(rt.alloc())?;
    bytes.extend_from_slice(TWO)?;
    let text = limited(bytes.as_slice());
    let fault = text.whole(rt.alloc()).err();
    assert!(rt; matches!(fault, Some(StlFault::TooMany { .. })));
    assert!(rt; is_cut_well(&rt, rt.alloc(), text, 2));
    Ok(())
}

#[test]
fn facets_are_taken_once(rt: HostRuntime) -> Result<(), Fail> {
    let mut facets = Vec::new(rt.alloc());
    let mut reader = limited(TWO).reader(rt.alloc());
    reader.feed(TWO);
    reader.take_facets(&mut facets);
    assert!(rt; facets.len() == 2);
    reader.take_facets(&mut facets);
    assert!(rt; facets.is_empty());
    assert!(rt; reader.finish()?.is_empty());
    Ok(())
}

#[test]
fn each_beginning_in_chunks(rt: HostRuntime) -> Result<(), Fail> {
    for len in 0..=TWO.len() {
        assert!(rt; is_cut_well(&rt, rt.alloc(), limited(&TWO[..len]), 2));
    }
    Ok(())
}

/// A text with another byte in place of one.
fn spoiled(alloc: Global, at: usize, byte: u8) -> Result<Vec<u8>, AllocError> {
    let mut text = Vec::new(alloc);
    for (k, b) in TWO.iter().enumerate() {
        text.push(if k == at { byte } else { *b })?;
    }
    Ok(text)
}

#[test]
fn each_byte_spoiled_in_chunks(rt: HostRuntime) -> Result<(), Fail> {
    for at in 0..TWO.len() {
        for byte in [b'x', b'\n'] {
            let text = spoiled(rt.alloc(), at, byte)?;
            assert!(rt; is_chopped_well(&rt, rt.alloc(), limited(text.as_slice()), 2));
        }
    }
    Ok(())
}

#[test]
fn each_allocation_of_a_reader_fails_in_turn(rt: HostRuntime) -> Result<(), Fail> {
    for turn in 1..100 {
        let memory = ShortMemory::new(rt.alloc(), turn);
        let mut reader = TextReader::new(&memory, u32::from(LIMIT), Unit::Millimetre);
        for chunk in TWO.chunks(3) {
            reader.feed(chunk);
        }
        let fault = reader.finish().err();
        if !memory.has_failed() {
            assert!(rt; turn > 2);
            assert!(rt; fault == None);
            return Ok(());
        }
        assert!(rt; fault == Some(StlFault::Memory));
    }
    assert!(rt; false);
    Ok(())
}
