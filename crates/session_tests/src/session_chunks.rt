//! Sessions of texts that are fed in chunks: the result is that of the whole text, however it is cut.
ghost use Rattle.std.specs.Prelude.{◌<◌};

use crate::sessions::{fitted, no_pitch};
use layer_session::{Session, SessionFault, SessionReader, Setup};
use raster::Rule;
use short_memory::ShortMemory;
use std::alloc::{Allocator, Global};
use test_meshes::{BOX, CORNERS, CUBE, CUBE_AND_FLAT, OCTAHEDRON, Part, SHEET, TWO_CUBES, text_of};

/// The session of a text that is fed in chunks of this size.
fn in_chunks<A: Allocator + Copy + Send + Sync>(
    alloc: A,
    text: &[u8],
    setup: &Setup,
    size: usize,
) -> Result<Session<A>, SessionFault>
    requires { 0 < size }
{
    let mut reader = SessionReader::new(alloc, setup);
    for chunk in text.chunks(size) {
        reader.feed(chunk);
    }
    reader.finish()
}

/// Whether two sessions have the same image of their first layer.
fn are_images_same(one: &Session<Global>, other: &Session<Global>) -> bool {
    match (one.image(0), other.image(0)) {
        (Ok(image), Ok(told)) => image.as_slice() == told.as_slice(),
        _ => false,
    }
}

/// Whether two sessions tell the same of themselves and of their first layer.
fn are_same(one: &Session<Global>, other: &Session<Global>) -> bool {
    one.facet_count() == other.facet_count()
        && one.bounds() == other.bounds()
        && one.grid() == other.grid()
        && one.rule() == other.rule()
        && are_images_same(one, other)
}

/// Whether two results are the same.
pub(crate) fn are_answers_same(
    one: &Result<Session<Global>, SessionFault>,
    other: &Result<Session<Global>, SessionFault>,
) -> bool {
    match (one, other) {
        (Ok(found), Ok(told)) => are_same(found, told),
        (Err(found), Err(told)) => found == told,
        _ => false,
    }
}

/// Whether the result for a text is the same in chunks of 1 to 17 bytes, and in one chunk.
fn is_chopped_well(alloc: Global, text: &[u8], setup: &Setup) -> bool {
    let whole = Session::open(alloc, text, setup);
    for size in [1, 2, 3, 5, 7, 11, 13, 17, usize::MAX] {
        if !are_answers_same(&in_chunks(alloc, text, setup, size), &whole) {
            return false;
        }
    }
    true
}

/// The same for the text of a mesh.
fn is_mesh_chopped_well(alloc: Global, parts: &[Part<'_>]) -> bool {
    match text_of(alloc, parts) {
        Ok(text) => is_chopped_well(alloc, text.as_bytes(), &fitted(1, Rule::EvenOdd)),
        Err(_) => false,
    }
}

#[test]
fn meshes_in_chunks(rt: HostRuntime) {
    let open_box: &[Part] = &[(CORNERS, &BOX[1..])];
    for parts in [
        CUBE,
        CUBE_AND_FLAT,
        TWO_CUBES,
        OCTAHEDRON,
        SHEET,
        open_box,
        &[],
    ] {
        assert!(rt; is_mesh_chopped_well(rt.alloc(), parts));
    }
}

/// How many facets the session of a text has that is fed in chunks of this size.
fn facet_count<A: Allocator + Copy + Send + Sync>(
    alloc: A,
    text: &[u8],
    setup: &Setup,
    size: usize,
) -> Result<usize, SessionFault>
    requires { 0 < size }
{
    match in_chunks(alloc, text, setup, size) {
        Ok(session) => Ok(session.facet_count()),
        Err(fault) => Err(fault),
    }
}

/// The step goes before the text, and the text before the mesh.
#[test]
fn faults_in_chunks(rt: HostRuntime) {
    let alloc = rt.alloc();
    let (setup, none) = (fitted(1, Rule::NonZero), no_pitch());
    let misread = b"solid\nendloop";
    assert!(rt; is_chopped_well(alloc, misread, &setup));
    assert!(rt; is_chopped_well(alloc, misread, &none));
    assert!(rt; facet_count(alloc, misread, &none, 4) == Err(SessionFault::Step));
}

/// Fails each allocation in turn until none is left to fail. Returns how many of them gave `Memory`. It is `None` if a result
/// was another.
fn failures(alloc: Global, text: &[u8]) -> Option<u32> {
    let mut told = 0u32;
    for turn in 1..2000u64 {
        let memory = ShortMemory::new(alloc, turn);
        let facets = facet_count(&memory, text, &fitted(1, Rule::NonZero), 7);
        if !memory.has_failed() {
            return (facets == Ok(24)).then_some(told);
        }
        if facets != Err(SessionFault::Memory) {
            return None;
        }
        told = told.saturating_add(1);
    }
    None
}

/// The same for the text of two cubes. `None` also if there was no memory for the text.
fn failures_of_cubes(alloc: Global) -> Option<u32> {
    match text_of(alloc, TWO_CUBES) {
        Ok(text) => failures(alloc, text.as_bytes()),
        Err(_) => None,
    }
}

#[test]
fn memory_that_fails_is_told(rt: HostRuntime) {
    assert!(rt; failures_of_cubes(rt.alloc()) > Some(10));
}
