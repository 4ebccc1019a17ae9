//! Sessions of binary STL: the answer is that of the text of the same facets, each fault names the number that has it, and
//! length and count alone decide what is binary.
use crate::session_chunks::are_answers_same;
use crate::sessions::{fitted, reads};
use binary_stl::{Axis, BinaryFault, CoordinateFault};
use geometry::Facet;
use layer_session::{Session, SessionFault, Setup, read_file, read_file_at_most};
use micro_num::Unit;
use raster::Rule;
use short_memory::ShortMemory;
use std::alloc::{AllocError, Allocator, Global};
use std::test::Fail;
use stl_text::{StlFault, Word, read_stl};
use test_meshes::{CUBE, Part, TWO_CUBES, facets_of, text_of};

/// 0 to 8 thousandths in single precision.
const THOUSANDTHS: [u32; 9] = [
    0x0000_0000,
    0x3a83_126f,
    0x3b03_126f,
    0x3b44_9ba6,
    0x3b83_126f,
    0x3ba3_d70a,
    0x3bc4_9ba6,
    0x3be5_6042,
    0x3c03_126f,
];

const INFINITY: u32 = 0x7f80_0000;

const NOT_NUMBER: u32 = 0xffc0_0000;

/// 1e38.
const HUGE: u32 = 0x7e96_7699;

/// The bits of this number of micrometres, in millimetres: of a NaN if the table has none.
fn bits_of(micrometres: i32) -> u32 {
    match THOUSANDTHS.get(micrometres.unsigned_abs() as usize) {
        Some(bits) if micrometres < 0 => *bits | 1 << 31,
        Some(bits) => *bits,
        None => NOT_NUMBER,
    }
}

/// Bytes with this count and these facets. Their normals are NaNs, and no attribute is 0.
fn binary_of(alloc: Global, count: u32, facets: &[Facet]) -> Result<Vec<u8>, AllocError> {
    let mut bytes = Vec::new(alloc);
    bytes.extend_from_slice(&[b'x'; 80])?;
    bytes.extend_from_slice(&count.to_le_bytes())?;
    for facet in facets {
        bytes.extend_from_slice(&[0xff; 12])?;
        for corner in facet.0.iter() {
            bytes.extend_from_slice(&bits_of(corner.x()).to_le_bytes())?;
            bytes.extend_from_slice(&bits_of(corner.y()).to_le_bytes())?;
            bytes.extend_from_slice(&bits_of(corner.z()).to_le_bytes())?;
        }
        bytes.extend_from_slice(&[0x12, 0x34])?;
    }
    Ok(bytes)
}

/// The binary STL of a mesh by tables.
fn binary_of_parts(alloc: Global, parts: &[Part<'_>]) -> Result<Vec<u8>, AllocError> {
    let facets = facets_of(alloc, parts)?;
    let count = u32::try_from(facets.len()).unwrap_or(u32::MAX);
    binary_of(alloc, count, facets.as_slice())
}

/// Whether two sessions have the same images and areas of all layers.
fn are_layers_same(one: &Session<Global>, other: &Session<Global>) -> Result<bool, SessionFault> {
    for k in 0..one.layers() {
        if one.area(k)? != other.area(k)?
            || one.image(k)?.as_slice() != other.image(k)?.as_slice()
        {
            return Ok(false);
        }
    }
    Ok(one.layers() == other.layers())
}

/// Whether a binary STL and the text of the same facets have the same answer.
pub(crate) fn is_binary_as_text(
    alloc: Global,
    parts: &[Part<'_>],
    setup: &Setup,
) -> Result<bool, SessionFault> {
    let bytes = binary_of_parts(alloc, parts)?;
    let text = text_of(alloc, parts)?;
    let found = Session::open(alloc, bytes.as_slice(), setup);
    let told = Session::open(alloc, text.as_bytes(), setup);
    if !are_answers_same(&found, &told) {
        return Ok(false);
    }
    match (&found, &told) {
        (Ok(one), Ok(other)) => are_layers_same(one, other),
        _ => Ok(true),
    }
}

/// The numbers of facets, columns and layers of a file's session, and the area of its lowest layer.
fn numbers_of(alloc: Global, bytes: &[u8], unit: Unit) -> Option<(usize, u32, u32, u64)> {
    let setup = Setup {
        unit,
        ..fitted(1, Rule::NonZero)
    };
    let session = Session::open(alloc, bytes, &setup).ok()?;
    let area = session.area(0).ok()?;
    Some((
        session.facet_count(),
        session.grid().columns(),
        session.layers(),
        area,
    ))
}

#[test]
fn a_cube_in_either_unit(rt: HostRuntime) -> Result<(), Fail> {
    let bytes = binary_of_parts(rt.alloc(), CUBE)?;
    assert!(rt; numbers_of(rt.alloc(), &bytes, Unit::Millimetre) == Some((12, 2, 2, 4)));
    assert!(rt; numbers_of(rt.alloc(), &bytes, Unit::Inch) == Some((12, 51, 51, 2601)));
    Ok(())
}

/// The fault of bytes that open no session.
fn fault_of<A: Allocator + Copy + Send + Sync>(alloc: A, bytes: &[u8]) -> Option<SessionFault> {
    Session::open(alloc, bytes, &fitted(1, Rule::NonZero)).err()
}

/// Puts a number in the place of one of a binary STL. The numbers of a facet count from that of its normal along x.
fn put(bytes: &mut [u8], facet: usize, place: usize, number: u32) {
    let start = 84usize.saturating_add(facet.saturating_mul(50));
    let at = start.saturating_add(place.saturating_mul(4));
    for (byte, new) in bytes.iter_mut().skip(at).zip(number.to_le_bytes()) {
        *byte = new;
    }
}

/// The fault of the cube with this number in a place of a facet, and with a NaN in its last facet.
fn fault_with(
    alloc: Global,
    number: u32,
    facet: usize,
    place: usize,
) -> Result<Option<SessionFault>, AllocError> {
    let mut bytes = binary_of_parts(alloc, CUBE)?;
    put(&mut bytes, 11, 3, NOT_NUMBER);
    put(&mut bytes, facet, place, number);
    Ok(fault_of(alloc, &bytes))
}

fn number(cause: CoordinateFault, facet: usize, corner: usize, axis: Axis) -> SessionFault {
    SessionFault::Binary(BinaryFault::Number {
        cause,
        facet,
        corner,
        axis,
    })
}

#[test]
fn the_first_number_with_a_fault_is_named(rt: HostRuntime) {
    let rows = [
        (
            NOT_NUMBER,
            0,
            3,
            number(CoordinateFault::NotNumber, 0, 0, Axis::X),
        ),
        (
            INFINITY,
            3,
            7,
            number(CoordinateFault::Infinite, 3, 1, Axis::Y),
        ),
        (
            HUGE,
            10,
            11,
            number(CoordinateFault::OutOfRange, 10, 2, Axis::Z),
        ),
        // a normal is not looked at
        (
            NOT_NUMBER,
            5,
            2,
            number(CoordinateFault::NotNumber, 11, 0, Axis::X),
        ),
    ];
    for (bits, facet, place, wanted) in rows {
        assert!(rt; fault_with(rt.alloc(), bits, facet, place) == Ok(Some(wanted)));
    }
}

#[test]
fn the_lines_name_the_number(rt: HostRuntime) {
    let alloc = rt.alloc();
    let far = number(CoordinateFault::OutOfRange, 10, 2, Axis::Z);
    let many = SessionFault::Binary(BinaryFault::TooMany { facets: 1_048_577 });
    assert!(rt; reads(alloc, &far, "z of corner 2 of facet 10: out of range"));
    assert!(rt; reads(alloc, &many, "too many facets: 1048577"));
}

/// Whether the facets of the cube with this count are read as a text, which begins with no `solid`.
fn is_text(alloc: Global, count: u32) -> Result<bool, AllocError> {
    let facets = facets_of(alloc, CUBE)?;
    let bytes = binary_of(alloc, count, facets.as_slice())?;
    let wanted = SessionFault::Stl(StlFault::Expected {
        word: Word::Solid,
        at: 0,
    });
    Ok(fault_of(alloc, &bytes) == Some(wanted))
}

/// A file whose count is not that of its facets is no binary STL.
#[test]
fn a_count_that_lies(rt: HostRuntime) {
    for count in [0, 11, 13, u32::MAX] {
        assert!(rt; is_text(rt.alloc(), count) == Ok(true));
    }
}

/// How many facets a file has, if there are at most `limit`.
fn count_at_most(alloc: Global, bytes: &[u8], limit: u32) -> Result<usize, SessionFault> {
    Ok(read_file_at_most(alloc, bytes, limit, Unit::Millimetre)?.len())
}

/// The twelve facets of a cube are too many for a lower limit, in either form.
#[test]
fn a_limit_of_the_caller(rt: HostRuntime) -> Result<(), Fail> {
    let facets = facets_of(rt.alloc(), CUBE)?;
    let bytes = binary_of(rt.alloc(), 12, facets.as_slice())?;
    let text = text_of(rt.alloc(), CUBE)?;
    let too_many = SessionFault::Binary(BinaryFault::TooMany { facets: 12 });
    assert!(rt; count_at_most(rt.alloc(), &bytes, 11) == Err(too_many));
    assert!(rt; count_at_most(rt.alloc(), text.as_bytes(), 11).is_err());
    for limit in [12, u32::MAX] {
        assert!(rt; count_at_most(rt.alloc(), &bytes, limit) == Ok(12));
        assert!(rt; count_at_most(rt.alloc(), text.as_bytes(), limit) == Ok(12));
    }
    Ok(())
}

/// How many facets a file has, read in either form, and read as a text.
fn counts_of(alloc: Global, bytes: &[u8]) -> Option<(usize, usize)> {
    let found = read_file(alloc, bytes, Unit::Millimetre);
    let of_text = read_stl(alloc, bytes, Unit::Millimetre);
    match (found, of_text) {
        (Ok(facets), Ok(others)) => Some((facets.len(), others.len())),
        _ => None,
    }
}

/// A text without facets is one facet as a binary STL, if its name imitates the count.
#[test]
fn a_text_whose_name_imitates_a_count(rt: HostRuntime) -> Result<(), Fail> {
    let mut text = b"solid ".to_vec(rt.alloc())?;
    text.resize(80, b'x')?;
    text.extend_from_slice(b"\x01\0\0\0\nendsolid\n")?;
    assert!(rt; counts_of(rt.alloc(), &text) == Some((0, 0)));
    text.resize(134, b'\n')?;
    assert!(rt; counts_of(rt.alloc(), &text) == Some((1, 0)));
    text.push(b'\n')?;
    assert!(rt; counts_of(rt.alloc(), &text) == Some((0, 0)));
    Ok(())
}

/// How many facets the session of a file has.
fn facet_count(memory: &ShortMemory<Global>, bytes: &[u8]) -> Result<usize, SessionFault> {
    match Session::open(memory, bytes, &fitted(1, Rule::NonZero)) {
        Ok(session) => Ok(session.facet_count()),
        Err(fault) => Err(fault),
    }
}

/// Fails each allocation in turn until none is left to fail: how many of them were answered by `Memory`. `None` where an
/// answer was another.
fn failures(alloc: Global, bytes: &[u8]) -> Option<u32> {
    let mut told = 0u32;
    for turn in 1..2000u64 {
        let memory = ShortMemory::new(alloc, turn);
        let facets = facet_count(&memory, bytes);
        if !memory.has_failed() {
            return (facets == Ok(24)).then_some(told);
        }
        if facets != Err(SessionFault::Memory) {
            return None;
        }
        told = told.saturating_add(1);
    }
    None
}

#[test]
fn memory_that_fails_is_told(rt: HostRuntime) -> Result<(), Fail> {
    let bytes = binary_of_parts(rt.alloc(), TWO_CUBES)?;
    assert!(rt; failures(rt.alloc(), &bytes) > Some(5));
    Ok(())
}
