//! Binary STL with known facets or a known fault.
ghost use Rattle.std.specs.Prelude.{◌<◌};

use binary_stl::{
    Axis, BinaryFault, CoordinateFault, FACET_LIMIT, Facet, Point, Unit, is_binary, read_binary,
    read_binary_at_most,
};
use short_memory::ShortMemory;
use std::alloc::{AllocError, Allocator, Global};
use std::test::Fail;
use test_meshes::published::FARTHEST;

/// A facet by the bits of its coordinates.
type Bits = [u32; 9];

/// 0, 1, 1.5, -2 and 0.0625 in single precision.
const NIL: u32 = 0;

const ONE: u32 = 0x3f80_0000;

const LONG: u32 = 0x3fc0_0000;

const DOWN: u32 = 0xc000_0000;

const THIN: u32 = 0x3d80_0000;

const TETRAHEDRON: [Bits; 4] = [
    [NIL, NIL, NIL, NIL, DOWN, NIL, LONG, NIL, NIL],
    [NIL, NIL, NIL, LONG, NIL, NIL, NIL, NIL, THIN],
    [NIL, NIL, NIL, NIL, NIL, THIN, NIL, DOWN, NIL],
    [LONG, NIL, NIL, NIL, DOWN, NIL, NIL, NIL, THIN],
];

/// Its corners in micrometres.
const CORNERS: [[[i32; 3]; 3]; 4] = [
    [[0, 0, 0], [0, -2_000, 0], [1_500, 0, 0]],
    [[0, 0, 0], [1_500, 0, 0], [0, 0, 63]],
    [[0, 0, 0], [0, 0, 63], [0, -2_000, 0]],
    [[1_500, 0, 0], [0, -2_000, 0], [0, 0, 63]],
];

/// Bytes with this count and these facets. Their normals are NaNs, and no attribute is 0.
fn file(alloc: Global, count: u32, facets: &[Bits]) -> Result<Vec<u8>, AllocError> {
    let mut out = Vec::new(alloc);
    out.extend_from_slice(&[b'x'; 80])?;
    out.extend_from_slice(&count.to_le_bytes())?;
    for facet in facets {
        out.extend_from_slice(&[0xff; 12])?;
        for number in facet {
            out.extend_from_slice(&number.to_le_bytes())?;
        }
        out.extend_from_slice(&[0x12, 0x34])?;
    }
    Ok(out)
}

/// Whether facets have these corners.
fn are_facets(facets: &[Facet], corners: &[[[i32; 3]; 3]]) -> bool {
    for (facet, points) in facets.iter().zip(corners) {
        for (point, place) in facet.0.iter().zip(points.as_slice()) {
            let [x, y, z] = *place;
            if Some(*point) != Point::new(x, y, z) {
                return false;
            }
        }
    }
    facets.len() == corners.len()
}

/// Whether bytes are read as the tetrahedron.
fn is_tetrahedron<A: Allocator + Copy>(alloc: A, bytes: &[u8]) -> Option<bool> {
    match read_binary(alloc, bytes, Unit::Millimetre) {
        Ok(facets) => Some(are_facets(facets.as_slice(), &CORNERS)),
        Err(BinaryFault::Memory) => None,
        Err(_) => Some(false),
    }
}

#[test]
fn a_tetrahedron(rt: HostRuntime) -> Result<(), Fail> {
    let bytes = file(rt.alloc(), 4, &TETRAHEDRON)?;
    assert!(rt; is_binary(&bytes));
    assert!(rt; is_tetrahedron(rt.alloc(), &bytes) == Some(true));
    Ok(())
}

#[test]
fn the_allocation_fails(rt: HostRuntime) -> Result<(), Fail> {
    let bytes = file(rt.alloc(), 4, &TETRAHEDRON)?;
    for turn in 1..3 {
        let memory = ShortMemory::new(rt.alloc(), turn);
        let found = is_tetrahedron(&memory, &bytes);
        assert!(rt; memory.has_failed() == (turn == 1));
        assert!(rt; found == if turn == 1 { None } else { Some(true) });
    }
    Ok(())
}

/// Numbers with their coordinates.
const NUMBERS: [(u32, Unit, Result<i32, CoordinateFault>); 22] = [
    (0x8000_0000, Unit::Millimetre, Ok(0)),
    (0x0000_0001, Unit::Inch, Ok(0)),
    (0x007f_ffff, Unit::Millimetre, Ok(0)),
    (0xbd80_0000, Unit::Millimetre, Ok(-63)),
    (0x3d7f_ffff, Unit::Millimetre, Ok(62)),
    (0x3a03_126f, Unit::Millimetre, Ok(1)),
    (ONE, Unit::Inch, Ok(25_400)),
    (0x47fa_0000, Unit::Millimetre, Ok(FARTHEST)),
    (0xc7fa_0000, Unit::Millimetre, Ok(-FARTHEST)),
    (
        0x47fa_0001,
        Unit::Millimetre,
        Err(CoordinateFault::OutOfRange),
    ),
    (
        0x7e96_7699,
        Unit::Millimetre,
        Err(CoordinateFault::OutOfRange),
    ),
    (0xff7f_ffff, Unit::Inch, Err(CoordinateFault::OutOfRange)),
    (0x7f80_0000, Unit::Inch, Err(CoordinateFault::Infinite)),
    (
        0xff80_0000,
        Unit::Millimetre,
        Err(CoordinateFault::Infinite),
    ),
    (
        0x7fc0_0000,
        Unit::Millimetre,
        Err(CoordinateFault::NotNumber),
    ),
    (0xff80_0001, Unit::Inch, Err(CoordinateFault::NotNumber)),
    (0x3fc0_0000, Unit::Centimetre, Ok(15_000)),
    (0x4648_0000, Unit::Centimetre, Ok(FARTHEST)),
    (
        0x4648_0001,
        Unit::Centimetre,
        Err(CoordinateFault::OutOfRange),
    ),
    (0x3d4e_d917, Unit::Metre, Ok(50_500)),
    (0xc300_0000, Unit::Metre, Ok(-FARTHEST)),
    (0xc300_0001, Unit::Metre, Err(CoordinateFault::OutOfRange)),
];

/// The corner and the axis of each number of a facet.
const PLACES: [(usize, Axis); 9] = [
    (0, Axis::X),
    (0, Axis::Y),
    (0, Axis::Z),
    (1, Axis::X),
    (1, Axis::Y),
    (1, Axis::Z),
    (2, Axis::X),
    (2, Axis::Y),
    (2, Axis::Z),
];

/// The coordinates of a facet.
fn coordinates(facet: &Facet) -> [i32; 9] {
    let (a, b, c) = (facet.corner(0), facet.corner(1), facet.corner(2));
    [
        a.x(),
        a.y(),
        a.z(),
        b.x(),
        b.y(),
        b.z(),
        c.x(),
        c.y(),
        c.z(),
    ]
}

/// Whether a number is read well in a place of the second facet, where the others are 0.
fn is_read_well(
    alloc: Global,
    number: u32,
    unit: Unit,
    wanted: Result<i32, CoordinateFault>,
    place: usize,
) -> Result<bool, AllocError>
    requires { place < 9 }
{
    let mut second: Bits = [NIL; 9];
    second[place] = number;
    let bytes = file(alloc, 2, &[[NIL; 9], second])?;
    let (corner, axis) = PLACES[place];
    let mut places = [0; 9];
    Ok(match (read_binary(alloc, &bytes, unit), wanted) {
        (Ok(facets), Ok(coordinate)) => {
            places[place] = coordinate;
            facets.as_slice().last().map(coordinates) == Some(places)
        },
        (Err(fault), Err(cause)) => {
            fault
                == BinaryFault::Number {
                    cause,
                    facet: 1,
                    corner,
                    axis,
                }
        },
        _ => false,
    })
}

#[test]
fn hostile_numbers(rt: HostRuntime) -> Result<(), Fail> {
    for (number, unit, wanted) in NUMBERS {
        for place in 0..9 {
            assert!(rt; is_read_well(rt.alloc(), number, unit, wanted, place)?);
        }
    }
    Ok(())
}

/// The fault of bytes with this count and one facet, cut to a length, or the number of their facets.
fn outcome(alloc: Global, count: u32, length: usize) -> Result<usize, BinaryFault> {
    let mut bytes = file(alloc, count, &[[NIL; 9]])?;
    bytes.resize(length, 0)?;
    Ok(read_binary(alloc, &bytes, Unit::Inch)?.len())
}

fn length(facets: u32, wanted: u64, found: usize) -> Result<usize, BinaryFault> {
    Err(BinaryFault::Length {
        facets,
        wanted,
        found,
    })
}

#[test]
fn counts_and_lengths(rt: HostRuntime) {
    let rows = [
        (0, 0, Err(BinaryFault::Ended)),
        (1, 83, Err(BinaryFault::Ended)),
        (0, 84, Ok(0)),
        (1, 84, length(1, 134, 84)),
        (u32::MAX, 84, length(u32::MAX, 214_748_364_834, 84)),
        (1, 133, length(1, 134, 133)),
        (1, 134, Ok(1)),
        (0, 134, length(0, 84, 134)),
        (2, 134, length(2, 184, 134)),
        (1, 135, length(1, 134, 135)),
    ];
    for (count, length, wanted) in rows {
        assert!(rt; outcome(rt.alloc(), count, length) == wanted);
    }
}

#[test]
fn one_facet_too_many(rt: HostRuntime) -> Result<(), Fail> {
    let facets = FACET_LIMIT + 1;
    let mut bytes = file(rt.alloc(), facets, &[])?;
    bytes.resize(84 + 50 * facets as usize, 0)?;
    assert!(rt; is_binary(&bytes));
    let found = read_binary(rt.alloc(), &bytes, Unit::Millimetre).err();
    assert!(rt; found == Some(BinaryFault::TooMany { facets }));
    Ok(())
}

/// A count may be as high as the caller's limit, whatever that is.
#[test]
fn limits(rt: HostRuntime) -> Result<(), Fail> {
    let bytes = file(rt.alloc(), 4, &TETRAHEDRON)?;
    let rows = [
        (0, Err(BinaryFault::TooMany { facets: 4 })),
        (3, Err(BinaryFault::TooMany { facets: 4 })),
        (4, Ok(4)),
        (u32::MAX, Ok(4)),
    ];
    for (limit, wanted) in rows {
        let found = read_binary_at_most(rt.alloc(), &bytes, limit, Unit::Millimetre);
        assert!(rt; found.map(|facets| facets.len()) == wanted);
    }
    Ok(())
}

#[test]
fn texts(rt: HostRuntime) -> Result<(), Fail> {
    let mut text = b"solid ".to_vec(rt.alloc())?;
    text.resize(80, b'x')?;
    assert!(rt; !is_binary(&text));
    // the rest of a name that imitates a count of 1
    text.extend_from_slice(b"\x01\0\0\0\nendsolid")?;
    assert!(rt; !is_binary(&text));
    text.resize(134, b'\n')?;
    assert!(rt; is_binary(&text));
    Ok(())
}
