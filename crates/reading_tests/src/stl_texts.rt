//! Texts of meshes with known facets or a known fault.
use micro_num::{NumFault, Unit};
use short_memory::ShortMemory;
use std::alloc::{AllocError, Allocator, Global};
use stl_text::{Facet, Point, StlFault, TextReader, Word, read_stl, read_stl_at_most};
use test_meshes::published::{FARTHEST, INCH, MILLIMETRE};

/// How the parts of a file are spelled.
struct Style {
    opening: &'static [u8],
    facet: &'static [u8],
    vertex: &'static [u8],
    vertex_end: &'static [u8],
    facet_end: &'static [u8],
    closing: &'static [u8],
}

const PLAIN: Style = Style {
    opening: b"solid t\n",
    facet: b"facet normal 0 0 0\nouter loop\n",
    vertex: b"vertex",
    vertex_end: b"\n",
    facet_end: b"endloop\nendfacet\n",
    closing: b"endsolid t\n",
};

const LOUD: Style = Style {
    opening: b"SOLID\r\n",
    facet: b"FACET NORMAL nan nan nan\r\nOUTER LOOP\r\n",
    vertex: b"VERTEX",
    vertex_end: b"\r\n",
    facet_end: b"ENDLOOP\r\nENDFACET\r\n",
    closing: b"ENDSOLID\r\n",
};

/// The corners of a box's facets. The bits of a corner say where x, y and z take the greater value.
const FACETS: [[u8; 3]; 12] = [
    [0b000, 0b010, 0b110],
    [0b000, 0b110, 0b100],
    [0b001, 0b101, 0b111],
    [0b001, 0b111, 0b011],
    [0b000, 0b100, 0b101],
    [0b000, 0b101, 0b001],
    [0b010, 0b011, 0b111],
    [0b010, 0b111, 0b110],
    [0b000, 0b001, 0b011],
    [0b000, 0b011, 0b010],
    [0b100, 0b110, 0b111],
    [0b100, 0b111, 0b101],
];

const AXES: [u8; 3] = [0b100, 0b010, 0b001];

/// Adds a vertex of such a cube.
fn put_vertex(
    out: &mut Vec<u8>,
    style: &Style,
    low: &[u8],
    high: &[u8],
    corner: u8,
) -> Result<(), AllocError> {
    out.extend_from_slice(style.vertex)?;
    for axis in &AXES {
        out.push(b' ')?;
        out.extend_from_slice(if corner & *axis == 0 { low } else { high })?;
    }
    out.extend_from_slice(style.vertex_end)
}

/// Adds a facet of such a cube.
fn put_facet(
    out: &mut Vec<u8>,
    style: &Style,
    low: &[u8],
    high: &[u8],
    corners: &[u8; 3],
) -> Result<(), AllocError> {
    out.extend_from_slice(style.facet)?;
    for corner in corners {
        put_vertex(out, style, low, high, *corner)?;
    }
    out.extend_from_slice(style.facet_end)
}

/// Adds a solid, a cube from `low` to `high` in each direction.
fn put_cube(out: &mut Vec<u8>, style: &Style, low: &[u8], high: &[u8]) -> Result<(), AllocError> {
    out.extend_from_slice(style.opening)?;
    for corners in &FACETS {
        put_facet(out, style, low, high, corners)?;
    }
    out.extend_from_slice(style.closing)
}

/// The file of the cube from 0 to 2 micrometres.
pub(crate) fn cube_file(alloc: Global) -> Result<Vec<u8>, AllocError> {
    let mut out = Vec::new(alloc);
    put_cube(&mut out, &PLAIN, b"0.000", b"0.002")?;
    Ok(out)
}

/// Whether these are the facets of a cube.
fn are_cube(facets: &[Facet], low: i32, high: i32) -> bool {
    if facets.len() != FACETS.len() {
        return false;
    }
    for (facet, corners) in facets.iter().zip(FACETS.as_slice()) {
        for (point, corner) in facet.0.iter().zip(corners.as_slice()) {
            let at = |axis: u8| if *corner & axis == 0 { low } else { high };
            if Some(*point) != Point::new(at(0b100), at(0b010), at(0b001)) {
                return false;
            }
        }
    }
    true
}

/// Whether a beginning of the cube's file is read as the cube from 1480 bytes on, and else is no whole text.
fn is_begun_well(alloc: Global, text: &[u8]) -> bool {
    match read_stl(alloc, text, Unit::Millimetre) {
        Ok(facets) => 1480 <= text.len() && are_cube(&facets, 0, 2),
        Err(StlFault::Expected { .. } | StlFault::Ended { .. }) => text.len() < 1480,
        Err(_) => false,
    }
}

/// The same for each beginning.
fn is_each_begun_well(alloc: Global, file: &[u8]) -> bool {
    for len in 0..=file.len() {
        if !is_begun_well(alloc, &file[..len]) {
            return false;
        }
    }
    true
}

#[test]
fn each_beginning_of_a_file(rt: HostRuntime) {
    match cube_file(rt.alloc()) {
        Ok(file) => {
            assert!(rt; file.len() == 1483);
            assert!(rt; is_each_begun_well(rt.alloc(), file.as_slice()));
        }
        Err(AllocError) => assert!(rt; false),
    }
}

/// A text and how it is read.
#[derive(Clone, Copy)]
pub(crate) struct Text<'t> {
    pub(crate) bytes: &'t [u8],
    /// The number of facets that it may have.
    pub(crate) limit: u8,
    pub(crate) unit: Unit,
}

impl Text<'_> {
    /// The result for the whole text.
    pub(crate) fn whole(&self, alloc: Global) -> Result<Vec<Facet>, StlFault> {
        read_stl_at_most(alloc, self.bytes, u32::from(self.limit), self.unit)
    }

    /// A reader to which it can be fed.
    pub(crate) fn reader(&self, alloc: Global) -> TextReader<Global> {
        TextReader::new(alloc, u32::from(self.limit), self.unit)
    }
}

/// What a text is read as: cubes, by the least and the greatest coordinate of each, or its fault.
type Answer = Result<&'static [(i32, i32)], StlFault>;

/// A text with its result.
#[derive(Drop)]
pub(crate) struct Worked {
    bytes: Vec<u8>,
    limit: u8,
    unit: Unit,
    answer: Answer,
}

impl Worked {
    pub(crate) fn text(&self) -> Text<'_> {
        Text {
            bytes: self.bytes.as_slice(),
            limit: self.limit,
            unit: self.unit,
        }
    }
}

/// A limit that none of the texts here passes.
const ENOUGH: u8 = 24;

/// Adds a text that is read in millimetres.
fn put(
    list: &mut Vec<Worked>,
    bytes: Vec<u8>,
    limit: u8,
    answer: Answer,
) -> Result<(), AllocError> {
    list.push(Worked {
        bytes,
        limit,
        unit: Unit::Millimetre,
        answer,
    })?;
    Ok(())
}

fn ended(word: Word) -> Answer {
    Err(StlFault::Ended { word })
}

fn expected(word: Word, at: usize) -> Answer {
    Err(StlFault::Expected { word, at })
}

fn number(cause: NumFault, at: usize) -> Answer {
    Err(StlFault::Number { cause, at })
}

fn too_many(at: usize) -> Answer {
    Err(StlFault::TooMany { at })
}

/// Adds texts with a fault in no facet or in the first one.
fn put_faulty(alloc: Global, list: &mut Vec<Worked>) -> Result<(), AllocError> {
    let rows: [(&[u8], Answer); 18] = [
        (b"", ended(Word::Solid)),
        (b" \t\r\n\x0b\x0c", ended(Word::Solid)),
        (b"solidx", expected(Word::Solid, 0)),
        (b"\xef\xbb\xbfsolid\nendsolid\n", expected(Word::Solid, 0)),
        (b"solid", ended(Word::FacetOrEnd)),
        (b"solid facet normal", ended(Word::FacetOrEnd)),
        (b"solid a\x0bendsolid\x0cendsolid", ended(Word::FacetOrEnd)),
        (b"solid\n\xff", expected(Word::FacetOrEnd, 6)),
        (b"solid\nendsoli", expected(Word::FacetOrEnd, 6)),
        (b"solid\nendsolid\n facet", expected(Word::Solid, 16)),
        (b"solid\nfacet normal 0 0", ended(Word::Number)),
        (
            b"solid\nfacet normal 0 0\nouter loop",
            expected(Word::Outer, 29),
        ),
        (
            b"solid\nfacet normal 0 0 1\nouter lop",
            expected(Word::Loop, 31),
        ),
        (
            b"solid\nfacet normal 0 0 1\nouter loop\nvertex 1 x 3",
            number(NumFault::NotNumber, 45),
        ),
        (
            b"solid\nfacet normal 0 0 1\nouter loop\nvertex 1 1e9 3",
            number(NumFault::OutOfRange, 45),
        ),
        (
            b"solid\nfacet normal 0 0 1\nouter loop\nvertex 1 2",
            ended(Word::Number),
        ),
        (
            b"solid\nfacet normal 0 0 1\nouter loop\nvertex 1 2 3\nvertexes",
            expected(Word::Vertex, 49),
        ),
        (
            b"solid\nfacet normal 0 0 1\nouter loop\nvertex 1 2 3 4",
            expected(Word::Vertex, 49),
        ),
    ];
    for (text, answer) in rows {
        put(list, text.to_vec(alloc)?, ENOUGH, answer)?;
    }
    Ok(())
}

/// Adds texts of no facets.
fn put_empty(alloc: Global, list: &mut Vec<Worked>) -> Result<(), AllocError> {
    let rows: [&[u8]; 4] = [
        b"solid facet normal\nENDSOLID",
        b"solid \x00\xff\nendsolid solid\n",
        b"\r\n Solid a\rendSolid b\nsolid\n\x0b\x0cendsolid\r \n",
        b"solid a\x0bendsolid\nendsolid facet\x0csolid",
    ];
    for text in rows {
        put(list, text.to_vec(alloc)?, 0, Ok(&[]))?;
    }
    Ok(())
}

/// The cube from 0 to 2 micrometres.
const CUBE: &[(i32, i32)] = &[(0, 2)];

/// These texts one after another.
fn joined(alloc: Global, front: &[u8], middle: &[u8], back: &[u8]) -> Result<Vec<u8>, AllocError> {
    let mut bytes = front.to_vec(alloc)?;
    bytes.extend_from_slice(middle)?;
    bytes.extend_from_slice(back)?;
    Ok(bytes)
}

/// Adds the file of a cube under several limits, with bytes before and after it. The mark with which some programs begin
/// a text is part of the first word. Facets are counted over all solids: the word after the second solid's name begins
/// at byte 1491.
fn put_limited(alloc: Global, list: &mut Vec<Worked>) -> Result<(), AllocError> {
    let cube = cube_file(alloc)?;
    let rows: [(&[u8], &[u8], u8, Answer); 9] = [
        (b"", b"", 12, Ok(CUBE)),
        (b"", b"", 2, too_many(252)),
        (b"", b"", 0, too_many(8)),
        (b"\xef\xbb\xbf", b"", 12, expected(Word::Solid, 0)),
        (b"", cube.as_slice(), 12, too_many(1491)),
        (b"", b"solid t\nfacet", 12, too_many(1491)),
        (
            b"",
            b"solid t\nfacets",
            12,
            expected(Word::FacetOrEnd, 1491),
        ),
        (
            b"",
            b"solid t\nvertex",
            12,
            expected(Word::FacetOrEnd, 1491),
        ),
        (b"", b"solid t\nendsolid", 12, Ok(CUBE)),
    ];
    for (front, back, limit, answer) in rows {
        put(
            list,
            joined(alloc, front, cube.as_slice(), back)?,
            limit,
            answer,
        )?;
    }
    Ok(())
}

/// Adds the file of a cube that ends after a loop.
fn put_short_cube(alloc: Global, list: &mut Vec<Worked>) -> Result<(), AllocError> {
    let mut short = cube_file(alloc)?;
    short.truncate(120);
    put(list, short, ENOUGH, ended(Word::EndFacet))
}

/// Two cubes in capitals.
fn loud_cubes(alloc: Global) -> Result<Vec<u8>, AllocError> {
    let mut loud = Vec::new(alloc);
    put_cube(&mut loud, &LOUD, b"+0", b"4E-3")?;
    put_cube(&mut loud, &LOUD, b".002", b"6.e-3")?;
    Ok(loud)
}

/// Adds a cube from -1 to 0.002 of a unit.
fn put_cube_in(
    alloc: Global,
    list: &mut Vec<Worked>,
    unit: Unit,
    corners: &'static [(i32, i32)],
) -> Result<(), AllocError> {
    let mut bytes = Vec::new(alloc);
    put_cube(&mut bytes, &PLAIN, b"-1", b"0.002")?;
    list.push(Worked {
        bytes,
        limit: ENOUGH,
        unit,
        answer: Ok(corners),
    })?;
    Ok(())
}

/// Adds the file of a cube that ends after a loop, two cubes in capitals, and cubes in other units.
fn put_cubes(alloc: Global, list: &mut Vec<Worked>) -> Result<(), AllocError> {
    put_short_cube(alloc, list)?;
    put(list, loud_cubes(alloc)?, ENOUGH, Ok(&[(0, 4), (2, 6)]))?;
    put_cube_in(alloc, list, Unit::Inch, &[(-INCH, 51)])?;
    put_cube_in(alloc, list, Unit::Centimetre, &[(-10 * MILLIMETRE, 20)])?;
    put_cube_in(alloc, list, Unit::Metre, &[(-1_000 * MILLIMETRE, 2_000)])
}

/// Adds a text with a number of 256 digits.
fn put_long_number(alloc: Global, list: &mut Vec<Worked>) -> Result<(), AllocError> {
    let mut bytes = b"solid\nfacet normal 0 0 1\nouter loop\nvertex 1 ".to_vec(alloc)?;
    for _ in 0..256 {
        bytes.push(b'0')?;
    }
    bytes.extend_from_slice(b" 3")?;
    put(list, bytes, ENOUGH, number(NumFault::TooLong, 45))
}

/// The texts whose results are known.
pub(crate) fn worked_texts(alloc: Global) -> Result<Vec<Worked>, AllocError> {
    let mut list = Vec::new(alloc);
    put_faulty(alloc, &mut list)?;
    put_empty(alloc, &mut list)?;
    put_limited(alloc, &mut list)?;
    put_cubes(alloc, &mut list)?;
    put_long_number(alloc, &mut list)?;
    Ok(list)
}

/// Whether these are the facets of cubes, one after another.
fn are_cubes(facets: &[Facet], cubes: &[(i32, i32)]) -> bool {
    if facets.len() / FACETS.len() != cubes.len() {
        return false;
    }
    for (cube, (low, high)) in facets.chunks(FACETS.len()).zip(cubes) {
        if !are_cube(cube, *low, *high) {
            return false;
        }
    }
    true
}

/// Whether a text is read as its result says.
fn is_answered(worked: &Worked, found: &Result<Vec<Facet>, StlFault>) -> bool {
    match (found, &worked.answer) {
        (Ok(facets), Ok(cubes)) => are_cubes(facets, cubes),
        (Err(fault), Err(wanted)) => fault == wanted,
        _ => false,
    }
}

/// `Ok`, or the number of the first text that is read otherwise.
fn all_answered(alloc: Global, list: &[Worked]) -> Result<(), usize> {
    for (k, worked) in list.iter().enumerate() {
        if !is_answered(worked, &worked.text().whole(alloc)) {
            return Err(k);
        }
    }
    Ok(())
}

#[test]
fn worked_texts_have_their_answers(rt: HostRuntime) {
    match worked_texts(rt.alloc()) {
        Ok(list) => {
            assert!(rt; list.len() == 37);
            assert!(rt; all_answered(rt.alloc(), list.as_slice()) == Ok(()));
        }
        Err(AllocError) => assert!(rt; false),
    }
}

/// The fault of a text in this memory.
fn fault_in(memory: &ShortMemory<Global>, text: &[u8]) -> Option<StlFault> {
    read_stl(memory, text, Unit::Millimetre).err()
}

/// Fails each allocation in turn until none is left to fail. Returns which turn that was. It is `None` if a reading with a
/// failed allocation returned anything but `Memory`, or the last one a fault.
fn first_free_turn(alloc: Global, text: &[u8]) -> Option<u64> {
    for turn in 1..100 {
        let memory = ShortMemory::new(alloc, turn);
        let fault = fault_in(&memory, text);
        if !memory.has_failed() {
            return fault.is_none().then_some(turn);
        }
        if fault != Some(StlFault::Memory) {
            return None;
        }
    }
    None
}

#[test]
fn each_allocation_fails_in_turn(rt: HostRuntime) {
    match cube_file(rt.alloc()) {
        Ok(file) => assert!(rt; first_free_turn(rt.alloc(), file.as_slice()) > Some(1)),
        Err(AllocError) => assert!(rt; false),
    }
}

/// Whether a fault has this text.
fn is_told(alloc: Global, fault: &StlFault, text: &str) -> bool {
    match fault.to_string(alloc) {
        Ok(printed) => printed.as_str() == text,
        Err(_) => false,
    }
}

/// Whether the fault of a text that ended before a word has the text of this word.
fn is_ended_told(alloc: Global, word: Word, text: &str) -> bool {
    match format!(in alloc; "input ended before {text}") {
        Ok(told) => is_told(alloc, &StlFault::Ended { word }, told.as_str()),
        Err(_) => false,
    }
}

#[test]
fn faults_as_text(rt: HostRuntime) {
    let words = [
        (Word::Solid, "solid"),
        (Word::FacetOrEnd, "facet or endsolid"),
        (Word::Normal, "normal"),
        (Word::Outer, "outer"),
        (Word::Loop, "loop"),
        (Word::Vertex, "vertex"),
        (Word::Number, "number"),
        (Word::EndLoop, "endloop"),
        (Word::EndFacet, "endfacet"),
    ];
    for (word, text) in words {
        assert!(rt; is_ended_told(rt.alloc(), word, text));
    }
    let rows = [
        (
            StlFault::Expected {
                word: Word::Loop,
                at: 31,
            },
            "expected loop at byte 31",
        ),
        (
            StlFault::Number {
                cause: NumFault::TooLong,
                at: 45,
            },
            "number at byte 45: too long",
        ),
        (StlFault::TooMany { at: 252 }, "too many facets at byte 252"),
        (StlFault::Memory, "out of memory"),
    ];
    for (fault, text) in rows {
        assert!(rt; is_told(rt.alloc(), &fault, text));
    }
}

/// The coordinates of the point with these.
fn placed([x, y, z]: [i32; 3]) -> Option<[i32; 3]> {
    let point = Point::new(x, y, z)?;
    Some([point.x(), point.y(), point.z()])
}

#[test]
fn farthest_points(rt: HostRuntime) {
    for far in [FARTHEST, -FARTHEST] {
        for place in [[far, 0, 0], [0, far, 0], [0, 0, far]] {
            assert!(rt; placed(place) == Some(place));
        }
    }
    for beyond in [FARTHEST + 1, -FARTHEST - 1] {
        for place in [[beyond, 0, 0], [0, beyond, 0], [0, 0, beyond]] {
            assert!(rt; placed(place).is_none());
        }
    }
}
