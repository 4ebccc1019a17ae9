//! Texts that are long enough to be read in parts, whole or in two chunks: several workers return what one does.
ghost use Rattle.std.specs.Prelude.{◌≤◌};
ghost use Rattle.geometry.specs.declared.limits.TheConstants.{FACET_LIMIT};

use micro_num::Unit;
use short_memory::ShortMemory;
use std::alloc::{AllocError, Allocator, Global};
use std::thread::Threads;
use stl_text::{FACET_LIMIT, Facet, Point, StlFault, TextReader, read_stl_at_most, read_stl_by};

const WORKERS: [u32; 5] = [1, 2, 3, 7, 64];

/// The least number of workers that read parts, and the greatest that the program takes.
pub(crate) const TWO_AND_MOST: [u32; 2] = [2, 64];

/// The least length of a text that is read in two parts, in bytes.
pub(crate) const LEAST_OF_TWO_PARTS: usize = 65_536;

/// The least length of the texts here, in bytes: each half is longer than the shortest chunk that is read in parts.
const LONG: usize = 131_074;

/// The places where a text is broken: in its first line, and in each of several parts.
const BREAKS: [usize; 8] = [9, 20_011, 40_002, 60_700, 70_001, 80_003, 110_004, 140_005];

/// The number of bytes from one place where a text is broken to the next. It is prime, so that the places lie all over a facet.
const STRIDE: usize = 499;

/// The number of parts of a text of 1500 facets, and the numbers of those after the first.
const PARTS: usize = 4;

const LATER_PARTS: [usize; PARTS - 1] = [1, 2, 3];

/// The first of the cuts of a text in two chunks, and their number, which is the length of the longest facet and more.
const FIRST_CUT: usize = 66_000;

const CUTS: usize = 120;

/// A facet whose first number is `digit`, spelled in another way for each other digit.
fn put_facet(out: &mut Vec<u8>, digit: u8) -> Result<(), AllocError> {
    if digit % 2 == 0 {
        out.extend_from_slice(b"facet normal 0 0 1\n outer loop\n  vertex 0.")?;
        out.push(b'0' | (digit & 7))?;
        return out.extend_from_slice(
            b" 0 0\n  vertex 1.5 0 0\n  vertex 0 1 0\n endloop\nendfacet\n",
        );
    }
    out.extend_from_slice(b"FACET NORMAL a b c OUTER LOOP VERTEX -")?;
    out.push(b'0' | (digit & 7))?;
    out.extend_from_slice(b" 1e-3 7 vertex 2 2 2 VERTEX 3 0 5 endloop EndFacet ")
}

/// The facet that `put_facet` spells.
fn facet_of(digit: u8) -> Option<Facet> {
    let first = i32::from(digit & 7);
    if digit % 2 == 0 {
        return Some(Facet::of(
            Point::new(100 * first, 0, 0)?,
            Point::new(1500, 0, 0)?,
            Point::new(0, 1000, 0)?,
        ));
    }
    Some(Facet::of(
        Point::new(-1000 * first, 1, 7000)?,
        Point::new(2000, 2000, 2000)?,
        Point::new(3000, 0, 5000)?,
    ))
}

/// The digit of a solid's facet of this number.
fn digit_of(number: u32) -> u8 {
    (number % 251) as u8
}

/// The first `count` facets of a solid.
pub(crate) fn put_facets(out: &mut Vec<u8>, count: u32) -> Result<(), AllocError> {
    for k in 0..count {
        put_facet(out, digit_of(k))?;
    }
    Ok(())
}

/// Adds the facets that `put_facets` spells.
pub(crate) fn add_facets(list: &mut Vec<Facet>, count: u32) -> Result<(), AllocError> {
    for k in 0..count {
        list.push(facet_of(digit_of(k)).ok_or(AllocError)?)?;
    }
    Ok(())
}

/// Ends a solid, with `len` bytes on the rest of its line, and begins another.
pub(crate) fn put_remark(out: &mut Vec<u8>, len: usize) -> Result<(), AllocError> {
    out.extend_from_slice(b"endsolid ")?;
    for _ in 0..len {
        out.push(b'-')?;
    }
    out.extend_from_slice(b"\nsolid part\n")
}

/// A solid of `count` facets, with its name at both ends.
pub(crate) fn put_solid(out: &mut Vec<u8>, name: &[u8], count: u32) -> Result<(), AllocError> {
    out.extend_from_slice(b"solid ")?;
    out.extend_from_slice(name)?;
    out.push(b'\n')?;
    put_facets(out, count)?;
    out.extend_from_slice(b"endsolid ")?;
    out.extend_from_slice(name)?;
    out.extend_from_slice(b"\n")
}

/// Whether two results are the same.
pub(crate) fn are_same<A: Allocator, B: Allocator>(
    one: &Result<Vec<Facet, A>, StlFault>,
    other: &Result<Vec<Facet, B>, StlFault>,
) -> bool {
    match (one, other) {
        (Ok(one), Ok(other)) => one.as_slice() == other.as_slice(),
        (Err(one), Err(other)) => one == other,
        _ => false,
    }
}

/// The result for a text that is fed in two chunks.
pub(crate) fn in_two<R: Threads + Sync, A: Allocator + Copy + Send + Sync>(
    rt: &R,
    alloc: A,
    chunks: (&[u8], &[u8]),
    limit: u32,
    workers: u32,
) -> Result<Vec<Facet, A>, StlFault>
    requires { limit ≤ FACET_LIMIT }
{
    let mut reader = TextReader::new(alloc, limit, Unit::Millimetre);
    reader.feed_by(rt, chunks.0, workers);
    reader.feed_by(rt, chunks.1, workers);
    reader.finish()
}

/// Whether this number of workers has this result for a text.
fn is_same_whole<R: Threads + Sync>(
    rt: &R,
    alloc: Global,
    text: &[u8],
    limit: u32,
    workers: u32,
    one: &Result<Vec<Facet>, StlFault>,
) -> bool
    requires { limit ≤ FACET_LIMIT }
{
    let many = read_stl_by(rt, alloc, text, limit, Unit::Millimetre, workers);
    are_same(one, &many)
}

/// The same if the text is fed in halves.
fn is_same_halved<R: Threads + Sync>(
    rt: &R,
    alloc: Global,
    text: &[u8],
    limit: u32,
    workers: u32,
    one: &Result<Vec<Facet>, StlFault>,
) -> bool
    requires { limit ≤ FACET_LIMIT }
{
    let halves = in_two(rt, alloc, text.split_at(text.len() / 2), limit, workers);
    are_same(one, &halves)
}

/// Whether each of these numbers of workers returns what one reader does, for the whole text and for its halves.
fn is_as_by_one<R: Threads + Sync>(
    rt: &R,
    alloc: Global,
    text: &[u8],
    limit: u32,
    numbers: &[u32],
) -> bool
    requires { limit ≤ FACET_LIMIT }
{
    let one = read_stl_at_most(alloc, text, limit, Unit::Millimetre);
    for workers in numbers {
        if !is_same_whole(rt, alloc, text, limit, *workers, &one)
            || !is_same_halved(rt, alloc, text, limit, *workers, &one)
        {
            return false;
        }
    }
    true
}

/// Whether any number of workers returns what one reader does, for the whole text and for its halves.
fn any_workers<R: Threads + Sync>(rt: &R, alloc: Global, text: &[u8], limit: u32) -> bool
    requires { limit ≤ FACET_LIMIT }
{
    is_as_by_one(rt, alloc, text, limit, &WORKERS)
}

/// A text of one solid.
fn solid_text(alloc: Global, name: &[u8], count: u32) -> Result<Vec<u8>, AllocError> {
    let mut text = Vec::new(alloc);
    put_solid(&mut text, name, count)?;
    Ok(text)
}

/// Whether several workers read this many facets.
fn has_facets<R: Threads + Sync>(
    rt: &R,
    alloc: Global,
    text: &[u8],
    workers: u32,
    count: usize,
) -> bool {
    match read_stl_by(rt, alloc, text, FACET_LIMIT, Unit::Millimetre, workers) {
        Ok(facets) => facets.len() == count,
        Err(_) => false,
    }
}

#[test]
fn one_long_solid(rt: HostRuntime) {
    match solid_text(rt.alloc(), b"part", 1500) {
        Ok(text) => {
            assert!(rt; LONG < text.len());
            assert!(rt; has_facets(&rt, rt.alloc(), &text, 4, 1500));
            assert!(rt; any_workers(&rt, rt.alloc(), &text, FACET_LIMIT));
        }
        Err(AllocError) => assert!(rt; false),
    }
}

/// A name that spells whole facets.
fn spelling_name(alloc: Global) -> Result<Vec<u8>, AllocError> {
    let mut name = Vec::new(alloc);
    for _ in 0..400 {
        name.extend_from_slice(
            b"endfacet facet normal 0 0 0 outer loop vertex 1 1 1 \
            vertex 1 1 2 vertex 1 2 1 endloop endfacet endsolid ",
        )?;
    }
    Ok(name)
}

/// Solids with this name, of 48 facets in all.
fn named_solids(alloc: Global, name: &[u8]) -> Result<Vec<u8>, AllocError> {
    let mut text = Vec::new(alloc);
    for count in [1, 40, 0, 7] {
        put_solid(&mut text, name, count)?;
    }
    Ok(text)
}

/// Solids with the name that spells facets.
fn spelling_solids(alloc: Global) -> Result<Vec<u8>, AllocError> {
    let name = spelling_name(alloc)?;
    named_solids(alloc, &name)
}

/// Each part of these texts may begin in a name, or in what follows `endsolid`, that spells whole facets.
#[test]
fn names_that_spell_facets(rt: HostRuntime) {
    match spelling_solids(rt.alloc()) {
        Ok(text) => {
            assert!(rt; LONG < text.len());
            assert!(rt; has_facets(&rt, rt.alloc(), &text, 3, 48));
            assert!(rt; any_workers(&rt, rt.alloc(), &text, FACET_LIMIT));
        }
        Err(AllocError) => assert!(rt; false),
    }
}

/// A text of solids of one facet.
fn short_solids(alloc: Global, name: &[u8]) -> Result<Vec<u8>, AllocError> {
    let mut text = Vec::new(alloc);
    for _ in 0..1300 {
        put_solid(&mut text, name, 1)?;
    }
    Ok(text)
}

/// Whether a text is long, and any number of workers returns what one reader does.
fn is_long_and_same<R: Threads + Sync>(
    rt: &R,
    alloc: Global,
    text: Result<Vec<u8>, AllocError>,
) -> bool {
    match text {
        Ok(text) => LONG < text.len() && any_workers(rt, alloc, &text, FACET_LIMIT),
        Err(AllocError) => false,
    }
}

/// Solids of one facet: a run of facets goes on from one to the next. If a part begins in a name that ends in `endfacet`, the
/// worker finds a run that begins in the name, and the reader never comes to it.
#[test]
fn solids_of_one_facet(rt: HostRuntime) {
    for name in [&b"one"[..], b"endfacet", b"endfacet facet"] {
        assert!(rt; is_long_and_same(&rt, rt.alloc(), short_solids(rt.alloc(), name)));
    }
}

/// Replaces the byte here and those at each later break. Returns whether the text goes on here.
fn break_from(text: &mut [u8], at: usize) -> bool {
    if at >= text.len() {
        return false;
    }
    text[at] = b'#';
    for later in BREAKS {
        if at <= later && later < text.len() {
            text[later] = b'#';
        }
    }
    true
}

/// Whether each of these numbers of workers returns what one reader does if bytes are replaced here and at each later break,
/// and if the text ends here.
fn is_broken_well<R: Threads + Sync>(
    rt: &R,
    alloc: Global,
    text: &[u8],
    at: usize,
    numbers: &[u32],
) -> bool {
    match text.to_vec(alloc) {
        Ok(mut broken) => {
            break_from(&mut broken, at)
                && is_as_by_one(rt, alloc, &broken, FACET_LIMIT, numbers)
                && is_as_by_one(rt, alloc, &text[..at.min(text.len())], FACET_LIMIT, numbers)
        }
        Err(AllocError) => false,
    }
}

/// Whether that is so in each part, and at each stride.
fn is_each_broken_well<R: Threads + Sync>(rt: &R, alloc: Global, text: &[u8]) -> bool {
    for at in BREAKS {
        if !is_broken_well(rt, alloc, text, at, &WORKERS) {
            return false;
        }
    }
    for k in 0..text.len() / STRIDE {
        if !is_broken_well(rt, alloc, text, k * STRIDE, &TWO_AND_MOST) {
            return false;
        }
    }
    true
}

/// Bytes are replaced in this part and in each later one, or the text ends there. The fault is the first one, as for one
/// reader.
#[test]
fn a_fault_in_each_part(rt: HostRuntime) {
    match solid_text(rt.alloc(), b"part", 1500) {
        Ok(text) => {
            assert!(rt; LONG < text.len());
            assert!(rt; is_each_broken_well(&rt, rt.alloc(), &text));
        }
        Err(AllocError) => assert!(rt; false),
    }
}

/// Whether that is so at each byte of a facet where this part begins.
fn is_border_broken_well<R: Threads + Sync>(
    rt: &R,
    alloc: Global,
    text: &[u8],
    part: usize,
) -> bool {
    let border = (text.len() / PARTS).saturating_mul(part);
    let first = border.saturating_sub(CUTS / 2);
    for at in first..first.saturating_add(CUTS) {
        if !is_broken_well(rt, alloc, text, at, &TWO_AND_MOST) {
            return false;
        }
    }
    true
}

/// The same at each byte of a facet where parts meet, of the whole text and of its halves.
#[test]
fn a_fault_at_each_byte_where_four_parts_meet(rt: HostRuntime) {
    match solid_text(rt.alloc(), b"part", 1500) {
        Ok(text) => {
            assert!(rt; LONG < text.len());
            for part in LATER_PARTS {
                assert!(rt; is_border_broken_well(&rt, rt.alloc(), &text, part));
            }
        }
        Err(AllocError) => assert!(rt; false),
    }
}

/// Whether any number of workers returns what one reader does with each of several limits.
fn is_each_limited_well<R: Threads + Sync>(rt: &R, alloc: Global, text: &[u8]) -> bool {
    for limit in [0, 1, 100, 375, 376, 750, 1499, 1500, 1501] {
        if !any_workers(rt, alloc, text, limit) {
            return false;
        }
    }
    true
}

/// Whether four workers find a facet too many.
fn is_too_many<R: Threads + Sync>(rt: &R, alloc: Global, text: &[u8]) -> bool {
    match read_stl_by(rt, alloc, text, 1499, Unit::Millimetre, 4) {
        Err(StlFault::TooMany { .. }) => true,
        _ => false,
    }
}

/// The limit is passed at the beginning, in each part, at the last facet and not at all.
#[test]
fn a_limit_in_each_part(rt: HostRuntime) {
    match solid_text(rt.alloc(), b"part", 1500) {
        Ok(text) => {
            assert!(rt; LONG < text.len());
            assert!(rt; is_each_limited_well(&rt, rt.alloc(), &text));
            assert!(rt; is_too_many(&rt, rt.alloc(), &text));
        }
        Err(AllocError) => assert!(rt; false),
    }
}

/// The text of one solid in capitals.
fn loud_text(alloc: Global) -> Result<Vec<u8>, AllocError> {
    let mut text = solid_text(alloc, b"part", 1500)?;
    for byte in text.iter_mut() {
        *byte = byte.to_ascii_uppercase();
    }
    Ok(text)
}

/// Keywords in capitals, of facets too.
#[test]
fn capitals(rt: HostRuntime) {
    assert!(rt; is_long_and_same(&rt, rt.alloc(), loud_text(rt.alloc())));
}

/// Whether this number of workers has this result for a text that is cut in two here.
fn is_cut_by<R: Threads + Sync>(
    rt: &R,
    alloc: Global,
    text: &[u8],
    cut: usize,
    workers: u32,
    answer: &Result<Vec<Facet>, StlFault>,
) -> bool {
    let chunks = text.split_at(cut.min(text.len()));
    are_same(answer, &in_two(rt, alloc, chunks, FACET_LIMIT, workers))
}

/// Whether two workers and the most of them have this result for a text that is cut in two here.
fn is_cut_well<R: Threads + Sync>(
    rt: &R,
    alloc: Global,
    text: &[u8],
    cut: usize,
    answer: &Result<Vec<Facet>, StlFault>,
) -> bool {
    is_cut_by(rt, alloc, text, cut, 2, answer) && is_cut_by(rt, alloc, text, cut, 64, answer)
}

/// Whether that is so at each byte of some facets, and at each stride.
fn is_each_cut_well<R: Threads + Sync>(
    rt: &R,
    alloc: Global,
    text: &[u8],
    answer: &Result<Vec<Facet>, StlFault>,
) -> bool {
    for cut in FIRST_CUT..FIRST_CUT + CUTS {
        if !is_cut_well(rt, alloc, text, cut, answer) {
            return false;
        }
    }
    for k in 0..text.len() / STRIDE {
        if !is_cut_well(rt, alloc, text, k * STRIDE, answer) {
            return false;
        }
    }
    true
}

/// Whether a text has facets, and they are read however it is cut.
fn is_read_in_each_cut<R: Threads + Sync>(rt: &R, alloc: Global, text: &[u8]) -> bool {
    let one = read_stl_at_most(alloc, text, FACET_LIMIT, Unit::Millimetre);
    one.is_ok() && is_each_cut_well(rt, alloc, text, &one)
}

/// A text of two solids.
fn two_solids(alloc: Global) -> Result<Vec<u8>, AllocError> {
    let mut text = Vec::new(alloc);
    put_solid(&mut text, b"part", 500)?;
    put_solid(&mut text, b"endfacet facet", 1000)?;
    Ok(text)
}

/// The text is cut in two in each part, at each byte of some facets, and between them.
#[test]
fn a_facet_cut_at_each_byte(rt: HostRuntime) {
    match two_solids(rt.alloc()) {
        Ok(text) => {
            assert!(rt; FIRST_CUT + CUTS < text.len());
            assert!(rt; is_read_in_each_cut(&rt, rt.alloc(), &text));
        }
        Err(AllocError) => assert!(rt; false),
    }
}

/// A text of two parts, however many workers there are.
fn two_parts(alloc: Global) -> Result<Vec<u8>, AllocError> {
    solid_text(alloc, b"endfacet facet", 720)
}

/// Whether two workers and the most of them return what one reader does.
fn two_and_most<R: Threads + Sync>(rt: &R, alloc: Global, text: &[u8], limit: u32) -> bool
    requires { limit ≤ FACET_LIMIT }
{
    let one = read_stl_at_most(alloc, text, limit, Unit::Millimetre);
    is_same_whole(rt, alloc, text, limit, 2, &one)
        && is_same_whole(rt, alloc, text, limit, 64, &one)
}

/// Whether that is so for a text of two parts each time two bytes more are added to it.
fn is_stretched_well<R: Threads + Sync>(
    rt: &R,
    alloc: Global,
    text: &mut Vec<u8>,
) -> Result<bool, AllocError> {
    for _ in 0..CUTS {
        text.extend_from_slice(b"\n\n")?;
        if !two_and_most(rt, alloc, text, FACET_LIMIT) {
            return Ok(false);
        }
    }
    Ok(text.len() < LONG)
}

/// Two parts meet at each byte of a facet: two bytes more at the end of the text move the middle by one.
#[test]
fn parts_that_meet_at_each_byte_of_a_facet(rt: HostRuntime) {
    match two_parts(rt.alloc()) {
        Ok(mut text) => {
            assert!(rt; LEAST_OF_TWO_PARTS <= text.len());
            assert!(rt; is_stretched_well(&rt, rt.alloc(), &mut text) == Ok(true));
        }
        Err(AllocError) => assert!(rt; false),
    }
}

/// Whether two workers and the most of them return what one reader does while a byte is replaced.
fn is_replaced_well<R: Threads + Sync>(rt: &R, alloc: Global, text: &mut [u8], at: usize) -> bool {
    if at >= text.len() {
        return false;
    }
    let byte = text[at];
    text[at] = b'#';
    let is_same = two_and_most(rt, alloc, text, FACET_LIMIT);
    text[at] = byte;
    is_same
}

/// The same for each byte of a facet about the middle.
fn is_middle_replaced_well<R: Threads + Sync>(rt: &R, alloc: Global, text: &mut [u8]) -> bool {
    let first = (text.len() / 2).saturating_sub(CUTS / 2);
    for at in first..first.saturating_add(CUTS) {
        if !is_replaced_well(rt, alloc, text, at) {
            return false;
        }
    }
    true
}

/// Each byte of a facet where two parts meet is replaced.
#[test]
fn a_fault_at_each_byte_where_parts_meet(rt: HostRuntime) {
    match two_parts(rt.alloc()) {
        Ok(mut text) => {
            assert!(rt; LEAST_OF_TWO_PARTS <= text.len());
            assert!(rt; is_middle_replaced_well(&rt, rt.alloc(), &mut text));
        }
        Err(AllocError) => assert!(rt; false),
    }
}

/// Whether two workers and the most of them return what one reader does with limits about the middle.
fn is_middle_limited_well<R: Threads + Sync>(rt: &R, alloc: Global, text: &[u8]) -> bool {
    for limit in 350..370 {
        if !two_and_most(rt, alloc, text, limit) {
            return false;
        }
    }
    true
}

/// The limit is passed shortly before the second part, at its first facets and in it.
#[test]
fn a_limit_where_parts_meet(rt: HostRuntime) {
    match two_parts(rt.alloc()) {
        Ok(text) => {
            assert!(rt; LEAST_OF_TWO_PARTS <= text.len());
            assert!(rt; is_middle_limited_well(&rt, rt.alloc(), &text));
        }
        Err(AllocError) => assert!(rt; false),
    }
}

/// Facets enough for a text with a part for each of 64 workers.
const FACETS_OF_ALL_PARTS: u32 = 22_500;

/// Bytes in a late part of that text, in one in the middle and in an early one.
const BYTES_OF_PARTS: [usize; 3] = [2_000_000, 1_000_000, 40_000];

/// Whether two workers and the most of them return what one reader does, also while bytes are replaced one after another.
fn is_each_part_read_well<R: Threads + Sync>(rt: &R, alloc: Global, text: &mut [u8]) -> bool {
    if !two_and_most(rt, alloc, text, FACET_LIMIT) {
        return false;
    }
    for at in BYTES_OF_PARTS {
        if at >= text.len() {
            return false;
        }
        text[at] = b'#';
        if !two_and_most(rt, alloc, text, FACET_LIMIT) {
            return false;
        }
    }
    true
}

/// A text that is long enough for a part to each of 64 workers, without a fault and with one in some of the parts.
#[test]
fn sixty_four_parts(rt: HostRuntime) {
    match solid_text(rt.alloc(), b"part", FACETS_OF_ALL_PARTS) {
        Ok(mut text) => {
            assert!(rt; 32 * LEAST_OF_TWO_PARTS <= text.len());
            assert!(rt; is_each_part_read_well(&rt, rt.alloc(), &mut text));
        }
        Err(AllocError) => assert!(rt; false),
    }
}

/// Whether three workers have this result for the halves of a text, or report that they lack memory if an allocation failed.
fn is_read_or_lacks<R: Threads + Sync>(
    rt: &R,
    memory: &ShortMemory<Global>,
    text: &[u8],
    one: &Result<Vec<Facet>, StlFault>,
) -> bool {
    let chunks = text.split_at(text.len() / 2);
    let many = in_two(rt, memory, chunks, FACET_LIMIT, 3);
    are_same(one, &many) || memory.has_failed() && is_lacking(&many)
}

/// Whether a result is that memory is lacking.
fn is_lacking<A: Allocator>(found: &Result<Vec<Facet, A>, StlFault>) -> bool {
    match found {
        Ok(_) => false,
        Err(fault) => *fault == StlFault::Memory,
    }
}

/// Fails each allocation in turn until none is left to fail. Returns which turn that was. It is `None` if a result was neither
/// this one nor out of memory, or the last one is not this one.
fn first_free_turn<R: Threads + Sync>(
    rt: &R,
    alloc: Global,
    text: &[u8],
    one: &Result<Vec<Facet>, StlFault>,
) -> Option<u64> {
    for turn in 1..400 {
        let memory = ShortMemory::new(alloc, turn);
        if !is_read_or_lacks(rt, &memory, text, one) {
            return None;
        }
        if !memory.has_failed() {
            return Some(turn);
        }
    }
    None
}

/// The same for what one reader returns.
fn first_free_reading<R: Threads + Sync>(rt: &R, alloc: Global, text: &[u8]) -> Option<u64> {
    let one = read_stl_at_most(alloc, text, FACET_LIMIT, Unit::Millimetre);
    first_free_turn(rt, alloc, text, &one)
}

/// Each allocation fails in turn: the result is out of memory or the mesh, and never another.
#[test]
fn each_allocation_of_a_reading_fails_in_turn(rt: HostRuntime) {
    match solid_text(rt.alloc(), b"part", 1500) {
        Ok(text) => {
            assert!(rt; LONG < text.len());
            assert!(rt; first_free_reading(&rt, rt.alloc(), &text) > Some(10));
        }
        Err(AllocError) => assert!(rt; false),
    }
}
