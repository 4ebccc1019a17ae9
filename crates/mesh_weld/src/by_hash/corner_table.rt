//! The corners of facets by a table of hashes. Each gets an id: its number by first appearance, which serves until the points
//! are in order.
ghost use Rattle.std.specs.Prelude.{◌≡◌, ◌↔◌, ◌≤◌, ◌<◌, ◌+◌, IfOk, IfSome, IsTrue, length, slice_index, slice_index_or, vec_len};
ghost use Rattle.geometry.specs.Point.{origin};
ghost use Rattle.mesh_weld.specs.Welder.{IsNamed, IsNamedFacet};
ghost use Rattle.geometry.specs.declared.limits.TheConstants.{CORNER_LIMIT};

use crate::by_hash::histogram::NONE;
use crate::packing::HALF_WORD;
use geometry::{Facet, Point};
use std::alloc::{AllocError, Allocator};

/// The number of slots of the table that are looked at for a point. A point for which none of them serves gets a new id each
/// time it comes, and the table holds none of these ids.
const CHAIN_LIMIT: usize = 64;

/// The table has at least this many slots for each point, so that chains stay far below `CHAIN_LIMIT`.
const SLOTS_A_POINT: usize = 2;

/// The bits of an entry that hold an id. There are fewer points.
const ID_BITS: u32 = 0x003f_ffff;

/// The bits of an entry that hold its tag.
const TAG_BITS: u32 = 0xffc0_0000;

/// A table has at least this power of two of slots.
const LEAST_BITS: u32 = 10;

/// The number of facets whose ids are guessed at once. The table is far larger than a cache, so a look into it may wait for
/// memory. The waits of one block overlap, the more the less is done between two looks.
pub(crate) const BLOCK: usize = 32;

/// Multiplies x and y in a hash: 2⁶⁴ divided by the golden ratio.
const XY_MULTIPLIER: u64 = 0x9e37_79b9_7f4a_7c15;

/// Multiplies z in a hash: an odd number with mixed bits, the second prime of xxHash64.
const Z_MULTIPLIER: u64 = 0xc2b2_ae3d_27d4_eb4f;

/// Multiplies the sum, so that its upper bits depend on all coordinates: an odd number with mixed bits.
const LAST_MULTIPLIER: u64 = 0xd6e8_feb8_6659_fd93;

/// A table of entries, each at the slot of its point's hash or in one of the next slots. An entry is the id of a point, and above
/// it a tag: other bits of the hash. So few points are looked up in vain. A free slot holds `NONE`.
#[derive(Drop)]
pub(crate) struct CornerTable<A: Allocator> {
    entries: Vec<u32, A>,
    /// The number of lower bits of a hash that its slot does not depend on.
    shift: u32,
}

impl<A: Allocator + Copy> CornerTable<A> {
    /// A table with no slot.
    pub(crate) fn new(alloc: A) -> CornerTable<A> {
        CornerTable {
            entries: Vec::new(alloc),
            shift: 64,
        }
    }

    /// Makes the table large enough for the points and a facet's three corners more.
    fn make_room(&mut self, alloc: A, points: &[Point]) -> Result<(), AllocError> {
        let wanted = points.len().saturating_add(3).saturating_mul(SLOTS_A_POINT);
        if wanted <= self.entries.len() {
            return Ok(());
        }
        // 1 << bits is more than wanted, and at most twice as much.
        let bits = 64u32
            .saturating_sub((wanted as u64).leading_zeros())
            .max(LEAST_BITS);
        let slots = 1usize.unbounded_shl(bits);
        let shift = 64u32.saturating_sub(bits);
        // the old table first: all points are entered anew
        self.entries = Vec::new(alloc);
        self.entries = vec![in alloc; NONE; slots.saturating_add(CHAIN_LIMIT)]?;
        self.shift = shift;
        enter_points(self.entries.as_mut_slice(), points, shift);
        Ok(())
    }

    /// Guesses the ids of the corners of the first facets, at most `BLOCK`, by the first slots of their hashes. A guess is above
    /// all ids if the tag of the entry there is another one.
    pub(crate) fn guess_ids(&self, facets: &[Facet], guesses: &mut [[u32; 3]]) {
        let (entries, shift) = (self.entries.as_slice(), self.shift);
        // all hashes first, then all entries, so that the waits for memory overlap
        let mut hashes = [[0; 3]; BLOCK];
        for (own, facet) in hashes.iter_mut().zip(facets) {
            *own = [
                hash(facet.corner(0)),
                hash(facet.corner(1)),
                hash(facet.corner(2)),
            ];
        }
        for (own, [first, second, third]) in guesses.iter_mut().zip(&hashes) {
            *own = [
                entry_of(entries, *first, shift),
                entry_of(entries, *second, shift),
                entry_of(entries, *third, shift),
            ];
        }
        for (own, [first, second, third]) in guesses.iter_mut().zip(&hashes) {
            own[0] ^= tag_of(*first);
            own[1] ^= tag_of(*second);
            own[2] ^= tag_of(*third);
        }
    }
}

/// The entry in the first slot of a hash.
#[inline(always)]
fn entry_of(entries: &[u32], hash: u64, shift: u32) -> u32 {
    entries.get(slot_of(hash, shift)).copied().unwrap_or(NONE)
}

/// Enters points into an empty table.
fn enter_points(entries: &mut [u32], points: &[Point], shift: u32) {
    let mut id = 0u32;
    for point in points {
        let hash = hash(*point);
        if let Some(slot) = free_slot(entries, slot_of(hash, shift)) {
            entries[slot] = tag_of(hash) | id;
        }
        id = id.wrapping_add(1);
    }
}

/// The first free slot among the `CHAIN_LIMIT` slots from `from` on.
fn free_slot(entries: &[u32], from: usize) -> Option<usize>
    ensures { IfSome result (λ slot. slot < length entries.now) }
{
    for slot in from..entries.len() {
        if slot - from >= CHAIN_LIMIT {
            return None;
        }
        if entries[slot] == NONE {
            return Some(slot);
        }
    }
    None
}

/// A hash of a point. Its upper bits depend on all bits of the coordinates.
fn hash(point: Point) -> u64 {
    let wide = |coordinate: i32| u64::from(coordinate.cast_unsigned());
    let (x, y, z) = (wide(point.x()), wide(point.y()), wide(point.z()));
    (x | y << 32)
        .wrapping_mul(XY_MULTIPLIER)
        .wrapping_add(z.wrapping_mul(Z_MULTIPLIER))
        .wrapping_mul(LAST_MULTIPLIER)
}

/// The slot where a point with this hash is looked for first.
fn slot_of(hash: u64, shift: u32) -> usize {
    hash.unbounded_shr(shift) as usize
}

/// The tag of a point with this hash: its bits 31 to 40. No slot depends on them, since no table has more than 2²³ slots.
fn tag_of(hash: u64) -> u32 {
    ((hash >> 9) % HALF_WORD) as u32 & TAG_BITS
}

/// The id of a point, if one of the `CHAIN_LIMIT` slots from `from` on holds it and none before is free.
fn known_id(entries: &[u32], points: &[Point], point: Point, from: usize, tag: u32) -> Option<u32>
    ensures { IfSome result (λ id. (id < length points.now) × (slice_index_or points.now id origin ≡ point)) }
{
    for slot in from..entries.len() {
        let entry = entries[slot];
        if entry == NONE || slot - from >= CHAIN_LIMIT {
            return None;
        }
        let id = entry & ID_BITS;
        if entry & TAG_BITS == tag && leads_to(points, id, point) {
            return Some(id);
        }
    }
    None
}

/// Whether an id is that of a point.
fn leads_to(points: &[Point], id: u32, point: Point) -> bool
    ensures { IsTrue result ↔ ((id < length points.now) × (slice_index_or points.now id origin ≡ point)) }
{
    (id as usize) < points.len() && points[id as usize] == point
}

/// The id of a point: its number among the points so far. A new point is put after them. A right guess saves the search.
fn id_of<A: Allocator + Copy>(
    table: &mut CornerTable<A>,
    points: &mut Vec<Point, A>,
    point: Point,
    guess: u32,
) -> Result<u32, AllocError>
    requires { vec_len points.old < CORNER_LIMIT }
    ensures { IfOk result (λ id. IsNamed points.old.items point points.new.items id) }
{
    if leads_to(points.as_slice(), guess, point) {
        return Ok(guess);
    }
    let hash = hash(point);
    let (from, tag) = (slot_of(hash, table.shift), tag_of(hash));
    let entries = table.entries.as_mut_slice();
    if let Some(id) = known_id(entries, points.as_slice(), point, from, tag) {
        return Ok(id);
    }
    let new = points.len() as u32;
    if let Some(slot) = free_slot(entries, from) {
        entries[slot] = tag | new;
    }
    points.push(point)?;
    Ok(new)
}

/// The ids of a facet's corners. Some of the guesses may be right.
pub(crate) fn facet_ids<A: Allocator + Copy>(
    alloc: A,
    table: &mut CornerTable<A>,
    points: &mut Vec<Point, A>,
    facet: &Facet,
    guesses: [u32; 3],
) -> Result<[u32; 3], AllocError>
    requires { vec_len points.old + 3 ≤ CORNER_LIMIT }
    ensures { IfOk result (λ ids. IsNamedFacet points.old.items facet.now points.new.items ids) }
{
    table.make_room(alloc, points.as_slice())?;
    let first = id_of(table, points, facet.corner(0), guesses[0])?;
    let second = id_of(table, points, facet.corner(1), guesses[1])?;
    let third = id_of(table, points, facet.corner(2), guesses[2])?;
    Ok([first, second, third])
}
