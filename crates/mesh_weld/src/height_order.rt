//! Facets in the order in which a sweep from below meets them, the height range of each, and the top of each block of the
//! order. The sweep asks for the ranges again and again. By the tops it passes blocks in which all facets have ended.
ghost use Rattle.std.specs.Prelude.{◌≡◌, ◌<◌, ◌≤◌, ◌%◌, ◌/◌, ◌+ℤ◌, ◌++◌, ◌∷◌, [], pos, IfOk, OnOk, drop, length, map, take};
ghost use Rattle.std.specs.List.{All, range_with_len};
ghost use Rattle.std.specs.List.Sorted.{IsPermutation, IsNonDecreasing};
ghost use Rattle.mesh_weld.specs.HeightOrder.{AreKeysBy, AreOrdered, IsOrderOf, high_in, low_in, range_in};
ghost use Rattle.geometry.specs.Facet.{greatest_z, least_z};
ghost use Rattle.mesh_weld.specs.Solid.{AreBlockTops, IsTop, height_range, height_ranges, kept_facets};
ghost use Rattle.mesh_weld.specs.declared.height_order.TheConstants.{BLOCK_LEN, HEIGHT_OFFSET};
ghost use Rattle.mesh_weld.specs.declared.packing.TheConstants.{HALF_WORD};
ghost use Rattle.geometry.specs.declared.limits.TheConstants.{FACET_LIMIT};

use crate::by_hash::counted_order;
use crate::facets::has_distinct_corners;
use crate::packing::{HALF_WORD, packed};
use geometry::Facet;
use std::alloc::{AllocError, Allocator};

/// The heights of a facet's lowest and highest corner, in micrometres.
#[derive(Clone, Copy, Debug, PartialEq, Eq)]
pub struct HeightRange {
    pub low: i32,
    pub high: i32,
}

/// The numbers of facets by ascending least height, and by number if least heights are equal; the facets' height ranges, by
/// number; and the tops of the order's blocks, in micrometres.
#[derive(Drop)]
pub(crate) struct HeightOrder<A: Allocator> {
    pub(crate) order: Vec<u32, A>,
    pub(crate) ranges: Vec<HeightRange, A>,
    pub(crate) tops: Vec<i32, A>,
}

/// The order by height of the facets with these height ranges.
pub(crate) fn order_by_height<A: Allocator + Copy>(
    alloc: A,
    ranges: Vec<HeightRange, A>,
) -> Result<HeightOrder<A>, AllocError>
    requires { length ranges.items ≤ FACET_LIMIT }
    ensures { IfOk result (IsOrderOf ranges.items) }
{
    if let Some(counted) = counted_order(alloc, ranges.as_slice())? {
        return Ok(with_ranges(ranges, counted));
    }
    let sorted = sorted_order(alloc, ranges.as_slice())?;
    Ok(with_ranges(ranges, sorted))
}

/// The height ranges of facets, with the order of these and the tops of its blocks.
fn with_ranges<A: Allocator>(
    ranges: Vec<HeightRange, A>,
    ordered: (Vec<u32, A>, Vec<i32, A>),
) -> HeightOrder<A>
    requires { AreOrdered ranges.items ordered.0.items ordered.1.items }
    ensures { IsOrderOf ranges.items result }
{
    let (order, tops) = ordered;
    HeightOrder {
        order,
        ranges,
        tops,
    }
}

/// Appends the height ranges of facets, but for the degenerate ones, to those of facets before them.
pub(crate) fn add_ranges<A: Allocator>(
    ranges: &mut Vec<HeightRange, A>,
    facets: &[Facet],
) -> Result<(), AllocError>
    ensures { OnOk result (ranges.new.items ≡ ranges.old.items ++ height_ranges (kept_facets facets.now)) }
{
    for at in 0..facets.len() {
        add_range(ranges, &facets[at])?;
    }
    Ok(())
}

/// [`add_ranges`] for a facet.
fn add_range<A: Allocator>(
    ranges: &mut Vec<HeightRange, A>,
    facet: &Facet,
) -> Result<(), AllocError>
    ensures { OnOk result (ranges.new.items ≡ ranges.old.items ++ height_ranges (kept_facets (facet.now ∷ []))) }
{
    if has_distinct_corners(facet) {
        ranges.push(height_range(facet))?;
    }
    Ok(())
}

/// The height ranges of facets.
pub(crate) fn list_ranges<A: Allocator>(
    alloc: A,
    facets: &[Facet],
) -> Result<Vec<HeightRange, A>, AllocError>
    ensures { IfOk result (λ ranges. ranges.items ≡ height_ranges facets.now) }
{
    let mut ranges = Vec::with_capacity(alloc, facets.len())?;
    for facet in facets {
        ranges.push(height_range(facet))?;
    }
    Ok(ranges)
}

/// A facet's least height, made no less than 0, in the upper half of a word, and its number in the lower half.
type HeightKey = u64;

/// Added to a height so that it is no less than 0.
const HEIGHT_OFFSET: i64 = 1 << 31;

/// The keys of the facets with these height ranges.
fn list_keys<A: Allocator>(
    alloc: A,
    ranges: &[HeightRange],
) -> Result<Vec<HeightKey, A>, AllocError>
    requires { length ranges.now ≤ FACET_LIMIT }
    ensures numbers { IfOk result (λ keys. map (λ key. key % HALF_WORD) keys.items ≡ range_with_len 0 (length ranges.now)) }
    ensures heights { IfOk result (λ keys. AreKeysBy (low_in ranges.now) keys.items) }
{
    let mut keys = Vec::with_capacity(alloc, ranges.len())?;
    for at in 0..ranges.len() {
        let number = at as u32;
        keys.push(height_key(range_at(ranges, number).low, number))?;
    }
    Ok(keys)
}

/// A key that ascends with a facet's least height, and then with its number.
fn height_key(low: i32, number: u32) -> HeightKey
    ensures number { result % HALF_WORD ≡ number }
    ensures height { pos (result / HALF_WORD) ≡ low +ℤ HEIGHT_OFFSET }
{
    let above = (i64::from(low) + HEIGHT_OFFSET) as u32;
    packed(above, number)
}

/// The least height of a facet's corners, in micrometres.
pub fn lowest(facet: &Facet) -> i32
    ensures { result ≡ least_z facet.now }
{
    let (first, second, third) = (facet.corner(0), facet.corner(1), facet.corner(2));
    first.z().min(second.z()).min(third.z())
}

/// The greatest height of a facet's corners, in micrometres.
pub fn highest(facet: &Facet) -> i32
    ensures { result ≡ greatest_z facet.now }
{
    let (first, second, third) = (facet.corner(0), facet.corner(1), facet.corner(2));
    first.z().max(second.z()).max(third.z())
}

/// The heights of a facet's lowest and highest corner, in micrometres.
fn height_range(facet: &Facet) -> HeightRange
    ensures { result ≡ height_range facet.now }
{
    HeightRange {
        low: lowest(facet),
        high: highest(facet),
    }
}

/// The number of facets in a block of the order by height. The last block may have fewer.
pub const BLOCK_LEN: usize = 64;

/// The first block of an order, and what comes after it.
pub fn split_block(order: &[u32]) -> (&[u32], &[u32])
    ensures block { result.0.now ≡ take BLOCK_LEN order.now }
    ensures behind { result.1.now ≡ drop BLOCK_LEN order.now }
{
    order.split_at(BLOCK_LEN.min(order.len()))
}

/// The tops of the blocks of an order, in micrometres, by the height ranges of all facets.
fn block_tops<A: Allocator + Copy>(
    alloc: A,
    ranges: &[HeightRange],
    order: &[u32],
) -> Result<Vec<i32, A>, AllocError>
    requires { All (λ n. n < length ranges.now) order.now }
    ensures { IfOk result (λ tops. AreBlockTops (high_in ranges.now) order.now tops.items) }
{
    let mut tops = Vec::with_capacity(alloc, order.len() / BLOCK_LEN + 1)?;
    let mut rest = order;
    while rest.len() > 0 {
        let (block, behind) = split_block(rest);
        tops.push(block_top(ranges, block))?;
        rest = behind;
    }
    Ok(tops)
}

/// The greatest height of a corner of the facets with these numbers, in micrometres. There is one of them at least.
pub(crate) fn block_top(ranges: &[HeightRange], block: &[u32]) -> i32
    requires some { 0 < length block.now }
    requires numbers { All (λ n. n < length ranges.now) block.now }
    ensures { IsTop (high_in ranges.now) block.now result }
{
    let first = range_at(ranges, block[0]);
    let mut top = first.high;
    for number in block {
        let range = range_at(ranges, *number);
        top = top.max(range.high);
    }
    top
}

/// The height range of the facet with this number.
pub(crate) fn range_at(ranges: &[HeightRange], number: u32) -> HeightRange
    requires { number < length ranges.now }
    ensures { result ≡ range_in ranges.now number }
{
    ranges[number as usize]
}

/// The order of the facets with these height ranges, by comparisons, and the tops of its blocks.
fn sorted_order<A: Allocator + Copy>(
    alloc: A,
    ranges: &[HeightRange],
) -> Result<(Vec<u32, A>, Vec<i32, A>), AllocError>
    requires { length ranges.now ≤ FACET_LIMIT }
    ensures { IfOk result (λ own. AreOrdered ranges.now own.0.items own.1.items) }
{
    let mut keys = list_keys(alloc, ranges)?;
    sort_heights(&mut keys);
    let order = numbers_of(alloc, keys.as_slice())?;
    let tops = block_tops(alloc, ranges, order.as_slice())?;
    Ok((order, tops))
}

/// Sorts keys in place, the least first.
fn sort_heights<A: Allocator>(keys: &mut Vec<HeightKey, A>)
    ensures permuted { IsPermutation keys.old.items keys.new.items }
    ensures ascending { IsNonDecreasing keys.new.items }
{
    keys.sort_unstable();
}

/// The numbers of the facets that have the keys.
fn numbers_of<A: Allocator + Copy>(alloc: A, keys: &[HeightKey]) -> Result<Vec<u32, A>, AllocError>
    ensures { IfOk result (λ numbers. numbers.items ≡ map (λ key. key % HALF_WORD) keys.now) }
{
    let mut numbers = Vec::with_capacity(alloc, keys.len())?;
    for key in keys {
        numbers.push((*key % HALF_WORD) as u32)?;
    }
    Ok(numbers)
}
