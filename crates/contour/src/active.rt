//! The active list of a sweep: the facets that its plane cuts, in ascending order of their numbers, each with the height of its
//! top. A facet starts at its lowest corner and ends at its top, its highest corner. At each step the facets that have started
//! and not ended are merged into those that stay.
ghost use Rattle.std.specs.Prelude.{◌≡◌, ◌<◌, ◌≤◌, ◌++◌, ◌∷◌, ◌*ℤ◌, ◌≤ℤ◌, [], All, IfOk, List, OnOk, drop, filter, if◌then◌else◌, length, map, nat_lt, pos, take, ℕ};
ghost use Rattle.std.specs.List.{prefix_len};
ghost use Rattle.geometry.specs.TieRule as TieRule;
ghost use Rattle.mesh_weld.specs.Solid.{AreBlockTops, top_of};
ghost use Rattle.contour.specs.Active.{ends_above, merge, starts_by};

use geometry::is_below;
use mesh_weld::{Solid, split_block};
use std::alloc::{AllocError, Allocator};

/// The numbers of the facets that a plane cuts, each with the height of its top in micrometres.
#[derive(Drop)]
pub(crate) struct ActiveFacets<A: Allocator> {
    pub(crate) numbers: Vec<u32, A>,
    pub(crate) tops: Vec<i32, A>,
}

impl<A: Allocator + Copy + Send + Sync> ActiveFacets<A> {
    /// No facets.
    pub(crate) fn none(alloc: A) -> ActiveFacets<A>
        ensures numbers { result.numbers.items ≡ [] }
        ensures tops { result.tops.items ≡ [] }
    {
        ActiveFacets {
            numbers: Vec::new(alloc),
            tops: Vec::new(alloc),
        }
    }

    /// The facets with these numbers.
    pub(crate) fn of(alloc: A, s: &Solid<A>, numbers: &[u32]) -> Result<ActiveFacets<A>, AllocError>
        requires { All (λ n. n < length s.now.facets) numbers.now }
        ensures numbers { IfOk result (λ active. active.numbers.items ≡ numbers.now) }
        ensures tops { IfOk result (λ active. active.tops.items ≡ map (top_of s.now.facets) numbers.now) }
    {
        let mut active = ActiveFacets::none(alloc);
        active.push_all(s, numbers)?;
        Ok(active)
    }

    /// Removes all facets.
    fn clear(&mut self)
        ensures numbers { self.new.numbers.items ≡ [] }
        ensures tops { self.new.tops.items ≡ [] }
    {
        self.numbers.clear();
        self.tops.clear();
    }

    /// Appends a facet with its top, in micrometres.
    fn push(&mut self, number: u32, top: i32) -> Result<(), AllocError>
        ensures numbers { OnOk result (self.new.numbers.items ≡ self.old.numbers.items ++ number ∷ []) }
        ensures tops { OnOk result (self.new.tops.items ≡ self.old.tops.items ++ top ∷ []) }
    {
        self.numbers.push(number)?;
        self.tops.push(top)?;
        Ok(())
    }

    /// Appends the facets with these numbers.
    fn push_all(&mut self, s: &Solid<A>, numbers: &[u32]) -> Result<(), AllocError>
        requires { All (λ n. n < length s.now.facets) numbers.now }
        ensures numbers { OnOk result (self.new.numbers.items ≡ self.old.numbers.items ++ numbers.now) }
        ensures tops { OnOk result (self.new.tops.items ≡ self.old.tops.items ++ map (top_of s.now.facets) numbers.now) }
    {
        for n in numbers {
            self.push(*n, s.height_range(*n).high)?;
        }
        Ok(())
    }

    /// One step of the merge: pushes the numbers of `rest` that are below `number`, and then `number`; returns what is
    /// left of `rest`.
    fn push_in_order<'r>(
        &mut self,
        s: &Solid<A>,
        rest: &'r [u32],
        number: u32,
        top: i32,
    ) -> Result<&'r [u32], AllocError>
        requires rest { All (λ n. n < length s.now.facets) rest.now }
        requires top { top ≡ top_of s.now.facets number }
        ensures numbers { OnOk result (self.new.numbers.items ≡ self.old.numbers.items
            ++ (take (prefix_len (λ m. nat_lt m number) rest.now) rest.now ++ number ∷ [])) }
        ensures tops { OnOk result (self.old.tops.items ≡ map (top_of s.now.facets) self.old.numbers.items
            → self.new.tops.items ≡ map (top_of s.now.facets) self.new.numbers.items) }
        ensures left { IfOk result (λ left. left.now ≡ drop (prefix_len (λ m. nat_lt m number) rest.now) rest.now) }
    {
        let (first, left) = rest.split_at(count_before(rest, number));
        self.push_all(s, first)?;
        self.push(number, top)?;
        Ok(left)
    }

    /// One step of the merge if the facet's top is above the height `z2`. If it is not, the facet has ended and nothing is
    /// pushed.
    fn push_if_above<'r>(
        &mut self,
        s: &Solid<A>,
        rest: &'r [u32],
        number: u32,
        top: i32,
        z2: i64,
    ) -> Result<&'r [u32], AllocError>
        requires rest { All (λ n. n < length s.now.facets) rest.now }
        requires top { top ≡ top_of s.now.facets number }
        ensures numbers { IfOk result (λ left. (later : List ℕ) → self.new.numbers.items ++ merge later left.now
            ≡ self.old.numbers.items ++ merge (if ends_above s.now.facets z2 number then number ∷ later else later) rest.now) }
        ensures tops { OnOk result (self.old.tops.items ≡ map (top_of s.now.facets) self.old.numbers.items
            → self.new.tops.items ≡ map (top_of s.now.facets) self.new.numbers.items) }
        ensures left { IfOk result (λ left. All (λ n. n < length s.now.facets) left.now) }
    {
        if !is_above(top, z2) {
            return Ok(rest);
        }
        let left = self.push_in_order(s, rest, number, top)?;
        Ok(left)
    }

    /// Replaces this list by the facets of `before` whose tops are above the height `z2` in half-micrometres, merged with
    /// `fresh`, the numbers of the facets that became active. The result is in ascending order if both lists are.
    pub(crate) fn advance(
        &mut self,
        s: &Solid<A>,
        before: &ActiveFacets<A>,
        fresh: &[u32],
        z2: i64,
    ) -> Result<(), AllocError>
        requires fresh { All (λ n. n < length s.now.facets) fresh.now }
        requires tops { before.now.tops.items ≡ map (top_of s.now.facets) before.now.numbers.items }
        ensures numbers { OnOk result (self.new.numbers.items
            ≡ merge (filter (ends_above s.now.facets z2) before.now.numbers.items) fresh.now) }
        ensures tops { OnOk result (self.new.tops.items ≡ map (top_of s.now.facets) self.new.numbers.items) }
    {
        self.clear();
        let mut rest = fresh;
        for (i, n) in before.numbers.iter().enumerate() {
            rest = self.push_if_above(s, rest, *n, before.tops[i], z2)?;
        }
        self.push_all(s, rest)?;
        Ok(())
    }
}

/// The facets that a plane reaches on its way up to a height, in the order of their least heights. The number of those that
/// start by the height is `count`. Those of them that also end above it are `active`. A facet starts by a height if its lowest
/// corner counts as below it (the tie rule).
#[derive(Drop)]
pub(crate) struct Arrivals<A: Allocator> {
    pub(crate) count: usize,
    pub(crate) active: Vec<u32, A>,
}

impl<A: Allocator + Copy + Send + Sync> Arrivals<A> {
    /// Finds what the plane reaches up to the height `z2`, in half-micrometres, by the tops of the blocks of the order: it looks
    /// at no facet of a block whose top is not above `z2`.
    pub(crate) fn find(
        alloc: A,
        s: &Solid<A>,
        order: &[u32],
        tops: &[i32],
        z2: i64,
    ) -> Result<Arrivals<A>, AllocError>
        requires numbers { All (λ n. n < length s.now.facets) order.now }
        requires tops { AreBlockTops (top_of s.now.facets) order.now tops.now }
        ensures count { IfOk result (λ a. a.count ≡ prefix_len (starts_by s.now.facets z2) order.now) }
        ensures active { IfOk result (λ a. a.active.items ≡ filter (ends_above s.now.facets z2) (take a.count order.now)) }
    {
        let mut active = Vec::new(alloc);
        let mut count = 0;
        let mut rest = order;
        for top in tops {
            let (block, behind) = split_block(rest);
            let started = pass_block(&mut active, s, block, *top, z2)?;
            count += started;
            if started < block.len() {
                return Ok(Arrivals { count, active });
            }
            rest = behind;
        }
        Ok(Arrivals { count, active })
    }

    /// Looks at facets up to the first that starts above `z2`, in half-micrometres.
    pub(crate) fn scan(
        alloc: A,
        s: &Solid<A>,
        order: &[u32],
        z2: i64,
    ) -> Result<Arrivals<A>, AllocError>
        requires { All (λ n. n < length s.now.facets) order.now }
        ensures count { IfOk result (λ a. a.count ≡ prefix_len (starts_by s.now.facets z2) order.now) }
        ensures active { IfOk result (λ a. a.active.items ≡ filter (ends_above s.now.facets z2) (take a.count order.now)) }
    {
        let mut active = Vec::new(alloc);
        let count = pass_each(&mut active, s, order, z2)?;
        Ok(Arrivals { count, active })
    }
}

/// Passes a block of the order as [`pass_each`] does, where no facet of the block reaches above `top`, in micrometres. If `top`
/// is not above `z2`, all of them have started and ended.
fn pass_block<A: Allocator + Copy + Send + Sync>(
    active: &mut Vec<u32, A>,
    s: &Solid<A>,
    block: &[u32],
    top: i32,
    z2: i64,
) -> Result<usize, AllocError>
    requires numbers { All (λ n. n < length s.now.facets) block.now }
    requires top { All (λ n. top_of s.now.facets n ≤ℤ top) block.now }
    ensures count { IfOk result (λ count. count ≡ prefix_len (starts_by s.now.facets z2) block.now) }
    ensures active { IfOk result (λ count. active.new.items
        ≡ active.old.items ++ filter (ends_above s.now.facets z2) (take count block.now)) }
{
    if !is_above(top, z2) {
        return Ok(block.len());
    }
    let count = pass_each(active, s, block, z2)?;
    Ok(count)
}

/// Passes facets up to the first that starts above `z2`, in half-micrometres, and returns how many these are. Those that end
/// above `z2` are appended to `active`.
fn pass_each<A: Allocator + Copy + Send + Sync>(
    active: &mut Vec<u32, A>,
    s: &Solid<A>,
    order: &[u32],
    z2: i64,
) -> Result<usize, AllocError>
    requires { All (λ n. n < length s.now.facets) order.now }
    ensures count { IfOk result (λ count. count ≡ prefix_len (starts_by s.now.facets z2) order.now) }
    ensures active { IfOk result (λ count. active.new.items
        ≡ active.old.items ++ filter (ends_above s.now.facets z2) (take count order.now)) }
{
    for (i, n) in order.iter().enumerate() {
        let range = s.height_range(*n);
        if !starts_by(range.low, z2) {
            return Ok(i);
        }
        if is_above(range.high, z2) {
            active.push(*n)?;
        }
    }
    Ok(order.len())
}

/// The number of a list's first elements that are below `number`.
fn count_before(list: &[u32], number: u32) -> usize
    ensures value { result ≡ prefix_len (λ m. nat_lt m number) list.now }
    ensures within { result ≤ length list.now }
{
    list.iter().take_while(|m| **m < number).count()
}

/// Whether a facet starts by the height `z2`, in half-micrometres, if its lowest corner is at `start`, in micrometres. It does
/// if that corner counts as below the height, by the tie rule.
fn starts_by(start: i32, z2: i64) -> bool
    ensures { result ≡ TieRule.is_below (pos 2 *ℤ start) z2 }
{
    is_below(2 * i64::from(start), z2)
}

/// Whether a top in micrometres is above the height `z2` in half-micrometres, by the tie rule.
fn is_above(top: i32, z2: i64) -> bool
    ensures { result ≡ TieRule.is_above (pos 2 *ℤ top) z2 }
{
    !is_below(2 * i64::from(top), z2)
}
