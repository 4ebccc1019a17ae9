//! The loops of a plane as one flat list of segments, and the positions at which one loop ends and the next one begins. That
//! takes two allocations however many loops there are, one for a single loop, and none if there is no loop.
ghost use Rattle.std.specs.Prelude.{◌++◌, ◌∷◌, ◌≡◌, ◌≤◌, ◌+◌, [], IfOk, Some, length, option_map, slice_get, slice_index_or, take, ℕ};
ghost use Rattle.geometry.specs.Winding.{neg_ray_back, ray};
ghost use Rattle.plane_segments.specs.Segment.{segments};
ghost use Rattle.contour.specs.Loops.{AreEnds, AreInnerEnds, all_ends, loop_facets, loops, parts_from, start_of};

use exact_cut::{Centre, ray_hit};
use mesh_weld::Solid;
use plane_segments::Segment;
use std::alloc::{AllocError, Allocator};
use std::marker::Model;

/// Loops of a plane, each a list of segments. [`Linker::loops`](crate::Linker::loops) and [`loops`](crate::loops) say what the
/// loops of a mesh are.
#[derive(Drop)]
pub struct Loops<A: Allocator> {
    flat: Vec<Segment, A>,
    /// For each loop but the last one, the position after its last segment. The last loop ends with the list.
    inner_ends: Vec<usize, A>,
}

impl<A: Allocator> Model for Loops<A> {
    ghost use Rattle.std.specs.Prelude.{List, length};
    ghost use Rattle.plane_segments.specs.declared.segment.Segment.{Segment};
    ghost use Rattle.contour.specs.Loops.{AreInnerEnds, all_ends, parts_from};

    ghost Value = { List (List Segment) };

    ghost view = { λ l. parts_from 0 (all_ends l.inner_ends.items (length l.flat.items)) l.flat.items };

    ghost invariant = { λ l. AreInnerEnds l.inner_ends.items (length l.flat.items) };
}

impl<A: Allocator> Loops<A> {
    /// The loops in `flat`, one after another: the k-th ends before the position `inner_ends[k]`, where the next one begins.
    /// The last one ends with the list, and no position is kept for it. An empty list has no loops.
    pub(crate) fn of(flat: Vec<Segment, A>, inner_ends: Vec<usize, A>) -> Loops<A>
        requires { AreInnerEnds inner_ends.items (length flat.items) }
        ensures { result ≡ parts_from 0 (all_ends inner_ends.items (length flat.items)) flat.items }
    {
        Loops { flat, inner_ends }
    }

    /// The number of loops.
    pub fn count(&self) -> usize
        ensures { result ≡ length self.now }
    {
        if self.flat.is_empty() {
            0
        } else {
            self.inner_ends.len() + 1
        }
    }

    /// The loop with this number; `None` if there is no such loop.
    pub fn get(&self, number: usize) -> Option<&[Segment]>
        ensures { option_map (λ part. part.now) result ≡ slice_get self.now number }
    {
        let ends = self.inner_ends.as_slice();
        part(self.flat.as_slice(), ends, self.count(), number)
    }

    /// The segments of all loops, one loop after the other, and for each loop the position after its last segment. `Err` only
    /// if an allocation failed.
    pub(crate) fn into_parts(self) -> Result<(Vec<Segment, A>, Vec<usize, A>), AllocError>
        ensures parts { IfOk result (λ both. self ≡ parts_from 0 both.1.items both.0.items) }
        ensures ends { IfOk result (λ both. AreEnds 0 both.1.items (length both.0.items)) }
    {
        let Loops { flat, inner_ends } = self;
        let mut ends = inner_ends;
        if !flat.is_empty() {
            ends.push(flat.len())?;
        }
        Ok((flat, ends))
    }
}

/// The part with this number of a list in `count` parts, which end at these positions. `None` if there is no such part. The end
/// of the last part may be left out, since it ends with the list.
pub(crate) fn part<'p, T>(
    flat: &'p [T],
    ends: &[usize],
    count: usize,
    number: usize,
) -> Option<&'p [T]>
    requires count { count ≤ length ends.now + 1 }
    requires ends { AreEnds 0 (take count (ends.now ++ length flat.now ∷ [])) (length flat.now) }
    ensures { option_map (λ part. part.now) result
        ≡ slice_get (parts_from 0 (take count (ends.now ++ length flat.now ∷ [])) flat.now) number }
{
    if number >= count {
        return None;
    }
    let start = start_in(ends, number);
    let end = end_in(ends, number, flat.len());
    Some(&flat[start..end])
}

/// The position where the part with this number begins.
fn start_in(ends: &[usize], number: usize) -> usize
    requires { number ≤ length ends.now }
    ensures { result ≡ start_of 0 ends.now number }
{
    if number == 0 { 0 } else { ends[number - 1] }
}

/// The position where the part with this number ends: `last` if its end is left out.
fn end_in(ends: &[usize], number: usize, last: usize) -> usize
    ensures { result ≡ slice_index_or ends.now number last }
{
    ends.get(number).copied().unwrap_or(last)
}

/// The sum of the signed crossings of a loop's facets with the ray from a centre along x. The loop is `list`, of the mesh at
/// the height of the centre. The crossings with the whole line sum to 0. So the result is also minus the sum of those that do
/// not lie ahead of the centre.
pub fn loop_ray<A: Allocator>(s: &Solid<A>, list: &[Segment], c: &Centre) -> i32
    requires { (k : ℕ) × (slice_get (loops (segments s.now.facets c.now.z)) k ≡ Some list.now) }
    ensures ahead { result ≡ ray (loop_facets s.now.facets list.now) c.now }
    ensures back { result ≡ neg_ray_back (loop_facets s.now.facets list.now) c.now }
{
    // wakes the invariant: two edges have one number exactly if their ends are the same two points
    let _numbers = s.edge_numbers();
    let facets = s.count();
    prove!(list.len() <= facets + 1);
    let mut sum: i32 = 0;
    for segment in list {
        sum += ray_hit(&s.facet(segment.facet), c);
    }
    sum
}
