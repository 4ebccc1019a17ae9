//! Linking finds the loops of a plane's segments in time of their number, however large the mesh is, unless many of their edges
//! fall into one bucket of an `EdgeTable`. A slot is a position in the plane's list. The segments that start at an edge form a
//! linked list:
//! - `heads[e]` is the slot of the first segment that starts at the edge with the number `e`;
//! - `after[i]` is the slot of the next segment that starts at the same edge as that in slot `i`;
//! - [`NONE`] is the end of a list.
//!
//! Each segment takes the head of the list of the edge where it ends. That is its follower, and `next` keeps its slot. As many
//! segments end at an edge as start there. So all lists are empty again, and the next plane needs no new heads. Then the loops
//! are traced from follower to follower, with a flag for each slot that was visited.
//!
//! At first the edges of each plane get numbers of their own, from a table. Once a sixteenth as many segments were linked as the
//! mesh has edges, `heads` has a place for each edge, by the mesh's own numbers. That takes one pass over all edges, and saves
//! the table.
ghost use Rattle.std.specs.Prelude.{[], ◌+◌, ◌++◌, true, false, ◌≡◌, ◌<◌, ◌≤◌, ℕ, ℤ, All, List, IfOk, OnOk, length, slice_index_or};
ghost use Rattle.exact_int.specs.Bounds.{IsAtMost};
ghost use Rattle.mesh_weld.specs.Balance.{IsBalanced};
ghost use Rattle.plane_segments.specs.Segment.{HasOrderedNodes, segments};
ghost use Rattle.contour.specs.Loops.{AreLoops, loops};
ghost use Rattle.contour.specs.Linker.{AreLinks, AreRenumbered, AreSegmentEdges, ArePopped, AreTraced, HasFirsts, HasLeft, HasNexts, InFacetOrder, IsClear, IsTracedLoop, KeepsLoopsWhole, edge_at_node, is_visited};
ghost use Rattle.contour.specs.declared.linker.TheConstants.{NONE};
ghost use Rattle.geometry.specs.declared.limits.TheConstants.{CENTRE_LIMIT, FACET_LIMIT};

use crate::edge_table::EdgeTable;
use crate::loop_list::Loops;
use mesh_weld::Solid;
use plane_segments::{Node, Segment};
use std::alloc::{AllocError, Allocator};
use std::marker::Model;

/// The slot of no segment.
const NONE: u32 = u32::MAX;

/// `heads` gets a place for each edge of a mesh once one segment for this many edges was linked.
const EDGES_A_SEGMENT: usize = 16;

/// Links the segments of planes into loops. Between two planes the heads of all lists are empty. The other lists are filled anew
/// for each plane, and are kept only for their memory.
#[derive(Drop)]
pub struct Linker<A: Allocator> {
    alloc: A,
    links: Links<A>,
    visited: Vec<bool, A>,
    ends: Vec<usize, A>,
}

impl<A: Allocator> Model for Linker<A> {
    ghost use Rattle.contour.specs.Linker.{IsClear};

    ghost Value = { Unit {0} };

    ghost view = { λ l. tt };

    ghost invariant = { λ l. IsClear l.links.heads.items };
}

impl<A: Allocator + Copy + Send + Sync> Linker<A> {
    /// A linker that has linked nothing. It allocates no memory.
    pub fn new(alloc: A) -> Linker<A> {
        Linker {
            alloc,
            links: Links::new(alloc),
            visited: Vec::new(alloc),
            ends: Vec::new(alloc),
        }
    }

    /// The loops of the segments of one plane; `list` is the mesh's segments at some height. Each loop is a closed cycle: each
    /// segment ends at the node where the next one starts, and the last one ends where the first starts. Each segment is in
    /// exactly one loop. In each node `low` is below `high`. `Err` only if an allocation failed. The linker can link the next
    /// plane in either case.
    pub fn loops(&mut self, s: &Solid<A>, list: &[Segment]) -> Result<Loops<A>, AllocError>
        requires { (z : ℤ) × (list.now ≡ segments s.now.facets z) }
        ensures closed { IfOk result (AreLoops list.now) }
        ensures loops { IfOk result (λ found. found ≡ loops list.now) }
        ensures ordered { IfOk result (All (All HasOrderedNodes)) }
    {
        // wakes the invariant: the corners of each kept facet are distinct
        let _facets = s.count();
        self.links.fill(s, list)?;
        let next = self.links.next.as_slice();
        trace_loops(self.alloc, list, next, &mut self.visited, &mut self.ends)
    }
}

/// The number of segments. There is at most one for each kept facet, so that slots fit `u32`.
fn slot_count<A: Allocator>(s: &Solid<A>, list: &[Segment]) -> u32
    requires { (z : ℤ) × (list.now ≡ segments s.now.facets z) }
    ensures count { result ≡ length list.now }
    ensures limit { result ≤ FACET_LIMIT }
    ensures closed { IsBalanced s.now.facets }
{
    list.len().min(s.count()) as u32
}

/// The links of a plane's segments: for each, `next` has the slot of its follower, and `after` the slot of the next segment
/// that starts at the same edge. Between two planes all of `heads` is [`NONE`]. `linked` is the number of all segments so far.
#[derive(Drop)]
struct Links<A: Allocator> {
    edges: SegmentEdges<A>,
    table: EdgeTable<A>,
    heads: Vec<u32, A>,
    after: Vec<u32, A>,
    next: Vec<u32, A>,
    linked: usize,
}

impl<A: Allocator> Links<A> {
    /// No links. It allocates no memory.
    fn new(alloc: A) -> Links<A>
    where
        A: Copy,
        ensures { IsClear result.heads.items }
    {
        Links {
            edges: SegmentEdges {
                starts: Vec::new(alloc),
                finishes: Vec::new(alloc),
            },
            table: EdgeTable::new(alloc),
            heads: Vec::new(alloc),
            after: Vec::new(alloc),
            next: Vec::new(alloc),
            linked: 0,
        }
    }

    /// Links the segments of a plane: at each node, the n-th that ends there is followed by the n-th that starts there.
    fn fill(&mut self, s: &Solid<A>, list: &[Segment]) -> Result<(), AllocError>
        requires list { (z : ℤ) × (list.now ≡ segments s.now.facets z) }
        requires clear { IsClear self.old.heads.items }
        ensures links { OnOk result (AreLinks list.now self.new.next.items) }
        ensures clear { IsClear self.new.heads.items }
    {
        let count = slot_count(s, list) as usize;
        self.linked = self.linked.saturating_add(count);
        self.edges.fill(s, list)?;
        let edge_count = self
            .edges
            .number(&mut self.table, self.linked, s.edge_count())?;
        self.after.resize(count, NONE)?;
        self.next.resize(count, NONE)?;
        self.heads.resize(edge_count.max(self.heads.len()), NONE)?;
        let heads = self.heads.as_mut_slice();
        let after = self.after.as_mut_slice();
        push_starts(heads, &self.edges, after);
        pop_starts(heads, &self.edges, after, self.next.as_mut_slice());
        Ok(())
    }
}

/// The numbers of the edges at which each segment starts and ends.
#[derive(Drop)]
struct SegmentEdges<A: Allocator> {
    starts: Vec<u32, A>,
    finishes: Vec<u32, A>,
}

impl<A: Allocator> SegmentEdges<A> {
    /// Replaces the numbers by those of these segments.
    fn fill(&mut self, s: &Solid<A>, list: &[Segment]) -> Result<(), AllocError>
        requires { All (λ t. t.facet < length s.now.facets) list.now }
        ensures { OnOk result (AreSegmentEdges s.now.facets list.now self.new.starts.items self.new.finishes.items) }
    {
        let corners = s.triples();
        let numbers = s.edge_numbers();
        self.starts.clear();
        self.finishes.clear();
        for t in list {
            let facet = t.facet as usize;
            let start = edge_at(&corners[facet], &numbers[facet], t.from);
            let finish = edge_at(&corners[facet], &numbers[facet], t.to);
            self.starts.push(start)?;
            self.finishes.push(finish)?;
        }
        Ok(())
    }

    /// Returns a number that all numbers of the edges are below. Until many segments were linked, they become those of the table,
    /// which is filled anew. Then they stay those of the mesh, which has `edge_count` edges.
    fn number(
        &mut self,
        table: &mut EdgeTable<A>,
        linked: usize,
        edge_count: u32,
    ) -> Result<usize, AllocError>
        requires starts { length self.old.starts.items ≤ FACET_LIMIT }
        requires finishes { length self.old.finishes.items ≤ FACET_LIMIT }
        requires starts_below { All (λ e. e < edge_count) self.old.starts.items }
        requires finishes_below { All (λ e. e < edge_count) self.old.finishes.items }
        ensures { IfOk result (λ count. (edges : List ℕ) × (length edges ≡ count)
            × AreRenumbered self.old.starts.items self.old.finishes.items edges self.new.starts.items self.new.finishes.items) }
    {
        let edge_count = edge_count as usize;
        if linked < edge_count / EDGES_A_SEGMENT {
            self.renumber(table)?;
            Ok(table.edges.len())
        } else {
            Ok(edge_count)
        }
    }

    /// Replaces the numbers, which are those of the mesh, by the numbers of the edges in a table. The table is filled anew.
    fn renumber(&mut self, table: &mut EdgeTable<A>) -> Result<(), AllocError>
        requires starts { length self.old.starts.items ≤ FACET_LIMIT }
        requires finishes { length self.old.finishes.items ≤ FACET_LIMIT }
        ensures { OnOk result (AreRenumbered self.old.starts.items self.old.finishes.items table.new.edges.items
            self.new.starts.items self.new.finishes.items) }
    {
        table.clear(2 * self.starts.len() + 1)?;
        table.number_all(self.starts.as_mut_slice())?;
        table.number_all(self.finishes.as_mut_slice())?;
        Ok(())
    }
}

/// The number of a facet's edge that is this node. The facet's corners are distinct, so no two of its edges have the same sum
/// of their ends.
fn edge_at(corners: &[u32; 3], numbers: &[u32; 3], node: Node) -> u32
    ensures { result ≡ edge_at_node corners.now numbers.now node }
{
    let [first, second, third] = *numbers;
    let sum = sum_of(node.low, node.high);
    // Both sums come before the first test, so that the compiler needs no branch. Which edge it is follows no pattern.
    let first_sum = sum_of(corners[0], corners[1]);
    let second_sum = sum_of(corners[1], corners[2]);
    if sum == first_sum {
        first
    } else if sum == second_sum {
        second
    } else {
        third
    }
}

/// The sum of two numbers of vertices.
fn sum_of(a: u32, b: u32) -> u64
    ensures { result ≡ a + b }
{
    u64::from(a) + u64::from(b)
}

/// Pushes each slot at the front of the linked list of the edge where its segment starts. It goes from the last slot to the
/// first, so each list is in ascending order.
fn push_starts<A: Allocator>(heads: &mut [u32], edges: &SegmentEdges<A>, after: &mut [u32])
    requires edges { All (λ e. e < length heads.old) edges.now.starts.items }
    requires room { length after.old ≡ length edges.now.starts.items }
    requires limit { length edges.now.starts.items ≤ FACET_LIMIT }
    requires clear { IsClear heads.old }
    ensures firsts { HasFirsts heads.new 0 edges.now.starts.items }
    ensures nexts { HasNexts after.new 0 edges.now.starts.items }
{
    for i in (0..edges.starts.len()).rev() {
        let edge = edges.starts[i] as usize;
        after[i] = heads[edge];
        heads[edge] = i as u32;
    }
}

/// For each slot, from the first on, pops the front of the linked list of the edge where its segment ends. That is its
/// follower.
fn pop_starts<A: Allocator>(
    heads: &mut [u32],
    edges: &SegmentEdges<A>,
    after: &[u32],
    next: &mut [u32],
)
    requires edges { All (λ e. e < length heads.old) edges.now.finishes.items }
    requires room { length next.old ≡ length edges.now.finishes.items }
    requires size { length after.now ≡ length edges.now.starts.items }
    requires limit { length after.now ≤ FACET_LIMIT }
    requires firsts { HasFirsts heads.old 0 edges.now.starts.items }
    requires nexts { HasNexts after.now 0 edges.now.starts.items }
    ensures left { HasLeft heads.new edges.now.starts.items edges.now.finishes.items (length edges.now.finishes.items) }
    ensures popped { ArePopped next.new edges.now.starts.items edges.now.finishes.items (length edges.now.finishes.items) }
{
    for (i, edge) in edges.finishes.iter().enumerate() {
        let first = heads[*edge as usize];
        next[i] = first;
        heads[*edge as usize] = slot_at(after, first);
    }
}

/// The slot that a list has at a slot, or [`NONE`] if the list is shorter.
fn slot_at(list: &[u32], slot: u32) -> u32
    ensures { result ≡ slice_index_or list.now slot NONE }
{
    list.get(slot as usize).copied().unwrap_or(NONE)
}

/// Traces the loops, each from its first segment, in the order of their first segments. For each slot `next` has the slot of
/// its follower. `visited` and `ends` are overwritten: the caller keeps them for their memory. The result has exactly the room
/// for its segments and ends.
fn trace_loops<A: Allocator + Copy + Send + Sync>(
    alloc: A,
    list: &[Segment],
    next: &[u32],
    visited: &mut Vec<bool, A>,
    ends: &mut Vec<usize, A>,
) -> Result<Loops<A>, AllocError>
    requires links { AreLinks list.now next.now }
    requires order { InFacetOrder list.now }
    ensures { IfOk result (AreLoops list.now) }
{
    let mut flat = Vec::with_capacity(alloc, list.len())?;
    trace_all(list, next, visited, ends, &mut flat)?;
    // the last loop ends with the list
    ends.pop();
    let inner_ends = ends.as_slice().to_vec(alloc)?;
    Ok(Loops::of(flat, inner_ends))
}

/// Appends all loops to the empty `flat`, one after another, and puts the end of each into `ends`.
fn trace_all<A: Allocator>(
    list: &[Segment],
    next: &[u32],
    visited: &mut Vec<bool, A>,
    ends: &mut Vec<usize, A>,
    flat: &mut Vec<Segment, A>,
) -> Result<(), AllocError>
    requires links { AreLinks list.now next.now }
    requires order { InFacetOrder list.now }
    requires empty { flat.old.items ≡ [] }
    ensures { OnOk result (AreTraced list.now next.now (length list.now) visited.new.items flat.new.items ends.new.items) }
{
    visited.clear();
    visited.resize(list.len(), false)?;
    ends.clear();
    for first in 0..list.len() {
        if !visited[first] {
            trace_loop(list, next, first, visited.as_mut_slice(), flat)?;
            ends.push(flat.len())?;
        }
    }
    Ok(())
}

/// Appends the loop of the segment at the slot `first` to `flat`, and marks its slots as visited.
fn trace_loop<A: Allocator>(
    list: &[Segment],
    next: &[u32],
    first: usize,
    visited: &mut [bool],
    flat: &mut Vec<Segment, A>,
) -> Result<(), AllocError>
    requires links { AreLinks list.now next.now }
    requires order { InFacetOrder list.now }
    requires size { length visited.old ≡ length list.now }
    requires first { first < length list.now }
    requires begins { is_visited visited.old first ≡ false }
    requires whole { KeepsLoopsWhole list.now next.now visited.old }
    requires earlier { (j : ℕ) → j < first → is_visited visited.old j ≡ true }
    ensures { OnOk result ((part : List Segment) × (flat.new.items ≡ flat.old.items ++ part)
        × IsTracedLoop list.now next.now first visited.old visited.new part) }
{
    let mut at = first;
    while !visited[at] {
        flat.push(list[at])?;
        visited[at] = true;
        at = next[at] as usize;
    }
    Ok(())
}

/// The loops of a mesh at the height `z2` in half-micrometres, at most `geometry::CENTRE_LIMIT` from 0; `list` is its segments
/// there. Each loop is a closed cycle: each segment ends at the node where the next one starts, and the last one ends where the
/// first starts. Each segment is in exactly one loop. In each node `low` is below `high`.
///
/// `Err` only if an allocation failed; the list is used up in either case. For many planes use a [`Linker`], which keeps its
/// memory from one to the next.
pub fn loops<A: Allocator + Copy + Send + Sync>(
    alloc: A,
    s: &Solid<A>,
    z2: i64,
    list: Vec<Segment, A>,
) -> Result<Loops<A>, AllocError>
    requires height { IsAtMost CENTRE_LIMIT z2 }
    requires list { list.items ≡ segments s.now.facets z2 }
    ensures closed { IfOk result (AreLoops list.items) }
    ensures loops { IfOk result (λ found. found ≡ loops list.items) }
    ensures ordered { IfOk result (All (All HasOrderedNodes)) }
{
    Linker::new(alloc).loops(s, list.as_slice())
}
