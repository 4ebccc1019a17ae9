//! A table of the edges of one plane. It numbers them from 0 on, in the order in which they come. So what is kept for each edge
//! takes memory by the plane's segments, however large the mesh is. The table finds an edge by a hash of its number in the mesh:
//! - `edges[k]` is the edge with the number `k`, by its number in the mesh;
//! - `ends[b]` is 1 more than the last number whose edge is in the bucket `b`, or 0 if there is none;
//! - `before[k]` is the same of the numbers below `k`, for the bucket of `edges[k]`.
//!
//! So a search goes through the edges of one bucket, from the last to the first. The hash spreads the edges of a mesh evenly: no
//! bucket has many more of them than another. So a search is short, unless many edges of an unlucky plane are in one bucket.
ghost use Rattle.std.specs.Prelude.{◌≡◌, ◌≢◌, ◌+◌, ◌*◌, ◌<◌, ◌≤◌, ◌++◌, ◌∷◌, [], ℕ, IfNone, IfOk, IfSome, OnOk, length, slice_index};
ghost use Rattle.contour.specs.EdgeTable.{AreNumbered, IsNumbered, IsTable, bucket};
ghost use Rattle.geometry.specs.declared.limits.TheConstants.{FACET_LIMIT};

use std::alloc::{AllocError, Allocator};

/// Multiplies an edge in its hash: 2³² divided by the golden ratio.
const MULTIPLIER: u64 = 0x9e37_79b9;

/// Hashes are below this.
const HASHES: u64 = 0x1_0000_0000;

/// The edges that came, each with its number.
#[derive(Drop)]
pub(crate) struct EdgeTable<A: Allocator> {
    pub(crate) edges: Vec<u32, A>,
    before: Vec<u32, A>,
    ends: Vec<u32, A>,
}

impl<A: Allocator> EdgeTable<A> {
    /// A table with no edge. It allocates no memory.
    pub(crate) fn new(alloc: A) -> EdgeTable<A>
    where
        A: Copy,
    {
        EdgeTable {
            edges: Vec::new(alloc),
            before: Vec::new(alloc),
            ends: Vec::new(alloc),
        }
    }

    /// Removes all edges, and makes `buckets` buckets.
    pub(crate) fn clear(&mut self, buckets: usize) -> Result<(), AllocError>
        requires some { 0 < buckets }
        requires few { buckets ≤ 4 * FACET_LIMIT }
        ensures table { OnOk result (IsTable self.new.ends.items self.new.edges.items self.new.before.items) }
        ensures empty { OnOk result (self.new.edges.items ≡ []) }
    {
        self.edges.clear();
        self.before.clear();
        self.ends.clear();
        self.ends.resize(buckets, 0)?;
        Ok(())
    }

    /// Replaces edges by their numbers. Edges that the table does not have are added.
    pub(crate) fn number_all(&mut self, list: &mut [u32]) -> Result<(), AllocError>
        requires table { IsTable self.old.ends.items self.old.edges.items self.old.before.items }
        requires room { length self.old.edges.items + length list.old ≤ 2 * FACET_LIMIT }
        ensures table { OnOk result (IsTable self.new.ends.items self.new.edges.items self.new.before.items) }
        ensures numbered { OnOk result (AreNumbered self.old.edges.items list.old self.new.edges.items list.new (length list.old)) }
    {
        for i in 0..list.len() {
            list[i] = self.number(list[i])?;
        }
        Ok(())
    }

    /// The number of an edge, which is added if the table does not have it.
    fn number(&mut self, edge: u32) -> Result<u32, AllocError>
        requires table { IsTable self.old.ends.items self.old.edges.items self.old.before.items }
        requires room { length self.old.edges.items < 2 * FACET_LIMIT }
        ensures table { OnOk result (IsTable self.new.ends.items self.new.edges.items self.new.before.items) }
        ensures numbered { IfOk result (IsNumbered self.old.edges.items edge self.new.edges.items) }
    {
        match self.find(edge) {
            Some(number) => Ok(number),
            None => self.add(edge),
        }
    }

    /// The number of an edge; `None` if the table does not have it.
    fn find(&self, edge: u32) -> Option<u32>
        requires { IsTable self.now.ends.items self.now.edges.items self.now.before.items }
        ensures within { IfSome result (λ k. k < length self.now.edges.items) }
        ensures found { IfSome result (λ k. slice_index self.now.edges.items k ≡ edge) }
        ensures none { IfNone result ((k : ℕ) → k < length self.now.edges.items → slice_index self.now.edges.items k ≢ edge) }
    {
        let mut end = self.ends[bucket_of(edge, self.ends.len())];
        while end > 0 {
            let number = end - 1;
            if self.edges[number as usize] == edge {
                return Some(number);
            }
            end = self.before[number as usize];
        }
        None
    }

    /// Adds an edge that the table does not have, and returns its number.
    fn add(&mut self, edge: u32) -> Result<u32, AllocError>
        requires table { IsTable self.old.ends.items self.old.edges.items self.old.before.items }
        requires none { (k : ℕ) → k < length self.old.edges.items → slice_index self.old.edges.items k ≢ edge }
        requires room { length self.old.edges.items < 2 * FACET_LIMIT }
        ensures table { OnOk result (IsTable self.new.ends.items self.new.edges.items self.new.before.items) }
        ensures edges { OnOk result (self.new.edges.items ≡ self.old.edges.items ++ edge ∷ []) }
        ensures number { IfOk result (λ k. k ≡ length self.old.edges.items) }
    {
        let number = self.edges.len() as u32;
        let bucket = bucket_of(edge, self.ends.len());
        self.before.push(self.ends[bucket])?;
        self.edges.push(edge)?;
        self.ends[bucket] = number + 1;
        Ok(number)
    }
}

/// Which of `buckets` buckets an edge is in.
fn bucket_of(edge: u32, buckets: usize) -> usize
    requires some { 0 < buckets }
    requires few { buckets ≤ 4 * FACET_LIMIT }
    ensures value { result ≡ bucket buckets edge }
    ensures within { result < buckets }
{
    let hash = u64::from(edge) * MULTIPLIER % HASHES;
    (hash * buckets as u64 / HASHES) as usize
}
