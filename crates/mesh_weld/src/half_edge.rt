//! Half-edges by the numbers of their ends, and the numbers of their edges.
ghost use Rattle.std.specs.Prelude.{◌≡◌};
ghost use Rattle.mesh_weld.specs.HalfEdge.{pair_key};

use crate::packing::packed;
use std::alloc::Allocator;

/// A half-edge by the numbers of its ends, with its slot: its number among the half-edges of all facets, three a facet.
#[derive(Clone, Copy)]
pub(crate) struct HalfEdge {
    pub(crate) from: u32,
    pub(crate) to: u32,
    pub(crate) slot: u32,
}

impl HalfEdge {
    /// A key of the two ends, the same in both directions. It ascends with the lesser end, and then with the greater.
    pub(crate) fn pair(&self) -> u64
        ensures { result ≡ pair_key self.now }
    {
        packed(self.from.min(self.to), self.from.max(self.to))
    }
}

/// The number of each half-edge's edge, one for both directions, and the count of these numbers.
#[derive(Drop)]
pub(crate) struct EdgeNumbering<A: Allocator> {
    pub(crate) numbers: Vec<u32, A>,
    pub(crate) count: u32,
}
