//! The closed mesh that the crates above slice.
ghost use Rattle.std.specs.Prelude.{◌≡◌, ◌≢◌, ◌<◌, ◌≤◌, ◌↔◌, ℕ, IsTrue, List, Some, flat_map, length, slice_get, true};
ghost use Rattle.std.specs.List.{AllPairs, Contains};
ghost use Rattle.geometry.specs.BoundingBox.{extent};
ghost use Rattle.geometry.specs.Facet.{corners, greatest_z, least_z};
ghost use Rattle.geometry.specs.Point.{Point, is_before};
ghost use Rattle.mesh_weld.specs.Balance.{IsBalanced};
ghost use Rattle.mesh_weld.specs.EdgeNumbers.{AreEdgeNumbers};
ghost use Rattle.mesh_weld.specs.Solid.{AreBlockTops, HaveDistinctCorners, IsByHeight, facet_at, top_of, triples, vertices};
ghost use Rattle.geometry.specs.declared.limits.TheConstants.{FACET_LIMIT};

use crate::facets::facet_by;
use crate::height_order::HeightRange;
use crate::numbering::Numbering;
use geometry::{Facet, Point, higher, lower};
use std::alloc::Allocator;
use std::marker::Model;

/// The kept facets of a closed mesh, which are those with three distinct corners. Only their numbering is held: each facet by
/// the numbers of its corners among the points.
#[derive(Drop)]
pub struct Solid<A: Allocator> {
    pub(crate) numbering: Numbering<A>,
    pub(crate) dropped: u32,
}

impl<A: Allocator> Model for Solid<A> {
    ghost use Rattle.geometry.specs.declared.limits.TheConstants.{FACET_LIMIT};
    ghost use Rattle.std.specs.Prelude.{◌≤◌, length};
    ghost use Rattle.mesh_weld.specs.Numbering.{IsNumberingOf};
    ghost use Rattle.mesh_weld.specs.Solid.{HaveDistinctCorners, Solid, facets_by};

    ghost Value = { Solid };

    ghost view = { λ s. record { facets = facets_by s.numbering.points.items s.numbering.numbers.items; dropped = s.dropped } };

    ghost invariant = { λ s. IsNumberingOf (facets_by s.numbering.points.items s.numbering.numbers.items) s.numbering
        × (length s.numbering.numbers.items ≤ FACET_LIMIT) × HaveDistinctCorners (facets_by s.numbering.points.items s.numbering.numbers.items) };
}

impl<A: Allocator> Solid<A> {
    /// The number of degenerate facets, which were dropped: two of their corners are equal.
    pub fn dropped(&self) -> u32
        ensures { result ≡ self.now.dropped }
    {
        self.dropped
    }

    /// The distinct corners of the kept facets, in ascending order.
    pub fn vertices(&self) -> &[Point]
        ensures value { result.now ≡ vertices self.now.facets }
        ensures ascending { AllPairs (λ p q. is_before p q ≡ true) result.now }
        ensures members { (p : Point) → Contains result.now p ↔ Contains (flat_map corners self.now.facets) p }
    {
        self.numbering.points.as_slice()
    }

    /// The kept facets in file order, each by the numbers of its corners among the vertices.
    pub fn triples(&self) -> &[[u32; 3]]
        ensures { result.now ≡ triples self.now.facets }
    {
        self.numbering.numbers.as_slice()
    }

    /// For each kept facet the numbers of its edges 0, 1 and 2. Two edges have one number exactly if their ends are
    /// the same two points, in either order.
    pub fn edge_numbers(&self) -> &[[u32; 3]]
        ensures { (count : ℕ) × AreEdgeNumbers self.now.facets result.now count }
    {
        self.numbering.edges.numbers.as_slice().as_chunks::<3>().0
    }

    /// The number of edges: each edge's number is below this.
    pub fn edge_count(&self) -> u32
        ensures { (numbers : List (List ℕ)) (count : ℕ) → AreEdgeNumbers self.now.facets numbers count → result ≡ count }
    {
        self.numbering.edges.count
    }

    /// The least and the greatest x, y and z of the kept facets' corners, in micrometres; `None` if none is kept.
    pub fn corners(&self) -> Option<(Point, Point)>
        ensures { result ≡ extent self.now.facets }
    {
        let points = self.numbering.points.as_slice();
        let start = *points.first()?;
        let mut low = start;
        let mut high = start;
        for point in points {
            low = lower(low, *point);
            high = higher(high, *point);
        }
        Some((low, high))
    }

    /// Whether both have the same facets, in the same order, and the same number of dropped ones.
    pub fn same(&self, other: &Solid<A>) -> bool
        ensures { IsTrue result ↔ (self.now ≡ other.now) }
    {
        self.dropped == other.dropped && self.has_facets_of(other)
    }

    /// Whether both have the same facets, in the same order.
    fn has_facets_of(&self, other: &Solid<A>) -> bool
        ensures { IsTrue result ↔ (self.now.facets ≡ other.now.facets) }
    {
        self.numbering.points.as_slice() == other.numbering.points.as_slice()
            && self.numbering.numbers.as_slice() == other.numbering.numbers.as_slice()
    }

    /// The numbers of the kept facets by ascending least height, and by number if least heights are equal.
    pub fn by_height(&self) -> &[u32]
        ensures { IsByHeight self.now.facets result.now }
    {
        self.numbering.heights.order.as_slice()
    }

    /// The tops of the blocks of the order by height, in micrometres: the greatest height of a corner of each `BLOCK_LEN`
    /// facets that follow one another there.
    pub fn block_tops(&self) -> &[i32]
        ensures { (order : List ℕ) → IsByHeight self.now.facets order → AreBlockTops (top_of self.now.facets) order result.now }
    {
        self.numbering.heights.tops.as_slice()
    }

    /// The number of kept facets. Each solid is closed, and none of its facets is degenerate.
    pub fn count(&self) -> usize
        ensures count { result ≡ length self.now.facets }
        ensures few { length self.now.facets ≤ FACET_LIMIT }
        ensures closed { IsBalanced self.now.facets }
        ensures distinct { HaveDistinctCorners self.now.facets }
    {
        self.numbering.numbers.len()
    }

    /// The kept facet with this number, below `count`. Its three corners are distinct.
    pub fn facet(&self, number: u32) -> Facet
        requires { number < length self.now.facets }
        ensures value { slice_get self.now.facets number ≡ Some result }
        ensures distinct { (result.a ≢ result.b) × (result.b ≢ result.c) × (result.c ≢ result.a) }
    {
        facet_by(
            self.numbering.points.as_slice(),
            &self.numbering.numbers[number as usize],
        )
    }

    /// The height range of the kept facet with this number, below `count`. It equals `lowest` and `highest` of the facet,
    /// without a look at its corners.
    pub fn height_range(&self, number: u32) -> HeightRange
        requires { number < length self.now.facets }
        ensures low { result.low ≡ least_z (facet_at self.now.facets number) }
        ensures high { result.high ≡ greatest_z (facet_at self.now.facets number) }
    {
        self.numbering.heights.ranges[number as usize]
    }
}
