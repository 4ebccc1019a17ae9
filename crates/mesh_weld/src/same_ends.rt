//! Counts of half-edges with the same two ends. The sorts use them to see whether the half-edges balance.
ghost use Rattle.std.specs.Prelude.{◌≡◌, ◌↔◌, ◌<◌, ◌+◌, IsTrue, min, max};
ghost use Rattle.mesh_weld.specs.SameEnds.{started, counted};
ghost use Rattle.mesh_weld.specs.declared.packing.TheConstants.{HALF_WORD};
ghost use Rattle.geometry.specs.declared.limits.TheConstants.{CORNER_LIMIT};

use crate::half_edge::HalfEdge;

/// How many half-edges of a sorted list have the same two ends: from the lesser end to the greater one, and back.
#[derive(Clone, Copy)]
pub(crate) struct SameEnds {
    pub(crate) low: u32,
    pub(crate) high: u32,
    pub(crate) there: u32,
    pub(crate) back: u32,
}

impl SameEnds {
    /// No ends yet, and no half-edge counted.
    pub(crate) const NONE: SameEnds = SameEnds {
        low: 0,
        high: 0,
        there: 0,
        back: 0,
    };

    /// The ends of a half-edge, and no half-edge counted.
    pub(crate) fn started(half_edge: &HalfEdge) -> SameEnds
        ensures { result ≡ started half_edge.now }
    {
        SameEnds {
            low: half_edge.from.min(half_edge.to),
            high: half_edge.from.max(half_edge.to),
            ..SameEnds::NONE
        }
    }

    /// Whether a half-edge has these ends.
    pub(crate) fn has_ends_of(&self, half_edge: &HalfEdge) -> bool
        ensures in_range { (self.now.high < HALF_WORD) × (half_edge.now.from < HALF_WORD) × (half_edge.now.to < HALF_WORD) }
        ensures value { IsTrue result ↔ (self.now.low ≡ min half_edge.now.from half_edge.now.to) × (self.now.high ≡ max half_edge.now.from half_edge.now.to) }
    {
        let (from, to, high) = (half_edge.from, half_edge.to, self.high);
        self.low == from.min(to) && high == from.max(to)
    }

    /// The counts with one more half-edge between these ends. A mesh has no more half-edges than corners.
    pub(crate) fn counted(self, half_edge: &HalfEdge) -> SameEnds
        requires there { self.there < CORNER_LIMIT }
        requires back { self.back < CORNER_LIMIT }
        ensures { result ≡ counted self half_edge.now }
    {
        if half_edge.from < half_edge.to {
            SameEnds {
                there: self.there + 1,
                ..self
            }
        } else if half_edge.to < half_edge.from {
            SameEnds {
                back: self.back + 1,
                ..self
            }
        } else {
            self
        }
    }
}
