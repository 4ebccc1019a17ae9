//! The laws of loops, stated once for the crates above.
ghost use Rattle.contour.specs.Laws.{ClosedMeshesHaveLoops, CycleWindsCancel, LoopsAreOne, NodesAreOrdered, OutlinesJoin, StartsAreCuts};

/// States what holds of the segments of every plane. It does nothing at run time.
/// - A line along x in the plane crosses the facets of a loop upward as often as downward.
/// - The segments of a closed mesh at any height make loops, and in one way only.
/// - In loops of facets with distinct corners, each node's `low` is below its `high`.
/// - In outlines, a segment starts where the plane cuts an edge, to the nearest half-micrometre, and ends where its follower
///   starts.
pub fn hold_loop_laws()
    ensures winds { CycleWindsCancel }
    ensures exist { ClosedMeshesHaveLoops }
    ensures one { LoopsAreOne }
    ensures ordered { NodesAreOrdered }
    ensures starts { StartsAreCuts }
    ensures joined { OutlinesJoin }
{}
