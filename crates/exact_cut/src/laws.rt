//! The laws that the crate's functions depend on. [`hold_laws`] does nothing when it runs. It is there for its clauses, since
//! only what a public function promises is proved.
ghost use Rattle.exact_cut.specs.Laws.{AheadIsAbove, CornerTurnsAreOpposite, CrossedLinesMeet, CrossingsSplitRows, NearestIsNear, RaysDifferByEdges, StepsAlongXKeepHits, StepsAlongYKeepHits, TurnsAreOpposite, UncrossedRowsHaveNoHits, WalksTellHits, WindsAreUnits};

/// What holds of every facet's winding and of every ray:
/// - An edge and its opposite turn oppositely.
/// - A winding is 1, -1 or 0, and a line round which it is not 0 meets the facet's plane.
/// - A crossing splits a row of centres in two.
/// - A walk gives the hits of all rays from a lattice's pixels.
/// - The hits along x and along y differ by a sum over the facet's edges, if the facet does not touch the ray's start.
/// - A step that passes no point of a facet keeps its hit.
/// - A fraction is rounded to the nearest whole number, halves upward.
pub fn hold_laws()
    // turns and windings
    ensures turns { TurnsAreOpposite }
    ensures winds { WindsAreUnits }
    ensures meets { CrossedLinesMeet }
    // crossings of a row
    ensures ahead { AheadIsAbove }
    ensures columns { CrossingsSplitRows }
    ensures walks { WalksTellHits }
    ensures uncrossed { UncrossedRowsHaveNoHits }
    // rays, and steps between them
    ensures rays { RaysDifferByEdges }
    ensures corners { CornerTurnsAreOpposite }
    ensures steps_x { StepsAlongXKeepHits }
    ensures steps_y { StepsAlongYKeepHits }
    // rounding
    ensures nearest { NearestIsNear }
{}
