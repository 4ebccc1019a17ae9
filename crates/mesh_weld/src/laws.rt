//! The laws of closed meshes, stated once for the crates above.
ghost use Rattle.std.specs.Prelude.{◌≡◌, ◌⊎◌, List, ℕ};
ghost use Rattle.geometry.specs.Facet.{Facet};
ghost use Rattle.geometry.specs.Point.{Point};
ghost use Rattle.mesh_weld.specs.Balance.{HasOpenEdge, IsBalanced, IsLeastOpen};
ghost use Rattle.mesh_weld.specs.Laws.{AmountsCancel, DegenerateFacetsAreClosed, DegenerateFacetsAreMissed, EdgesHaveNumbers, KeptAreClosed, KeptRaysAreAll, RayFromTheLeft, RaysAgree, StepsKeepRays, WindsAlongYCancel, WindsCancel};

/// States what holds of every mesh. Over closed facets an amount that changes its sign with the direction of an edge sums to
/// 0, and so do the winds. The sum of the crossings from the left is minus the ray. Rays along x and y agree if no facet
/// touches the centre. A step past no facet keeps a ray. A degenerate facet changes no ray and is closed by itself, and without
/// them a closed mesh is closed. The edges of all facets can be numbered. A crate that calls it can use its clauses; it does
/// nothing at run time.
pub fn hold_mesh_laws()
    // sums over the facets of a closed mesh
    ensures amounts { AmountsCancel }
    ensures winds { WindsCancel }
    ensures winds_along_y { WindsAlongYCancel }
    ensures from_the_left { RayFromTheLeft }
    // facets with two equal corners
    ensures degenerate { DegenerateFacetsAreMissed }
    ensures own { DegenerateFacetsAreClosed }
    ensures kept { KeptRaysAreAll }
    ensures closed { KeptAreClosed }
    // edges
    ensures numbered { EdgesHaveNumbers }
    // rays from one centre, and from the next
    ensures agree { RaysAgree }
    ensures steps { StepsKeepRays }
{}

/// Each list of facets is either closed or has a least open edge, and it has only one, with one count there and back.
pub fn closed_or_open()
    ensures either { (facets : List Facet) → IsBalanced facets ⊎ HasOpenEdge facets }
    ensures not_both { (facets : List Facet) → IsBalanced facets → HasOpenEdge facets → ⊥ }
    ensures one { (facets : List Facet) (from to other_from other_to : Point) (there back other_there other_back : ℕ)
        → IsLeastOpen facets from to there back → IsLeastOpen facets other_from other_to other_there other_back
        → (from ≡ other_from) × (to ≡ other_to) × (there ≡ other_there) × (back ≡ other_back) }
{}
