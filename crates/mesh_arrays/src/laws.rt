//! What follows from the definitions alone.
ghost use Rattle.std.specs.Prelude.{◌≡◌, ◌⊎◌, List, ℕ, ℤ};
ghost use Rattle.geometry.specs.Facet.{Facet};
ghost use Rattle.mesh_arrays.specs.Arrays.{IsFaultOfArrays, ReadsArrays};
ghost use Rattle.mesh_arrays.specs.declared.array_fault.ArrayFault.{ArrayFault};

/// Arrays have exactly one outcome: one list of facets, or one fault.
pub fn one_outcome()
    ensures reading { (points : List (List ℤ)) (triangles : List (List ℕ)) (facets others : List Facet)
        → ReadsArrays points triangles facets → ReadsArrays points triangles others → facets ≡ others }
    ensures fault { (points : List (List ℤ)) (triangles : List (List ℕ)) (fault other : ArrayFault)
        → IsFaultOfArrays points triangles fault → IsFaultOfArrays points triangles other → fault ≡ other }
    ensures not_both { (points : List (List ℤ)) (triangles : List (List ℕ)) (facets : List Facet) (fault : ArrayFault)
        → ReadsArrays points triangles facets → IsFaultOfArrays points triangles fault → ⊥ }
    ensures either { (points : List (List ℤ)) (triangles : List (List ℕ))
        → ((facets : List Facet) × ReadsArrays points triangles facets) ⊎ ((fault : ArrayFault) × IsFaultOfArrays points triangles fault) }
{}
