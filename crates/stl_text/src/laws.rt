//! Laws of the format, which relate the definitions that the reader's contract cites.
ghost use Rattle.std.specs.Prelude.{◌≡◌, ◌≤◌, ◌↔◌, ◌⊎◌, List, length, ℕ};
ghost use Rattle.micro_num.specs.declared.unit.Unit.{Unit as LengthUnit};
ghost use Rattle.stl_text.specs.declared.stl_fault.StlFault.{StlFault};
ghost use Rattle.stl_text.specs.Text.{IsFaultOf, Reads};
ghost use Rattle.geometry.specs.Facet.{Facet};
ghost use Rattle.stl_text.specs.Written.{Written};

/// A text has exactly one outcome for a limit and a unit: one list of facets, or one fault.
pub fn one_outcome()
    ensures reading { (limit : ℕ) (unit : LengthUnit) (bytes : List ℕ) (facets others : List Facet)
        → Reads limit unit bytes facets → Reads limit unit bytes others → facets ≡ others }
    ensures fault { (limit : ℕ) (unit : LengthUnit) (bytes : List ℕ) (fault other : StlFault)
        → IsFaultOf limit unit bytes fault → IsFaultOf limit unit bytes other → fault ≡ other }
    ensures not_both { (limit : ℕ) (unit : LengthUnit) (bytes : List ℕ) (facets : List Facet) (fault : StlFault)
        → Reads limit unit bytes facets → IsFaultOf limit unit bytes fault → ⊥ }
    ensures either { (limit : ℕ) (unit : LengthUnit) (bytes : List ℕ)
        → ((facets : List Facet) × Reads limit unit bytes facets) ⊎ ((fault : StlFault) × IsFaultOf limit unit bytes fault) }
{}

/// A text reads as facets, at most `limit` of them, exactly if it is these facets written as STL. It may have any white space
/// between words, any case of keywords, any words of normals and any names of solids. A line end after the last solid may be
/// there or not.
pub fn reads_as_written()
    ensures { (limit : ℕ) (unit : LengthUnit) (bytes : List ℕ) (facets : List Facet)
        → Reads limit unit bytes facets ↔ (Written unit facets bytes × (length facets ≤ limit)) }
{}
