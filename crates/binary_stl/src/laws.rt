//! What follows from the definitions alone.
ghost use Rattle.std.specs.Prelude.{◌≡◌, ◌<◌, ◌^◌, ◌⊎◌, ◌↔◌, List, Ok, Some, ℕ, ℤ, pos, length};
ghost use Rattle.geometry.specs.Facet.{Facet};
ghost use Rattle.micro_num.specs.declared.unit.Unit.{Unit as LengthUnit};
ghost use Rattle.micro_num.specs.Micrometres.{numeral_coordinate};
ghost use Rattle.micro_num.specs.Numeral.{Numeral};
ghost use Rattle.binary_stl.specs.Decimal.{IsDecimalOf};
ghost use Rattle.binary_stl.specs.Binary.{HasTextForCount, IsBinary, IsFaultOfBinary, ReadsBinary};
ghost use Rattle.binary_stl.specs.Single.{coordinate_of, finite, single_of};
ghost use Rattle.binary_stl.specs.declared.binary_fault.BinaryFault.{BinaryFault};
ghost use Rattle.binary_stl.specs.declared.limits.TheConstants.{TEXT_LIMIT};

/// Bytes have exactly one outcome for a limit and a unit: one list of facets, or one fault.
pub fn one_outcome()
    ensures reading { (limit : ℕ) (unit : LengthUnit) (bytes : List ℕ) (facets others : List Facet)
        → ReadsBinary limit unit bytes facets → ReadsBinary limit unit bytes others → facets ≡ others }
    ensures fault { (limit : ℕ) (unit : LengthUnit) (bytes : List ℕ) (fault other : BinaryFault)
        → IsFaultOfBinary limit unit bytes fault → IsFaultOfBinary limit unit bytes other → fault ≡ other }
    ensures not_both { (limit : ℕ) (unit : LengthUnit) (bytes : List ℕ) (facets : List Facet) (fault : BinaryFault)
        → ReadsBinary limit unit bytes facets → IsFaultOfBinary limit unit bytes fault → ⊥ }
    ensures either { (limit : ℕ) (unit : LengthUnit) (bytes : List ℕ)
        → ((facets : List Facet) × ReadsBinary limit unit bytes facets) ⊎ ((fault : BinaryFault) × IsFaultOfBinary limit unit bytes fault) }
{}

/// Numbers of the same value have the same coordinate, so corners that are equal stay equal. -0 is 0.
pub fn equal_numbers()
    ensures same { (unit : LengthUnit) (bits others : ℕ) (z : ℤ)
        → single_of bits ≡ finite z → single_of others ≡ finite z → coordinate_of unit bits ≡ coordinate_of unit others }
    ensures zero { (unit : LengthUnit) → (coordinate_of unit 0 ≡ Ok (pos 0)) × (coordinate_of unit (2 ^ 31) ≡ Ok (pos 0)) }
{}

/// A text that is shorter than [`TEXT_LIMIT`](crate::TEXT_LIMIT) is no binary STL, unless one of its bytes 80 to 83 is a control
/// character other than white space.
pub fn no_text()
    ensures { (bytes : List ℕ) → HasTextForCount bytes → length bytes < TEXT_LIMIT → IsBinary bytes → ⊥ }
{}

/// A number of a text that has the value of a number of a binary STL has its coordinate.
pub fn same_as_text()
    ensures { (unit : LengthUnit) (bits : ℕ) (z : ℤ) (n : Numeral) → single_of bits ≡ finite z → IsDecimalOf z n
        → (x : ℤ) → (coordinate_of unit bits ≡ Ok x) ↔ (numeral_coordinate unit (Some n) ≡ Ok x) }
{}
