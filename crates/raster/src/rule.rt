//! The fill rules: which sums of signed crossings count as inside. In the code of this crate a new rule is one variant, and one
//! arm of `is_inside`. `docs/ARCHITECTURE.md` lists what else it touches.
ghost use Rattle.std.specs.Prelude.{◌≡◌, ◌↔◌, IsTrue};
ghost use Rattle.raster.specs.Rule.{IsInside, is_inside};

/// Which pixels are filled, by the sum of the signed crossings of the mesh with the ray from a pixel's centre, its winding
/// number. `EvenOdd` and `NonZero` are the fill rules of PostScript and SVG. `Positive` fills where that winding number is
/// above 0.
#[derive(Clone, Copy, Debug, PartialEq, Eq)]
pub enum Rule {
    /// Filled if the sum is odd.
    EvenOdd,
    /// Filled if the sum is not 0.
    NonZero,
    /// Filled if the sum is above 0.
    Positive,
}

/// Whether a sum of signed crossings counts as inside.
pub(crate) fn is_inside(rule: Rule, count: i64) -> bool
    ensures value { result ≡ is_inside rule count }
    ensures inside { IsTrue result ↔ IsInside rule count }
{
    match rule {
        Rule::EvenOdd => count.unsigned_abs() % 2 == 1,
        Rule::NonZero => count != 0,
        Rule::Positive => count > 0,
    }
}
