//! The sides of a pixel, and the side of the squares that they become.
ghost use Rattle.std.specs.Prelude.{◌≡◌, ◌≤◌, ◌<◌, ◌↔◌, IfSome, IsNone, IsTrue, MatchOption, ℕ};
ghost use Rattle.geometry.specs.declared.limits.TheConstants.{STEP_LIMIT};
ghost use Rattle.part_on_screen.specs.Pitch.{IsMultiple, IsPitch, IsSide, IsTimes};

use geometry::STEP_LIMIT;

/// A side of a pixel: `numerator / denominator` micrometres, neither of them 0. 81 mm of 1,620 pixels are 81000 / 1620.
#[derive(Clone, Copy, Debug, PartialEq, Eq)]
pub struct PixelSide {
    pub numerator: u32,
    pub denominator: u32,
}

impl PixelSide {
    /// Whether neither number is 0.
    pub(crate) fn is_side(&self) -> bool
        ensures { IsTrue result ↔ IsSide self.now }
    {
        self.numerator > 0 && self.denominator > 0
    }

    /// How many sides so many micrometres are, or `None` if they are no whole number of sides.
    pub(crate) fn times_in(&self, length: u32) -> Option<u64>
        requires { IsSide self.now }
        ensures { MatchOption result (IsMultiple length self.now → ⊥) (λ times. IsTimes length self.now times) }
    {
        let (length, side) = (
            u64::from(length) * u64::from(self.denominator),
            u64::from(self.numerator),
        );
        if length % side == 0 {
            Some(length / side)
        } else {
            None
        }
    }
}

/// The least whole number of micrometres, 1 to `STEP_LIMIT`, that is a whole number of either side: and how many of each.
pub(crate) fn pitch_of(width: &PixelSide, depth: &PixelSide) -> Option<(u32, u64, u64)>
    requires width { IsSide width.now }
    requires depth { IsSide depth.now }
    ensures pitch { IfSome result (λ found. IsPitch found.0 width.now depth.now) }
    ensures small { IfSome result (λ found. found.0 ≤ STEP_LIMIT) }
    ensures times_x { IfSome result (λ found. IsTimes found.0 width.now found.1) }
    ensures times_y { IfSome result (λ found. IsTimes found.0 depth.now found.2) }
    ensures some_x { IfSome result (λ found. 1 ≤ found.1) }
    ensures some_y { IfSome result (λ found. 1 ≤ found.2) }
    ensures none { IsNone result → (p : ℕ) → 1 ≤ p → IsMultiple p width.now → IsMultiple p depth.now → STEP_LIMIT < p }
{
    // a plain search: it takes at most a millisecond, once for a screen
    for pitch in 1..STEP_LIMIT + 1 {
        if let Some(times_x) = width.times_in(pitch) {
            if let Some(times_y) = depth.times_in(pitch) {
                return Some((pitch, times_x, times_y));
            }
        }
    }
    None
}
