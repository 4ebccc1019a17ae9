//! Turns by quarters, counterclockwise as seen from above.
ghost use Rattle.std.specs.Prelude.{◌≡◌, ◌≤◌, MatchOption};
ghost use Rattle.geometry.specs.Point.{Point};
ghost use Rattle.part_on_screen.specs.Turned.{quarters, turned};

/// By how many quarters a part is turned, counterclockwise as seen from above: x goes to y, and y goes to -x.
#[derive(Clone, Copy, Debug, PartialEq, Eq)]
pub enum Quarters {
    Zero,
    One,
    Two,
    Three,
}

impl Quarters {
    /// So many quarters, or `None` if there are more than 3.
    pub fn from_number(number: u32) -> Option<Quarters>
        ensures { MatchOption result (4 ≤ number) (λ turn. quarters turn ≡ number) }
    {
        match number {
            0 => Some(Quarters::Zero),
            1 => Some(Quarters::One),
            2 => Some(Quarters::Two),
            3 => Some(Quarters::Three),
            _ => None,
        }
    }

    /// The turn that takes this one back.
    pub(crate) fn back(self) -> Quarters
        ensures { (p : Point) → turned self (turned result p) ≡ p }
    {
        match self {
            Quarters::Zero => Quarters::Zero,
            Quarters::One => Quarters::Three,
            Quarters::Two => Quarters::Two,
            Quarters::Three => Quarters::One,
        }
    }
}
