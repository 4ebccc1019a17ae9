//! Laws of points: when they are equal, and their order. A derived comparison has no contract, so functions state what it
//! returns.
ghost use Rattle.std.specs.Prelude.{◌≡◌, ◌↔◌, IsTrue};
ghost use Rattle.std.specs.Ordering.{is_lt};
ghost use Rattle.geometry.specs.Point.{Point, is_before};

use crate::point::Point;

/// Points are ordered by x, then y, then z.
pub fn points_in_order()
    ensures { (p q : Point) → is_lt (⟦<Point as Ord>⟧.cmp p q) ≡ is_before p q }
{}

/// Points are equal exactly if they are the same point.
pub fn equal_points()
    ensures { (p q : Point) → IsTrue (⟦<Point as PartialEq>⟧.eq p q) ↔ (p ≡ q) }
{}
