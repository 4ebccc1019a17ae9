//! Facets: the triangles that a mesh is made of.
ghost use Rattle.std.specs.Prelude.{◌≡◌, ◌<◌};
ghost use Rattle.geometry.specs.Facet.{corner, facet_with};

use crate::point::Point;
use std::marker::Model;

/// A triangle by its three corners, listed counterclockwise as seen from outside, as in STL. Half-edge 0 runs from
/// corner 0 to 1, half-edge 1 from 1 to 2, half-edge 2 from 2 to 0.
#[derive(Clone, Copy, Debug, PartialEq, Eq)]
pub struct Facet(pub [Point; 3]);

impl Model for Facet {
    ghost use Rattle.std.specs.Prelude.{◌≡◌, length};
    ghost use Rattle.geometry.specs.Facet.{Facet, facet_from, corners, corners-facet_from};

    ghost Value = { Facet };

    ghost view = { λ f. facet_from f.0 };

    ghost invariant = { λ f. length f.0 ≡ 3 };

    ghost inverse = { λ t. record { 0 = corners t } };

    ghost inverse_ok = { λ f three i. record { 0 = corners-facet_from f.0 three i } };
}

impl Facet {
    /// The facet with these corners, in this order.
    pub fn of(a: Point, b: Point, c: Point) -> Facet
        ensures { result ≡ facet_with a b c }
    {
        Facet([a.by_coordinates(), b.by_coordinates(), c.by_coordinates()])
    }

    /// The corner with this number, which is 0, 1 or 2.
    pub fn corner(&self, number: usize) -> Point
        requires { number < 3 }
        ensures { result ≡ corner self.now number }
    {
        self.0[number]
    }
}
