//! Points of a mesh, in whole micrometres. Every `Point` is in range, so products of its coordinates fit their types.
ghost use Rattle.std.specs.Prelude.{◌≡◌, ◌<◌, ◌↔◌, IfSome, IsSome, IsTrue, Some};
ghost use Rattle.exact_int.specs.Bounds.{IsAtMost};
ghost use Rattle.geometry.specs.Point.{Point, IsMeshPoint, point_text};
ghost use Rattle.geometry.specs.declared.limits.TheConstants.{COORDINATE_LIMIT};

use crate::limits::COORDINATE_LIMIT;
use exact_int::is_at_most;
use std::fmt::{self, Display, Formatter, Write};
use std::marker::Model;

/// A point of a mesh, in micrometres. Each coordinate is in the range from -[`COORDINATE_LIMIT`] to
/// [`COORDINATE_LIMIT`]. Points are ordered by x, then y, then z. `Display` writes the coordinates with a space between them.
#[derive(Clone, Copy, Debug, PartialEq, Eq, PartialOrd, Ord)]
pub struct Point {
    x: i32,
    y: i32,
    z: i32,
}

impl Model for Point {
    ghost use Rattle.geometry.specs.Point.{Point, IsMeshPoint};

    ghost Value = { Point };

    ghost view = { λ p. record { x = p.x; y = p.y; z = p.z } };

    ghost invariant = { λ p. IsMeshPoint (record { x = p.x; y = p.y; z = p.z }) };

    ghost inverse = { λ v. record { x = v.x; y = v.y; z = v.z } };
}

impl Point {
    /// The point with these coordinates in micrometres, or `None` if one of them is farther than
    /// [`COORDINATE_LIMIT`] from 0.
    pub fn new(x: i32, y: i32, z: i32) -> Option<Point>
        ensures some { IsSome result ↔ IsMeshPoint (record { x = x; y = y; z = z }) }
        ensures value { IfSome result (λ p. p ≡ record { x = x; y = y; z = z }) }
    {
        if is_coordinate(x) && is_coordinate(y) && is_coordinate(z) {
            Some(Point { x, y, z })
        } else {
            None
        }
    }

    /// The point with these coordinates in micrometres, which are in range.
    pub(crate) fn at(x: i32, y: i32, z: i32) -> Point
        requires { IsMeshPoint (record { x = x; y = y; z = z }) }
        ensures { result ≡ record { x = x; y = y; z = z } }
    {
        Point { x, y, z }
    }

    /// The same point, copied one coordinate after another. If points are copied whole, each is stored as 8 bytes and 4. Then a
    /// facet of them is copied by a load of 16 bytes, which waits for these stores.
    #[inline(always)]
    pub(crate) fn by_coordinates(&self) -> Point
        ensures { result ≡ self.now }
    {
        Point {
            x: self.x,
            y: self.y,
            z: self.z,
        }
    }

    /// The x coordinate, in micrometres.
    pub fn x(&self) -> i32
        ensures value { result ≡ self.now.x }
        ensures within { IsAtMost COORDINATE_LIMIT result }
    {
        self.x
    }

    /// The y coordinate, in micrometres.
    pub fn y(&self) -> i32
        ensures value { result ≡ self.now.y }
        ensures within { IsAtMost COORDINATE_LIMIT result }
    {
        self.y
    }

    /// The z coordinate, in micrometres.
    pub fn z(&self) -> i32
        ensures value { result ≡ self.now.z }
        ensures within { IsAtMost COORDINATE_LIMIT result }
    {
        self.z
    }
}

impl Display for Point {
    ghost output = { λ point. Some (point_text point) };

    fn fmt<W: Write>(&self, f: &mut Formatter<W>) -> fmt::Result {
        let (x, y, z) = (self.x(), self.y(), self.z());
        write!(f, "{x} {y} {z}")
    }
}

/// Whether a number of micrometres is in the range of coordinates.
fn is_coordinate(n: i32) -> bool
    ensures { IsTrue result ↔ IsAtMost COORDINATE_LIMIT n }
{
    is_at_most(COORDINATE_LIMIT, i64::from(n))
}
