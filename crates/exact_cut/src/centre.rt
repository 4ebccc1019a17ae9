//! The points that rays start from: the centres of voxels, whose coordinates lie within `CENTRE_LIMIT` of 0.
ghost use Rattle.std.specs.Prelude.{◌≡◌, ◌↔◌, IfSome, IsSome, IsTrue};
ghost use Rattle.exact_int.specs.Bounds.{IsAtMost};
ghost use Rattle.geometry.specs.Point.{IsCentre, Point};
ghost use Rattle.geometry.specs.declared.limits.TheConstants.{CENTRE_LIMIT};

use exact_int::is_at_most;
use geometry::CENTRE_LIMIT;
use std::marker::Model;

/// A point that a ray starts from, in half-micrometres, such as the centre of a voxel. Each coordinate lies within
/// `CENTRE_LIMIT` of 0.
#[derive(Clone, Copy, Debug, PartialEq, Eq)]
pub struct Centre {
    x2: i64,
    y2: i64,
    z2: i64,
}

impl Model for Centre {
    ghost use Rattle.geometry.specs.Point.{IsCentre, Point};

    ghost Value = { Point };

    ghost view = { λ c. record { x = c.x2; y = c.y2; z = c.z2 } };

    ghost invariant = { λ c. IsCentre (record { x = c.x2; y = c.y2; z = c.z2 }) };

    ghost inverse = { λ v. record { x2 = v.x; y2 = v.y; z2 = v.z } };
}

impl Centre {
    /// The centre with these coordinates in half-micrometres, or `None` if one lies more than `CENTRE_LIMIT` from 0.
    pub fn new(x2: i64, y2: i64, z2: i64) -> Option<Centre>
        ensures some { IsSome result ↔ IsCentre (record { x = x2; y = y2; z = z2 }) }
        ensures value { IfSome result (λ c. c ≡ record { x = x2; y = y2; z = z2 }) }
    {
        if is_in_range(x2) && is_in_range(y2) && is_in_range(z2) {
            Some(Centre { x2, y2, z2 })
        } else {
            None
        }
    }

    /// The x, in half-micrometres.
    pub fn x2(&self) -> i64
        ensures value { result ≡ self.now.x }
        ensures within { IsAtMost CENTRE_LIMIT result }
    {
        self.x2
    }

    /// The y, in half-micrometres.
    pub fn y2(&self) -> i64
        ensures value { result ≡ self.now.y }
        ensures within { IsAtMost CENTRE_LIMIT result }
    {
        self.y2
    }

    /// The z, in half-micrometres.
    pub fn z2(&self) -> i64
        ensures value { result ≡ self.now.z }
        ensures within { IsAtMost CENTRE_LIMIT result }
    {
        self.z2
    }
}

/// Whether a coordinate in half-micrometres is in range.
fn is_in_range(n: i64) -> bool
    ensures { IsTrue result ↔ IsAtMost CENTRE_LIMIT n }
{
    is_at_most(CENTRE_LIMIT, n)
}
