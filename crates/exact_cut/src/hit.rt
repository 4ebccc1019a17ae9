//! Signed ray crossings of one facet: the rays from a centre along x and along y.
ghost use Rattle.std.specs.Prelude.{◌≡◌, ◌*ℤ◌, ◌-ℤ◌, if◌then◌else◌, int_lt, pos, ℤ};
ghost use Rattle.exact_int.specs.Bounds.{IsAtMost};
ghost use Rattle.geometry.specs.Point.{origin};
ghost use Rattle.geometry.specs.Facet.{twice};
ghost use Rattle.geometry.specs.Winding.{hit, hit_y, turn, turn_of, turn_x, volume, wind, wind_y};
ghost use Rattle.exact_cut.specs.Bounds.{cross_limit, determinant_limit, offset_limit};
ghost use Rattle.exact_cut.specs.HalfPoint.{point_of};
ghost use Rattle.exact_cut.specs.RelativeFacet.{corner_of, facet_of, minus, relative_to};

mod relative_facet;

use crate::centre::Centre;
use crate::cut::corner_at;
use crate::cut::half_point::HalfPoint;
use crate::hit::relative_facet::{Offset, RelativeFacet};
use geometry::{Facet, rises_through};

/// How the ray from a centre along x crosses the facet, by its winding: 1, -1, or 0 if it misses.
pub fn ray_hit(f: &Facet, c: &Centre) -> i32
    ensures value { result ≡ hit (twice f.now) c.now }
    ensures unit { IsAtMost 1 result }
{
    let g = relative(f, c);
    wind_if_ahead(wind_about_x(&g), determinant(&g))
}

/// How the ray from a centre along y crosses the facet, by its winding: 1, -1, or 0 if it misses.
pub fn ray_hit_y(f: &Facet, c: &Centre) -> i32
    ensures value { result ≡ hit_y (twice f.now) c.now }
    ensures unit { IsAtMost 1 result }
{
    let g = relative(f, c);
    wind_if_ahead(wind_about_y(&g), determinant(&g))
}

/// The vector from a centre to a corner.
fn offset_of(p: HalfPoint, c: &Centre) -> Offset
    ensures { corner_of result ≡ minus (point_of p) c.now }
{
    Offset {
        x: p.x - c.x2(),
        y: p.y - c.y2(),
        z: p.z - c.z2(),
    }
}

/// A facet in coordinates whose origin is a centre.
fn relative(f: &Facet, c: &Centre) -> RelativeFacet
    ensures { facet_of result ≡ relative_to (twice f.now) c.now }
{
    RelativeFacet {
        a: offset_of(corner_at(f, 0), c),
        b: offset_of(corner_at(f, 1), c),
        c: offset_of(corner_at(f, 2), c),
    }
}

/// The cross product of two vectors in a plane, (a, b) and (c, d): `a * d - b * c`.
fn cross(a: i64, b: i64, c: i64, d: i64) -> i128
    requires a { IsAtMost offset_limit a }
    requires b { IsAtMost offset_limit b }
    requires c { IsAtMost offset_limit c }
    requires d { IsAtMost offset_limit d }
    ensures value { result ≡ a *ℤ d -ℤ b *ℤ c }
    ensures bound { IsAtMost cross_limit result }
{
    (a as i128) * (d as i128) - (b as i128) * (c as i128)
}

/// How an edge from height `u` to height `v` turns round the origin, by its cross product `l` and the tie rule. It is 1 if the
/// edge rises through 0 and `l` is above 0, -1 if it falls through 0 and `l` is below 0, else 0.
#[tactic(auto, unfolding(geometry::specs::Winding::turn_of))]
fn turn_by(u: i64, v: i64, l: i128) -> i32
    ensures value { result ≡ turn_of u v (pos 0) l }
    ensures unit { IsAtMost 1 result }
{
    if rises_through(u, v, 0) && l > 0 {
        1
    } else if rises_through(v, u, 0) && l < 0 {
        -1
    } else {
        0
    }
}

/// How an edge turns round the ray along x.
fn turn_about_x(u: Offset, v: Offset) -> i32
    ensures value { result ≡ turn (corner_of u) (corner_of v) (pos 0) (pos 0) }
    ensures unit { IsAtMost 1 result }
{
    turn_by(u.z, v.z, cross(u.y, u.z, v.y, v.z))
}

/// How an edge turns round the ray along y.
fn turn_about_y(u: Offset, v: Offset) -> i32
    ensures value { result ≡ turn_x (corner_of u) (corner_of v) (pos 0) (pos 0) }
    ensures unit { IsAtMost 1 result }
{
    turn_by(u.z, v.z, cross(u.x, u.z, v.x, v.z))
}

/// The winding round the ray along x.
fn wind_about_x(f: &RelativeFacet) -> i32
    ensures value { result ≡ wind (facet_of f.now) (pos 0) (pos 0) }
    ensures small { IsAtMost 3 result }
{
    turn_about_x(f.a, f.b) + turn_about_x(f.b, f.c) + turn_about_x(f.c, f.a)
}

/// The winding round the ray along y.
fn wind_about_y(f: &RelativeFacet) -> i32
    ensures value { result ≡ wind_y (facet_of f.now) (pos 0) (pos 0) }
    ensures small { IsAtMost 3 result }
{
    -(turn_about_y(f.a, f.b) + turn_about_y(f.b, f.c) + turn_about_y(f.c, f.a))
}

/// The determinant of the corners (orient3d of the facet and the origin): six times the signed volume between them.
fn determinant(f: &RelativeFacet) -> i128
    ensures value { result ≡ volume (facet_of f.now) origin }
    ensures bound { IsAtMost determinant_limit result }
{
    let x = (f.a.x as i128) * cross(f.b.y, f.b.z, f.c.y, f.c.z);
    let y = (f.a.y as i128) * cross(f.b.x, f.b.z, f.c.x, f.c.z);
    let z = (f.a.z as i128) * cross(f.b.x, f.b.y, f.c.x, f.c.y);
    x - y + z
}

/// The winding if the facet lies ahead, else 0.
fn wind_if_ahead(wind: i32, volume: i128) -> i32
    requires wind_in { IsAtMost 3 wind }
    requires volume_in { IsAtMost determinant_limit volume }
    ensures { result ≡ (if int_lt (pos 0) (wind *ℤ volume) then wind else pos 0) }
{
    if (wind as i128) * volume > 0 { wind } else { 0 }
}
