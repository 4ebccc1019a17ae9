//! The facets of a file, as C has them.
ghost use Rattle.std.specs.Prelude.{◌≡◌, ◌≤◌, ◌++◌, drop, length, map};
ghost use Rattle.stlslice_c.specs.Answers.{IsPutInFront};
ghost use Rattle.stlslice_c.specs.Facets.{coordinates, facet_told};

use crate::status::{DONE, NO_ROOM, Status};
use geometry::{Facet, Point};

/// The most facets of a file that are read: as many as a binary STL can count.
pub(crate) const MOST_FACETS: u32 = 4_294_967_295;

/// Puts facets into the front of a buffer, if they fit, and their number into `wanted`.
pub(crate) fn put_facets(
    found: &[Facet],
    facets: &mut [[[i32; 3]; 3]],
    wanted: &mut usize,
) -> Status
    ensures { IsPutInFront (map facet_told found.now) facets.old facets.new wanted.new result }
{
    *wanted = found.len();
    if found.len() > facets.len() {
        return NO_ROOM;
    }
    write_facets(found, facets);
    DONE
}

/// Writes facets into the front of a buffer that they fit.
fn write_facets(found: &[Facet], facets: &mut [[[i32; 3]; 3]])
    requires { length found.now ≤ length facets.old }
    ensures { facets.new ≡ map facet_told found.now ++ drop (length found.now) facets.old }
{
    for at in 0..found.len() {
        facets[at] = told(&found[at]);
    }
}

/// The facet as C has it.
fn told(facet: &Facet) -> [[i32; 3]; 3]
    ensures { result ≡ facet_told facet.now }
{
    [
        coordinates(facet.corner(0)),
        coordinates(facet.corner(1)),
        coordinates(facet.corner(2)),
    ]
}

/// The three coordinates of a point.
fn coordinates(point: Point) -> [i32; 3]
    ensures { result ≡ coordinates point }
{
    [point.x(), point.y(), point.z()]
}
