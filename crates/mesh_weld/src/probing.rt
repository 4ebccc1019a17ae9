//! Signed crossings of a solid by the rays from single centres, for checks of a slice from outside.
ghost use Rattle.std.specs.Prelude.{◌≡◌, ◌⊎◌};
ghost use Rattle.geometry.specs.Winding.{ray, ray_y};
ghost use Rattle.mesh_weld.specs.Balance.{IsBalanced};
ghost use Rattle.mesh_weld.specs.Probing.{NoneBetween, NoneTouches};

use crate::solid::Solid;
use exact_cut::{Centre, ray_hit, ray_hit_y};
use std::alloc::Allocator;

/// The signed crossings of the kept facets by the ray from a centre along x, and those by its ray along y. They are equal if no
/// kept facet touches the centre. Centres are in half-micrometres.
pub fn probe<A: Allocator>(solid: &Solid<A>, centre: &Centre) -> (i32, i32)
    ensures ray { result.0 ≡ ray solid.now.facets centre.now }
    ensures ray_y { result.1 ≡ ray_y solid.now.facets centre.now }
    ensures agree { NoneTouches solid.now.facets centre.now → result.0 ≡ result.1 }
{
    (crossings(solid, centre), crossings_along_y(solid, centre))
}

/// The signed crossings of the kept facets by the rays along x from two centres that differ in x alone, or in y alone. They are
/// equal if no point of a kept facet lies between the centres. Centres are in half-micrometres.
pub fn step<A: Allocator>(solid: &Solid<A>, start: &Centre, end: &Centre) -> (i32, i32)
    requires level { start.now.z ≡ end.now.z }
    requires straight { (start.now.x ≡ end.now.x) ⊎ (start.now.y ≡ end.now.y) }
    ensures start { result.0 ≡ ray solid.now.facets start.now }
    ensures end { result.1 ≡ ray solid.now.facets end.now }
    ensures no_leak { NoneBetween solid.now.facets start.now end.now → result.0 ≡ result.1 }
{
    (crossings(solid, start), crossings(solid, end))
}

/// The signed crossings by the ray along x.
fn crossings<A: Allocator>(solid: &Solid<A>, centre: &Centre) -> i32
    ensures value { result ≡ ray solid.now.facets centre.now }
    ensures closed { IsBalanced solid.now.facets }
{
    let mut sum: i32 = 0;
    for number in 0..solid.count() as u32 {
        sum += ray_hit(&solid.facet(number), centre);
    }
    sum
}

/// The signed crossings by the ray along y.
fn crossings_along_y<A: Allocator>(solid: &Solid<A>, centre: &Centre) -> i32
    ensures value { result ≡ ray_y solid.now.facets centre.now }
{
    let mut sum: i32 = 0;
    for number in 0..solid.count() as u32 {
        sum += ray_hit_y(&solid.facet(number), centre);
    }
    sum
}
