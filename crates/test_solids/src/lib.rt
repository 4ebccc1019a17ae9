//! Solids of small meshes, for the tests of several crates.
#![tactic(auto)]

ghost use Rattle.std.specs.Prelude.{◌≡◌, IfOk, flat_map};
ghost use Rattle.mesh_weld.specs.Solid.{solid_of as solid_of_facets};
ghost use Rattle.geometry.specs.Indexed.{indexed_facets};

use geometry::Facet;
use mesh_weld::{Solid, WeldFault, weld};
use std::alloc::Allocator;
use test_meshes::{Part, facets_of};

/// The solid of the facets of a mesh, which are at most `ROOM`. `Err` if there are more of them, they are not closed,
/// or an allocation failed.
pub fn solid_of<A: Allocator + Copy + Send + Sync>(
    alloc: A,
    parts: &[Part<'_>],
) -> Result<Solid<A>, WeldFault>
    ensures { IfOk result (λ solid. solid ≡ solid_of_facets (flat_map (λ part. indexed_facets part.0.now part.1.now) parts.now)) }
{
    welded(alloc, facets_of(alloc, parts)?)
}

/// More facets than any test welds.
pub const ROOM: usize = 100_000;

/// The solid of at most `ROOM` facets. `Err` comes as for [`solid_of`].
pub fn welded<A: Allocator + Copy + Send + Sync>(
    alloc: A,
    list: Vec<Facet, A>,
) -> Result<Solid<A>, WeldFault>
    ensures { IfOk result (λ solid. solid ≡ solid_of_facets list.items) }
{
    if list.len() > ROOM {
        return Err(WeldFault::Memory);
    }
    weld(alloc, list)
}
