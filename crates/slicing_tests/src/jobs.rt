//! Jobs of small meshes, for the tests that need one.
ghost use Rattle.std.specs.Prelude.{◌≤◌};

use build_book::Job;
use raster::{Grid, Rule};
use std::alloc::{AllocError, Allocator};
use test_meshes::Part;
use test_solids::solid_of;

/// The job of a mesh, with voxels of one size in micrometres. `Err` only if an allocation failed.
pub(crate) fn job_of<A: Allocator + Copy + Send + Sync>(
    alloc: A,
    parts: &[Part<'_>],
    size: u32,
    rule: Rule,
) -> Result<Job<A>, AllocError>
    requires size { 1 ≤ size }
    requires size_high { size ≤ 2 }
{
    let Ok(solid) = solid_of(alloc, parts) else {
        return Err(AllocError);
    };
    match Grid::fit(&solid, size, size) {
        Ok(grid) => Ok(Job::new(solid, grid, rule)),
        Err(_) => Err(AllocError),
    }
}
