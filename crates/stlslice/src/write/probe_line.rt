//! The output of `--probe`: the rays along x and y at a voxel.
ghost use Rattle.std.specs.Prelude.{◌≡◌, ◌⊎◌, Err, IfErr, IfOk, Ok, string_bytes};
ghost use Rattle.stlslice.specs.Outcome.{probed_text};
ghost use Rattle.stlslice.specs.declared.run_fault.RunFault.TheVariants.{Memory, Outside};

use crate::run_fault::RunFault;
use mesh_weld::{Solid, probe};
use raster::Grid;
use std::alloc::Allocator;

/// The line on the signed crossings along x and y from the centre of a voxel. The fault is `Outside` if the grid has no such
/// voxel.
pub(crate) fn probe_line<A: Allocator + Copy + Send + Sync>(
    alloc: A,
    solid: &Solid<A>,
    grid: &Grid,
    i: u32,
    j: u32,
    k: u32,
) -> Result<String<A>, RunFault>
    ensures ok { IfOk result (λ line. Ok (string_bytes line) ≡ probed_text i j k solid.now.facets grid.now) }
    ensures err { IfErr result (λ fault. (fault ≡ Memory) ⊎ (fault ≡ Outside grid.now.columns grid.now.rows grid.now.layers)
        × (Err fault ≡ probed_text i j k solid.now.facets grid.now)) }
{
    if i < grid.columns() && j < grid.rows() && k < grid.layers() {
        let (x, y) = probe(solid, &grid.centre(i, j, k));
        Ok(format!(in alloc; "voxel {i} {j} {k} x {x} y {y}\n")?)
    } else {
        Err(RunFault::Outside {
            columns: grid.columns(),
            rows: grid.rows(),
            layers: grid.layers(),
        })
    }
}
