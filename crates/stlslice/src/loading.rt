//! The closed mesh of a text in memory.
ghost use Rattle.std.specs.Prelude.{◌≡◌, IfErr, IfOk, List};
ghost use Rattle.geometry.specs.Facet.{Facet};
ghost use Rattle.geometry.specs.declared.limits.TheConstants.{FACET_LIMIT};
ghost use Rattle.mesh_weld.specs.Balance.{IsBalanced};
ghost use Rattle.mesh_weld.specs.Solid.{solid_of};
ghost use Rattle.stl_text.specs.Text.{Reads};
ghost use Rattle.mesh_reading.specs.Loading.{IsLoadFault};
ghost use Rattle.mesh_reading.specs.declared.read_fault.ReadFault.{ReadFault};
ghost use Rattle.stlslice.specs.RunFault.{of_read};
ghost use Rattle.stlslice.specs.declared.run_fault.RunFault.TheVariants.{Memory};

use crate::run_fault::RunFault;
use mesh_weld::Solid;
use micro_num::Unit;
use std::alloc::Allocator;

/// The closed mesh of an ASCII STL text whose numbers are in `unit`. Facets with two equal corners are dropped.
///
/// # Errors
/// In this order:
/// - `Stl` if the text does not read as facets,
/// - `Open` if the edges of all its facets do not balance.
///
/// `Memory` comes only if an allocation failed. No other fault comes.
pub fn load<A: Allocator + Copy + Send + Sync>(
    alloc: A,
    bytes: &[u8],
    unit: Unit,
) -> Result<Solid<A>, RunFault>
    ensures ok { IfOk result (λ solid. (facets : List Facet) × Reads FACET_LIMIT unit bytes.now facets
        × IsBalanced facets × (solid ≡ solid_of facets)) }
    ensures fault { IfErr result (λ fault. (cause : ReadFault) × (fault ≡ of_read cause) × IsLoadFault unit bytes.now cause) }
    ensures only { (facets : List Facet) → Reads FACET_LIMIT unit bytes.now facets → IsBalanced facets
        → IfErr result (λ fault. fault ≡ Memory) }
{
    Ok(mesh_reading::load(alloc, bytes, unit)?)
}
