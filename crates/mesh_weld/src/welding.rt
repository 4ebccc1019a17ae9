//! Welding of a list of facets.
ghost use Rattle.std.specs.Prelude.{◌≡◌, ◌≤◌, IfErr, IfOk, vec_len};
ghost use Rattle.geometry.specs.Point.{Point};
ghost use Rattle.geometry.specs.Winding.{ray};
ghost use Rattle.mesh_weld.specs.Balance.{IsBalanced};
ghost use Rattle.mesh_weld.specs.Solid.{solid_of};
ghost use Rattle.mesh_weld.specs.Welding.{IsWeldFault};
ghost use Rattle.mesh_weld.specs.declared.weld_fault.WeldFault.TheVariants.{Memory};
ghost use Rattle.geometry.specs.declared.limits.TheConstants.{FACET_LIMIT};

use crate::solid::Solid;
use crate::weld_fault::WeldFault;
use crate::welder::Welder;
use geometry::Facet;
use std::alloc::Allocator;

/// The solid of closed facets, at most `FACET_LIMIT` of them. Unless an allocation fails, it succeeds exactly if the
/// half-edges of all facets balance. Degenerate facets, those with two equal corners, are dropped. The list is consumed, also
/// if welding fails.
///
/// # Errors
/// `Open` with the least pair of points between which the half-edges do not balance, and the numbers of those there and back.
/// `Memory` only if an allocation failed.
pub fn weld<A: Allocator + Copy + Send + Sync>(
    alloc: A,
    facets: Vec<Facet, A>,
) -> Result<Solid<A>, WeldFault>
    requires { vec_len facets ≤ FACET_LIMIT }
    ensures kept { IfOk result (λ solid. solid ≡ solid_of facets.items) }
    ensures closed { IfOk result (λ solid. IsBalanced facets.items) }
    ensures ray { IfOk result (λ solid. (c : Point) → ray solid.facets c ≡ ray facets.items c) }
    ensures open { IfErr result (IsWeldFault facets.items) }
    ensures only { IsBalanced facets.items → IfErr result (λ fault. fault ≡ Memory) }
{
    let mut welder = Welder::new(alloc);
    let added = welder.add(facets.as_slice());
    drop(facets);
    added?;
    welder.finish()
}
