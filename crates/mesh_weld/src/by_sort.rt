//! The numbering of a solid by sorts of all corners and all half-edges. It serves meshes of every size, and finds the least
//! open edge if the half-edges do not balance.
ghost use Rattle.std.specs.Prelude.{◌≡◌, ◌≤◌, IfErr, IfOk, length};
ghost use Rattle.mesh_weld.specs.Balance.{IsBalanced};
ghost use Rattle.mesh_weld.specs.HalfEdge.{half_edges_from, ArePairNumbers};
ghost use Rattle.mesh_weld.specs.Numbering.{IsNumberingOf};
ghost use Rattle.mesh_weld.specs.Solid.{triples, vertices};
ghost use Rattle.mesh_weld.specs.Welding.{IsKeptFault};
ghost use Rattle.geometry.specs.declared.limits.TheConstants.{FACET_LIMIT};

mod corners;
mod edges;

use crate::by_sort::corners::{CornerNumbers, in_threes, number_corners};
use crate::by_sort::edges::{least_uneven, number_sorted, sorted_half_edges};
use crate::facets::open_edge;
use crate::half_edge::EdgeNumbering;
use crate::height_order::{list_ranges, order_by_height};
use crate::numbering::Numbering;
use crate::weld_fault::WeldFault;
use geometry::{Facet, Point};
use std::alloc::Allocator;

/// The numbering of the kept facets, if their half-edges balance.
pub(crate) fn sorted_numbering<A: Allocator + Copy>(
    alloc: A,
    kept: &[Facet],
    degenerate: &[Facet],
) -> Result<Numbering<A>, WeldFault>
    requires kept { length kept.now ≤ FACET_LIMIT }
    requires degenerate { length degenerate.now ≤ FACET_LIMIT }
    ensures numbering { IfOk result (IsNumberingOf kept.now) }
    ensures open { IfErr result (IsKeptFault kept.now degenerate.now) }
{
    let CornerNumbers {
        points,
        numbers: corners,
    } = number_corners(alloc, kept)?;
    let numbers = in_threes(alloc, corners.as_slice())?;
    let edges = number_edges(
        alloc,
        kept,
        degenerate,
        points.as_slice(),
        numbers.as_slice(),
    )?;
    let heights = order_by_height(alloc, list_ranges(alloc, kept)?)?;
    Ok(Numbering {
        points,
        numbers,
        edges,
        heights,
    })
}

/// The numbers of the kept facets' edges, if their half-edges balance.
fn number_edges<A: Allocator + Copy>(
    alloc: A,
    kept: &[Facet],
    degenerate: &[Facet],
    points: &[Point],
    numbers: &[[u32; 3]],
) -> Result<EdgeNumbering<A>, WeldFault>
    requires kept { length kept.now ≤ FACET_LIMIT }
    requires degenerate { length degenerate.now ≤ FACET_LIMIT }
    requires points { points.now ≡ vertices kept.now }
    requires numbers { numbers.now ≡ triples kept.now }
    ensures numbering { IfOk result (λ numbering. ArePairNumbers (half_edges_from 0 (triples kept.now)) numbering.numbers.items numbering.count) }
    ensures closed { IfOk result (λ numbering. IsBalanced kept.now) }
    ensures open { IfErr result (IsKeptFault kept.now degenerate.now) }
{
    let half_edges = sorted_half_edges(alloc, numbers)?;
    if let Some((low, high)) = least_uneven(half_edges.as_slice()) {
        return Err(open_edge(
            kept,
            degenerate,
            points[low as usize],
            points[high as usize],
        ));
    }
    Ok(number_sorted(alloc, numbers, half_edges.as_slice())?)
}
