//! The numbering of large meshes by hashes, chains and groups; `by_sort` does the same by comparisons.
//!
//! A hash table gives each corner an id as the facets come, and compares it with the point of that id. Chains by lesser ends
//! number the edges of each list of facets when its corners have their ids. At the end counting sorts bring the points into
//! order by groups of x, and the facets by groups of height.
//!
//! No contract speaks of a hash or a group: that would take long proofs, and is not needed. A check shows that the points and
//! the keys of the facets ascend strictly; it fails if a point has two ids. The sorts do the work again if a check fails, a
//! chain of the table or of edges grows too long, or the half-edges do not balance.
ghost use Rattle.std.specs.Prelude.{◌≡◌, ◌≤◌, IfOk, IfSome, length};
ghost use Rattle.mesh_weld.specs.EdgeChains.{AreInHalfWords};
ghost use Rattle.mesh_weld.specs.Grouping.{AreEdgesOf, AreOrdersOf};
ghost use Rattle.mesh_weld.specs.HalfEdge.{half_edges_from, ArePairNumbers};
ghost use Rattle.mesh_weld.specs.Solid.{facets_by, height_ranges};
ghost use Rattle.geometry.specs.declared.limits.TheConstants.{FACET_LIMIT};

mod corner_table;
mod edges;
mod height_groups;
mod histogram;
mod numbered_facets;
mod point_order;

pub(crate) use crate::by_hash::corner_table::{BLOCK, CornerTable, facet_ids};
use crate::by_hash::edges::balanced_edges;
pub(crate) use crate::by_hash::height_groups::counted_order;
pub(crate) use crate::by_hash::histogram::NONE;
pub(crate) use crate::by_hash::numbered_facets::NumberedFacets;
pub(crate) use crate::by_hash::point_order::PointOrder;
use crate::by_hash::point_order::rank_points;
use crate::half_edge::EdgeNumbering;
use crate::height_order::{HeightOrder, HeightRange, order_by_height};
use geometry::Point;
use std::alloc::{AllocError, Allocator};
use std::thread::{Threads, join};

/// The result of grouping facets that are given by ids: the numbers of their edges, and the orders of points and facets.
#[derive(Drop)]
pub(crate) struct Grouping<A: Allocator> {
    pub(crate) edges: EdgeNumbering<A>,
    pub(crate) orders: Orders<A>,
}

/// The points in their order, and the facets by height.
#[derive(Drop)]
pub(crate) struct Orders<A: Allocator> {
    pub(crate) points: PointOrder<A>,
    pub(crate) heights: HeightOrder<A>,
}

/// Puts the points and the facets in order, if the half-edges balance by the numbers of their edges (`numbering`). The facets
/// are given by ids among the points, and by their height ranges. `None` if there is no `numbering`, the half-edges do not balance, or the points cannot be
/// put in order. Then sorts must serve.
pub(crate) fn group_facets<A: Allocator + Copy>(
    alloc: A,
    points: &[Point],
    ids: &[[u32; 3]],
    ranges: Vec<HeightRange, A>,
    numbering: Option<EdgeNumbering<A>>,
) -> Result<Option<Grouping<A>>, AllocError>
    requires few { length ids.now ≤ FACET_LIMIT }
    requires ranges { ranges.items ≡ height_ranges (facets_by points.now ids.now) }
    requires numbering { IfSome numbering (λ own. ArePairNumbers (half_edges_from 0 ids.now) own.numbers.items own.count) }
    requires small { IfSome numbering (λ own. AreInHalfWords (half_edges_from 0 ids.now)) }
    ensures edges { IfOk result (λ found. IfSome found (λ own. AreEdgesOf ids.now own.edges.numbers.items own.edges.count)) }
    ensures orders { IfOk result (λ found. IfSome found (λ own. AreOrdersOf points.now ids.now own.orders)) }
{
    let Some(numbering) = numbering else {
        return Ok(None);
    };
    let Some(edges) = balanced_edges(alloc, ids, numbering)? else {
        return Ok(None);
    };
    let Some(orders) = orders_of(alloc, points, ids, ranges)? else {
        return Ok(None);
    };
    Ok(Some(Grouping { edges, orders }))
}

/// [`group_facets`] by three threads at the same time. The caller's own thread tests the balance.
pub(crate) fn group_facets_by<R: Threads + Sync, A: Allocator + Copy + Send + Sync>(
    rt: &R,
    alloc: A,
    points: &[Point],
    ids: &[[u32; 3]],
    ranges: Vec<HeightRange, A>,
    numbering: Option<EdgeNumbering<A>>,
) -> Result<Option<Grouping<A>>, AllocError>
    requires few { length ids.now ≤ FACET_LIMIT }
    requires ranges { ranges.items ≡ height_ranges (facets_by points.now ids.now) }
    requires numbering { IfSome numbering (λ own. ArePairNumbers (half_edges_from 0 ids.now) own.numbers.items own.count) }
    requires small { IfSome numbering (λ own. AreInHalfWords (half_edges_from 0 ids.now)) }
    ensures edges { IfOk result (λ found. IfSome found (λ own. AreEdgesOf ids.now own.edges.numbers.items own.edges.count)) }
    ensures orders { IfOk result (λ found. IfSome found (λ own. AreOrdersOf points.now ids.now own.orders)) }
{
    let Some(numbering) = numbering else {
        return Ok(None);
    };
    let (heights, (ranked, edges)) = join(
        rt,
        || order_by_height(alloc, ranges),
        ||
            requires few { length ids.now ≤ FACET_LIMIT }
            requires numbering { ArePairNumbers (half_edges_from 0 ids.now) numbering.numbers.items numbering.count }
            requires small { AreInHalfWords (half_edges_from 0 ids.now) }
        {
            join(
                rt,
                || rank_points(alloc, points),
                || balanced_edges(alloc, ids, numbering),
            )
        },
    );
    let (Some(points), Some(edges)) = (ranked?, edges?) else {
        return Ok(None);
    };
    let orders = Orders {
        points,
        heights: heights?,
    };
    Ok(Some(Grouping { edges, orders }))
}

/// The points in their order, and the facets by height; `None` if the points get no order. The heights go first, since they
/// leave less memory in use.
fn orders_of<A: Allocator + Copy>(
    alloc: A,
    points: &[Point],
    ids: &[[u32; 3]],
    ranges: Vec<HeightRange, A>,
) -> Result<Option<Orders<A>>, AllocError>
    requires few { length ids.now ≤ FACET_LIMIT }
    requires ranges { ranges.items ≡ height_ranges (facets_by points.now ids.now) }
    ensures { IfOk result (λ found. IfSome found (λ own. AreOrdersOf points.now ids.now own)) }
{
    let heights = order_by_height(alloc, ranges)?;
    let Some(points) = rank_points(alloc, points)? else {
        return Ok(None);
    };
    Ok(Some(Orders { points, heights }))
}
