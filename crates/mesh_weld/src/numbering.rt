//! The numbering of a solid: by hashes and chains if these serve, otherwise by sorts.
ghost use Rattle.std.specs.Prelude.{◌≡◌, ◌≤◌, ◌<◌, IfErr, IfOk, IfSome, length, map};
ghost use Rattle.std.specs.List.{All};
ghost use Rattle.mesh_weld.specs.CornerIds.{ranks_of};
ghost use Rattle.mesh_weld.specs.Grouping.{AreEdgesOf, AreOrdersOf};
ghost use Rattle.mesh_weld.specs.Numbering.{IsNumberingOf};
ghost use Rattle.mesh_weld.specs.Solid.{facets_by};
ghost use Rattle.mesh_weld.specs.Welder.{AreBelow, AreNamed};
ghost use Rattle.mesh_weld.specs.Welding.{IsKeptFault};
ghost use Rattle.geometry.specs.declared.limits.TheConstants.{FACET_LIMIT};

use crate::by_hash::{Grouping, Orders, PointOrder};
use crate::by_sort::sorted_numbering;
use crate::facets::list_facets;
use crate::half_edge::EdgeNumbering;
use crate::height_order::HeightOrder;
use crate::weld_fault::WeldFault;
use geometry::{Facet, Point};
use std::alloc::{AllocError, Allocator};

/// The result of both ways of numbering: a solid's vertices, the numbers of its facets' corners and edges, and its facets'
/// order by height with what goes with it.
#[derive(Drop)]
pub(crate) struct Numbering<A: Allocator> {
    pub(crate) points: Vec<Point, A>,
    pub(crate) numbers: Vec<[u32; 3], A>,
    /// Three numbers for each facet, one facet after the other.
    pub(crate) edges: EdgeNumbering<A>,
    pub(crate) heights: HeightOrder<A>,
}

/// The numbering of the kept facets, which are given by ids, if their half-edges balance. It comes from their grouping if there
/// is one, else from sorts. It fails if the grouping failed.
pub(crate) fn named_numbering<A: Allocator + Copy>(
    alloc: A,
    points: Vec<Point, A>,
    ids: Vec<[u32; 3], A>,
    degenerate: &[Facet],
    found: Result<Option<Grouping<A>>, AllocError>,
) -> Result<Numbering<A>, WeldFault>
    requires named { AreNamed points.items ids.items }
    requires kept { length ids.items ≤ FACET_LIMIT }
    requires degenerate { length degenerate.now ≤ FACET_LIMIT }
    requires edges { IfOk found (λ some. IfSome some (λ own. AreEdgesOf ids.items own.edges.numbers.items own.edges.count)) }
    requires orders { IfOk found (λ some. IfSome some (λ own. AreOrdersOf points.items ids.items own.orders)) }
    ensures numbering { IfOk result (IsNumberingOf (facets_by points.items ids.items)) }
    ensures open { IfErr result (IsKeptFault (facets_by points.items ids.items) degenerate.now) }
{
    match found {
        Ok(Some(found)) => Ok(numbered(points, ids, found)),
        Ok(None) => numbering_by_sorts(alloc, points, ids, degenerate),
        Err(_) => Err(WeldFault::Memory),
    }
}

/// The numbering of facets that are given by ids, from their grouping.
fn numbered<A: Allocator>(
    points: Vec<Point, A>,
    mut ids: Vec<[u32; 3], A>,
    found: Grouping<A>,
) -> Numbering<A>
    requires named { AreNamed points.items ids.items }
    requires edges { AreEdgesOf ids.items found.edges.numbers.items found.edges.count }
    requires orders { AreOrdersOf points.items ids.items found.orders }
    ensures { IsNumberingOf (facets_by points.items ids.items) result }
{
    drop(points);
    let Grouping {
        edges,
        orders: Orders {
            points: PointOrder {
                points: ordered,
                ranks,
            },
            heights,
        },
    } = found;
    renumber(&mut ids, ranks.as_slice());
    Numbering {
        points: ordered,
        numbers: ids,
        edges,
        heights,
    }
}

/// Replaces each id by its rank.
fn renumber<A: Allocator>(ids: &mut Vec<[u32; 3], A>, ranks: &[u32])
    requires { All (All (λ id. id < length ranks.now)) ids.old.items }
    ensures { ids.new.items ≡ map (ranks_of ranks.now) ids.old.items }
{
    for at in 0..ids.len() {
        let [first, second, third] = ids[at];
        ids[at] = [
            ranks[first as usize],
            ranks[second as usize],
            ranks[third as usize],
        ];
    }
}

/// The numbering of facets by sorts, from a list of them.
fn numbering_by_sorts<A: Allocator + Copy>(
    alloc: A,
    points: Vec<Point, A>,
    ids: Vec<[u32; 3], A>,
    degenerate: &[Facet],
) -> Result<Numbering<A>, WeldFault>
    requires below { AreBelow points.items ids.items }
    requires kept { length ids.items ≤ FACET_LIMIT }
    requires degenerate { length degenerate.now ≤ FACET_LIMIT }
    ensures numbering { IfOk result (IsNumberingOf (facets_by points.items ids.items)) }
    ensures open { IfErr result (IsKeptFault (facets_by points.items ids.items) degenerate.now) }
{
    let kept = list_facets(alloc, points.as_slice(), ids.as_slice())?;
    drop(points);
    drop(ids);
    sorted_numbering(alloc, kept.as_slice(), degenerate)
}
