//! Half-edges sorted by their two ends. Those with the same ends are side by side, so one pass finds the least open edge, and
//! one more numbers the edges.
ghost use Rattle.std.specs.Prelude.{◌≡◌, ◌≤◌, IfOk, OnOk, MatchOption, ◌++◌, ◌∷◌, [], length, vec_len};
ghost use Rattle.std.specs.List.Sorted.{IsPermutation, IsNonDecreasingBy};
ghost use Rattle.mesh_weld.specs.HalfEdge.{half_edges_from, pair_key, IsEven, IsLeastUneven, ArePairNumbers};
ghost use Rattle.geometry.specs.declared.limits.TheConstants.{CORNER_LIMIT, FACET_LIMIT};

use crate::half_edge::{EdgeNumbering, HalfEdge};
use crate::same_ends::SameEnds;
use std::alloc::{AllocError, Allocator};

/// The half-edges of the facets, in their order.
fn list_half_edges<A: Allocator + Copy>(
    alloc: A,
    triples: &[[u32; 3]],
) -> Result<Vec<HalfEdge, A>, AllocError>
    requires { length triples.now ≤ FACET_LIMIT }
    ensures { IfOk result (λ list. list.items ≡ half_edges_from 0 triples.now) }
{
    let mut list = Vec::with_capacity(alloc, 3 * triples.len())?;
    for triple in triples {
        push_half_edge(&mut list, triple[0], triple[1])?;
        push_half_edge(&mut list, triple[1], triple[2])?;
        push_half_edge(&mut list, triple[2], triple[0])?;
    }
    Ok(list)
}

/// Appends a half-edge, with the next slot.
fn push_half_edge<A: Allocator>(
    list: &mut Vec<HalfEdge, A>,
    from: u32,
    to: u32,
) -> Result<(), AllocError>
    requires { vec_len list.old ≤ CORNER_LIMIT }
    ensures { OnOk result (list.new.items ≡ list.old.items ++ (record { from = from; to = to; slot = vec_len list.old }) ∷ []) }
{
    let slot = list.len() as u32;
    list.push(HalfEdge { from, to, slot })?;
    Ok(())
}

/// Sorts half-edges by their two ends, whatever their direction.
fn sort_half_edges<A: Allocator>(list: &mut Vec<HalfEdge, A>)
    ensures permuted { IsPermutation list.old.items list.new.items }
    ensures ascending { IsNonDecreasingBy pair_key list.new.items }
{
    list.sort_unstable_by_key(|half_edge| half_edge.pair());
}

/// The half-edges of the facets, sorted by their two ends, whatever their direction.
pub(crate) fn sorted_half_edges<A: Allocator + Copy>(
    alloc: A,
    triples: &[[u32; 3]],
) -> Result<Vec<HalfEdge, A>, AllocError>
    requires { length triples.now ≤ FACET_LIMIT }
    ensures permuted { IfOk result (λ list. IsPermutation (half_edges_from 0 triples.now) list.items) }
    ensures ascending { IfOk result (λ list. IsNonDecreasingBy pair_key list.items) }
{
    let mut list = list_half_edges(alloc, triples)?;
    sort_half_edges(&mut list);
    Ok(list)
}

/// The least pair of ends, lesser end first, between which the half-edges there and back differ in number.
pub(crate) fn least_uneven(sorted: &[HalfEdge]) -> Option<(u32, u32)>
    requires limit { length sorted.now ≤ CORNER_LIMIT }
    requires ascending { IsNonDecreasingBy pair_key sorted.now }
    ensures { MatchOption result (IsEven sorted.now) (λ ends. IsLeastUneven sorted.now ends.0 ends.1) }
{
    let mut run = SameEnds::NONE;
    for half_edge in sorted {
        if !run.has_ends_of(half_edge) {
            if run.there != run.back {
                return Some((run.low, run.high));
            }
            run = SameEnds::started(half_edge);
        }
        run = run.counted(half_edge);
    }
    if run.there == run.back {
        None
    } else {
        Some((run.low, run.high))
    }
}

/// Numbers the distinct pairs of ends from 0 up, and gives each half-edge the number of its pair.
pub(crate) fn number_sorted<A: Allocator + Copy>(
    alloc: A,
    triples: &[[u32; 3]],
    sorted: &[HalfEdge],
) -> Result<EdgeNumbering<A>, AllocError>
    requires limit { length triples.now ≤ FACET_LIMIT }
    requires permuted { IsPermutation (half_edges_from 0 triples.now) sorted.now }
    requires ascending { IsNonDecreasingBy pair_key sorted.now }
    ensures { IfOk result (λ numbering. ArePairNumbers (half_edges_from 0 triples.now) numbering.numbers.items numbering.count) }
{
    let mut numbers = vec![in alloc; 0; 3 * triples.len()]?;
    let mut count = 0;
    let mut last = 0;
    for half_edge in sorted {
        let pair = half_edge.pair();
        if count == 0 || pair != last {
            count += 1;
            last = pair;
        }
        numbers[half_edge.slot as usize] = count - 1;
    }
    Ok(EdgeNumbering { numbers, count })
}
