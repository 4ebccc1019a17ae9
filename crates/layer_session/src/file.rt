//! Reading a file, which is a binary STL or an ASCII STL text.
ghost use Rattle.std.specs.Prelude.{◌≡◌, ◌≤◌, IfErr, IfOk, List, vec_len};
ghost use Rattle.geometry.specs.Facet.{Facet};
ghost use Rattle.geometry.specs.declared.limits.TheConstants.{FACET_LIMIT};
ghost use Rattle.layer_session.specs.Session.{IsFaultOfFile, ReadsFile};
ghost use Rattle.layer_session.specs.declared.session_fault.SessionFault.TheVariants.{Memory};

use crate::session_fault::SessionFault;
use binary_stl::{is_binary, read_binary_at_most};
use geometry::{FACET_LIMIT, Facet};
use micro_num::Unit;
use std::alloc::Allocator;
use stl_text::read_stl_at_most;

/// The facets of a file, in its order, at most `limit` of them. Bytes with the length that their count of facets takes
/// ([`is_binary`]) are read as a binary STL ([`read_binary_at_most`]), and all others as an ASCII STL text
/// ([`read_stl_at_most`]).
///
/// # Errors
/// - `Binary` if the bytes are read as a binary STL and are no facets: the count is above `limit`, or a number stands for no
///   coordinate,
/// - `Stl` if they are read as a text and are no facets.
///
/// `Memory` comes only if an allocation failed. No other fault comes.
pub fn read_file_at_most<A: Allocator + Copy + Send + Sync>(
    alloc: A,
    bytes: &[u8],
    limit: u32,
    unit: Unit,
) -> Result<Vec<Facet, A>, SessionFault>
    ensures found { IfOk result (λ facets. ReadsFile limit unit bytes.now facets.items) }
    ensures few { IfOk result (λ facets. vec_len facets ≤ limit) }
    ensures fault { IfErr result (IsFaultOfFile limit unit bytes.now) }
    ensures only { (facets : List Facet) → ReadsFile limit unit bytes.now facets → IfErr result (λ fault. fault ≡ Memory) }
{
    if is_binary(bytes) {
        Ok(read_binary_at_most(alloc, bytes, limit, unit)?)
    } else {
        Ok(read_stl_at_most(alloc, bytes, limit, unit)?)
    }
}

/// The facets of a file, in its order, at most [`FACET_LIMIT`] of them: [`read_file_at_most`] with this limit.
pub fn read_file<A: Allocator + Copy + Send + Sync>(
    alloc: A,
    bytes: &[u8],
    unit: Unit,
) -> Result<Vec<Facet, A>, SessionFault>
    ensures found { IfOk result (λ facets. ReadsFile FACET_LIMIT unit bytes.now facets.items) }
    ensures few { IfOk result (λ facets. vec_len facets ≤ FACET_LIMIT) }
    ensures fault { IfErr result (IsFaultOfFile FACET_LIMIT unit bytes.now) }
    ensures only { (facets : List Facet) → ReadsFile FACET_LIMIT unit bytes.now facets
        → IfErr result (λ fault. fault ≡ Memory) }
{
    read_file_at_most(alloc, bytes, FACET_LIMIT, unit)
}
