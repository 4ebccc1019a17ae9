//! The form of a binary STL: its count of facets, and the length that this takes.
ghost use Rattle.std.specs.Prelude.{◌≡◌, ◌<◌, ◌≤◌, ◌+◌, ◌↔◌, IfErr, IfOk, IsTrue, OnOk, length};
ghost use Rattle.micro_num.specs.declared.unit.Unit.{Unit as LengthUnit};
ghost use Rattle.binary_stl.specs.Binary.{IsBinary, IsFaultOfBinary, facet_count, is_binary, length_of, number_from};
ghost use Rattle.binary_stl.specs.declared.limits.TheConstants.{FACETS_START, NUMBER_LEN};

use crate::binary_fault::BinaryFault;
use crate::limits::{COUNT_START, FACET_LEN, FACETS_START};

/// Whether bytes have the length that their count of facets takes. If so, they are a binary STL; other bytes may be a text.
///
/// No shorter text than one of 7 GB is a binary STL ([`no_text`](crate::no_text)), except one whose bytes 80 to 83 imitate a count.
pub fn is_binary(bytes: &[u8]) -> bool
    ensures form { IsTrue result ↔ IsBinary bytes.now }
    ensures value { result ≡ is_binary bytes.now }
{
    bytes.len() >= FACETS_START && bytes.len() as u64 == length_of(count(bytes))
}

/// The number of four bytes, low byte first.
#[inline(always)]
pub(crate) fn number(bytes: &[u8], at: usize) -> u32
    requires { at + NUMBER_LEN ≤ length bytes.now }
    ensures { result ≡ number_from bytes.now at }
{
    u32::from_le_bytes([bytes[at], bytes[at + 1], bytes[at + 2], bytes[at + 3]])
}

/// The count of facets, as the bytes have it.
fn count(bytes: &[u8]) -> u32
    requires { FACETS_START ≤ length bytes.now }
    ensures { result ≡ facet_count bytes.now }
{
    number(bytes, COUNT_START)
}

/// The length of a binary STL of so many facets, in bytes.
fn length_of(facets: u32) -> u64
    ensures { result ≡ length_of facets }
{
    FACETS_START as u64 + FACET_LEN as u64 * u64::from(facets)
}

/// The count of facets of a binary STL, of which at most `limit` are read.
pub(crate) fn checked_count(bytes: &[u8], limit: u32) -> Result<usize, BinaryFault>
    ensures count { IfOk result (λ n. n ≡ facet_count bytes.now) }
    ensures few { IfOk result (λ n. n ≤ limit) }
    ensures form { OnOk result (IsBinary bytes.now) }
    ensures fault { IfErr result (λ f. (unit : LengthUnit) → IsFaultOfBinary limit unit bytes.now f) }
{
    let found = bytes.len();
    if found < FACETS_START {
        return Err(BinaryFault::Ended);
    }
    let facets = count(bytes);
    let wanted = length_of(facets);
    if wanted != found as u64 {
        return Err(BinaryFault::Length {
            facets,
            wanted,
            found,
        });
    }
    if facets > limit {
        return Err(BinaryFault::TooMany { facets });
    }
    Ok(facets as usize)
}
