//! The layout of a binary STL, in bytes. Clauses and definitions cite these constants.

/// Where the count of facets begins: after a header of any bytes.
pub const COUNT_START: usize = 80;

/// Where the first facet begins: after the count.
pub const FACETS_START: usize = COUNT_START + NUMBER_LEN;

/// The length of a facet: a normal, three corners and two bytes for attributes.
pub const FACET_LEN: usize = 4 * CORNER_LEN + 2;

/// The length of a normal or a corner: three numbers.
pub const CORNER_LEN: usize = 3 * NUMBER_LEN;

/// The length of a number, and of the count.
pub const NUMBER_LEN: usize = 4;

/// No text that is shorter than this, in bytes, has the length that its bytes 80 to 83 take as a count. The least of such counts
/// has four tabs.
pub const TEXT_LIMIT: u64 = FACETS_START as u64 + FACET_LEN as u64 * 0x0909_0909;
