//! The limits of claims. Clauses and definitions cite these names.

/// The greatest count of stripes. No job has more: `layer_pool` proves that where it opens claims.
pub const STRIPE_LIMIT: u64 = 8_192;

/// The greatest count of passes, and so of workers, which have one pass each.
pub const PASS_LIMIT: u32 = 64;
