//! The limits of jobs. Clauses and definitions cite these names.
use geometry::{COLUMN_LIMIT, LAYER_LIMIT};

/// The number of layers of a stripe; the last one may have fewer.
pub const STRIPE_LAYERS: u32 = 8;

/// The count of stripes of a job with the most layers: 8,192.
pub const MOST_STRIPES: u32 = (LAYER_LIMIT + STRIPE_LAYERS - 1) / STRIPE_LAYERS;

/// The greatest count of a grid's voxels. The areas of a job's layers sum to no more than this.
pub(crate) const VOXEL_LIMIT: u64 = (LAYER_LIMIT as u64)
    * (COLUMN_LIMIT as u64)
    * (COLUMN_LIMIT as u64);
