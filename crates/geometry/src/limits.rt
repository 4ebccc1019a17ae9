//! The limits of coordinates, grids and meshes. The clauses and definitions of all crates cite these constants.

/// The greatest distance of a mesh's coordinate from 0, in micrometres: 128 metres.
pub const COORDINATE_LIMIT: u64 = 128_000_000;

/// The greatest distance of a centre's coordinate from 0, in half-micrometres: the limit of a mesh plus one pitch, 256,200,000.
pub const CENTRE_LIMIT: u64 = 2 * COORDINATE_LIMIT + 2 * (STEP_LIMIT as u64);

/// The greatest pitch and the greatest layer height, in micrometres.
pub const STEP_LIMIT: u32 = 100_000;

/// The greatest count of columns, and of rows.
pub const COLUMN_LIMIT: u32 = 16_384;

/// The greatest count of layers.
pub const LAYER_LIMIT: u32 = 65_535;

/// The greatest count of facets that are read.
pub const FACET_LIMIT: u32 = 1_048_576;

/// The greatest count of corners of a mesh, and of its half-edges: three per facet, 3,145,728.
pub const CORNER_LIMIT: u32 = 3 * FACET_LIMIT;
