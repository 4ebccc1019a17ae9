//! The limits as the documents publish them, stated here a second time, so that a limit changed by mistake fails a test.

/// The greatest distance of a coordinate from 0, in micrometres.
pub const FARTHEST: i32 = 128_000_000;

/// The greatest distance of a centre's coordinate from 0, in half-micrometres.
pub const FARTHEST_CENTRE: i64 = 256_200_000;

/// The greatest count of columns, and of rows.
pub const MOST_COLUMNS: u32 = 16_384;

/// The greatest count of layers.
pub const MOST_LAYERS: u32 = 65_535;

/// The greatest pitch, and the greatest layer height, in micrometres.
pub const GREATEST_STEP: u32 = 100_000;

/// A millimetre, in micrometres.
pub const MILLIMETRE: i32 = 1_000;

/// An inch, in micrometres.
pub const INCH: i32 = 25_400;
