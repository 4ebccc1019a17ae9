//! Why there is no such screen, or why a part cannot stand on one.
ghost use Rattle.std.specs.Prelude.{◌≡◌, Some};
ghost use Rattle.part_on_screen.specs.ScreenFault.{screen_fault_text, turned_text};

use std::fmt::{self, Display, Formatter, Write};
use thiserror::Error;

/// Why there is no such screen, or why a part cannot stand on one.
#[derive(Clone, Copy, Debug, PartialEq, Eq, Error)]
pub enum ScreenFault {
    /// The screen has no columns or no rows.
    NoPixels,
    /// The screen has more than `COLUMN_LIMIT` columns or rows.
    TooManyPixels {
        columns: u32,
        rows: u32,
    },
    /// A side of a pixel has a 0.
    NoSide,
    /// No whole number of micrometres up to `STEP_LIMIT` is a whole number of both sides of a pixel.
    NoPitch,
    /// The part has no facets, but for degenerate ones.
    NoFacets,
    /// A multiplied coordinate of the part is more than `COORDINATE_LIMIT` from 0.
    OutOfRange,
    /// The part is wider or deeper than the screen. Sizes are in micrometres: those of the part as it is turned, and those of
    /// the screen, rounded down.
    DoesNotFit {
        width: u64,
        depth: u64,
        screen_width: u64,
        screen_depth: u64,
        /// Whether it fits if it is turned by a quarter more, or less.
        fits_turned: bool,
    },
    /// A corner of the screen, with the part in its middle, is more than `COORDINATE_LIMIT` from 0, in multiplied micrometres.
    ScreenOutOfRange,
    /// The part has more than `LAYER_LIMIT` layers.
    TooHigh {
        layers: u32,
    },
}

impl Display for ScreenFault {
    ghost output = { λ fault. Some (screen_fault_text fault) };

    fn fmt<W: Write>(&self, f: &mut Formatter<W>) -> fmt::Result {
        match self {
            ScreenFault::NoPixels => f.write_str("screen has no pixels"),
            ScreenFault::TooManyPixels { columns, rows } => {
                write!(f, "screen too large: {columns} columns, {rows} rows")
            }
            ScreenFault::NoSide => f.write_str("pixel has no size"),
            ScreenFault::NoPitch => f.write_str(
                "no whole number of micrometres up to 100000 is a multiple of both sides of a pixel",
            ),
            ScreenFault::NoFacets => f.write_str("no facet is left"),
            ScreenFault::OutOfRange => f.write_str("part too far from the origin for these pixels"),
            ScreenFault::DoesNotFit {
                width,
                depth,
                screen_width,
                screen_depth,
                fits_turned,
            } => {
                let turned = turned_text(*fits_turned);
                write!(
                    f,
                    "part does not fit: {width} x {depth} micrometres on a screen of {screen_width} x {screen_depth}; {turned}"
                )
            }
            ScreenFault::ScreenOutOfRange => f.write_str(
                "part too far from the origin for this screen",
            ),
            ScreenFault::TooHigh { layers } => write!(f, "part too high: {layers} layers"),
        }
    }
}

/// What a quarter turn makes of a part that does not fit.
fn turned_text(fits_turned: bool) -> &'static str
    ensures { result.now ≡ turned_text fits_turned }
{
    if fits_turned {
        "turned by a quarter it fits"
    } else {
        "turned by a quarter it does not fit either"
    }
}
