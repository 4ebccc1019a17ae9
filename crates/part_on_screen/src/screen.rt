//! Screens: their pixels, and how parts are multiplied and turned for them.
ghost use Rattle.std.specs.Prelude.{◌≡◌, ◌≤◌, IfErr, IfOk};
ghost use Rattle.geometry.specs.Limits.{IsStep};
ghost use Rattle.geometry.specs.declared.limits.TheConstants.{COLUMN_LIMIT};
ghost use Rattle.part_on_screen.specs.Screen.{IsNoScreen, IsScreen, IsScreenOf};

use crate::pixel_side::{PixelSide, pitch_of};
use crate::quarters::Quarters;
use crate::screen_fault::ScreenFault;
use geometry::COLUMN_LIMIT;
use std::marker::Model;

/// A printer's screen. Its image has columns of pixels along x and rows along y. Parts are turned, and then x and y are
/// multiplied so that pixels become squares.
#[derive(Clone, Copy, Debug, PartialEq, Eq)]
pub struct Screen {
    pub(crate) columns: u32,
    pub(crate) rows: u32,
    pub(crate) pitch: u32,
    pub(crate) times_x: u64,
    pub(crate) times_y: u64,
    pub(crate) turn: Quarters,
}

impl Model for Screen {
    ghost use Rattle.part_on_screen.specs.Screen.{IsScreen, Screen};

    ghost Value = { Screen };

    ghost view = { λ s. record {
      columns = s.columns;
      rows = s.rows;
      pitch = s.pitch;
      times_x = s.times_x;
      times_y = s.times_y;
      turn = s.turn;
    } };

    ghost invariant = { λ s. IsScreen (record {
      columns = s.columns;
      rows = s.rows;
      pitch = s.pitch;
      times_x = s.times_x;
      times_y = s.times_y;
      turn = s.turn;
    }) };

    ghost inverse = { λ s. record {
      columns = s.columns;
      rows = s.rows;
      pitch = s.pitch;
      times_x = s.times_x;
      times_y = s.times_y;
      turn = s.turn;
    } };
}

impl Screen {
    /// The screen with so many columns and rows of pixels, each `width` along x and `depth` along y, for parts that are turned
    /// so.
    ///
    /// With p the least whole number of micrometres that is a whole number of widths and of depths, x is multiplied by
    /// p / width and y by p / depth. So a pixel becomes a square of side p.
    ///
    /// # Errors
    /// The first of these that applies:
    /// - `NoPixels` if there are no columns or no rows,
    /// - `TooManyPixels` if there are more than `COLUMN_LIMIT` columns or rows,
    /// - `NoSide` if a side has a 0,
    /// - `NoPitch` if p is above `STEP_LIMIT`.
    pub fn new(
        columns: u32,
        rows: u32,
        width: PixelSide,
        depth: PixelSide,
        turn: Quarters,
    ) -> Result<Screen, ScreenFault>
        ensures found { IfOk result (IsScreenOf columns rows width depth turn) }
        ensures fault { IfErr result (IsNoScreen columns rows width depth) }
    {
        if columns == 0 || rows == 0 {
            return Err(ScreenFault::NoPixels);
        }
        if columns > COLUMN_LIMIT || rows > COLUMN_LIMIT {
            return Err(ScreenFault::TooManyPixels { columns, rows });
        }
        if !width.is_side() || !depth.is_side() {
            return Err(ScreenFault::NoSide);
        }
        let Some((pitch, times_x, times_y)) = pitch_of(&width, &depth) else {
            return Err(ScreenFault::NoPitch);
        };
        Ok(Screen {
            columns,
            rows,
            pitch,
            times_x,
            times_y,
            turn,
        })
    }

    /// The side of a pixel of this screen, by which x and y of parts on it are measured: 1 to `STEP_LIMIT` micrometres.
    pub fn pitch(&self) -> u32
        ensures value { result ≡ self.now.pitch }
        ensures step { IsStep result }
    {
        self.pitch
    }

    /// By what x and y of parts on this screen are multiplied.
    pub fn times(&self) -> (u64, u64)
        ensures x { result.0 ≡ self.now.times_x }
        ensures y { result.1 ≡ self.now.times_y }
    {
        (self.times_x, self.times_y)
    }

    /// States the limits of every screen. A caller can use the clause. It does nothing at run time.
    pub fn hold_limits(&self)
        ensures { IsScreen self.now }
    {
        // wakes the invariant
        let _columns = self.columns;
    }
}
