//! The numbers with which C opens a file or arrays, and asks for a PNG or for areas. C may pass any number, so each is checked
//! here.
ghost use Rattle.std.specs.Prelude.{◌≡◌, IfErr, IfNone, IfOk, IfSome};
ghost use Rattle.raster.specs.declared.placing.Placing.{Placing};
ghost use Rattle.layer_session.specs.declared.setup.Setup.{Setup};
ghost use Rattle.stlslice_c.specs.Options.{IsNoPlace, IsNoScreenAsked, IsNoSetup, IsPlace, IsPlaced, IsScreenAsked, IsSetup};
ghost use Rattle.stlslice_c.specs.Options.{depth_numbered, mirrors_numbered, rule_numbered, side_of, unit_numbered};

use crate::shape::Cells;
use geometry::Point;
use layer_session::{
    Depth, Mirrors, PixelSide, Place, Placing, Quarters, Rule, Screen, ScreenFault, Setup, Unit,
};

/// A side of a pixel: `numerator / denominator` micrometres.
#[repr(C)]
#[derive(Clone, Copy)]
pub struct Side {
    pub numerator: u32,
    pub denominator: u32,
}

impl Side {
    /// The side of a screen's pixel.
    fn of_pixel(self) -> PixelSide
        ensures { result ≡ side_of self }
    {
        PixelSide {
            numerator: self.numerator,
            denominator: self.denominator,
        }
    }
}

/// How a file is read, and how a mesh is cut into voxels.
#[repr(C)]
#[derive(Clone, Copy)]
pub struct Options {
    /// Micrometres along x and y, 1 to `STEP_LIMIT` of `geometry`. Not read for a screen.
    pub pitch: u32,
    /// Micrometres along z, 1 to `STEP_LIMIT`.
    pub layer: u32,
    /// 0 even-odd, 1 non-zero, 2 positive.
    pub rule: u32,
    /// Of a file's numbers: 0 millimetres, 1 inches, 2 centimetres, 3 metres. Of no effect on arrays.
    pub unit: u32,
    /// 0 a grid that fits the mesh, 1 the one of `cells`, 2 a screen.
    pub placing: u32,
    /// The given grid, if `placing` is 1. Columns and rows are those of the screen, if it is 2.
    pub cells: Cells,
    /// By how many quarters a part is turned on a screen, counterclockwise as seen from above: 0 to 3.
    pub turn: u32,
    /// The side of a screen's pixel along x.
    pub width: Side,
    /// The side of a screen's pixel along y.
    pub depth: Side,
}

/// Why options stand for no setup.
pub(crate) enum NoSetup {
    /// A number of them stands for nothing.
    Number,
    /// There is no screen with these pixels.
    Screen(ScreenFault),
}

impl Options {
    /// The setup that these numbers stand for, or why they stand for none.
    pub(crate) fn setup(&self) -> Result<Setup, NoSetup>
        ensures ok { IfOk result (IsSetup self.now) }
        ensures err { IfErr result (IsNoSetup self.now) }
    {
        let Some(unit) = unit_numbered(self.unit) else {
            return Err(NoSetup::Number);
        };
        let Some(rule) = rule_numbered(self.rule) else {
            return Err(NoSetup::Number);
        };
        Ok(Setup {
            unit,
            layer: self.layer,
            rule,
            place: self.place()?,
        })
    }

    /// The place of the mesh, and its voxels along x and y.
    fn place(&self) -> Result<Place, NoSetup>
        ensures ok { IfOk result (IsPlace self.now) }
        ensures err { IfErr result (IsNoPlace self.now) }
    {
        if self.placing == 2 {
            return Ok(Place::Screen(self.screen()?));
        }
        match self.placing() {
            Some(placing) => Ok(Place::Grid {
                pitch: self.pitch,
                placing,
            }),
            None => Err(NoSetup::Number),
        }
    }

    /// The screen, if the place is one.
    fn screen(&self) -> Result<Screen, NoSetup>
        ensures ok { IfOk result (IsScreenAsked self.now) }
        ensures err { IfErr result (IsNoScreenAsked self.now) }
    {
        let Some(turn) = Quarters::from_number(self.turn) else {
            return Err(NoSetup::Number);
        };
        let (width, depth) = (self.width.of_pixel(), self.depth.of_pixel());
        match Screen::new(self.cells.columns, self.cells.rows, width, depth, turn) {
            Ok(screen) => {
                // wakes the invariant: a screen has pixels, and its pitch is a step
                screen.hold_limits();
                Ok(screen)
            }
            Err(fault) => Err(NoSetup::Screen(fault)),
        }
    }

    /// The place of the grid.
    fn placing(&self) -> Option<Placing>
        ensures some { IfSome result (IsPlaced self.now) }
        ensures none { IfNone result ((placing : Placing) → IsPlaced self.now placing → ⊥) }
    {
        match self.placing {
            0 => Some(Placing::Fitted),
            1 => {
                let cells = self.cells;
                let origin = Point::new(cells.origin_x, cells.origin_y, cells.origin_z)?;
                Some(Placing::Given {
                    columns: cells.columns,
                    rows: cells.rows,
                    layers: cells.layers,
                    origin,
                })
            }
            _ => None,
        }
    }
}

/// The unit of that number.
pub(crate) fn unit_numbered(number: u32) -> Option<Unit>
    ensures { result ≡ unit_numbered number }
{
    match number {
        0 => Some(Unit::Millimetre),
        1 => Some(Unit::Inch),
        2 => Some(Unit::Centimetre),
        3 => Some(Unit::Metre),
        _ => None,
    }
}

/// The rule of that number.
pub(crate) fn rule_numbered(number: u32) -> Option<Rule>
    ensures { result ≡ rule_numbered number }
{
    match number {
        0 => Some(Rule::EvenOdd),
        1 => Some(Rule::NonZero),
        2 => Some(Rule::Positive),
        _ => None,
    }
}

/// The depth of that number of bits.
pub(crate) fn depth_numbered(number: u32) -> Option<Depth>
    ensures { result ≡ depth_numbered number }
{
    match number {
        1 => Some(Depth::One),
        8 => Some(Depth::Eight),
        _ => None,
    }
}

/// The mirrors of that number: 1 for x, 2 for y, and 3 for both.
pub(crate) fn mirrors_numbered(number: u32) -> Option<Mirrors>
    ensures { result ≡ mirrors_numbered number }
{
    match number {
        0 => Some(Mirrors { x: false, y: false }),
        1 => Some(Mirrors { x: true, y: false }),
        2 => Some(Mirrors { x: false, y: true }),
        3 => Some(Mirrors { x: true, y: true }),
        _ => None,
    }
}
