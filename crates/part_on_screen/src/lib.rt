//! A part on a printer's screen: its facets as they stand there, in pixels that are squares, and the grid of its voxels.
//!
//! - [`Screen`]: columns and rows of pixels, the sides of a pixel, and the turn of parts.
//! - [`PixelSide`]: a side of a pixel, as a fraction; [`Quarters`]: by how many quarters a part is turned.
//! - [`Screen::place`]: the facets of a part as they stand on the screen; [`Screen::grid_of`]: their grid, or the one fault.
//! - [`Screen::point`], [`Screen::facet`], [`Screen::grid`]: the same for a point, a facet, and a box.
//! - [`Screen::point_at`]: the point of a part that stands at a point of the screen.
//! - [`ScreenFault`]: why there is no such screen, or why a part cannot stand there.
//! - [`hold_screen_laws`]: laws of how parts stand.
//!
//! ```text
//! let side = PixelSide { numerator: 189, denominator: 4 };             // 47.25 micrometres
//! let screen = Screen::new(2560, 1440, side, side, Quarters::Zero)?;   // x and y times 4, pixels of 189
//! let solid = weld(alloc, screen.place(facets)?)?;
//! let grid = screen.grid_of(&solid, 50)?;                              // layers of 50 micrometres
//! ```
//!
//! A screen multiplies x and y of a part by whole numbers, so that its pixels become squares with sides in whole micrometres.
//! Nothing is rounded, so a closed mesh stays closed. Heights stay as they are.
//!
//! Units: points are in whole micrometres, those of a part on a screen in its multiplied ones.
#![tactic(auto)]

mod laws;
mod middle;
mod pixel_side;
mod placing;
mod quarters;
mod screen;
mod screen_fault;

pub use laws::hold_screen_laws;
pub use pixel_side::PixelSide;
pub use quarters::Quarters;
pub use screen::Screen;
pub use screen_fault::ScreenFault;
