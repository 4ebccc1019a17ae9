//! Points, facets and parts as they stand on a screen.
ghost use Rattle.std.specs.Prelude.{◌≡◌, ◌≤◌, ◌↔◌, ◌*ℤ◌, IfErr, IfOk, IfSome, IsNone, IsSome, IsTrue, OnOk, pos, ℤ};
ghost use Rattle.exact_int.specs.Bounds.{IsAtMost};
ghost use Rattle.geometry.specs.Limits.{IsStep};
ghost use Rattle.geometry.specs.Point.{IsMeshPoint, Point as PointModel};
ghost use Rattle.geometry.specs.declared.limits.TheConstants.{COORDINATE_LIMIT};
ghost use Rattle.part_on_screen.specs.Middle.{HasMeshPoints, IsGridOfPart, IsInReach, IsNoGridOfPart};
ghost use Rattle.part_on_screen.specs.Stretched.{facet_on_screen, on_screen, part_on_screen};
ghost use Rattle.part_on_screen.specs.Turned.{turned};
ghost use Rattle.part_on_screen.specs.declared.screen_fault.ScreenFault.TheVariants.{OutOfRange};

use crate::quarters::Quarters;
use crate::screen::Screen;
use crate::screen_fault::ScreenFault;
use exact_int::ceil_div;
use geometry::{Facet, Point};
use mesh_weld::Solid;
use raster::Grid;
use std::alloc::Allocator;

impl Screen {
    /// The facets of a part as they stand on this screen, in order. They take the place of those that were given, so no memory
    /// is needed.
    ///
    /// # Errors
    /// `OutOfRange` exactly if a multiplied coordinate is more than `COORDINATE_LIMIT` from 0.
    pub fn place<A: Allocator>(&self, facets: Vec<Facet, A>) -> Result<Vec<Facet, A>, ScreenFault>
        ensures placed { IfOk result (λ placed. placed.items ≡ part_on_screen self.now facets.items) }
        ensures reach { OnOk result (IsInReach (part_on_screen self.now facets.items)) }
        ensures fault { IfErr result (λ fault. (fault ≡ OutOfRange) × (IsInReach (part_on_screen self.now facets.items) → ⊥)) }
    {
        let mut facets = facets;
        if self.put_all(facets.as_mut_slice()) {
            Ok(facets)
        } else {
            Err(ScreenFault::OutOfRange)
        }
    }

    /// The grid of a solid that stands on this screen, by the bounding box of its facets, as of [`Screen::grid`], with this layer
    /// height (micrometres, 1 to `STEP_LIMIT`).
    ///
    /// # Errors
    /// `NoFacets` exactly if the solid has no facets, else those of [`Screen::grid`].
    pub fn grid_of<A: Allocator>(
        &self,
        solid: &Solid<A>,
        layer_height: u32,
    ) -> Result<Grid, ScreenFault>
        requires { IsStep layer_height }
        ensures found { IfOk result (IsGridOfPart self.now solid.now.facets layer_height) }
        ensures fault { IfErr result (IsNoGridOfPart self.now solid.now.facets layer_height) }
    {
        match solid.corners() {
            None => Err(ScreenFault::NoFacets),
            Some((low, high)) => self.grid(low, high, layer_height),
        }
    }

    /// Puts each facet where it stands on the screen, and returns `true`. It returns `false` if a coordinate is out of range
    /// there.
    fn put_all(&self, facets: &mut [Facet]) -> bool
        ensures all { IsTrue result → facets.new ≡ part_on_screen self.now facets.old }
        ensures reach { IsTrue result ↔ IsInReach (part_on_screen self.now facets.old) }
    {
        for facet in facets.iter_mut() {
            match self.facet(*facet) {
                Some(placed) => *facet = placed,
                None => return false,
            }
        }
        true
    }

    /// A facet of a part as it stands on this screen. `None` exactly if a coordinate is more than `COORDINATE_LIMIT` from 0
    /// there.
    pub fn facet(&self, facet: Facet) -> Option<Facet>
        ensures some { IsSome result ↔ HasMeshPoints (facet_on_screen self.now facet) }
        ensures value { IfSome result (λ placed. placed ≡ facet_on_screen self.now facet) }
    {
        Some(Facet::of(
            self.point(facet.corner(0))?,
            self.point(facet.corner(1))?,
            self.point(facet.corner(2))?,
        ))
    }

    /// A point of a part as it stands on this screen: turned about the z axis, then with x and y multiplied. `None` exactly if a
    /// coordinate is more than `COORDINATE_LIMIT` from 0 there.
    pub fn point(&self, p: Point) -> Option<Point>
        ensures some { IsSome result ↔ IsMeshPoint (on_screen self.now p) }
        ensures value { IfSome result (λ placed. placed ≡ on_screen self.now p) }
    {
        let (x, y) = turned(self.turn, p.x(), p.y());
        Point::new(
            multiplied(x, self.times_x)?,
            multiplied(y, self.times_y)?,
            p.z(),
        )
    }

    /// The point of a part that stands at `placed` on this screen, where one does.
    pub fn point_at(&self, placed: Point) -> Point
        requires { (p : PointModel) × (on_screen self.now p ≡ placed) }
        ensures { on_screen self.now result ≡ placed }
    {
        let x = quotient(placed.x(), self.times_x);
        let y = quotient(placed.y(), self.times_y);
        let (x, y) = turned(self.turn.back(), x, y);
        let Some(p) = Point::new(x, y, placed.z()) else {
            unreachable!()
        };
        p
    }
}

/// x and y after a turn.
fn turned(turn: Quarters, x: i32, y: i32) -> (i32, i32)
    requires x { IsAtMost COORDINATE_LIMIT x }
    requires y { IsAtMost COORDINATE_LIMIT y }
    ensures x { (z : ℤ) → result.0 ≡ (turned turn (record { x = x; y = y; z = z })).x }
    ensures y { (z : ℤ) → result.1 ≡ (turned turn (record { x = x; y = y; z = z })).y }
{
    match turn {
        Quarters::Zero => (x, y),
        Quarters::One => (-y, x),
        Quarters::Two => (-x, -y),
        Quarters::Three => (y, -x),
    }
}

/// A coordinate divided by `times`, of which it is a multiple.
fn quotient(coordinate: i32, times: u64) -> i32
    requires range { IsAtMost COORDINATE_LIMIT coordinate }
    requires some { 1 ≤ times }
    requires whole { (number : ℤ) × (number *ℤ pos times ≡ coordinate) }
    ensures value { result *ℤ pos times ≡ coordinate }
    ensures range { IsAtMost COORDINATE_LIMIT result }
{
    ceil_div(i128::from(coordinate), i128::from(times)) as i32
}

/// The product of a coordinate and a number, or `None` if it does not fit its type, which has all coordinates.
fn multiplied(coordinate: i32, times: u64) -> Option<i32>
    ensures value { IfSome result (λ product. product ≡ coordinate *ℤ pos times) }
    ensures none { IsNone result → IsAtMost COORDINATE_LIMIT (coordinate *ℤ pos times) → ⊥ }
{
    i32::try_from(i128::from(coordinate) * i128::from(times)).ok()
}
