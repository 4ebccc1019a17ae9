//! Jobs of slicing, and the stripes that they are cut into.
ghost use Rattle.std.specs.Prelude.{◌≡◌, ◌↔◌, ◌+◌, ◌*◌, ◌<◌, ◌≤◌, IsTrue};
ghost use Rattle.build_book.specs.Job.{stripe_count, stripe_length};
ghost use Rattle.build_book.specs.declared.limits.TheConstants.{MOST_STRIPES, STRIPE_LAYERS};
ghost use Rattle.geometry.specs.declared.limits.TheConstants.{LAYER_LIMIT};

use crate::limits::STRIPE_LAYERS;
use mesh_weld::Solid;
use raster::{Grid, Rule};
use std::alloc::Allocator;
use std::marker::Model;

/// What is to be sliced (a solid), in which grid, and by which rule.
#[derive(Drop)]
pub struct Job<A: Allocator> {
    solid: Solid<A>,
    grid: Grid,
    rule: Rule,
}

impl<A: Allocator> Model for Job<A> {
    ghost use Rattle.build_book.specs.Job.{Job};

    ghost Value = { Job };

    ghost view = { λ j. record { solid = j.solid; grid = j.grid; rule = j.rule } };
}

impl<A: Allocator> Job<A> {
    /// The job of slicing a solid in a grid by a rule.
    pub fn new(solid: Solid<A>, grid: Grid, rule: Rule) -> Job<A>
        ensures { result ≡ record { solid = solid; grid = grid; rule = rule } }
    {
        Job { solid, grid, rule }
    }

    /// The solid.
    pub fn solid(&self) -> &Solid<A>
        ensures { result.now ≡ self.now.solid }
    {
        &self.solid
    }

    /// The grid.
    pub fn grid(&self) -> &Grid
        ensures { result.now ≡ self.now.grid }
    {
        &self.grid
    }

    /// The rule.
    pub fn rule(&self) -> Rule
        ensures { result ≡ self.now.rule }
    {
        self.rule
    }

    /// Whether solid, grid and rule are equal in content. It compares facet by facet.
    pub fn same(&self, other: &Job<A>) -> bool
        ensures { IsTrue result ↔ (self.now ≡ other.now) }
    {
        self.has_cells_of(other) && self.solid.same(&other.solid)
    }

    /// Whether grid and rule are equal.
    fn has_cells_of(&self, other: &Job<A>) -> bool
        ensures { IsTrue result ↔ ((self.now.grid ≡ other.now.grid) × (self.now.rule ≡ other.now.rule)) }
    {
        self.grid == other.grid && self.rule == other.rule
    }

    /// The number of stripes, at most `MOST_STRIPES`. Stripe s consists of the `STRIPE_LAYERS` layers from
    /// `STRIPE_LAYERS * s` on, as far as the grid has them.
    pub fn stripes(&self) -> u64
        ensures value { result ≡ stripe_count self.now.grid }
        ensures few { result ≤ MOST_STRIPES }
    {
        u64::from(self.grid.layers().div_ceil(STRIPE_LAYERS))
    }

    /// The layers of stripe s, below `stripes`: the number of its first layer, and that of the layer after its last.
    pub fn layer_range(&self, s: u64) -> (u32, u32)
        requires { s < stripe_count self.now.grid }
        ensures first { result.0 ≡ STRIPE_LAYERS * s }
        ensures end { result.1 ≡ STRIPE_LAYERS * s + stripe_length self.now.grid s }
        ensures some { result.0 < result.1 }
        ensures within { result.1 ≤ self.now.grid.layers }
        ensures few { result.1 ≤ LAYER_LIMIT }
    {
        let all = self.grid.layers();
        let first = s as u32 * STRIPE_LAYERS;
        (first, all.min(first + STRIPE_LAYERS))
    }
}
