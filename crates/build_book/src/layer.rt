//! Layers: the loops and the filled pixels of a job at one plane.
ghost use Rattle.std.specs.Prelude.{◌≡◌, ◌≤◌};
ghost use Rattle.build_book.specs.Layer.{layers_area};
ghost use Rattle.build_book.specs.declared.limits.TheConstants.{VOXEL_LIMIT};

use contour::Loops;
use raster::Span;
use std::alloc::Allocator;
use std::marker::Model;

/// One layer: its number, its loops, its spans, and its area in pixels. The clause `lawful` of `Book::layer`, `Build::layer`
/// and `Piece::layers` says what these are.
#[derive(Drop)]
pub struct Layer<A: Allocator> {
    number: u32,
    loops: Loops<A>,
    spans: Vec<Span, A>,
    area: u64,
}

impl<A: Allocator> Model for Layer<A> {
    ghost use Rattle.build_book.specs.Layer.{Layer};

    ghost Value = { Layer };

    ghost view = { λ l. record { number = l.number; loops = l.loops; spans = l.spans.items; area = l.area } };
}

impl<A: Allocator> Layer<A> {
    /// The layer with these parts.
    pub(crate) fn of(number: u32, loops: Loops<A>, spans: Vec<Span, A>, area: u64) -> Layer<A>
        ensures { result ≡ record { number = number; loops = loops; spans = spans.items; area = area } }
    {
        Layer {
            number,
            loops,
            spans,
            area,
        }
    }

    /// Its number in the grid, from 0 up.
    pub fn number(&self) -> u32
        ensures { result ≡ self.now.number }
    {
        self.number
    }

    /// Its loops. In each of their nodes `low` is below `high`: `Node` keeps that.
    pub fn loops(&self) -> &Loops<A>
        ensures { result.now ≡ self.now.loops }
    {
        &self.loops
    }

    /// Its spans.
    pub fn spans(&self) -> &[Span]
        ensures { result.now ≡ self.now.spans }
    {
        self.spans.as_slice()
    }

    /// Its area, in pixels.
    pub fn area(&self) -> u64
        ensures { result ≡ self.now.area }
    {
        self.area
    }
}

/// The sum of the layers' areas.
pub(crate) fn layers_area<A: Allocator>(layers: &[Layer<A>]) -> u64
    requires { layers_area layers.now ≤ VOXEL_LIMIT }
    ensures { result ≡ layers_area layers.now }
{
    let mut sum = 0;
    for layer in layers {
        sum += layer.area();
    }
    sum
}
