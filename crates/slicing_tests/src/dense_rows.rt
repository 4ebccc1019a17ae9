//! Rows that few and many crossings share, of bricks that overlap, beside a count of the bricks round each centre.
ghost use Rattle.std.specs.Prelude.{◌<◌};

use mesh_weld::{Solid, WeldFault};
use raster::{Filler, Grid, Rule, Span};
use short_memory::{Count, Retry, ShortMemory, failures, first_free_turn};
use std::alloc::{AllocError, Allocator, Global};
use test_layers::{layer, layer_by};
use test_meshes::{BOX, INWARD, push_facets};
use test_solids::welded;

/// A box in voxels of 2 micrometres, from and without these columns, rows and layers.
#[derive(Clone, Copy)]
struct Brick {
    low: [u16; 3],
    high: [u16; 3],
    is_inward: bool,
}

impl Brick {
    fn corner(&self, [is_east, is_north, is_top]: [bool; 3]) -> [i32; 3] {
        let x = if is_east { self.high[0] } else { self.low[0] };
        let y = if is_north { self.high[1] } else { self.low[1] };
        let z = if is_top { self.high[2] } else { self.low[2] };
        [2 * i32::from(x), 2 * i32::from(y), 2 * i32::from(z)]
    }

    /// The corners, in the order of the numbers in `BOX`.
    fn corners(&self) -> [[i32; 3]; 8] {
        [
            self.corner([false, false, false]),
            self.corner([false, false, true]),
            self.corner([false, true, false]),
            self.corner([false, true, true]),
            self.corner([true, false, false]),
            self.corner([true, false, true]),
            self.corner([true, true, false]),
            self.corner([true, true, true]),
        ]
    }

    fn holds(&self, column: u32, row: u32, k: u32) -> bool {
        u32::from(self.low[0]) <= column
            && column < u32::from(self.high[0])
            && u32::from(self.low[1]) <= row
            && row < u32::from(self.high[1])
            && u32::from(self.low[2]) <= k
            && k < u32::from(self.high[2])
    }
}

/// A number of bricks: brick n begins `step * n` columns from the first, modulo `columns`, and is up to `widest` wide. All
/// stand in row 0 of layer 0, two of three in row 1, and every second in layer 1. Every fourth is inward.
#[derive(Clone, Copy)]
struct Wall {
    bricks: u8,
    step: u16,
    columns: u16,
    widest: u16,
}

impl Wall {
    fn brick(&self, n: u8) -> Brick {
        let west = u16::from(n).saturating_mul(self.step) % self.columns.max(1);
        let width = u16::from(n).saturating_mul(5) % self.widest.max(1);
        let north = if n % 3 == 2 { 1 } else { 2 };
        let top = if n % 2 == 1 { 1 } else { 2 };
        Brick {
            low: [west, 0, 0],
            high: [west.saturating_add(width).saturating_add(1), north, top],
            is_inward: n % 4 == 3,
        }
    }

    fn solid<A: Allocator + Copy + Send + Sync>(&self, alloc: A) -> Result<Solid<A>, WeldFault> {
        let mut list = Vec::new(alloc);
        for n in 0..self.bricks {
            let brick = self.brick(n);
            let facets = if brick.is_inward { INWARD } else { BOX };
            push_facets(&mut list, (&brick.corners(), facets))?;
        }
        welded(alloc, list)
    }

    /// How many more bricks hold a voxel outward than inward.
    fn count_at(&self, column: u32, row: u32, k: u32) -> i16 {
        let mut count = 0i16;
        for n in 0..self.bricks {
            let brick = self.brick(n);
            if brick.holds(column, row, k) {
                count = count.saturating_add(if brick.is_inward { -1 } else { 1 });
            }
        }
        count
    }

    /// Whether the spans of layer `k` have exactly the voxels for whose count the rule holds.
    fn is_layer(&self, g: &Grid, rule: Rule, k: u32, spans: &[Span]) -> bool {
        for row in 0..g.rows() {
            for column in 0..g.columns() {
                let told = holds(rule, self.count_at(column, row, k));
                if is_covered(spans, column, row) != told {
                    return false;
                }
            }
        }
        true
    }

    fn are_layers_of(&self, alloc: Global, rule: Rule, solid: &Solid<Global>, g: &Grid) -> bool {
        let mut filler = Filler::new(alloc);
        for k in 0..g.layers() {
            match layer_by(&mut filler, alloc, solid, g, rule, k) {
                Ok(spans) if self.is_layer(g, rule, k, spans.as_slice()) => {}
                _ => return false,
            }
        }
        true
    }

    fn are_layers(&self, alloc: Global, rule: Rule) -> bool {
        let Ok(solid) = self.solid(alloc) else {
            return false;
        };
        match Grid::fit(&solid, 2, 2) {
            Ok(g) => self.are_layers_of(alloc, rule, &solid, &g),
            Err(_) => false,
        }
    }
}

fn holds(rule: Rule, count: i16) -> bool {
    match rule {
        Rule::EvenOdd => count.unsigned_abs() % 2 == 1,
        Rule::NonZero => count != 0,
        Rule::Positive => count > 0,
    }
}

fn is_covered(spans: &[Span], column: u32, row: u32) -> bool {
    spans
        .iter()
        .any(|s| s.row == row && s.from <= column && column < s.to)
}

/// The bricks, the step, the columns and the greatest width of walls. Row 0 of layer 0 has two crossings for each brick.
static WALLS: [(u8, u16, u16, u16); 11] = [
    (1, 1, 1, 1),
    (3, 7, 19, 11),
    // one crossing fewer or more than are sorted; their number is even
    (5, 7, 19, 11),
    (6, 7, 19, 11),
    (7, 7, 19, 11),
    // many at one column
    (60, 1, 2, 2),
    (80, 1, 1, 3),
    // over many words of columns, and at the ends of words
    (40, 173, 700, 90),
    (30, 64, 640, 64),
    // spread too thinly for sums, and just not so
    (6, 1000, 5000, 90),
    (25, 1013, 5000, 90),
];

fn wall_of((bricks, step, columns, widest): (u8, u16, u16, u16)) -> Wall {
    Wall {
        bricks,
        step,
        columns,
        widest,
    }
}

/// `Ok`, or the number of the first wall whose layers have other spans by a rule.
fn all_walls(alloc: Global, rule: Rule) -> Result<(), usize> {
    for (n, wall) in WALLS.iter().enumerate() {
        if !wall_of(*wall).are_layers(alloc, rule) {
            return Err(n);
        }
    }
    Ok(())
}

#[test]
fn walls_by_even_odd(rt: HostRuntime) -> Result<(), usize> {
    all_walls(rt.alloc(), Rule::EvenOdd)
}

#[test]
fn walls_by_non_zero(rt: HostRuntime) -> Result<(), usize> {
    all_walls(rt.alloc(), Rule::NonZero)
}

#[test]
fn walls_by_positive(rt: HostRuntime) -> Result<(), usize> {
    all_walls(rt.alloc(), Rule::Positive)
}

/// A wall with dense rows.
const DENSE: (u8, u16, u16, u16) = (30, 7, 19, 11);

/// How many spans the lowest layer of a solid has.
fn span_count<A: Allocator + Copy + Send + Sync>(alloc: A, solid: &Solid<A>) -> Option<usize> {
    match Grid::fit(solid, 2, 2) {
        Ok(g) if g.layers() > 0 => match layer(alloc, solid, &g, Rule::EvenOdd, 0) {
            Ok(spans) => Some(spans.len()),
            Err(_) => None,
        },
        _ => None,
    }
}

/// The spans of a layer of it.
struct Spans;

impl Count for Spans {
    fn count(memory: &ShortMemory<Global>) -> Option<usize> {
        match wall_of(DENSE).solid(memory) {
            Ok(solid) => span_count(memory, &solid),
            Err(_) => None,
        }
    }
}

#[test]
fn each_allocation_fails_in_turn(rt: HostRuntime) {
    assert!(rt; first_free_turn::<Spans>(rt.alloc(), 500, 15) > Some(8));
}

/// Whether the lowest layer of a wall fills as it should, by a filler that may have filled others; `Err` if an allocation
/// failed.
fn is_filled<A: Allocator + Copy + Send + Sync>(
    filler: &mut Filler<A>,
    alloc: A,
    wall: &Wall,
    solid: &Solid<A>,
    g: &Grid,
) -> Result<bool, AllocError>
    requires { 0 < g.now.layers }
{
    let spans = layer_by(filler, alloc, solid, g, Rule::NonZero, 0)?;
    Ok(wall.is_layer(g, Rule::NonZero, 0, spans.as_slice()))
}

/// Whether the first fill of the lowest layer failed, and whether the first one that succeeded was right.
fn filled_at_last<A: Allocator + Copy + Send + Sync>(
    alloc: A,
    wall: &Wall,
    solid: &Solid<A>,
    g: &Grid,
) -> Option<(bool, bool)>
    requires { 0 < g.now.layers }
{
    let mut filler = Filler::new(alloc);
    match is_filled(&mut filler, alloc, wall, solid, g) {
        Ok(right) => Some((false, right)),
        Err(_) => match is_filled(&mut filler, alloc, wall, solid, g) {
            Ok(right) => Some((true, right)),
            Err(_) => None,
        },
    }
}

/// A fill of a layer of it, when the next one is by the same filler.
struct Fill;

impl Retry for Fill {
    fn tried(memory: &ShortMemory<Global>) -> Option<(bool, bool)> {
        let wall = wall_of(DENSE);
        let Ok(solid) = wall.solid(memory) else {
            return None;
        };
        match Grid::fit(&solid, 2, 2) {
            Ok(g) if g.layers() > 0 => filled_at_last(memory, &wall, &solid, &g),
            _ => None,
        }
    }
}

#[test]
fn a_filler_fills_after_a_failed_allocation(rt: HostRuntime) {
    assert!(rt; failures::<Fill>(rt.alloc(), 500) > Some(4));
}
