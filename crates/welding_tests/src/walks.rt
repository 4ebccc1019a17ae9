//! Walks along the rows of a lattice, beside a crossing and a column for each row alone.
use exact_cut::{Centre, Lattice, Walk, column, crossing};
use geometry::{Facet, Point};
use test_meshes::published::MOST_COLUMNS;

/// The factor and the summand of Knuth's linear congruential generator for 64 bits.
const MULTIPLIER: u64 = 6_364_136_223_846_793_005;

const INCREMENT: u64 = 1_442_695_040_888_963_407;

/// Numbers in no order, the same each time.
#[derive(Drop)]
struct Draws {
    state: u64,
}

impl Draws {
    fn next(&mut self) -> u64 {
        self.state = self.state.wrapping_mul(MULTIPLIER).wrapping_add(INCREMENT);
        self.state >> 33
    }

    /// A number from -12 to 12.
    fn coordinate(&mut self) -> i32 {
        (self.next() % 25) as i32 - 12
    }

    fn point(&mut self, scale: i32) -> Option<Point> {
        let [x, y, z] = [self.coordinate(), self.coordinate(), self.coordinate()];
        Point::new(
            x.wrapping_mul(scale),
            y.wrapping_mul(scale),
            z.wrapping_mul(scale),
        )
    }

    fn facet(&mut self, scale: i32) -> Option<Facet> {
        let (a, b) = (self.point(scale)?, self.point(scale)?);
        Some(Facet::of(a, b, self.point(scale)?))
    }

    /// A height in half-micrometres, from the least that a facet may have to the greatest.
    fn height(&mut self, scale: i32) -> i64 {
        i64::from(self.coordinate().wrapping_mul(scale)) * 2 + (self.next() % 2) as i64
    }
}

/// The first centres of a lattice at the ends of the range, in half-micrometres, and its step in micrometres.
const FAR_START: i64 = -250_000_000;

const FAR_STEP: u32 = 100_000;

/// What small coordinates are multiplied by there.
const FAR_SCALE: i32 = 10_000_000;

/// The lattices that facets are looked at in. Columns and rows of the first lie inside the range of coordinates, and
/// those of the others beyond it to some side.
const LATTICES: [Lattice; 4] = [
    Lattice {
        x2: -13,
        y2: -17,
        step: 1,
        columns: 14,
        rows: 18,
    },
    Lattice {
        x2: -40,
        y2: -30,
        step: 3,
        columns: 16,
        rows: 12,
    },
    Lattice {
        x2: 2,
        y2: 4,
        step: 2,
        columns: 40,
        rows: 40,
    },
    Lattice {
        x2: FAR_START,
        y2: FAR_START,
        step: FAR_STEP,
        columns: MOST_COLUMNS,
        rows: 2500,
    },
];

/// The sign and the column of a crossing.
type Crossed = Option<(i32, u32)>;

/// What the next crossing of a walk is, if it is in this row.
fn walked(walk: &mut Option<Walk>, row: u32) -> Crossed {
    let walk = walk.as_mut()?;
    if walk.row() == row && row < walk.end() {
        let sign = walk.sign();
        Some((sign, walk.next_column()))
    } else {
        None
    }
}

/// The crossing of a facet with a row alone.
fn crossed(f: &Facet, lattice: &Lattice, at: &Centre) -> Crossed {
    let c = crossing(f, at.z2(), at.y2())?;
    Some((
        c.sign(),
        column(&c, lattice.x2, lattice.step, lattice.columns),
    ))
}

/// The y of a row's centres, in half-micrometres.
fn scanline(lattice: &Lattice, row: u32) -> i64 {
    i64::from(lattice.step)
        .wrapping_mul(2)
        .wrapping_mul(i64::from(row))
        .wrapping_add(lattice.y2)
}

/// How many rows of a lattice a facet crosses at a height; `None` if the walk differs from the rows alone.
fn rows_crossed(f: &Facet, z2: i64, lattice: &Lattice) -> Option<u32> {
    let start = Centre::new(0, 0, z2)?;
    let mut walk = Walk::start(f, start.z2(), lattice);
    let mut count = 0u32;
    for row in 0..lattice.rows {
        let at = Centre::new(0, scanline(lattice, row), z2)?;
        let alone = crossed(f, lattice, &at);
        if walked(&mut walk, row) != alone {
            return None;
        }
        count = count.saturating_add(u32::from(alone.is_some()));
    }
    Some(count)
}

/// How many rows this many facets cross, of coordinates in a scale; `None` if a walk differs from the rows alone.
fn all_crossed(facets: u32, scale: i32, lattice: &Lattice) -> Option<u32> {
    let mut draws = Draws { state: 7 };
    let mut count = 0u32;
    for _ in 0..facets {
        let f = draws.facet(scale)?;
        count = count.saturating_add(rows_crossed(&f, draws.height(scale), lattice)?);
    }
    Some(count)
}

#[test]
fn walks_cross_what_rows_cross_alone(rt: HostRuntime) {
    let [near, coarse, beside, far] = LATTICES;
    assert!(rt; all_crossed(2000, 1, &near) > Some(2000));
    assert!(rt; all_crossed(2000, 1, &coarse) > Some(1000));
    assert!(rt; all_crossed(2000, 1, &beside) > Some(100));
    assert!(rt; all_crossed(20, FAR_SCALE, &far) > Some(200));
}
