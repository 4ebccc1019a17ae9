//! Facets whose cuts and crossings are known.
use exact_cut::{Centre, Crossing, Cut, Lattice, Walk, column, crossing, cuts, ray_hit, ray_hit_y};
use geometry::{Facet, Point};
use test_meshes::published::FARTHEST_CENTRE;

fn facet(a: [i32; 3], b: [i32; 3], c: [i32; 3]) -> Option<Facet> {
    Some(Facet::of(
        Point::new(a[0], a[1], a[2])?,
        Point::new(b[0], b[1], b[2])?,
        Point::new(c[0], c[1], c[2])?,
    ))
}

/// The facet of an octahedron that looks to greater x, y and z.
fn octant() -> Option<Facet> {
    facet([2, 0, 0], [0, 2, 0], [0, 0, 2])
}

fn slanted() -> Option<Facet> {
    facet([1, 0, 0], [0, 3, 0], [0, 0, 3])
}

#[test]
fn cuts_the_octant(rt: HostRuntime) {
    let Some(f) = octant() else {
        assert!(rt; false);
        return;
    };
    assert!(rt; cuts(&f, 0) == Some(Cut { down: 2, up: 1 }));
    assert!(rt; cuts(&f, 4).is_none());
    assert!(rt; cuts(&f, -1).is_none());
}

/// The point at which the line along x through the origin crosses a facet.
fn crossed(f: Option<Facet>) -> Option<Crossing> {
    crossing(&f?, 0, 0)
}

#[test]
fn crosses_the_octant(rt: HostRuntime) {
    let Some(c) = crossed(octant()) else {
        assert!(rt; false);
        return;
    };
    assert!(rt; c.sign() == 1);
    assert!(rt; c.num() > 3 * c.den());
    assert!(rt; c.num() <= 4 * c.den());
    assert!(rt; column(&c, 0, 1, 10) == 2);
    assert!(rt; column(&c, 1, 1, 10) == 2);
    assert!(rt; column(&c, 5, 1, 10) == 0);
    assert!(rt; column(&c, 0, 4, 1) == 1);
}

/// The octahedron's facet beside it, which looks to lesser x.
fn western() -> Option<Facet> {
    facet([0, 2, 0], [-2, 0, 0], [0, 0, 2])
}

/// A line along x goes into the octahedron here, where it goes out of it at the octant.
#[test]
fn crosses_a_facet_that_looks_west(rt: HostRuntime) {
    let Some(c) = crossed(western()) else {
        assert!(rt; false);
        return;
    };
    assert!(rt; c.sign() == -1);
    assert!(rt; c.num() > -5 * c.den());
    assert!(rt; c.num() <= -4 * c.den());
}

#[test]
fn crosses_a_slanted_facet(rt: HostRuntime) {
    let Some(f) = slanted() else {
        assert!(rt; false);
        return;
    };
    let Some(c) = crossing(&f, 1, 1) else {
        assert!(rt; false);
        return;
    };
    assert!(rt; c.sign() == 1);
    assert!(rt; c.num() > c.den());
    assert!(rt; c.num() <= c.den().wrapping_mul(2));
    assert!(rt; column(&c, 1, 1, 4) == 1);
}

#[test]
fn misses_a_facet_that_is_a_line(rt: HostRuntime) {
    let Some(f) = facet([0, 0, 0], [0, 0, 4], [2, 0, 2]) else {
        assert!(rt; false);
        return;
    };
    assert!(rt; crossing(&f, 0, 0).is_none());
}

/// The hits along x and along y.
fn hits(f: Option<Facet>, x2: i64, y2: i64, z2: i64) -> Option<(i32, i32)> {
    let c = Centre::new(x2, y2, z2)?;
    let f = f?;
    Some((ray_hit(&f, &c), ray_hit_y(&f, &c)))
}

#[test]
fn hits_ahead_alone(rt: HostRuntime) {
    for (x2, y2, hit) in [
        (0, 0, (1, 1)),
        (4, 0, (0, 0)),
        (0, 3, (1, 1)),
        (0, 4, (0, 0)),
    ] {
        assert!(rt; hits(octant(), x2, y2, 0) == Some(hit));
    }
    assert!(rt; hits(slanted(), 1, 1, 1) == Some((1, 1)));
    assert!(rt; hits(slanted(), 2, 1, 1) == Some((0, 0)));
}

#[test]
fn looks_from_inside_the_range_alone(rt: HostRuntime) {
    assert!(rt; Centre::new(FARTHEST_CENTRE, -FARTHEST_CENTRE, 0).is_some());
    assert!(rt; Centre::new(0, FARTHEST_CENTRE + 1, 0).is_none());
    assert!(rt; Centre::new(0, 0, -FARTHEST_CENTRE - 1).is_none());
}

#[test]
fn walks_along_a_slanted_facet(rt: HostRuntime) {
    let Some(f) = slanted() else {
        assert!(rt; false);
        return;
    };
    let lattice = Lattice {
        x2: 1,
        y2: 1,
        step: 1,
        columns: 4,
        rows: 4,
    };
    assert!(rt; Walk::start(&f, 6, &lattice).is_none());
    let Some(mut walk) = Walk::start(&f, 1, &lattice) else {
        assert!(rt; false);
        return;
    };
    assert!(rt; walk.row() == 0);
    assert!(rt; walk.end() == 2);
    assert!(rt; walk.sign() == 1);
    if walk.row() < walk.end() {
        assert!(rt; walk.next_column() == 1);
    }
    if walk.row() < walk.end() {
        assert!(rt; walk.next_column() == 0);
    }
    assert!(rt; walk.row() == walk.end());
}
