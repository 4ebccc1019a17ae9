//! Sessions on screens, worked by hand: pixels with sides that differ or are no whole numbers, turns, layers, and faults.
use crate::sessions::{is_image, reads};
use layer_session::{
    PixelSide, Place, Quarters, Rule, Screen, ScreenFault, Session, SessionFault, Setup, Unit,
};
use std::alloc::Global;

/// A side of `numerator` micrometres.
const fn micrometres(numerator: u32) -> PixelSide {
    PixelSide {
        numerator,
        denominator: 1,
    }
}

/// A pixel's side of 47.25 micrometres: 120.96 mm of 2,560 pixels.
const FINE: PixelSide = PixelSide {
    numerator: 120_960,
    denominator: 2_560,
};

/// A setup of layers of this height on a screen.
fn on(screen: Screen, layer: u32) -> Setup {
    Setup {
        unit: Unit::Millimetre,
        layer,
        rule: Rule::NonZero,
        place: Place::Screen(screen),
    }
}

/// A tetrahedron of the origin and three points.
const SIDES: &[[u32; 3]] = &[[0, 2, 1], [0, 1, 3], [0, 3, 2], [1, 2, 3]];

/// One with a corner on each axis.
const PART: &[[i32; 3]] = &[[0, 0, 0], [1000, 0, 0], [0, 2000, 0], [0, 0, 500]];

/// Where the part begins on a screen, the number of its layers, and by what x and y are multiplied.
type Standing = ([i32; 3], u32, (u64, u64));

fn standing(
    alloc: Global,
    screen: Screen,
    points: &[[i32; 3]],
    layer: u32,
) -> Result<Standing, SessionFault> {
    let session = Session::open_mesh(alloc, points, SIDES, &on(screen, layer))?;
    let origin = session.grid().origin();
    Ok((
        [origin.x(), origin.y(), origin.z()],
        session.layers(),
        session.times(),
    ))
}

#[test]
fn a_turned_part_is_in_the_middle(rt: HostRuntime) {
    let Ok(screen) = Screen::new(2560, 1440, FINE, FINE, Quarters::One) else {
        panic!(rt; "there is such a screen")
    };
    assert!(rt; screen.pitch() == 189);
    // the middle of a third layer of 200 would be at the top
    for (layer, layers) in [(50, 10), (200, 2), (199, 3), (1001, 1)] {
        assert!(rt;
            standing(rt.alloc(), screen, PART, layer)
                == Ok(([-245_920, -134_080, 0], layers, (4, 4)))
        );
    }
}

#[test]
fn sides_that_differ_have_their_least_common_multiple(rt: HostRuntime) {
    let (width, depth) = (micrometres(19), micrometres(24));
    let Ok(screen) = Screen::new(11_520, 5_120, width, depth, Quarters::Zero) else {
        panic!(rt; "there is such a screen")
    };
    assert!(rt; screen.pitch() == 456);
    assert!(rt;
        standing(rt.alloc(), screen, PART, 50) == Ok(([-2_614_560, -1_148_360, 0], 10, (24, 19)))
    );
}

/// A prism over the triangle of (0, 0), (8, 0) and (0, 9), from 0 up to 2.
const PRISM: &[[i32; 3]] = &[
    [0, 0, 0],
    [8, 0, 0],
    [0, 9, 0],
    [0, 0, 2],
    [8, 0, 2],
    [0, 9, 2],
];

const PRISM_SIDES: &[[u32; 3]] = &[
    [0, 2, 1],
    [3, 4, 5],
    [0, 1, 4],
    [0, 4, 3],
    [1, 2, 5],
    [1, 5, 4],
    [2, 0, 3],
    [2, 3, 5],
];

/// Whether the prism has one layer on a screen that it covers, with this image. A pixel is 2 micrometres along the prism's x,
/// and 3 along its y.
fn is_prism_drawn(alloc: Global, turn: Quarters, image: &[u8]) -> bool {
    let screen = match turn {
        Quarters::Zero | Quarters::Two => Screen::new(4, 3, micrometres(2), micrometres(3), turn),
        Quarters::One | Quarters::Three => Screen::new(3, 4, micrometres(3), micrometres(2), turn),
    };
    let Ok(screen) = screen else {
        return false;
    };
    match Session::open_mesh(alloc, PRISM, PRISM_SIDES, &on(screen, 2)) {
        Ok(session) => session.layers() == 1 && is_image(&session, 0, image),
        Err(_) => false,
    }
}

/// A pixel is filled exactly if x / 8 + y / 9 is below 1 at its centre, for the prism's x and y. Each turn shows other pixels.
#[test]
fn each_turn_has_its_image(rt: HostRuntime) {
    let alloc = rt.alloc();
    assert!(rt; is_prism_drawn(alloc, Quarters::Zero, b"P4\n4 3\n\x80\xc0\xe0"));
    assert!(rt; is_prism_drawn(alloc, Quarters::One, b"P4\n3 4\n\x00\x20\x60\xe0"));
    assert!(rt; is_prism_drawn(alloc, Quarters::Two, b"P4\n4 3\n\x70\x30\x10"));
    assert!(rt; is_prism_drawn(alloc, Quarters::Three, b"P4\n3 4\n\xe0\xc0\x80\x00"));
}

/// The fault of a mesh on a screen.
fn fault_of(
    alloc: Global,
    screen: Screen,
    points: &[[i32; 3]],
    triangles: &[[u32; 3]],
) -> Option<SessionFault> {
    match Session::open_mesh(alloc, points, triangles, &on(screen, 10)) {
        Ok(_session) => None,
        Err(fault) => Some(fault),
    }
}

/// A screen of 10 x 5 pixels of 100 micrometres.
fn coarse(turn: Quarters) -> Result<Screen, ScreenFault> {
    Screen::new(10, 5, micrometres(100), micrometres(100), turn)
}

#[test]
fn a_part_that_does_not_fit_is_told_with_sizes(rt: HostRuntime) {
    let Ok(screen) = coarse(Quarters::Zero) else {
        panic!(rt; "there is such a screen")
    };
    for (width, depth, fits_turned) in [
        (400i32, 900i32, true),
        (501, 900, false),
        (1001, 500, false),
    ] {
        let points = [[0, 0, 0], [width, 0, 0], [0, depth, 0], [0, 0, 9]];
        let misfit = ScreenFault::DoesNotFit {
            width: u64::from(width.unsigned_abs()),
            depth: u64::from(depth.unsigned_abs()),
            screen_width: 1000,
            screen_depth: 500,
            fits_turned,
        };
        assert!(rt;
            fault_of(rt.alloc(), screen, &points, SIDES) == Some(SessionFault::Screen(misfit))
        );
    }
    let all = [[0, 0, 0], [1000, 0, 0], [0, 500, 0], [0, 0, 9]];
    assert!(rt; standing(rt.alloc(), screen, &all, 10) == Ok(([0, 0, 0], 1, (1, 1))));
}

/// Whether opening a mesh fails on the coarse screen with this turn, and the fault reads so.
fn fails_with(
    alloc: Global,
    turn: Quarters,
    points: &[[i32; 3]],
    triangles: &[[u32; 3]],
    line: &str,
) -> bool {
    let Ok(screen) = coarse(turn) else {
        return false;
    };
    match fault_of(alloc, screen, points, triangles) {
        Some(fault) => reads(alloc, &fault, line),
        None => false,
    }
}

/// Faults come in order, and points of an open edge are the part's own. Which edge is the least one may depend on the turn.
#[test]
fn faults_on_a_screen(rt: HostRuntime) {
    let alloc = rt.alloc();
    let sheet = &SIDES[1..];
    let misfit =
        "part does not fit: 1000 x 2000 micrometres on a screen of 1000 x 500; turned by a quarter it does not fit either";
    assert!(rt; fails_with(alloc, Quarters::Zero, PART, SIDES, misfit));
    assert!(rt;
        fails_with(
            alloc,
            Quarters::Zero,
            PART,
            sheet,
            "open edge 0 0 0 to 0 2000 0 there 0 back 1"
        )
    );
    assert!(rt;
        fails_with(
            alloc,
            Quarters::One,
            PART,
            sheet,
            "open edge 0 2000 0 to 0 0 0 there 1 back 0"
        )
    );
    assert!(rt;
        fails_with(
            alloc,
            Quarters::Zero,
            PART,
            &[[0, 1, 0]],
            "no facet is left"
        )
    );
}

/// A multiplied coordinate that is out of range goes before an open edge.
#[test]
fn a_part_too_far_for_its_pixels(rt: HostRuntime) {
    let points = [[32_000_001, 0, 0], [0, 1, 0], [0, 0, 1]];
    let Ok(screen) = Screen::new(2560, 1440, FINE, FINE, Quarters::Two) else {
        panic!(rt; "there is such a screen")
    };
    let far = SessionFault::Screen(ScreenFault::OutOfRange);
    assert!(rt; fault_of(rt.alloc(), screen, &points, &[[0, 1, 2]]) == Some(far));
    let near = [[32_000_000, 0, 0], [0, 1, 0], [0, 0, 1]];
    let told = fault_of(rt.alloc(), screen, &near, &[[0, 1, 2]]);
    assert!(rt; matches!(told, Some(SessionFault::Weld(_))));
}
