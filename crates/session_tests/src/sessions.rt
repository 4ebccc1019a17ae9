//! Sessions: each layer is what filling, linking and writing give, faults read as the program's, and memory that fails
//! is reported and leaves the session as it was.
ghost use Rattle.std.specs.Prelude.{◌≤◌};

use build_book::{Job, Layer, slice_stripe};
use contour::Loops;
use layer_session::{Depth, Mirrors, Place, Placing, Session, SessionFault, Setup};
use micro_num::Unit;
use raster::{Counted, Grid, GridFault, Rule, write_layer};
use short_memory::ShortMemory;
use std::alloc::{Allocator, Global};
use std::test::Fail;
use stl_text::{Point, StlFault, Word};
use test_layers::layer;
use test_meshes::published::GREATEST_STEP;
use test_meshes::{
    BOX, COLUMN, CORNERS, CUBE, CUBE_AND_FLAT, INWARD_CUBE, NINE_IN_A_ROW, OCTAHEDRON, ONE_INWARD,
    Part, SHEET, TWO_CUBES, text_of,
};
use test_solids::solid_of;

const EACH_RULE: [Rule; 3] = [Rule::EvenOdd, Rule::NonZero, Rule::Positive];

/// A setup of voxels of one size in micrometres, in a grid that fits the mesh.
pub(crate) fn fitted(size: u32, rule: Rule) -> Setup {
    Setup {
        unit: Unit::Millimetre,
        layer: size,
        rule,
        place: Place::Grid {
            pitch: size,
            placing: Placing::Fitted,
        },
    }
}

pub(crate) fn open<A: Allocator + Copy + Send + Sync>(
    alloc: A,
    parts: &[Part<'_>],
    setup: &Setup,
) -> Result<Session<A>, SessionFault> {
    let text = text_of(alloc, parts)?;
    Session::open(alloc, text.as_bytes(), setup)
}

/// The image of a layer of a job, by its spans.
fn image_of(alloc: Global, job: &Job<Global>, k: u32) -> Option<Vec<u8, Global>> {
    if k >= job.grid().layers() {
        return None;
    }
    match layer(alloc, job.solid(), job.grid(), job.rule(), k) {
        Ok(spans) => {
            let mut sink = Counted::new(Vec::new(alloc));
            let is_whole = write_layer(job.grid(), spans.as_slice(), &mut sink).is_ok();
            is_whole.then_some(sink.into_inner())
        }
        Err(_) => None,
    }
}

/// Whether a layer of a session has this image.
pub(crate) fn is_image(session: &Session<Global>, k: u32, image: &[u8]) -> bool {
    match session.image(k) {
        Ok(found) => found.as_slice() == image,
        Err(_) => false,
    }
}

/// Whether a stripe of a session has these images.
fn is_stripe(session: &Session<Global>, s: u64, images: &[u8]) -> bool {
    match session.stripe(s) {
        Ok(found) => found.as_slice() == images,
        Err(_) => false,
    }
}

/// How many bytes the image of a layer of a session has.
fn image_len<A: Allocator + Copy + Send + Sync>(
    session: &Session<A>,
    k: u32,
) -> Result<usize, SessionFault> {
    match session.image(k) {
        Ok(found) => Ok(found.len()),
        Err(fault) => Err(fault),
    }
}

/// How many bytes the PNG of a layer of a session has, in eight bits and mirrored along x.
fn png_len<A: Allocator + Copy + Send + Sync>(
    session: &Session<A>,
    k: u32,
) -> Result<usize, SessionFault> {
    match session.png(k, Depth::Eight, Mirrors { x: true, y: false }) {
        Ok(found) => Ok(found.len()),
        Err(fault) => Err(fault),
    }
}

/// How many bytes the images of a stripe of a session have.
fn stripe_len<A: Allocator + Copy + Send + Sync>(
    session: &Session<A>,
    s: u64,
) -> Result<usize, SessionFault> {
    match session.stripe(s) {
        Ok(found) => Ok(found.len()),
        Err(fault) => Err(fault),
    }
}

/// How many loops a layer of a session has.
fn loop_count<A: Allocator + Copy + Send + Sync>(
    session: &Session<A>,
    k: u32,
) -> Result<usize, SessionFault> {
    match session.loops(k) {
        Ok(found) => Ok(found.count()),
        Err(fault) => Err(fault),
    }
}

/// Whether a fault reads so.
pub(crate) fn reads(alloc: Global, fault: &SessionFault, line: &str) -> bool {
    match format!(in alloc; "{fault}") {
        Ok(shown) => shown.as_str() == line,
        Err(_) => false,
    }
}

/// Whether a layer of a session has as many loops as these, and the same first one.
fn are_loops_like(session: &Session<Global>, k: u32, loops: &Loops<Global>) -> bool {
    match session.loops(k) {
        Ok(found) => found.count() == loops.count() && found.get(0) == loops.get(0),
        Err(_) => false,
    }
}

/// Whether a layer of a session is this one of a job, and the images after it.
fn is_layer_of(
    alloc: Global,
    session: &Session<Global>,
    job: &Job<Global>,
    layer: &Layer<Global>,
    images: &mut Vec<u8>,
) -> bool {
    let k = layer.number();
    match image_of(alloc, job, k) {
        Some(image) => {
            images.extend_from_slice(image.as_slice()).is_ok()
                && is_image(session, k, image.as_slice())
                && session.area(k) == Ok(layer.area())
                && are_loops_like(session, k, layer.loops())
        }
        None => false,
    }
}

/// Whether layers of a session are these of a job, and are the layers of its stripe of this number.
fn are_layers_of(
    alloc: Global,
    session: &Session<Global>,
    job: &Job<Global>,
    s: u64,
    layers: &[Layer<Global>],
) -> bool {
    let mut images = Vec::new(alloc);
    for layer in layers {
        if !is_layer_of(alloc, session, job, layer, &mut images) {
            return false;
        }
    }
    is_stripe(session, s, images.as_slice())
}

/// Whether the layers of one stripe of a session are those of a job.
fn is_stripe_of(alloc: Global, session: &Session<Global>, job: &Job<Global>, s: u64) -> bool {
    if s >= job.stripes() {
        return false;
    }
    match slice_stripe(alloc, job, s) {
        Ok(piece) => are_layers_of(alloc, session, job, s, piece.layers()),
        Err(_) => false,
    }
}

/// The job of a mesh, with voxels of one size in micrometres.
pub(crate) fn job_of(
    alloc: Global,
    parts: &[Part<'_>],
    size: u32,
    rule: Rule,
) -> Option<Job<Global>>
    requires low { 1 ≤ size }
    requires high { size ≤ 2 }
{
    let Ok(solid) = solid_of(alloc, parts) else {
        return None;
    };
    match Grid::fit(&solid, size, size) {
        Ok(grid) => Some(Job::new(solid, grid, rule)),
        Err(_) => None,
    }
}

/// Whether all stripes of a session are those of a job.
fn is_session_of(alloc: Global, session: &Session<Global>, job: &Job<Global>) -> bool {
    for s in 0..job.stripes() {
        if !is_stripe_of(alloc, session, job, s) {
            return false;
        }
    }
    session.stripes() == job.stripes() && session.layers() == job.grid().layers()
}

/// Whether all stripes of the session of a mesh's text are those of the mesh itself.
fn are_stripes_of(alloc: Global, parts: &[Part<'_>], size: u32, rule: Rule) -> bool
    requires low { 1 ≤ size }
    requires high { size ≤ 2 }
{
    let Some(job) = job_of(alloc, parts, size, rule) else {
        return false;
    };
    match open(alloc, parts, &fitted(size, rule)) {
        Ok(session) => is_session_of(alloc, &session, &job),
        Err(_) => false,
    }
}

#[test]
fn layers_are_those_of_the_mesh(rt: HostRuntime) {
    for parts in [
        CUBE,
        TWO_CUBES,
        ONE_INWARD,
        INWARD_CUBE,
        OCTAHEDRON,
        NINE_IN_A_ROW,
        COLUMN,
        SHEET,
    ] {
        for rule in EACH_RULE {
            assert!(rt; are_stripes_of(rt.alloc(), parts, 1, rule));
            assert!(rt; are_stripes_of(rt.alloc(), parts, 2, rule));
        }
    }
}

/// What is reported of a session as a whole: counts of facets, columns, rows, layers and stripes, and the rule.
fn told(session: &Session<Global>) -> (usize, [u32; 3], u64, Rule) {
    let grid = session.grid();
    (
        session.facet_count(),
        [grid.columns(), grid.rows(), grid.layers()],
        session.stripes(),
        session.rule(),
    )
}

#[test]
fn a_column_of_seventeen_layers(rt: HostRuntime) {
    match open(rt.alloc(), COLUMN, &fitted(1, Rule::EvenOdd)) {
        Ok(session) => {
            assert!(rt; told(&session) == (12, [1, 1, 17], 3, Rule::EvenOdd));
            assert!(rt; session.layers() == 17);
            assert!(rt; is_image(&session, 16, b"P4\n1 1\n\x80"));
            assert!(rt; is_stripe(&session, 2, b"P4\n1 1\n\x80"));
            assert!(rt; stripe_len(&session, 1) == Ok(64));
            assert!(rt; session.area(16) == Ok(1) && loop_count(&session, 16) == Ok(1));
            assert!(rt; session.probe(0, 0, 16) == Ok((1, 1)));
        }
        Err(_) => assert!(rt; false),
    }
}

/// The box holds a degenerate facet too, which the grid does not.
#[test]
fn the_box_is_that_of_all_facets(rt: HostRuntime) {
    let far: &[Part] = &[
        (CORNERS, BOX),
        (&[[0, 0, 0], [9, 9, 9]], &[[0, 0, 1], [1, 1, 0]]),
    ];
    let bounds = Point::new(0, 0, 0).zip(Point::new(9, 9, 9));
    match open(rt.alloc(), far, &fitted(1, Rule::NonZero)) {
        Ok(session) => {
            assert!(rt; bounds.is_some() && session.bounds() == bounds);
            assert!(rt; told(&session) == (14, [2, 2, 2], 1, Rule::NonZero));
        }
        Err(_) => assert!(rt; false),
    }
}

#[test]
fn a_degenerate_facet_is_counted(rt: HostRuntime) {
    match open(rt.alloc(), CUBE_AND_FLAT, &fitted(1, Rule::NonZero)) {
        Ok(session) => assert!(rt; told(&session) == (13, [2, 2, 2], 1, Rule::NonZero)),
        Err(_) => assert!(rt; false),
    }
}

/// A setup of voxels of a micrometre in a grid of this many columns, rows and layers, from a corner on.
fn given([columns, rows, layers]: [u32; 3], [x, y, z]: [i32; 3]) -> Option<Setup> {
    let origin = Point::new(x, y, z)?;
    let placing = Placing::Given {
        columns,
        rows,
        layers,
        origin,
    };
    Some(Setup {
        place: Place::Grid { pitch: 1, placing },
        ..fitted(1, Rule::NonZero)
    })
}

#[test]
fn a_given_grid(rt: HostRuntime) -> Result<(), Fail> {
    let setup = given([3, 2, 4], [-1, 0, 0]).ok_or("no point")?;
    let session = open(rt.alloc(), CUBE, &setup)?;
    assert!(rt; told(&session) == (12, [3, 2, 4], 1, Rule::NonZero));
    assert!(rt; is_image(&session, 0, b"P4\n3 2\n\x60\x60"));
    assert!(rt; is_image(&session, 2, b"P4\n3 2\n\x00\x00"));
    assert!(rt; session.area(1) == Ok(4) && session.area(3) == Ok(0));
    assert!(rt; loop_count(&session, 1) == Ok(1) && loop_count(&session, 3) == Ok(0));
    assert!(rt; session.probe(0, 0, 0) == Ok((0, 0)) && session.probe(1, 0, 0) == Ok((1, 1)));
    Ok(())
}

/// Whether opening a mesh's text fails, and the fault reads so.
fn fails_with(alloc: Global, parts: &[Part<'_>], setup: &Setup, line: &str) -> bool {
    match open(alloc, parts, setup) {
        Ok(_session) => false,
        Err(fault) => reads(alloc, &fault, line),
    }
}

const STEP: &str = "pitch and layer height take 1 to 100000 micrometres";

const OPEN_EDGE: &str = "open edge 0 0 0 to 0 2 0 there 0 back 1";

/// A setup with no pitch.
pub(crate) fn no_pitch() -> Setup {
    let placing = Placing::Fitted;
    Setup {
        place: Place::Grid { pitch: 0, placing },
        ..fitted(1, Rule::NonZero)
    }
}

/// The step goes before the mesh.
#[test]
fn faults_of_steps_read_as_the_program_s(rt: HostRuntime) {
    let open_box: &[Part] = &[(CORNERS, &BOX[1..])];
    let setup = fitted(1, Rule::NonZero);
    assert!(rt; fails_with(rt.alloc(), CUBE, &no_pitch(), STEP));
    let coarse = Setup {
        layer: GREATEST_STEP + 1,
        ..setup
    };
    assert!(rt; fails_with(rt.alloc(), open_box, &coarse, STEP));
}

/// The mesh goes before the grid.
#[test]
fn faults_read_as_the_program_s(rt: HostRuntime) {
    let open_box: &[Part] = &[(CORNERS, &BOX[1..])];
    match given([1, 0, 1], [0, 0, 0]) {
        Some(no_cells) => {
            assert!(rt; fails_with(rt.alloc(), open_box, &no_cells, OPEN_EDGE));
            assert!(rt; fails_with(rt.alloc(), CUBE, &no_cells, "grid has no cells"));
        }
        None => assert!(rt; false),
    }
    let setup = fitted(1, Rule::NonZero);
    assert!(rt; fails_with(rt.alloc(), &[], &setup, "no facet is left"));
}

/// Whether a text has no session for this fault.
fn is_refused(alloc: Global, text: &[u8], setup: &Setup, told: SessionFault) -> bool {
    match Session::open(alloc, text, setup) {
        Ok(_session) => false,
        Err(fault) => fault == told,
    }
}

/// The same for the text of the cube.
fn is_cube_refused(alloc: Global, setup: &Setup, told: SessionFault) -> bool {
    match text_of(alloc, CUBE) {
        Ok(text) => is_refused(alloc, text.as_bytes(), setup, told),
        Err(_) => false,
    }
}

/// A text goes before the grid, too.
#[test]
fn faults_of_a_text_and_of_a_grid(rt: HostRuntime) {
    let wanted = StlFault::Expected {
        word: Word::FacetOrEnd,
        at: 6,
    };
    let misread = SessionFault::Stl(wanted);
    match given([1, 0, 1], [0, 0, 0]) {
        Some(no_cells) => {
            assert!(rt; is_refused(rt.alloc(), b"solid\nendloop", &no_cells, misread));
            assert!(rt;
                is_cube_refused(
                    rt.alloc(),
                    &no_cells,
                    SessionFault::Grid(GridFault::NoCells)
                )
            );
        }
        None => assert!(rt; false),
    }
}

/// How many areas so many layers have, from layer `first` on.
fn area_count<A: Allocator + Copy + Send + Sync>(
    session: &Session<A>,
    first: u32,
    count: u32,
) -> Result<usize, SessionFault> {
    Ok(session.areas(first, count)?.len())
}

/// Whether the areas of so many layers, from layer `first` on, are those of each alone.
fn are_areas_of_each(session: &Session<Global>, first: u32, count: u32) -> bool {
    match session.areas(first, count) {
        Ok(areas) => {
            let mut are_alike = areas.len() == count as usize;
            let mut k = first;
            for area in &areas {
                are_alike = are_alike && session.area(k) == Ok(*area);
                k = k.saturating_add(1);
            }
            are_alike
        }
        Err(_) => false,
    }
}

#[test]
fn areas_of_layers_in_a_row_are_those_of_each(rt: HostRuntime) {
    for rule in EACH_RULE {
        match open(rt.alloc(), TWO_CUBES, &fitted(1, rule)) {
            Ok(session) => {
                let layers = session.layers();
                assert!(rt; layers > 5 && are_areas_of_each(&session, 0, layers));
                assert!(rt; are_areas_of_each(&session, 2, 3) && are_areas_of_each(&session, 5, 1));
                assert!(rt;
                    are_areas_of_each(&session, 0, 0) && are_areas_of_each(&session, layers, 0)
                );
            }
            Err(_) => assert!(rt; false),
        }
    }
}

/// What is reported of a layer, a stripe or a voxel outside the column's grid.
const OUTSIDE: SessionFault = SessionFault::Outside {
    columns: 1,
    rows: 1,
    layers: 17,
};

/// Whether a layer of the column's session is outside, whatever is asked of it.
fn is_outside(session: &Session<Global>, k: u32) -> bool {
    image_len(session, k) == Err(OUTSIDE)
        && session.area(k) == Err(OUTSIDE)
        && loop_count(session, k) == Err(OUTSIDE)
        && session.probe(0, 0, k) == Err(OUTSIDE)
}

/// Whether so many layers of the column's session, from layer `first` on, are not all in its grid.
fn are_outside(session: &Session<Global>, first: u32, count: u32) -> bool {
    area_count(session, first, count) == Err(OUTSIDE)
}

/// Whether a stripe of the column's session is outside.
fn is_stripe_outside(session: &Session<Global>, s: u64) -> bool {
    stripe_len(session, s) == Err(OUTSIDE)
}

#[test]
fn nothing_lies_outside_the_grid(rt: HostRuntime) {
    match open(rt.alloc(), COLUMN, &fitted(1, Rule::NonZero)) {
        Ok(session) => {
            assert!(rt; is_outside(&session, 17) && is_outside(&session, u32::MAX));
            assert!(rt; is_stripe_outside(&session, 3) && is_stripe_outside(&session, u64::MAX));
            assert!(rt; are_outside(&session, 17, 1) && are_outside(&session, 0, 18));
            assert!(rt; are_outside(&session, 18, 0) && are_outside(&session, u32::MAX, u32::MAX));
            assert!(rt; session.probe(1, 0, 0) == Err(OUTSIDE));
            assert!(rt; session.probe(0, 1, 0) == Err(OUTSIDE));
        }
        Err(_) => assert!(rt; false),
    }
}

#[test]
fn what_lies_outside_is_told_with_the_grid(rt: HostRuntime) {
    let line = "voxel outside the grid: 1 columns, 1 rows, 17 layers";
    assert!(rt; reads(rt.alloc(), &OUTSIDE, line));
}

/// What a session returns, one call after the other; every call is made again if one of them has no memory.
fn answers(
    memory: &ShortMemory<Global>,
) -> Result<(usize, usize, usize, u64, usize, usize), SessionFault> {
    match open(memory, TWO_CUBES, &fitted(1, Rule::NonZero)) {
        Ok(session) => match answers_of(&session) {
            Err(SessionFault::Memory) => answers_of(&session),
            first => first,
        },
        Err(fault) => Err(fault),
    }
}

/// The lengths of an image, of a PNG and of a stripe, an area, how many areas two layers have, and a count of loops.
fn answers_of<A: Allocator + Copy + Send + Sync>(
    session: &Session<A>,
) -> Result<(usize, usize, usize, u64, usize, usize), SessionFault> {
    Ok((
        image_len(session, 3)?,
        png_len(session, 3)?,
        stripe_len(session, 0)?,
        session.area(3)?,
        area_count(session, 3, 2)?,
        loop_count(session, 3)?,
    ))
}

/// Fails each allocation in turn until none is left to fail. Returns how many of them gave `Memory`, and how many were mended by
/// the next try. It is `None` if a result was another.
fn failures(alloc: Global) -> Option<(u32, u32)> {
    let usual = (13, 110, 78, 28, 2, 2);
    let (mut told, mut tried) = (0u32, 0u32);
    for turn in 1..2000u64 {
        let memory = ShortMemory::new(alloc, turn);
        let found = answers(&memory);
        if !memory.has_failed() {
            return (found == Ok(usual)).then_some((told, tried));
        }
        if found == Err(SessionFault::Memory) {
            told = told.saturating_add(1);
        } else if found == Ok(usual) {
            tried = tried.saturating_add(1);
        } else {
            return None;
        }
    }
    None
}

#[test]
fn memory_that_fails_is_told_and_changes_nothing(rt: HostRuntime) {
    match failures(rt.alloc()) {
        Some((told, tried)) => assert!(rt; told > 10 && tried > 10),
        None => assert!(rt; false),
    }
}
