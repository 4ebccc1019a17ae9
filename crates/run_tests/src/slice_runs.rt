//! Runs that slice, with images and reports that are known, by several numbers of workers.
use crate::answers::{Refused, all_refused, writes, written};
use crate::meshes::Mesh::{Boxes, Hollow, Loud, Parts, Text};
use crate::meshes::{FLAT, Mesh, NESTED, OCTAHEDRON, OPEN, SPIKED, mesh_text};
use raster::Grid;
use std::alloc::{AllocError, Global};
use std::sync::Wait;
use std::thread::Threads;
use stl_text::Point;
use stlslice::image_len;
use task_words::PASS_LIMIT;
use test_meshes::{
    BEAM, COLUMN, CUBE, CUBE_AND_FLAT, CUBE_AND_PAIR, CUBE_OF_THREE, INWARD_CUBE, LONG_BEAM,
    NINE_IN_A_ROW, ONE_INWARD, SHEET, TOUCHING, TWO_CUBES,
};

/// Whether a run by a line of words, an option and this number of workers writes this text.
fn writes_by<R: Threads + Wait + Sync + AllocGlobal>(
    rt: &R,
    line: &str,
    option: &str,
    workers: u32,
    input: &str,
    text: &[u8],
) -> bool {
    match format!(in rt.alloc(); "{line} {option} --workers {workers}") {
        Ok(words) => writes(rt, words.as_str(), input, text),
        Err(_) => false,
    }
}

/// The same for each of several numbers of workers.
fn each_writes<R: Threads + Wait + Sync + AllocGlobal>(
    rt: &R,
    line: &str,
    option: &str,
    input: &str,
    text: &[u8],
) -> bool {
    for workers in &[1, 2, 3, PASS_LIMIT] {
        if !writes_by(rt, line, option, *workers, input, text) {
            return false;
        }
    }
    true
}

/// A line of words and a mesh, and the images and the report of it by them.
type Row<'a> = (&'a str, Mesh<'a>, &'a [u8], &'a str);

/// Whether a text has these images and this report by a line of words, by each number of workers.
fn has_both<R: Threads + Wait + Sync + AllocGlobal>(
    rt: &R,
    line: &str,
    input: &str,
    images: &[u8],
    report: &[u8],
) -> bool {
    each_writes(rt, line, "", input, images) && each_writes(rt, line, "--report", input, report)
}

/// Whether a mesh has the images and the report of a row.
fn is_sliced<R: Threads + Wait + Sync + AllocGlobal>(rt: &R, row: &Row<'_>) -> bool {
    let (line, mesh, images, report) = *row;
    match mesh_text(rt.alloc(), mesh) {
        Ok(input) => has_both(rt, line, input.as_str(), images, report.as_bytes()),
        Err(_) => false,
    }
}

/// `Ok`, or the number of the first row that comes out otherwise.
fn all_sliced<R: Threads + Wait + Sync + AllocGlobal>(
    rt: &R,
    rows: &[Row<'_>],
) -> Result<(), usize> {
    for (n, row) in rows.iter().enumerate() {
        if !is_sliced(rt, row) {
            return Err(n);
        }
    }
    Ok(())
}

const NESTED_IMAGES: &[u8] = b"P4\n3 3\n\x00\xc0\xc0P4\n3 3\n\x60\xa0\xc0P4\n3 3\n\x60\x60\x00";

const NESTED_REPORT: &str =
    "layer 0 loops 1 area 4\nlayer 1 loops 2 area 6\nlayer 2 loops 1 area 4\ntotal 14\n";

const CUBE_IMAGES: &[u8] = b"P4\n2 2\n\xc0\xc0P4\n2 2\n\xc0\xc0";

const CUBE_REPORT: &str = "layer 0 loops 1 area 4\nlayer 1 loops 1 area 4\ntotal 8\n";

const ONE_CELL: &str = "layer 0 loops 1 area 1\nlayer 1 loops 0 area 0\ntotal 1\n";

static FITTED: [Row; 8] = [
    ("--pitch 1 --layer 1", Parts(CUBE), CUBE_IMAGES, CUBE_REPORT),
    (
        "--pitch 1 --layer 1",
        Boxes(&[[[120_000_000, 0, 0], [120_000_002, 2, 2]]]),
        CUBE_IMAGES,
        CUBE_REPORT,
    ),
    (
        "--unit inch --pitch 51 --layer 51",
        Parts(CUBE),
        b"P4\n1 1\n\x80",
        "layer 0 loops 1 area 1\ntotal 1\n",
    ),
    (
        "--pitch 2 --layer 2",
        Boxes(&[[[0, 0, 0], [3, 3, 3]]]),
        b"P4\n2 2\n\x00\x80P4\n2 2\n\x00\x00",
        ONE_CELL,
    ),
    (
        "--pitch 2 --layer 2",
        Boxes(&[[[0, 0, 0], [1, 1, 1]], [[1, 1, 1], [3, 3, 3]]]),
        b"P4\n2 2\n\x00\x80P4\n2 2\n\x00\x00",
        ONE_CELL,
    ),
    (
        "--pitch 4 --layer 4",
        Text(OCTAHEDRON),
        b"P4\n1 1\n\x80",
        "layer 0 loops 1 area 1\ntotal 1\n",
    ),
    (
        "--pitch 1 --layer 1",
        Boxes(&[[[0, 0, 0], [9, 1, 1]]]),
        b"P4\n9 1\n\xff\x80",
        "layer 0 loops 1 area 9\ntotal 9\n",
    ),
    (
        "--pitch 2 --layer 2",
        Boxes(&NESTED),
        NESTED_IMAGES,
        NESTED_REPORT,
    ),
];

/// Worked meshes, each as a file with a keyword or a vertex a line, and with three decimals.
static FILES: [Row; 10] = [
    (
        "--pitch 2 --layer 2",
        Parts(CUBE_OF_THREE),
        b"P4\n2 2\n\x00\x80P4\n2 2\n\x00\x00",
        ONE_CELL,
    ),
    (
        "--pitch 2 --layer 2",
        Parts(TOUCHING),
        b"P4\n2 2\n\x00\x80P4\n2 2\n\x00\x00",
        ONE_CELL,
    ),
    (
        "--pitch 4 --layer 4",
        Parts(test_meshes::OCTAHEDRON),
        b"P4\n1 1\n\x80",
        "layer 0 loops 1 area 1\ntotal 1\n",
    ),
    (
        "--pitch 1 --layer 1",
        Parts(NINE_IN_A_ROW),
        b"P4\n9 1\n\xff\x80",
        "layer 0 loops 1 area 9\ntotal 9\n",
    ),
    (
        "--pitch 2 --layer 2",
        Parts(TWO_CUBES),
        NESTED_IMAGES,
        NESTED_REPORT,
    ),
    (
        "--pitch 2 --layer 2 --rule nonzero",
        Parts(TWO_CUBES),
        EITHER_IMAGES,
        EITHER_REPORT,
    ),
    (
        "--pitch 2 --layer 2 --rule positive",
        Parts(TWO_CUBES),
        EITHER_IMAGES,
        EITHER_REPORT,
    ),
    (
        "--pitch 2 --layer 2 --rule positive",
        Parts(ONE_INWARD),
        b"P4\n3 3\n\x00\xc0\xc0P4\n3 3\n\x00\x80\xc0P4\n3 3\n\x00\x00\x00",
        "layer 0 loops 1 area 4\nlayer 1 loops 2 area 3\nlayer 2 loops 1 area 0\ntotal 7\n",
    ),
    (
        "--pitch 1 --layer 1 --grid 1,1,1,0,0,16",
        Parts(COLUMN),
        b"P4\n1 1\n\x80",
        "layer 0 loops 1 area 1\ntotal 1\n",
    ),
    (
        "--pitch 2 --layer 2 --rule nonzero --grid 2,1,1,0,2,2",
        Parts(TWO_CUBES),
        b"P4\n2 1\n\xc0",
        "layer 0 loops 2 area 2\ntotal 2\n",
    ),
];

#[test]
fn worked_meshes_from_their_files(rt: HostRuntime) -> Result<(), usize> {
    all_sliced(&rt, &FILES)
}

#[test]
fn boxes_in_the_grids_that_fit(rt: HostRuntime) -> Result<(), usize> {
    all_sliced(&rt, &FITTED)
}

/// The overlapping boxes where what is in either is filled.
const EITHER_IMAGES: &[u8] = b"P4\n3 3\n\x00\xc0\xc0P4\n3 3\n\x60\xe0\xc0P4\n3 3\n\x60\x60\x00";

const EITHER_REPORT: &str =
    "layer 0 loops 1 area 4\nlayer 1 loops 2 area 7\nlayer 2 loops 1 area 4\ntotal 15\n";

static RULES: [Row; 8] = [
    (
        "--pitch 1 --layer 1 --rule nonzero",
        Parts(CUBE),
        CUBE_IMAGES,
        CUBE_REPORT,
    ),
    (
        "--pitch 1 --layer 1 --rule positive",
        Parts(CUBE),
        CUBE_IMAGES,
        CUBE_REPORT,
    ),
    (
        "--pitch 1 --layer 1",
        Parts(INWARD_CUBE),
        CUBE_IMAGES,
        CUBE_REPORT,
    ),
    (
        "--pitch 1 --layer 1 --rule nonzero",
        Parts(INWARD_CUBE),
        CUBE_IMAGES,
        CUBE_REPORT,
    ),
    (
        "--pitch 1 --layer 1 --rule positive",
        Parts(INWARD_CUBE),
        b"P4\n2 2\n\x00\x00P4\n2 2\n\x00\x00",
        "layer 0 loops 1 area 0\nlayer 1 loops 1 area 0\ntotal 0\n",
    ),
    (
        "--pitch 2 --layer 2 --rule nonzero",
        Boxes(&NESTED),
        EITHER_IMAGES,
        EITHER_REPORT,
    ),
    (
        "--pitch 2 --layer 2 --rule positive",
        Boxes(&NESTED),
        EITHER_IMAGES,
        EITHER_REPORT,
    ),
    (
        "--pitch 2 --layer 2 --rule positive",
        Hollow([[0, 0, 0], [4, 4, 4]], [[2, 2, 2], [6, 6, 6]]),
        b"P4\n3 3\n\x00\xc0\xc0P4\n3 3\n\x00\x80\xc0P4\n3 3\n\x00\x00\x00",
        "layer 0 loops 1 area 4\nlayer 1 loops 2 area 3\nlayer 2 loops 1 area 0\ntotal 7\n",
    ),
];

#[test]
fn boxes_by_each_rule(rt: HostRuntime) -> Result<(), usize> {
    all_sliced(&rt, &RULES)
}

const PAIRED_REPORT: &str = "layer 0 loops 2 area 4\nlayer 1 loops 2 area 4\ntotal 8\n";

static FILL_NOTHING: [Row; 6] = [
    (
        "--pitch 1 --layer 1",
        Parts(CUBE_AND_PAIR),
        CUBE_IMAGES,
        PAIRED_REPORT,
    ),
    (
        "--pitch 1 --layer 1 --rule nonzero",
        Parts(CUBE_AND_PAIR),
        CUBE_IMAGES,
        PAIRED_REPORT,
    ),
    (
        "--pitch 1 --layer 1",
        Parts(CUBE_AND_FLAT),
        CUBE_IMAGES,
        CUBE_REPORT,
    ),
    (
        "--pitch 1 --layer 1 --rule nonzero",
        Parts(CUBE_AND_FLAT),
        CUBE_IMAGES,
        CUBE_REPORT,
    ),
    // The grid fits the facets that are kept.
    (
        "--pitch 1 --layer 1",
        Parts(SPIKED),
        CUBE_IMAGES,
        CUBE_REPORT,
    ),
    (
        "--pitch 1 --layer 1",
        Parts(SHEET),
        b"P4\n2 2\n\x00\x00",
        "layer 0 loops 0 area 0\ntotal 0\n",
    ),
];

#[test]
fn facets_that_fill_nothing(rt: HostRuntime) -> Result<(), usize> {
    all_sliced(&rt, &FILL_NOTHING)
}

/// Two solids, each with a box, in another spelling.
static SPELLED: [Row; 1] = [(
    "--pitch 2 --layer 2",
    Loud(&NESTED),
    NESTED_IMAGES,
    NESTED_REPORT,
)];

#[test]
fn two_solids_in_another_spelling(rt: HostRuntime) -> Result<(), usize> {
    all_sliced(&rt, &SPELLED)
}

/// Whether the text of the overlapping boxes, in the other spelling, begins with this front.
fn is_loud(alloc: Global, front: &str) -> bool {
    match mesh_text(alloc, Loud(&NESTED)) {
        Ok(text) => text.starts_with(front),
        Err(_) => false,
    }
}

#[test]
fn the_other_spelling(rt: HostRuntime) {
    assert!(rt;
        is_loud(
            rt.alloc(),
            "SOLID B\r\nFACET NORMAL nan nan nan\r\nOUTER LOOP\r\n"
        )
    );
}

/// The number of columns of the widest grid.
const WIDEST: u32 = 16_384;

/// The length of its row in an image, in bytes.
const WIDEST_LEN: u32 = WIDEST / 8;

/// The image of the widest row, all black.
fn widest_image(alloc: Global) -> Result<Vec<u8>, AllocError> {
    let mut image = b"P4\n16384 1\n".to_vec(alloc)?;
    for _ in 0..WIDEST_LEN {
        image.push(0xff)?;
    }
    Ok(image)
}

/// Whether a bar of that width has that image.
fn is_widest<R: Threads + Wait + Sync + AllocGlobal>(rt: &R) -> bool {
    match widest_image(rt.alloc()) {
        Ok(image) => is_sliced(
            rt,
            &(
                "--pitch 1 --layer 1",
                Parts(BEAM),
                image.as_slice(),
                "layer 0 loops 1 area 16384\ntotal 16384\n",
            ),
        ),
        Err(_) => false,
    }
}

#[test]
fn the_widest_grid(rt: HostRuntime) {
    assert!(rt; is_widest(&rt));
}

/// The length of an image of the widest row.
fn widest_length() -> Option<u64> {
    let origin = Point::new(0, 0, 0)?;
    let grid = Grid::given(origin, 1, 1, WIDEST, 1, 1).ok()?;
    Some(image_len(&grid))
}

#[test]
fn the_length_of_the_widest_image(rt: HostRuntime) {
    assert!(rt; widest_length() == Some(11 + u64::from(WIDEST_LEN)));
}

/// From one layer on to before another: the image of each, its loops and its area.
type Layers<'a> = (u32, u32, &'a [u8], u32, u32);

/// The images of layers.
fn images_of(alloc: Global, layers: &[Layers<'_>]) -> Result<Vec<u8>, AllocError> {
    let mut images = Vec::new(alloc);
    for (first, end, image, _, _) in layers {
        for _ in *first..*end {
            images.extend_from_slice(image)?;
        }
    }
    Ok(images)
}

/// The lines of such layers in a report.
fn push_lines(text: &mut String, layers: &Layers<'_>) -> Result<(), AllocError> {
    let (first, end, _, loops, area) = *layers;
    for k in first..end {
        write!(text, "layer {k} loops {loops} area {area}\n")?;
    }
    Ok(())
}

/// The report of layers, with this last line.
fn report_of(alloc: Global, builds: &[Layers<'_>], total: &str) -> Result<String, AllocError> {
    let mut report = String::new(alloc);
    for layers in builds {
        push_lines(&mut report, layers)?;
    }
    report.push_str(total)?;
    Ok(report)
}

/// A line of words and a mesh, its layers by them, and the last line of the report.
type Build<'a> = (&'a str, Mesh<'a>, &'a [Layers<'a>], &'a str);

/// Whether a mesh has these images, and the report of a row.
fn has_images<R: Threads + Wait + Sync + AllocGlobal>(
    rt: &R,
    row: &Build<'_>,
    images: &[u8],
) -> bool {
    let (line, mesh, layers, total) = *row;
    match report_of(rt.alloc(), layers, total) {
        Ok(report) => is_sliced(rt, &(line, mesh, images, report.as_str())),
        Err(_) => false,
    }
}

/// Whether a mesh has the layers of a row.
fn is_built<R: Threads + Wait + Sync + AllocGlobal>(rt: &R, row: &Build<'_>) -> bool {
    match images_of(rt.alloc(), row.2) {
        Ok(images) => has_images(rt, row, images.as_slice()),
        Err(_) => false,
    }
}

/// Two boxes, of which the second begins at another height.
const PASSING: Mesh<'static> = Boxes(&[[[0, 0, 0], [5, 3, 20]], [[2, 1, 9], [8, 4, 30]]]);

const FIRST_ALONE: &[u8] = b"P4\n8 4\n\x00\xf8\xf8\xf8";

const SECOND_ALONE: &[u8] = b"P4\n8 4\n\x3f\x3f\x3f\x00";

/// A tower in three stripes, and two boxes in four.
static STRIPES: [Build; 4] = [
    (
        "--pitch 1 --layer 1",
        Boxes(&[[[0, 0, 0], [1, 1, 17]]]),
        &[(0, 17, b"P4\n1 1\n\x80", 1, 1)],
        "total 17\n",
    ),
    (
        "--pitch 1 --layer 1",
        Parts(COLUMN),
        &[(0, 17, b"P4\n1 1\n\x80", 1, 1)],
        "total 17\n",
    ),
    (
        "--pitch 1 --layer 1 --rule evenodd",
        PASSING,
        &[
            (0, 9, FIRST_ALONE, 1, 15),
            (9, 20, b"P4\n8 4\n\x3f\xc7\xc7\xf8", 2, 21),
            (20, 30, SECOND_ALONE, 1, 18),
        ],
        "total 546\n",
    ),
    (
        "--pitch 1 --layer 1 --rule nonzero",
        PASSING,
        &[
            (0, 9, FIRST_ALONE, 1, 15),
            (9, 20, b"P4\n8 4\n\x3f\xff\xff\xf8", 2, 27),
            (20, 30, SECOND_ALONE, 1, 18),
        ],
        "total 612\n",
    ),
];

#[test]
fn builds_in_several_stripes(rt: HostRuntime) {
    for row in &STRIPES {
        assert!(rt; is_built(&rt, row), "{}", row.3);
    }
}

/// How many bytes are written by a line of words. `None` if the number of workers makes a difference.
fn length_by_each<R: Threads + Wait + Sync + AllocGlobal>(
    rt: &R,
    line: &str,
    input: &str,
) -> Option<usize> {
    match written(rt, line, input) {
        Some(text) => each_writes(rt, line, "", input, text.as_slice()).then_some(text.len()),
        None => None,
    }
}

#[test]
fn slanted_facets_by_many_workers(rt: HostRuntime) {
    let images = length_by_each(&rt, "--unit inch --pitch 3 --layer 1", OCTAHEDRON);
    // Rows of 34 pixels have 5 bytes, and there are 102 layers.
    assert!(rt; images == Some(102 * (9 + 34 * 5)));
}

/// Whether what is written ends with this text, and the number of workers makes no difference.
fn ends_by_each<R: Threads + Wait + Sync + AllocGlobal>(
    rt: &R,
    line: &str,
    input: &str,
    end: &[u8],
) -> bool {
    match written(rt, line, input) {
        Some(text) => {
            text.as_slice().ends_with(end) && each_writes(rt, line, "", input, text.as_slice())
        }
        None => false,
    }
}

#[test]
fn a_report_of_slanted_facets_by_many_workers(rt: HostRuntime) {
    let line = "--unit inch --pitch 3 --layer 1 --report";
    // A centre is inside if the magnitudes of its x, y and z sum to less than 51 micrometres. Centres are at odd
    // multiples of half a pitch, 1.5, and of half a layer height, 0.5; of these, 19584 are inside.
    let end = b"layer 101 loops 1 area 0\ntotal 19584\n";
    assert!(rt; ends_by_each(&rt, line, OCTAHEDRON, end));
}

static GIVEN: [Row; 6] = [
    (
        "--pitch 1 --layer 2 --grid 4,4,1,-1,-1,-1",
        Parts(CUBE),
        b"P4\n4 4\n\x00\x60\x60\x00",
        "layer 0 loops 1 area 4\ntotal 4\n",
    ),
    (
        "--pitch 1 --layer 1 --grid 1,1,1,1,1,1",
        Parts(CUBE),
        b"P4\n1 1\n\x80",
        "layer 0 loops 1 area 1\ntotal 1\n",
    ),
    (
        "--pitch 1 --layer 1 --grid 2,2,1,0,0,0",
        Text("solid facet normal\nENDSOLID"),
        b"P4\n2 2\n\x00\x00",
        "layer 0 loops 0 area 0\ntotal 0\n",
    ),
    (
        "--pitch 1 --layer 1 --grid 2,2,2,0,0,0",
        Parts(CUBE),
        CUBE_IMAGES,
        CUBE_REPORT,
    ),
    (
        "--pitch 1 --layer 1 --grid 1,1,1,128000000,0,0",
        Parts(CUBE),
        b"P4\n1 1\n\x00",
        "layer 0 loops 1 area 0\ntotal 0\n",
    ),
    (
        "--pitch 2 --layer 2 --rule nonzero --grid 2,1,1,0,2,2",
        Boxes(&NESTED),
        b"P4\n2 1\n\xc0",
        "layer 0 loops 2 area 2\ntotal 2\n",
    ),
];

#[test]
fn slices_in_given_grids(rt: HostRuntime) -> Result<(), usize> {
    all_sliced(&rt, &GIVEN)
}

static REFUSED: [Refused; 18] = [
    (
        "--pitch 1 --layer 1",
        Parts(LONG_BEAM),
        5,
        "stlslice: grid too large: 16385 columns, 1 rows, 1 layers",
    ),
    (
        "--pitch 1 --layer 1",
        Parts(OPEN),
        4,
        "stlslice: open edge 0 0 0 to 0 2 0 there 0 back 1",
    ),
    (
        "--pitch 1 --layer 1 --grid 0,1,1,0,0,0",
        Parts(OPEN),
        4,
        "stlslice: open edge 0 0 0 to 0 2 0 there 0 back 1",
    ),
    (
        "--pitch 1 --layer 1",
        Text("solid facet normal\nENDSOLID"),
        5,
        "stlslice: no facet is left",
    ),
    (
        "--pitch 1 --layer 1",
        Parts(FLAT),
        5,
        "stlslice: no facet is left",
    ),
    (
        "--pitch 1 --layer 1",
        Boxes(&[[[0, 0, 0], [16385, 1, 1]]]),
        5,
        "stlslice: grid too large: 16385 columns, 1 rows, 1 layers",
    ),
    (
        "--pitch 1 --layer 1",
        Boxes(&[[[0, 0, 0], [1, 16385, 1]]]),
        5,
        "stlslice: grid too large: 1 columns, 16385 rows, 1 layers",
    ),
    (
        "--pitch 1 --layer 1",
        Boxes(&[[[0, 0, 0], [1, 1, 65536]]]),
        5,
        "stlslice: grid too large: 1 columns, 1 rows, 65536 layers",
    ),
    (
        "--pitch 1 --layer 1 --grid 0,1,1,0,0,0",
        Parts(CUBE),
        5,
        "stlslice: grid has no cells",
    ),
    (
        "--pitch 1 --layer 1 --grid 16385,1,1,0,0,0",
        Parts(CUBE),
        5,
        "stlslice: grid too large: 16385 columns, 1 rows, 1 layers",
    ),
    (
        "--pitch 1 --layer 1 --grid 1,16385,1,0,0,0",
        Parts(CUBE),
        5,
        "stlslice: grid too large: 1 columns, 16385 rows, 1 layers",
    ),
    (
        "--pitch 1 --layer 1 --grid 1,1,65536,0,0,0",
        Parts(CUBE),
        5,
        "stlslice: grid too large: 1 columns, 1 rows, 65536 layers",
    ),
    (
        "--pitch 100 --layer 1 --grid 16385,1,1,128000000,0,0",
        Parts(CUBE),
        5,
        "stlslice: grid too large: 16385 columns, 1 rows, 1 layers",
    ),
    (
        "--pitch 100 --layer 1 --grid 16384,1,1,128000000,0,0",
        Parts(CUBE),
        5,
        "stlslice: grid reaches too far",
    ),
    // The centre of one before the last is at 128100000, which is allowed.
    (
        "--pitch 64 --layer 1 --grid 1564,1,1,128000000,0,0",
        Parts(CUBE),
        5,
        "stlslice: grid reaches too far",
    ),
    (
        "--pitch 64 --layer 1 --grid 1,1564,1,0,128000000,0",
        Parts(CUBE),
        5,
        "stlslice: grid reaches too far",
    ),
    (
        "--pitch 1 --layer 64 --grid 1,1,1564,0,0,128000000",
        Parts(CUBE),
        5,
        "stlslice: grid reaches too far",
    ),
    (
        "--pitch 1 --layer 1 --grid 16385,0,1,128000000,0,0",
        Parts(CUBE),
        5,
        "stlslice: grid has no cells",
    ),
];

#[test]
fn slices_that_are_refused(rt: HostRuntime) -> Result<(), usize> {
    all_refused(&rt, &REFUSED)
}
