//! Which tasks words name, and how words are refused. Clauses say both; no clause says that memory is found.
use crate::word_lines::{split, task_of};
use geometry::Point;
use micro_num::Unit;
use raster::Rule;
use std::alloc::Global;
use task_words::{Depth, Given, Mirrors, Task, WordFault, wants_progress};

/// Whether a line of words is this task, which is `None` if it could not be made.
fn is_task(alloc: Global, line: &str, task: Option<Task>) -> bool {
    task.is_some() && task_of(alloc, line).ok() == task
}

/// The greatest number of nine digits, the most that a count has.
const GREATEST_COUNT: u32 = 999_999_999;

const BOX: Task = Task::Box {
    unit: Unit::Millimetre,
};

const PLAIN: Task = Task::Slice {
    unit: Unit::Millimetre,
    pitch: 50,
    layer: 100_000,
    rule: Rule::EvenOdd,
    workers: 1,
    report: false,
    grid: None,
};

const REPORT: Task = Task::Slice {
    unit: Unit::Millimetre,
    pitch: 50,
    layer: 100_000,
    rule: Rule::EvenOdd,
    workers: 1,
    report: true,
    grid: None,
};

const PROBE_AT_0: Task = Task::Probe {
    unit: Unit::Millimetre,
    pitch: 50,
    layer: 100_000,
    grid: None,
    i: 0,
    j: 0,
    k: 0,
};

/// Words, and their task.
type TaskWords<'a> = (&'a str, Task);

const TASKS: [TaskWords; 15] = [
    ("--pitch 50 --layer 100000 --png --report", REPORT),
    (
        "--report --pitch 50 --layer 100000 --png --depth 1 --mirror-x --mirror-y",
        REPORT,
    ),
    ("--pitch 50 --layer 100000 --png --probe 0,0,0", PROBE_AT_0),
    (
        "--pitch 50 --layer 100000 --png --report --probe 0,0,0",
        PROBE_AT_0,
    ),
    ("--png --box", BOX),
    ("--png --box --probe 0,0,0 --report --mirror-x", BOX),
    ("--box", BOX),
    ("--box --pitch 5", BOX),
    ("--progress --box", BOX),
    ("--box --pitch 5 --report --probe 0,0,0", BOX),
    (
        "--unit inch --box --workers 2",
        Task::Box { unit: Unit::Inch },
    ),
    ("--pitch 50 --layer 100000", PLAIN),
    (
        "--rule evenodd --layer=100000 --unit=mm --workers=1 --pitch=50",
        PLAIN,
    ),
    (
        "--pitch 100000 --layer 1 --probe 0,2,1",
        Task::Probe {
            unit: Unit::Millimetre,
            pitch: 100_000,
            layer: 1,
            grid: None,
            i: 0,
            j: 2,
            k: 1,
        },
    ),
    (
        "--probe 003,999999999,0 --report --rule nonzero --pitch 1 --layer 1",
        Task::Probe {
            unit: Unit::Millimetre,
            pitch: 1,
            layer: 1,
            grid: None,
            i: 3,
            j: GREATEST_COUNT,
            k: 0,
        },
    ),
];

#[test]
fn words_are_tasks(rt: HostRuntime) {
    for row in &TASKS {
        assert!(rt; is_task(rt.alloc(), row.0, Some(row.1)), "{}", row.0);
    }
}

/// The options of PNGs, and what they stand for.
type PngWords<'a> = (&'a str, Depth, Mirrors);

static PNGS: [PngWords; 7] = [
    (
        "--pitch 50 --layer 100000 --png",
        Depth::Eight,
        Mirrors { x: false, y: false },
    ),
    (
        "--png --pitch 50 --layer 100000 --depth 8",
        Depth::Eight,
        Mirrors { x: false, y: false },
    ),
    (
        "--depth=1 --png --pitch 50 --layer 100000",
        Depth::One,
        Mirrors { x: false, y: false },
    ),
    (
        "--mirror-x --png --pitch 50 --layer 100000",
        Depth::Eight,
        Mirrors { x: true, y: false },
    ),
    (
        "--pitch 50 --layer 100000 --png --mirror-y",
        Depth::Eight,
        Mirrors { x: false, y: true },
    ),
    (
        "--pitch 50 --layer 100000 --mirror-y --png --depth 1 --mirror-x",
        Depth::One,
        Mirrors { x: true, y: true },
    ),
    (
        "--pitch 50 --progress --layer 100000 --png",
        Depth::Eight,
        Mirrors { x: false, y: false },
    ),
];

/// The task of a row.
fn png_task(row: &PngWords<'_>) -> Task {
    let (_, depth, mirrors) = *row;
    Task::Png {
        unit: Unit::Millimetre,
        pitch: 50,
        layer: 100_000,
        rule: Rule::EvenOdd,
        workers: 1,
        grid: None,
        depth,
        mirrors,
    }
}

#[test]
fn words_are_tasks_of_pngs(rt: HostRuntime) {
    for row in &PNGS {
        assert!(rt;
            is_task(rt.alloc(), row.0, Some(png_task(row))),
            "{}",
            row.0
        );
    }
}

/// Whether a line of words asks for progress, or does not, as this says.
fn asks_for_progress(alloc: Global, line: &str, wanted: bool) -> bool {
    match split(alloc, line) {
        Ok(words) => wants_progress(words.as_slice()) == wanted,
        Err(_) => false,
    }
}

#[test]
fn words_that_ask_for_progress(rt: HostRuntime) {
    assert!(rt; asks_for_progress(rt.alloc(), "--pitch 1 --progress --layer 1", true));
    assert!(rt; asks_for_progress(rt.alloc(), "--pitch 1 --layer 1 --report", false));
}

/// The least coordinate of a point, in micrometres.
const LEAST_COORDINATE: i32 = -128_000_000;

/// A task with each option that belongs to it.
fn full_task() -> Option<Task> {
    let origin = Point::new(-1, 0, LEAST_COORDINATE)?;
    Some(Task::Slice {
        unit: Unit::Inch,
        pitch: 5,
        layer: 7,
        rule: Rule::Positive,
        workers: 64,
        report: true,
        grid: Some(Given {
            columns: 4,
            rows: 0,
            layers: GREATEST_COUNT,
            origin,
        }),
    })
}

/// The task of PNGs with each option that belongs to it.
fn full_pngs() -> Option<Task> {
    let origin = Point::new(0, 0, 0)?;
    Some(Task::Png {
        unit: Unit::Inch,
        pitch: 5,
        layer: 7,
        rule: Rule::NonZero,
        workers: 3,
        grid: Some(Given {
            columns: 4,
            rows: 5,
            layers: 6,
            origin,
        }),
        depth: Depth::One,
        mirrors: Mirrors { x: false, y: true },
    })
}

#[test]
fn words_are_a_full_task_of_pngs(rt: HostRuntime) {
    let line =
        "--png --grid 4,5,6,0,0,0 --pitch 5 --layer 7 --rule nonzero --workers 3 --unit inch --depth 1 --mirror-y";
    assert!(rt; is_task(rt.alloc(), line, full_pngs()));
}

#[test]
fn words_are_a_full_task(rt: HostRuntime) {
    let line =
        "--report --grid 4,0,999999999,-1,-0,-128000000 --pitch +5 --layer 007 --rule positive --workers 64 --unit inch";
    assert!(rt; is_task(rt.alloc(), line, full_task()));
}

const PITCH: &str = "stlslice: --pitch is missing";

const LAYER: &str = "stlslice: --layer is missing";

const RULE: &str = "stlslice: --rule takes evenodd, nonzero or positive";

const UNIT: &str = "stlslice: --unit takes mm or inch";

const GRID: &str = "stlslice: --grid takes COLUMNS,ROWS,LAYERS,X0,Y0,Z0";

const PROBE: &str = "stlslice: --probe takes I,J,K";

const DEPTH: &str = "stlslice: --depth takes 8 or 1";

const DEPTH_ALONE: &str = "stlslice: --depth goes with --png";

const MIRROR_X_ALONE: &str = "stlslice: --mirror-x goes with --png";

const MIRROR_Y_ALONE: &str = "stlslice: --mirror-y goes with --png";

/// Words that are of the form of the command and yet no task, and the line of their fault.
static NO_TASKS: [(&str, &str); 41] = [
    ("--png", PITCH),
    ("--png --pitch 1", LAYER),
    ("--depth 2 --png --pitch 1 --layer 1", DEPTH),
    ("--depth= --png --pitch 1 --layer 1", DEPTH),
    ("--depth 08 --png --box", DEPTH),
    ("--depth 16", DEPTH),
    ("--depth 2 --probe 0,0 --box", PROBE),
    ("--depth 8 --pitch 1 --layer 1", DEPTH_ALONE),
    ("--depth 1 --mirror-x --mirror-y", DEPTH_ALONE),
    ("--mirror-y --mirror-x --pitch 1 --layer 1", MIRROR_X_ALONE),
    ("--mirror-y --pitch 1 --layer 1", MIRROR_Y_ALONE),
    ("--mirror-y --report --pitch 1 --layer 1", MIRROR_Y_ALONE),
    ("--mirror-x --box", MIRROR_X_ALONE),
    ("--depth 8", DEPTH_ALONE),
    ("", PITCH),
    ("--layer 1", PITCH),
    ("--pitch 1", LAYER),
    ("--rule odd", RULE),
    ("--box --rule odd", RULE),
    ("--rule= --box", RULE),
    ("--rule EvenOdd --unit cm --box", RULE),
    ("--unit cm --grid 1 --box", UNIT),
    ("--unit= --box", UNIT),
    ("--unit=MM --box", UNIT),
    ("--grid= --box", GRID),
    ("--grid 1,1,1,0,0 --probe 0,0 --pitch 1 --layer 1", GRID),
    ("--grid 1,1,1,0,0,0,0", GRID),
    ("--grid +1,1,1,0,0,0", GRID),
    ("--grid=-0,1,1,0,0,0 --box", GRID),
    ("--grid 1,1,1,128000001,0,0", GRID),
    ("--grid 1,1,1,0,+0,0", GRID),
    ("--grid 1,1,1,0,0,", GRID),
    ("--grid 1,1,1,0,0,-", GRID),
    ("--grid 1234567890,1,1,0,0,0", GRID),
    ("--grid 1,1,1,0,0,0000000000", GRID),
    ("--probe= --box", PROBE),
    ("--probe=+1,0,0 --pitch 1 --layer 1", PROBE),
    ("--probe 0,0", PROBE),
    ("--probe 0,0,-0 --box", PROBE),
    ("--probe 0,0,0,0", PROBE),
    ("--probe 1234567890,0,0", PROBE),
];

/// Whether a fault has this status and this line.
fn is_told(alloc: Global, fault: &WordFault, status: u8, told: &str) -> bool {
    match fault.to_string(alloc) {
        Ok(shown) => fault.status() == status && shown.as_str() == told,
        Err(_) => false,
    }
}

/// Whether a line of words is no task, by a fault of status 2 with this line.
fn is_no_task(alloc: Global, line: &str, told: &str) -> bool {
    match task_of(alloc, line) {
        Ok(_) => false,
        Err(fault) => is_told(alloc, &fault, 2, told),
    }
}

#[test]
fn a_grid_of_five_numbers(rt: HostRuntime) {
    let line = "--pitch 1 --layer 1 --grid 1,1,1,0,0";
    assert!(rt; matches!(task_of(rt.alloc(), line), Err(WordFault::BadGrid)));
    assert!(rt; is_no_task(rt.alloc(), line, GRID));
}

#[test]
fn a_probe_of_two_numbers(rt: HostRuntime) {
    let line = "--pitch 1 --layer 1 --probe 0,0";
    assert!(rt; matches!(task_of(rt.alloc(), line), Err(WordFault::BadProbe)));
    assert!(rt; is_no_task(rt.alloc(), line, PROBE));
}

#[test]
fn words_that_are_no_task(rt: HostRuntime) {
    for row in &NO_TASKS {
        assert!(rt; is_no_task(rt.alloc(), row.0, row.1), "{}", row.0);
    }
}

#[test]
fn words_without_memory(rt: HostRuntime) {
    assert!(rt; is_told(rt.alloc(), &WordFault::Memory, 6, "stlslice: out of memory"));
}

const ABOUT: &str = "Slices a closed triangle mesh into one image a layer.\n";

/// Words that are not of the form of the command, or ask for its help; and the status and the front of the message.
type Refused<'a> = (&'a str, u8, &'a str);

static REFUSED: [Refused; 20] = [
    (
        "--png --box --png",
        2,
        "error: the argument '--png' cannot be used multiple times",
    ),
    (
        "--box --png --mirror",
        2,
        "error: unexpected argument '--mirror' found",
    ),
    (
        "--png=8 --box",
        2,
        "error: unexpected value '8' for '--png' found",
    ),
    (
        "--pitch 1 --layer 1 --png --depth",
        2,
        "error: a value is required for '--depth <D>' but none was supplied",
    ),
    (
        "--pitch 0 --layer 1",
        2,
        "error: invalid value '0' for '--pitch <N>'",
    ),
    (
        "--pitch 100001 --layer 1",
        2,
        "error: invalid value '100001' for '--pitch <N>'",
    ),
    (
        "--pitch 1 --layer 0",
        2,
        "error: invalid value '0' for '--layer <N>'",
    ),
    (
        "--pitch 1 --layer 100001",
        2,
        "error: invalid value '100001' for '--layer <N>'",
    ),
    (
        "--pitch 1 --layer 1 --workers 65",
        2,
        "error: invalid value '65' for '--workers <N>'",
    ),
    (
        "--pitch 1 --layer 1 --workers 0",
        2,
        "error: invalid value '0' for '--workers <N>'",
    ),
    (
        "--pitch= --layer 1 --rule odd",
        2,
        "error: invalid value '' for '--pitch <N>'",
    ),
    (
        "--box --box",
        2,
        "error: the argument '--box' cannot be used multiple times",
    ),
    (
        "--box --unit mm --unit mm",
        2,
        "error: the argument '--unit <U>' cannot be used multiple times",
    ),
    (
        "--progress --box --progress",
        2,
        "error: the argument '--progress' cannot be used multiple times",
    ),
    (
        "--pitch --progress --layer 1",
        2,
        "error: a value is required for '--pitch <N>' but none was supplied",
    ),
    (
        "--box -- --progress",
        2,
        "error: unexpected argument '--progress' found",
    ),
    ("--bo", 2, "error: unexpected argument '--bo' found"),
    (
        "--box part.stl",
        2,
        "error: unexpected argument 'part.stl' found",
    ),
    ("--box --help", 0, ABOUT),
    ("-h", 0, ABOUT),
];

/// Texts that begin with `-` after a blank, which the command takes for options.
static DASHED: [Refused; 3] = [
    (
        "--grid -0,1,1,0,0,0 --box",
        2,
        "error: unexpected argument '-0' found",
    ),
    (
        "--grid -1,1,1,0,0,0 --pitch 1 --layer 1",
        2,
        "error: unexpected argument '-1' found",
    ),
    (
        "--probe -1,0,0 --pitch 1 --layer 1",
        2,
        "error: unexpected argument '-1' found",
    ),
];

/// Whether a fault is of the form of the command and has this status, and its text begins with this front.
fn is_refusal(alloc: Global, fault: &WordFault, status: u8, front: &str) -> bool {
    match fault.to_string(alloc) {
        Ok(shown) => {
            matches!(fault, WordFault::Refused(_))
                && fault.status() == status
                && shown.as_str().starts_with(front)
        }
        Err(_) => false,
    }
}

/// Whether words are refused as a row says.
fn is_refused(alloc: Global, row: &Refused<'_>) -> bool {
    let (line, status, front) = *row;
    match task_of(alloc, line) {
        Ok(_) => false,
        Err(fault) => is_refusal(alloc, &fault, status, front),
    }
}

#[test]
fn words_that_are_refused(rt: HostRuntime) {
    for row in &REFUSED {
        assert!(rt; is_refused(rt.alloc(), row), "{}", row.0);
    }
}

#[test]
fn texts_that_begin_with_a_dash(rt: HostRuntime) {
    for row in &DASHED {
        assert!(rt; is_refused(rt.alloc(), row), "{}", row.0);
    }
}
