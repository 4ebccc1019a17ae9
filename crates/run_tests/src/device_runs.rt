//! Runs over readers and writers that fail after each number of calls or bytes: contracts say what a fault leaves, and
//! these show that the run goes on until there.
use crate::answers::{end_of, is_told};
use crate::meshes::Mesh::{Boxes, Parts};
use crate::meshes::mesh_text;
use crate::png_runs::CUBE_PNGS;
use short_memory::{InterruptedOnce, OneByteReader, SmallWriter};
use std::io::ErrorKind;
use std::sync::Wait;
use std::thread::Threads;
use stl_text::{StlFault, Word};
use stlslice::{Counted, Failures, RunFault, Sink};
use test_meshes::CUBE;

/// A line of words, and a text.
type Row<'a> = (&'a str, &'a [u8]);

/// The text of each kind of task for the cube.
static TEXTS: [Row; 6] = [
    ("--box", b"facets 12 box 0 0 0 2 2 2\n"),
    (
        "--pitch 1 --layer 1 --probe 0,0,0",
        b"voxel 0 0 0 x 1 y 1\n",
    ),
    ("--pitch 1 --layer 1", b"P4\n2 2\n\xc0\xc0P4\n2 2\n\xc0\xc0"),
    (
        "--pitch 1 --layer 1 --workers 3",
        b"P4\n2 2\n\xc0\xc0P4\n2 2\n\xc0\xc0",
    ),
    ("--pitch 1 --layer 1 --png", CUBE_PNGS),
    (
        "--pitch 1 --layer 1 --report",
        b"layer 0 loops 1 area 4\nlayer 1 loops 1 area 4\ntotal 8\n",
    ),
];

/// Whether a run has this end and has written this text, and one call of its device failed if it ends with a fault.
fn is_alike(
    found: Option<Result<(), RunFault>>,
    failures: u64,
    taken: &[u8],
    end: Result<(), RunFault>,
    text: &[u8],
) -> bool {
    found == Some(end) && failures == u64::from(end.is_err()) && taken == text
}

/// What a run by a line of words over the cube ends with.
fn end_by_cube<R: Threads + Wait + Sync + AllocGlobal, O: Sink>(
    rt: &R,
    line: &str,
    sink: &mut O,
) -> Option<Result<(), RunFault>> {
    match mesh_text(rt.alloc(), Parts(CUBE)) {
        Ok(cube) => {
            let mut source = Counted::new(cube.as_bytes());
            end_of(rt, rt.alloc(), line, &mut source, sink)
        }
        Err(_) => None,
    }
}

/// Whether a run over the cube has this end, and its writer took this text.
fn is_taken<R: Threads + Wait + Sync + AllocGlobal>(
    rt: &R,
    line: &str,
    writer: SmallWriter,
    end: Result<(), RunFault>,
    text: &[u8],
) -> bool {
    let mut sink = Counted::new(writer);
    let found = end_by_cube(rt, line, &mut sink);
    let failures = sink.failures();
    is_alike(found, failures, sink.inner().taken.as_slice(), end, text)
}

/// How many bytes a writer takes a call, the fault with which it has no more room, and whether it can be flushed.
type Way = (usize, Option<ErrorKind>, bool);

static WAYS: [Way; 7] = [
    (1, Some(ErrorKind::Other), true),
    (5, Some(ErrorKind::Interrupted), true),
    (100, Some(ErrorKind::Other), true),
    (1, None, true),
    (5, None, true),
    (100, None, true),
    (1, None, false),
];

/// Whether a run fills each room, up to the length of the text. It succeeds exactly if the whole text fits and is flushed.
fn fills_each_room<R: Threads + Wait + Sync + AllocGlobal>(
    rt: &R,
    row: &Row<'_>,
    way: &Way,
) -> bool {
    let (line, text) = *row;
    let (most_per_call, fault, flushes) = *way;
    for room in 0..=text.len() {
        let end = if flushes && room == text.len() {
            Ok(())
        } else {
            let written = room as u64;
            Err(RunFault::Write { written })
        };
        let writer = SmallWriter::new(rt.alloc(), room, most_per_call, fault, flushes);
        if !is_taken(rt, line, writer, end, &text[..room]) {
            return false;
        }
    }
    true
}

/// The same by a writer of each of these ways.
fn fills_by_each<R: Threads + Wait + Sync + AllocGlobal>(
    rt: &R,
    row: &Row<'_>,
    ways: &[Way],
) -> bool {
    for way in ways {
        if !fills_each_room(rt, row, way) {
            return false;
        }
    }
    true
}

#[test]
fn writers_with_little_room(rt: HostRuntime) {
    for row in &TEXTS {
        assert!(rt; fills_by_each(&rt, row, &WAYS), "{}", row.0);
    }
}

#[test]
fn a_writer_that_fails_after_five_bytes(rt: HostRuntime) {
    let writer = SmallWriter::new(rt.alloc(), 5, 5, Some(ErrorKind::Other), true);
    let fault = RunFault::Write { written: 5 };
    assert!(rt; is_taken(&rt, "--pitch 1 --layer 1", writer, Err(fault), b"P4\n2 "));
    assert!(rt;
        is_told(
            rt.alloc(),
            &fault,
            7,
            "stlslice: write failed after 5 bytes"
        )
    );
}

/// Whether a run over a reader has this end, and has written this text.
fn is_read<R: Threads + Wait + Sync + AllocGlobal>(
    rt: &R,
    line: &str,
    reader: OneByteReader<'_>,
    end: Result<(), RunFault>,
    text: &[u8],
) -> bool {
    let mut source = Counted::new(reader);
    let mut sink = Counted::new(Vec::new(rt.alloc()));
    let found = end_of(rt, rt.alloc(), line, &mut source, &mut sink);
    is_alike(found, source.failures(), sink.inner().as_slice(), end, text)
}

/// Whether a run over a reader of this text, which fails after `calls` calls, ends by that failure, or writes its text
/// if the whole input was read before it.
fn is_read_until<R: Threads + Wait + Sync + AllocGlobal>(
    rt: &R,
    line: &str,
    input: &str,
    calls: u64,
    text: &[u8],
) -> bool {
    let fault = if calls % 2 == 0 {
        ErrorKind::Interrupted
    } else {
        ErrorKind::Other
    };
    let bytes = input.as_bytes();
    let reader = OneByteReader {
        bytes,
        calls,
        fault,
    };
    if calls < 1484 {
        is_read(rt, line, reader, Err(RunFault::Read), b"")
    } else {
        is_read(rt, line, reader, Ok(()), text)
    }
}

/// Whether a run ends as it should with each number of calls before the failure, up to all those that read the cube.
fn is_read_until_each<R: Threads + Wait + Sync + AllocGlobal>(
    rt: &R,
    line: &str,
    input: &str,
    text: &[u8],
) -> bool {
    for calls in 0..=1484 {
        if !is_read_until(rt, line, input, calls, text) {
            return false;
        }
    }
    true
}

/// The same for a row, over the cube.
fn is_each_read<R: Threads + Wait + Sync + AllocGlobal>(rt: &R, row: &Row<'_>) -> bool {
    let (line, text) = *row;
    match mesh_text(rt.alloc(), Parts(CUBE)) {
        Ok(cube) => is_read_until_each(rt, line, cube.as_str(), text),
        Err(_) => false,
    }
}

#[test]
fn readers_that_fail(rt: HostRuntime) {
    for row in &TEXTS {
        assert!(rt; is_each_read(&rt, row), "{}", row.0);
    }
}

/// A text with a fault at its front.
static BROKEN: &str = "facet normal 0 0 1\nsolid\nendsolid\n";

/// Whether a run over a text with a fault ends by the failed read, however late that comes, and by the fault only if
/// all of the text was read.
fn is_read_behind_a_fault<R: Threads + Wait + Sync + AllocGlobal>(
    rt: &R,
    line: &str,
    calls: u64,
) -> bool {
    let fault = StlFault::Expected {
        word: Word::Solid,
        at: 0,
    };
    let end = if calls <= BROKEN.len() as u64 {
        RunFault::Read
    } else {
        RunFault::Stl(fault)
    };
    let mut source = Counted::new(OneByteReader {
        bytes: BROKEN.as_bytes(),
        calls,
        fault: ErrorKind::Other,
    });
    let mut sink = Counted::new(Vec::new(rt.alloc()));
    let found = end_of(rt, rt.alloc(), line, &mut source, &mut sink);
    let is_all_read = source.inner().bytes.is_empty() || end == RunFault::Read;
    found == Some(Err(end)) && is_all_read && sink.inner().is_empty()
}

/// Whether each task reads a text with a fault to its end.
fn is_each_read_behind_a_fault<R: Threads + Wait + Sync + AllocGlobal>(rt: &R, calls: u64) -> bool {
    for row in &TEXTS {
        if !is_read_behind_a_fault(rt, row.0, calls) {
            return false;
        }
    }
    true
}

#[test]
fn readers_that_fail_behind_a_fault(rt: HostRuntime) {
    for calls in 0..=BROKEN.len() as u64 + 1 {
        assert!(rt; is_each_read_behind_a_fault(&rt, calls));
    }
}

/// Whether a run ends with a failed read if its reader is interrupted once and would go on. The reader gives one byte a call.
/// The run reads no byte after that, and writes none.
fn is_ended_by_a_read<R: Threads + Wait + Sync + AllocGlobal>(
    rt: &R,
    line: &str,
    input: &str,
    calls: u64,
) -> bool {
    let reader = OneByteReader {
        bytes: input.as_bytes(),
        calls: u64::MAX,
        fault: ErrorKind::Other,
    };
    let mut source = Counted::new(InterruptedOnce {
        inner: reader,
        calls: Some(calls),
    });
    let mut sink = Counted::new(Vec::new(rt.alloc()));
    let found = end_of(rt, rt.alloc(), line, &mut source, &mut sink);
    let end = Err(RunFault::Read);
    let left = source.inner().inner.bytes.len() as u64;
    is_alike(found, source.failures(), sink.inner().as_slice(), end, b"")
        && left == (input.len() as u64).saturating_sub(calls)
}

/// Whether a run of each kind of task ends so, if this call after others is interrupted.
fn is_each_ended_by_a_read<R: Threads + Wait + Sync + AllocGlobal>(rt: &R, calls: u64) -> bool {
    let Ok(cube) = mesh_text(rt.alloc(), Parts(CUBE)) else {
        return false;
    };
    for row in &TEXTS {
        if !is_ended_by_a_read(rt, row.0, cube.as_str(), calls) {
            return false;
        }
    }
    true
}

#[test]
fn readers_that_are_interrupted_once(rt: HostRuntime) {
    // the call after the 1483 bytes gives the end
    for calls in [0, 1, 2, 700, 1482, 1483] {
        assert!(rt; is_each_ended_by_a_read(&rt, calls));
    }
}

/// Whether a run ends by a failed write, having written this front, if its writer is interrupted once after as many calls. The
/// writer takes a byte a call.
fn is_ended_by_a_write<R: Threads + Wait + Sync + AllocGlobal>(
    rt: &R,
    line: &str,
    front: &[u8],
    room: usize,
) -> bool {
    let written = front.len() as u64;
    let mut sink = Counted::new(InterruptedOnce {
        inner: SmallWriter::new(rt.alloc(), room, 1, None, true),
        calls: Some(written),
    });
    let found = end_by_cube(rt, line, &mut sink);
    let failures = sink.failures();
    let taken = sink.inner().inner.taken.as_slice();
    is_alike(
        found,
        failures,
        taken,
        Err(RunFault::Write { written }),
        front,
    )
}

/// Whether that is so after each number of calls. The last one is the flush. No byte goes out after the one that failed.
fn is_each_ended_by_a_write<R: Threads + Wait + Sync + AllocGlobal>(rt: &R, row: &Row<'_>) -> bool {
    let (line, text) = *row;
    for calls in 0..=text.len() {
        if !is_ended_by_a_write(rt, line, &text[..calls], text.len()) {
            return false;
        }
    }
    true
}

#[test]
fn writers_that_are_interrupted_once(rt: HostRuntime) {
    for row in &TEXTS {
        assert!(rt; is_each_ended_by_a_write(&rt, row), "{}", row.0);
    }
}

/// How many calls a run makes of a writer that takes all that it is given, the flush among them. `None` if it does not end
/// well.
fn calls_of<R: Threads + Wait + Sync + AllocGlobal>(
    rt: &R,
    line: &str,
    input: &str,
) -> Option<u64> {
    let mut source = Counted::new(input.as_bytes());
    let mut sink = Counted::new(InterruptedOnce {
        inner: Vec::new(rt.alloc()),
        calls: Some(100),
    });
    let found = end_of(rt, rt.alloc(), line, &mut source, &mut sink);
    if found != Some(Ok(())) {
        return None;
    }
    100_u64.checked_sub(sink.inner().calls?)
}

/// The same for a column of 17 layers.
fn calls_of_column<R: Threads + Wait + Sync + AllocGlobal>(rt: &R, line: &str) -> Option<u64> {
    match mesh_text(rt.alloc(), Boxes(&[[[0, 0, 0], [1, 1, 17]]])) {
        Ok(column) => calls_of(rt, line, column.as_str()),
        Err(_) => None,
    }
}

#[test]
fn images_of_all_layers_in_one_call(rt: HostRuntime) {
    // one call takes 17 images, and another one flushes
    assert!(rt; calls_of_column(&rt, "--pitch 1 --layer 1") == Some(2));
    assert!(rt; calls_of_column(&rt, "--pitch 1 --layer 1 --workers 3") == Some(2));
}
