//! Runs whose reader gives one byte a call and whose writer takes one byte a call. Each ends as over whole devices, byte for
//! byte, until one of the two fails.
use crate::answers::{end_of, outcome};
use crate::meshes::Mesh::{Loud, Parts, Text};
use crate::meshes::{Mesh, NESTED, OCTAHEDRON, OPEN, OPEN_AND_FLAT, mesh_text};
use short_memory::{OneByteReader, ShortMemory, SmallWriter};
use std::alloc::Allocator;
use std::io::ErrorKind;
use std::sync::Wait;
use std::thread::Threads;
use stlslice::{Counted, Failures, RunFault};
use test_meshes::CUBE;

/// The calls of the reader before one that fails, the bytes that the writer takes, and the fault of each failure; the writer
/// without one takes nothing then.
type Grant = (u64, usize, Option<ErrorKind>);

/// Whether a run in this memory, over devices that move a byte a call, has this end and has written this text. Only the
/// device whose fault the run ends with had a call that failed, and that was one.
fn ends_by_bytes<R: Threads + Wait + Sync + AllocGlobal, A: Allocator + Copy + Send + Sync>(
    rt: &R,
    memory: A,
    line: &str,
    input: &str,
    grant: &Grant,
    end: Result<(), RunFault>,
    text: &[u8],
) -> bool {
    let (calls, room, fault) = *grant;
    let mut source = Counted::new(OneByteReader {
        bytes: input.as_bytes(),
        calls,
        fault: fault.unwrap_or(ErrorKind::Interrupted),
    });
    let mut sink = Counted::new(SmallWriter::new(rt.alloc(), room, 1, fault, true));
    let found = end_of(rt, memory, line, &mut source, &mut sink);
    let unread = end == Err(RunFault::Read);
    let unwritten = matches!(end, Err(RunFault::Write { .. }));
    found == Some(end)
        && source.failures() == u64::from(unread)
        && sink.failures() == u64::from(unwritten)
        && sink.inner().taken.as_slice() == text
}

/// How the devices fail: by an interruption, by another fault, and the writer by taking no byte of a chunk.
static FAULTS: [Option<ErrorKind>; 3] = [
    Some(ErrorKind::Interrupted),
    Some(ErrorKind::Other),
    None,
];

/// Whether a run whose writer has this much room, less than its text takes, fills just that, by each fault.
fn is_cut_at<R: Threads + Wait + Sync + AllocGlobal>(
    rt: &R,
    line: &str,
    input: &str,
    room: usize,
    front: &[u8],
) -> bool {
    let calls = input.len() as u64 + 1;
    let written = room as u64;
    for fault in &FAULTS {
        let grant = (calls, room, *fault);
        let end = Err(RunFault::Write { written });
        if !ends_by_bytes(rt, rt.alloc(), line, input, &grant, end, front) {
            return false;
        }
    }
    true
}

/// The same for each such room.
fn is_cut_by_each_room<R: Threads + Wait + Sync + AllocGlobal>(
    rt: &R,
    line: &str,
    input: &str,
    text: &[u8],
) -> bool {
    for room in 0..text.len() {
        if !is_cut_at(rt, line, input, room, &text[..room]) {
            return false;
        }
    }
    true
}

/// Whether a run whose reader fails after this many calls writes nothing, by each fault.
fn is_unread_at<R: Threads + Wait + Sync + AllocGlobal>(
    rt: &R,
    line: &str,
    input: &str,
    calls: u64,
    room: usize,
) -> bool {
    for fault in &FAULTS {
        let grant = (calls, room, *fault);
        let end = Err(RunFault::Read);
        if !ends_by_bytes(rt, rt.alloc(), line, input, &grant, end, b"") {
            return false;
        }
    }
    true
}

/// The same for a failure at the first call, in the middle, and if the reader is asked for more than the last byte.
fn is_unread_at_each<R: Threads + Wait + Sync + AllocGlobal>(
    rt: &R,
    line: &str,
    input: &str,
    room: usize,
) -> bool {
    let count = input.len() as u64;
    is_unread_at(rt, line, input, 0, room)
        && is_unread_at(rt, line, input, count / 2, room)
        && is_unread_at(rt, line, input, count, room)
}

/// The exit status of a run with this end.
fn status_of(end: &Result<(), RunFault>) -> u8 {
    match end {
        Ok(()) => 0,
        Err(fault) => fault.status(),
    }
}

/// Whether a run that ends so over whole devices, with this text, ends so over devices that move a byte a call, or as far as
/// they go.
fn is_same_by_bytes<R: Threads + Wait + Sync + AllocGlobal>(
    rt: &R,
    line: &str,
    input: &str,
    end: &Result<(), RunFault>,
    text: &[u8],
) -> bool {
    let grant = (input.len() as u64 + 1, text.len(), Some(ErrorKind::Other));
    ends_by_bytes(rt, rt.alloc(), line, input, &grant, *end, text)
        && is_cut_by_each_room(rt, line, input, text)
        && is_unread_at_each(rt, line, input, text.len())
}

/// Whether a run by a line of words has this status, and ends over devices that move a byte a call as over whole ones.
fn is_alike<R: Threads + Wait + Sync + AllocGlobal>(
    rt: &R,
    line: &str,
    input: &str,
    status: u8,
) -> bool {
    let (found, text) = outcome(rt, rt.alloc(), line, input);
    match &found {
        Some(end) => {
            status_of(end) == status && is_same_by_bytes(rt, line, input, end, text.as_slice())
        }
        None => false,
    }
}

/// A line of words, a mesh, and the exit status of the run.
type Row<'a> = (&'a str, Mesh<'a>, u8);

static ROWS: [Row; 21] = [
    ("--box", Parts(CUBE), 0),
    ("--box --unit inch", Parts(OPEN_AND_FLAT), 0),
    ("--box", Text("solid\nendsolid"), 0),
    ("--pitch 1 --layer 1", Parts(CUBE), 0),
    ("--pitch 1 --layer 1 --workers 3", Text(OCTAHEDRON), 0),
    (
        "--pitch 2 --layer 2 --rule nonzero --workers 3",
        Loud(&NESTED),
        0,
    ),
    ("--pitch 1 --layer 1 --grid 9,3,2,-1,-1,-1", Parts(CUBE), 0),
    ("--pitch 2 --layer 2 --report --workers 3", Loud(&NESTED), 0),
    ("--pitch 1 --layer 1 --probe 0,0,0", Parts(CUBE), 0),
    ("--box", Text(""), 3),
    (
        "--pitch 1 --layer 1",
        Text("solid\nfacet normal 0 0 1\nouter lop"),
        3,
    ),
    (
        "--pitch 1 --layer 1 --report",
        Text("solid\nfacet normal 0 0 1\nouter loop\nvertex 1 x 3"),
        3,
    ),
    (
        "--pitch 1 --layer 1 --probe 0,0,0",
        Text("solid\nfacet normal 0 0 1\nouter loop\nvertex 1 1e9 3"),
        3,
    ),
    ("--pitch 1 --layer 1", Parts(OPEN), 4),
    ("--pitch 1 --layer 1 --probe 0,0,0", Parts(OPEN), 4),
    ("--pitch 1 --layer 1", Text("solid\nendsolid"), 5),
    ("--pitch 1 --layer 1 --grid 0,1,1,0,0,0", Parts(CUBE), 5),
    (
        "--pitch 1 --layer 1 --report --grid 16385,1,1,0,0,0",
        Parts(CUBE),
        5,
    ),
    (
        "--pitch 100000 --layer 1 --grid 16384,1,1,0,0,0",
        Parts(CUBE),
        5,
    ),
    ("--pitch 1 --layer 1 --probe 2,0,0", Parts(CUBE), 5),
    (
        "--pitch 1 --layer 1 --grid 1,1,1,0,0,0 --probe 0,0,1",
        Parts(CUBE),
        5,
    ),
];

/// Whether the run of a row ends alike over devices that move a byte a call.
fn is_row_alike<R: Threads + Wait + Sync + AllocGlobal>(rt: &R, row: &Row<'_>) -> bool {
    let (line, mesh, status) = *row;
    match mesh_text(rt.alloc(), mesh) {
        Ok(input) => is_alike(rt, line, input.as_str(), status),
        Err(_) => false,
    }
}

#[test]
fn devices_that_move_a_byte_a_call(rt: HostRuntime) {
    for row in &ROWS {
        assert!(rt; is_row_alike(&rt, row), "{}", row.0);
    }
}

/// Whether a run whose first allocation fails ends out of memory, with nothing written.
fn is_without_memory<R: Threads + Wait + Sync + AllocGlobal>(
    rt: &R,
    line: &str,
    input: &str,
) -> bool {
    let memory = ShortMemory::new(rt.alloc(), 1);
    let grant = (input.len() as u64 + 1, 0, None);
    let end = Err(RunFault::Memory);
    ends_by_bytes(rt, &memory, line, input, &grant, end, b"")
}

#[test]
fn no_memory_for_a_byte(rt: HostRuntime) {
    assert!(rt; is_without_memory(&rt, "--box", "solid\nendsolid"));
}
