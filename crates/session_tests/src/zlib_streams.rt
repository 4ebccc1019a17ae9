//! Streams of runs. Each table has the bytes of streams, and Python's zlib expands them to the bytes of the runs.
ghost use Rattle.std.specs.Prelude.{◌≤◌, All};
ghost use Rattle.deflate.specs.declared.run.TheConstants.{RUN_LIMIT};

use deflate::{RUN_LIMIT, Run, ZlibWriter, write_zlib};
use short_memory::{Count, Retry, ShortMemory, failures, first_free_turn};
use std::alloc::{AllocError, Allocator, Global};

/// The bytes with which each stream begins.
const HEAD: &[u8] =
    b"\x78\x01\xed\xc1\x03\xa0\x04\x0a\x02\x04\xa0\x39\xdb\xb6\x6d\xdb\xb6\x6d\xdb\xb6\x6d\xdb\xb6\x6d\xdb\xb6\x6d\xfb\xe6\x3f\xdb\x5c\x54";

/// A byte, how often it stands there, and what follows the head in the stream of this run.
const ONE_RUN: &[(u8, u64, &[u8])] = &[
    (0, 1, b"\x39\x00\x00\x01\x00\x01"),
    (0, 2, b"\xc9\x01\x00\x02\x00\x01"),
    (0, 3, b"\x49\x0e\x00\x00\x03\x00\x01"),
    (0, 4, b"\x99\x70\x00\x00\x04\x00\x01"),
    (0, 257, b"\x19\x77\x07\x00\x01\x01\x00\x01"),
    (0, 258, b"\x19\x7b\x07\x00\x01\x02\x00\x01"),
    (0, 259, b"\xe1\x00\x01\x03\x00\x01"),
    (0, 260, b"\x09\x07\x00\x01\x04\x00\x01"),
    (0, 261, b"\x49\x38\x00\x01\x05\x00\x01"),
    (0, 515, b"\x19\x77\x1c\x00\x02\x03\x00\x01"),
    (0, 516, b"\x19\x7b\x1c\x00\x02\x04\x00\x01"),
    (0, 517, b"\x81\x03\x00\x02\x05\x00\x01"),
    (0, 518, b"\x09\x1c\x00\x02\x06\x00\x01"),
    (0, 519, b"\x49\xe0\x00\x02\x07\x00\x01"),
    (0, 520, b"\x99\x00\x07\x00\x02\x08\x00\x01"),
    (
        0,
        9289,
        b"\x01\x00\x00\x00\x00\x00\x00\x00\x00\x38\x00\x24\x49\x00\x01",
    ),
    (255, 1, b"\x3d\x00\x01\x00\x01\x00"),
    (255, 2, b"\xed\x01\x02\xff\x01\xff"),
    (255, 3, b"\x6d\x0f\x00\x05\xfd\x02\xfe"),
    (255, 4, b"\x9d\x70\x00\x09\xfa\x03\xfd"),
    (255, 257, b"\x1d\x77\x07\x00\x08\x0f\x00\x0f"),
    (255, 258, b"\x1d\x7b\x07\x00\x09\x1d\x01\x0e"),
    (255, 259, b"\xe5\x00\x0b\x2a\x02\x0d"),
    (255, 260, b"\x2d\x07\x00\x0e\x36\x03\x0c"),
    (255, 261, b"\x6d\x39\x00\x12\x41\x04\x0b"),
    (255, 515, b"\x1d\x77\x1c\x00\x1f\x48\x01\x1c"),
    (255, 516, b"\x1d\x7b\x1c\x00\x21\x63\x02\x1b"),
    (255, 517, b"\x85\x03\x00\x24\x7d\x03\x1a"),
    (255, 518, b"\x2d\x1c\x00\x28\x96\x04\x19"),
    (255, 519, b"\x6d\xe1\x00\x2d\xae\x05\x18"),
    (255, 520, b"\x9d\x00\x07\x00\x33\xc5\x06\x17"),
    (
        255,
        9289,
        b"\x05\x00\x00\x00\x00\x00\x00\x00\x00\x38\x00\xc0\x08\x26\xd4",
    ),
    (137, 1, b"\x8f\x3a\x00\x00\x8a\x00\x8a"),
    (137, 2, b"\x8f\x7a\xd4\x01\x01\x9d\x01\x13"),
    (137, 3, b"\x8f\x7a\xd4\xa3\x0e\x00\x03\x39\x01\x9c"),
    (137, 4, b"\x8f\x9a\x70\x00\x05\x5e\x02\x25"),
    (137, 257, b"\x8f\x1a\x77\x07\x00\x53\x15\x89\x8a"),
    (137, 258, b"\x8f\x1a\x7b\x07\x00\xdd\x28\x8a\x13"),
    (137, 259, b"\x8f\xe2\x00\x67\xd3\x8a\x9c"),
    (137, 260, b"\x8f\x7a\x14\x07\x00\xf2\xf8\x8b\x25"),
    (137, 261, b"\x8f\x7a\xd4\xa3\x38\x00\x7e\xb5\x8b\xae"),
    (137, 515, b"\x8f\x1a\x77\x1c\x00\xd4\x74\x13\xab"),
    (137, 516, b"\x8f\x1a\x7b\x1c\x00\xe8\xa8\x14\x34"),
    (137, 517, b"\x8f\x82\x03\x00\xfd\x65\x14\xbd"),
    (137, 518, b"\x8f\x7a\x14\x1c\x00\x12\xba\x15\x46"),
    (137, 519, b"\x8f\x7a\xd4\xa3\xe0\x00\x28\x89\x15\xcf"),
    (137, 520, b"\x8f\x9a\x00\x07\x00\x3e\xe1\x16\x58"),
    (
        137,
        9289,
        b"\x8f\x02\x00\x00\x00\x00\x00\x00\x00\x00\x38\x00\x75\xf4\x6c\x2f",
    ),
];

/// Bytes, how often each stands there, and what follows the head in the stream of these runs.
const SEVERAL: &[(&[(u8, u64)], &[u8])] = &[
    (&[], b"\x07\x00\x00\x00\x00\x01"),
    (&[(7, 0)], b"\x07\x00\x00\x00\x00\x01"),
    (&[(0, 1), (255, 1)], b"\xe9\x01\x01\x01\x01\x00"),
    (
        &[(255, 2), (0, 258), (9, 3)],
        b"\x6d\xc6\xde\xa1\x0e\x75\xa8\x03\x00\x0c\x4e\x02\x1a",
    ),
    (&[(0, 3), (0, 258)], b"\x49\x32\xf6\x0e\x00\x01\x05\x00\x01"),
    (
        &[
            (1, 1),
            (2, 1),
            (3, 1),
            (4, 1),
            (5, 1),
            (6, 1),
            (7, 1),
            (8, 1),
        ],
        b"\x07\x3a\xf0\x41\x0e\x7a\xb0\x83\x1f\xe2\x90\x07\x00\x00\x80\x00\x25",
    ),
    (
        &[(0, 0), (255, 517), (0, 2064), (255, 261), (137, 520)],
        b"\x85\x8c\x3d\x00\xa0\x2d\x8f\x9a\x00\x07\x00\x21\x59\x1d\x7b",
    ),
];

/// What follows the head in the stream of all runs of the first table.
const ALL: &[u8] =
    b"\x49\x92\x64\x42\xc6\x5d\xc6\x5e\x48\x48\x42\xc6\x1d\x19\x7b\x04\x12\x48\x02\x99\x00\x01\x00\x00\x00\x00\x00\x00\x00\x00\x68\xdb\xb6\x13\x3a\xee\x3a\xf6\x4a\x4b\x5b\x3a\xee\xe8\xd8\xa3\xd0\x42\x5b\xe8\x04\x28\x00\x00\x00\x00\x00\x00\x00\x00\xc0\xa3\x1e\xf5\xa8\x47\x3d\xea\x51\x8f\x9a\xf0\xa8\x71\xf7\xa8\xb1\xf7\x28\x1e\xf5\x28\x1e\xf5\xa8\x47\xf1\xa8\x71\xc7\xa3\xc6\x1e\x8f\x82\x47\x3d\x0a\x1e\xf5\xa8\x47\xc1\xa3\x26\xc0\xa3\x00\x00\x00\x00\x00\x00\x00\x00\x00\x0e\x00\x95\xbf\xf5\x58";

/// Whether bytes are a front, the head of a stream, and this rest of it.
fn is_stream(bytes: &[u8], front: &[u8], rest: &[u8]) -> bool {
    match bytes.strip_prefix(front) {
        Some(stream) => stream.strip_prefix(HEAD) == Some(rest),
        None => false,
    }
}

/// Bytes that stand in a vector before its stream.
const FRONT: &[u8] = b"front";

fn front<A: Allocator>(alloc: A) -> Result<Vec<u8, A>, AllocError> {
    let mut bytes = Vec::new(alloc);
    bytes.extend_from_slice(FRONT)?;
    Ok(bytes)
}

/// Whether the stream of runs, behind a front, has this rest.
fn is_stream_of<A: Allocator>(alloc: A, runs: &[Run], rest: &[u8]) -> Result<bool, AllocError>
    requires { All (λ run. run.count ≤ RUN_LIMIT) runs.now }
{
    let bytes = write_zlib(front(alloc)?, runs)?;
    Ok(is_stream(bytes.as_slice(), FRONT, rest))
}

#[test]
fn each_run_is_one_stream(rt: HostRuntime) {
    for (byte, count, rest) in ONE_RUN {
        let run = Run {
            byte: *byte,
            count: (*count).min(RUN_LIMIT),
        };
        assert!(rt; is_stream_of(rt.alloc(), &[run], rest) == Ok(true));
    }
}

#[test]
fn no_runs_are_an_empty_stream(rt: HostRuntime) {
    match write_zlib(Vec::new(rt.alloc()), &[]) {
        Ok(bytes) => {
            assert!(rt; is_stream(bytes.as_slice(), &[], b"\x07\x00\x00\x00\x00\x01"));
        }
        Err(_) => assert!(rt; false),
    }
}

/// Appends a run, once more if memory was refused: whether the first try failed.
fn put_at_last<A: Allocator>(
    writer: &mut ZlibWriter<A>,
    byte: u8,
    count: u64,
) -> Result<bool, AllocError> {
    let count = count.min(RUN_LIMIT);
    if writer.run(byte, count).is_ok() {
        return Ok(false);
    }
    writer.run(byte, count)?;
    Ok(true)
}

/// Whether a writer takes these runs, each at the first try.
fn takes<A: Allocator>(writer: &mut ZlibWriter<A>, runs: &[(u8, u64)]) -> bool {
    for (byte, count) in runs {
        if put_at_last(writer, *byte, *count) != Ok(false) {
            return false;
        }
    }
    true
}

/// Whether a writer takes these runs behind a front, and its stream has this rest.
fn is_written(alloc: Global, runs: &[(u8, u64)], rest: &[u8]) -> Result<bool, AllocError> {
    let mut writer = ZlibWriter::new(front(alloc)?)?;
    Ok(takes(&mut writer, runs) && is_stream(writer.finish().as_slice(), FRONT, rest))
}

#[test]
fn runs_follow_one_another(rt: HostRuntime) {
    for (runs, rest) in SEVERAL {
        assert!(rt; is_written(rt.alloc(), runs, rest) == Ok(true));
    }
}

/// All runs of the first table in one stream.
fn all_at_last<A: Allocator>(alloc: A) -> Result<(bool, bool), AllocError> {
    let mut writer = ZlibWriter::new(front(alloc)?)?;
    let mut failed = false;
    for (byte, count, _) in ONE_RUN {
        failed |= put_at_last(&mut writer, *byte, *count)?;
    }
    Ok((failed, is_stream(writer.finish().as_slice(), FRONT, ALL)))
}

struct AllRuns;

impl Retry for AllRuns {
    fn tried(memory: &ShortMemory<Global>) -> Option<(bool, bool)> {
        all_at_last(memory).ok()
    }
}

#[test]
fn a_writer_goes_on_after_a_failed_allocation(rt: HostRuntime) {
    assert!(rt; failures::<AllRuns>(rt.alloc(), 500) > Some(0));
}

struct WholeStream;

impl Count for WholeStream {
    fn count(memory: &ShortMemory<Global>) -> Option<usize> {
        let runs = [
            Run { byte: 0, count: 0 },
            Run {
                byte: 255,
                count: 517,
            },
            Run {
                byte: 0,
                count: 2064,
            },
            Run {
                byte: 255,
                count: 261,
            },
            Run {
                byte: 137,
                count: 520,
            },
        ];
        let (_, rest) = SEVERAL.last()?;
        let found = is_stream_of(memory, &runs, rest).ok()?;
        found.then_some(1)
    }
}

#[test]
fn no_stream_stays_after_a_failed_allocation(rt: HostRuntime) {
    let turn = first_free_turn::<WholeStream>(rt.alloc(), 100, 1);
    assert!(rt; turn > Some(2));
}
