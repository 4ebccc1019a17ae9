//! The result of a run by a line of words, for the tests of runs: its end, its text, and its fault as it is reported.
use crate::meshes::{Mesh, mesh_text};
use crate::word_lines::task_of;
use std::alloc::{Allocator, Global};
use std::sync::Wait;
use std::thread::Threads;
use stlslice::{Counted, RunFault, Sink, Source, run};

/// What a run by a line of words ends with, in this memory and by these devices. `None` if the words are no task.
pub(crate) fn end_of<
    R: Threads + Wait + Sync + AllocGlobal,
    A: Allocator + Copy + Send + Sync,
    I: Source,
    O: Sink,
>(rt: &R, memory: A, line: &str, source: &mut I, sink: &mut O) -> Option<Result<(), RunFault>> {
    let task = task_of(rt.alloc(), line).ok()?;
    Some(run(rt, memory, &task, source, sink))
}

/// What a run by a line of words ends with in this memory, and what it has written then.
pub(crate) fn outcome<R: Threads + Wait + Sync + AllocGlobal, A: Allocator + Copy + Send + Sync>(
    rt: &R,
    memory: A,
    line: &str,
    input: &str,
) -> (Option<Result<(), RunFault>>, Vec<u8>) {
    let mut source = Counted::new(input.as_bytes());
    let mut sink = Counted::new(Vec::new(rt.alloc()));
    let end = end_of(rt, memory, line, &mut source, &mut sink);
    (end, sink.into_inner())
}

/// What the program writes by a line of words. `None` if it ends with a fault.
pub(crate) fn written<R: Threads + Wait + Sync + AllocGlobal>(
    rt: &R,
    line: &str,
    input: &str,
) -> Option<Vec<u8>> {
    let (end, text) = outcome(rt, rt.alloc(), line, input);
    match end {
        Some(Ok(())) => Some(text),
        _ => None,
    }
}

/// Whether the program writes this text by a line of words.
pub(crate) fn writes<R: Threads + Wait + Sync + AllocGlobal>(
    rt: &R,
    line: &str,
    input: &str,
    text: &[u8],
) -> bool {
    let (end, found) = outcome(rt, rt.alloc(), line, input);
    end == Some(Ok(())) && found.as_slice() == text
}

/// Whether a fault has this status and this line.
pub(crate) fn is_told(alloc: Global, fault: &RunFault, status: u8, line: &str) -> bool {
    match fault.to_string(alloc) {
        Ok(shown) => fault.status() == status && shown.as_str() == line,
        Err(_) => false,
    }
}

/// The fault that the program ends with by a line of words, having written nothing.
fn refusal<R: Threads + Wait + Sync + AllocGlobal>(
    rt: &R,
    line: &str,
    input: &str,
) -> Option<RunFault> {
    let (end, text) = outcome(rt, rt.alloc(), line, input);
    match end {
        Some(Err(fault)) if text.is_empty() => Some(fault),
        _ => None,
    }
}

/// Whether the program ends with this status and this line by a line of words, having written nothing.
pub(crate) fn refuses<R: Threads + Wait + Sync + AllocGlobal>(
    rt: &R,
    line: &str,
    input: &str,
    status: u8,
    told: &str,
) -> bool {
    match refusal(rt, line, input) {
        Some(fault) => is_told(rt.alloc(), &fault, status, told),
        None => false,
    }
}

/// A line of words, a mesh, and what the program writes by them.
pub(crate) type Told<'a> = (&'a str, Mesh<'a>, &'a str);

/// Whether the program writes what a row says.
fn is_written<R: Threads + Wait + Sync + AllocGlobal>(rt: &R, row: &Told<'_>) -> bool {
    let (line, mesh, told) = *row;
    match mesh_text(rt.alloc(), mesh) {
        Ok(input) => writes(rt, line, input.as_str(), told.as_bytes()),
        Err(_) => false,
    }
}

/// `Ok`, or the number of the first row of which the program writes anything else.
pub(crate) fn all_written<R: Threads + Wait + Sync + AllocGlobal>(
    rt: &R,
    rows: &[Told<'_>],
) -> Result<(), usize> {
    for (n, row) in rows.iter().enumerate() {
        if !is_written(rt, row) {
            return Err(n);
        }
    }
    Ok(())
}

/// A line of words, a mesh, and the status and the line of the fault that the program ends with by them.
pub(crate) type Refused<'a> = (&'a str, Mesh<'a>, u8, &'a str);

/// Whether the program ends as a row says.
fn is_refused<R: Threads + Wait + Sync + AllocGlobal>(rt: &R, row: &Refused<'_>) -> bool {
    let (line, mesh, status, told) = *row;
    match mesh_text(rt.alloc(), mesh) {
        Ok(input) => refuses(rt, line, input.as_str(), status, told),
        Err(_) => false,
    }
}

/// `Ok`, or the number of the first row of which the program ends otherwise.
pub(crate) fn all_refused<R: Threads + Wait + Sync + AllocGlobal>(
    rt: &R,
    rows: &[Refused<'_>],
) -> Result<(), usize> {
    for (n, row) in rows.iter().enumerate() {
        if !is_refused(rt, row) {
            return Err(n);
        }
    }
    Ok(())
}
