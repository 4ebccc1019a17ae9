//! A run: reads the whole input, does the task, writes its outcome.
ghost use Rattle.std.specs.Prelude.{◌≡◌, Err, IfErr, IfOk, Ok, true};
ghost use Rattle.devices.specs.Transcript.{transcript_of};
ghost use Rattle.stlslice.specs.Outcome.{grid_for, is_slicing, placing_of, slicing};
ghost use Rattle.stlslice.specs.Run.{IsRun};
ghost use Rattle.stlslice.specs.declared.run_fault.RunFault.TheVariants as run_fault;
ghost use Rattle.raster.specs.declared.grid.GridFault.{GridFault};
ghost use Rattle.task_words.specs.Task.{AreInRange, IsInRange};
ghost use Rattle.task_words.specs.declared.task.Task.TheVariants as task;
ghost use Rattle.geometry.specs.Limits.{IsStep};

use crate::run_fault::RunFault;
use crate::write::box_line::box_line;
use crate::write::flush::write_all;
use crate::write::probe_line::probe_line;
use crate::write::{Output, write_build};
use build_book::Job;
use devices::{Sink, Source};
use layer_pool::{Gate, OpenGate, build};
use mesh_reading::{read_extent, read_solid, read_solid_by};
use mesh_weld::Solid;
use micro_num::Unit;
use raster::{Grid, Placing, Rule};
use std::alloc::Allocator;
use std::sync::Wait;
use std::thread::Threads;
use task_words::{Given, Task};

/// Reads the whole input, does the task, and writes and flushes the text that results.
///
/// Unless it ends with a failed read or out of memory, all was read. If it succeeds, exactly the text of the outcome was
/// written and flushed. The law [`written_pixels`](crate::written_pixels) says what the text of slicing is in pixels and rays.
///
/// # Errors
/// A fault of the input is its outcome, and the run does not succeed then. It is the first of these, and for the box only
/// `Stl` can come:
/// - `Stl` if the text does not read as facets,
/// - `Open` if the mesh is not closed,
/// - `Grid` if there is no grid,
/// - `Outside` if the grid does not have the voxel of a probe.
///
/// The other faults come from a device or from memory: `Read`, `Write` and `Memory`. After `Write` the first `written` bytes of
/// the outcome went out; after any other fault nothing did.
///
/// Each call of a device is tried once, so an interruption is a fault too. No call has failed unless the run ends with that
/// device's fault, and then exactly one has. An allocation can fail at each step before the first byte is written.
pub fn run<R: Threads + Wait + Sync, A: Allocator + Copy + Send + Sync, I: Source, O: Sink>(
    rt: &R,
    alloc: A,
    task: &Task,
    source: &mut I,
    sink: &mut O,
) -> Result<(), RunFault>
    requires { IsInRange task.now }
    ensures { IsRun task.now result
        (transcript_of I.remaining I.Failures.failure_count source.old source.new)
        (transcript_of O.contents O.Failures.failure_count sink.old sink.new)
        (O.is_settled sink.new) }
{
    run_watched(rt, alloc, task, source, sink, &OpenGate)
}

/// The same as [`run`], with the same promise for every gate. The gate is told what the workers that slice do; no clause says
/// when. A box and a probe never call it.
pub fn run_watched<
    R: Threads + Wait + Sync,
    A: Allocator + Copy + Send + Sync,
    I: Source,
    O: Sink,
    G: Gate<A> + Sync,
>(rt: &R, alloc: A, task: &Task, source: &mut I, sink: &mut O, gate: &G) -> Result<(), RunFault>
    requires { IsInRange task.now }
    ensures { IsRun task.now result
        (transcript_of I.remaining I.Failures.failure_count source.old source.new)
        (transcript_of O.contents O.Failures.failure_count sink.old sink.new)
        (O.is_settled sink.new) }
{
    match *task {
        Task::Box { unit } => run_box(alloc, unit, source, sink),
        Task::Probe {
            unit,
            pitch,
            layer,
            grid,
            i,
            j,
            k,
        } => {
            let probe = Probe {
                unit,
                pitch,
                layer,
                given: grid,
                voxel: (i, j, k),
            };
            run_probe(alloc, probe, source, sink)
        }
        Task::Slice { .. } | Task::Png { .. } => {
            run_slicing(rt, alloc, Slicing::of(task), source, sink, gate)
        }
    }
}

/// A task of slicing, whatever its output. Lengths are in micrometres.
#[derive(Clone, Copy)]
struct Slicing {
    unit: Unit,
    pitch: u32,
    layer: u32,
    given: Option<Given>,
    rule: Rule,
    output: Output,
    workers: u32,
}

impl Slicing {
    /// What a task of slicing asks for.
    fn of(task: &Task) -> Slicing
        requires { is_slicing task.now ≡ true }
        ensures { slicing result.unit result.pitch result.layer result.rule result.workers result.given result.output ≡ task.now }
    {
        match *task {
            Task::Slice {
                unit,
                pitch,
                layer,
                rule,
                workers,
                report,
                grid,
            } => Slicing {
                unit,
                pitch,
                layer,
                given: grid,
                rule,
                output: Output::of(report),
                workers,
            },
            Task::Png {
                unit,
                pitch,
                layer,
                rule,
                workers,
                grid,
                depth,
                mirrors,
            } => Slicing {
                unit,
                pitch,
                layer,
                given: grid,
                rule,
                output: Output::Pngs { depth, mirrors },
                workers,
            },
            Task::Box { .. } | Task::Probe { .. } => unreachable!(),
        }
    }
}

/// A task of a probe. Lengths are in micrometres, and the voxel is given by its column, row and layer.
#[derive(Clone, Copy)]
struct Probe {
    unit: Unit,
    pitch: u32,
    layer: u32,
    given: Option<Given>,
    voxel: (u32, u32, u32),
}

/// Writes and flushes an output of slicing, and tells a gate of the workers that slice.
fn run_slicing<
    R: Threads + Wait + Sync,
    A: Allocator + Copy + Send + Sync,
    I: Source,
    O: Sink,
    G: Gate<A> + Sync,
>(rt: &R, alloc: A, asked: Slicing, source: &mut I, sink: &mut O, gate: &G) -> Result<(), RunFault>
    requires { AreInRange asked.pitch asked.layer asked.workers }
    ensures { IsRun (slicing asked.unit asked.pitch asked.layer asked.rule asked.workers asked.given asked.output) result
        (transcript_of I.remaining I.Failures.failure_count source.old source.new)
        (transcript_of O.contents O.Failures.failure_count sink.old sink.new)
        (O.is_settled sink.new) }
{
    let solid = read_solid_by(rt, alloc, source, asked.unit, asked.workers)?;
    let grid = grid_for(&solid, asked.given, asked.pitch, asked.layer)?;
    let job = Job::new(solid, grid, asked.rule);
    let build = build(rt, alloc, &job, asked.workers, gate)?;
    write_build(rt, alloc, &build, asked.output, asked.workers, sink)
}

/// Writes and flushes the box line of the input. It takes no handle, so it is proved to return.
fn run_box<A: Allocator + Copy + Send + Sync, I: Source, O: Sink>(
    alloc: A,
    unit: Unit,
    source: &mut I,
    sink: &mut O,
) -> Result<(), RunFault>
    ensures { IsRun (task.Box unit) result
        (transcript_of I.remaining I.Failures.failure_count source.old source.new)
        (transcript_of O.contents O.Failures.failure_count sink.old sink.new)
        (O.is_settled sink.new) }
{
    let extent = read_extent(alloc, source, unit)?;
    let line = box_line(alloc, extent)?;
    write_all(sink, line.as_bytes())
}

/// Writes and flushes the rays at the voxel of a probe. It takes no handle, so it is proved to return.
fn run_probe<A: Allocator + Copy + Send + Sync, I: Source, O: Sink>(
    alloc: A,
    asked: Probe,
    source: &mut I,
    sink: &mut O,
) -> Result<(), RunFault>
    requires { IsInRange (task.Probe asked.unit asked.pitch asked.layer asked.given asked.voxel.0 asked.voxel.1 asked.voxel.2) }
    ensures { IsRun (task.Probe asked.unit asked.pitch asked.layer asked.given asked.voxel.0 asked.voxel.1 asked.voxel.2) result
        (transcript_of I.remaining I.Failures.failure_count source.old source.new)
        (transcript_of O.contents O.Failures.failure_count sink.old sink.new)
        (O.is_settled sink.new) }
{
    let (i, j, k) = asked.voxel;
    let solid = read_solid(alloc, source, asked.unit)?;
    let grid = grid_for(&solid, asked.given, asked.pitch, asked.layer)?;
    let line = probe_line(alloc, &solid, &grid, i, j, k)?;
    write_all(sink, line.as_bytes())
}

/// The given grid, or else the one that the solid fits in.
fn grid_for<A: Allocator>(
    solid: &Solid<A>,
    given: Option<Given>,
    pitch: u32,
    layer: u32,
) -> Result<Grid, RunFault>
    requires pitch { IsStep pitch }
    requires layer { IsStep layer }
    ensures ok { IfOk result (λ grid. grid_for given pitch layer solid.now.facets ≡ Ok grid) }
    ensures err { IfErr result (λ fault. (cause : GridFault) × (fault ≡ run_fault.Grid cause)
        × (grid_for given pitch layer solid.now.facets ≡ Err cause)) }
{
    Ok(placing_of(given).grid(solid, pitch, layer)?)
}

/// The place of the grid, by the command's words.
fn placing_of(given: Option<Given>) -> Placing
    ensures { result ≡ placing_of given }
{
    match given {
        Some(grid) => Placing::Given {
            columns: grid.columns,
            rows: grid.rows,
            layers: grid.layers,
            origin: grid.origin,
        },
        None => Placing::Fitted,
    }
}
