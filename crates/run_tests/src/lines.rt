//! The line and the status of each fault of a run, as users know them.
use crate::answers::is_told;
use micro_num::NumFault;
use raster::GridFault;
use std::alloc::Global;
use stl_text::{Point, StlFault, Word};
use stlslice::RunFault;

/// A fault, and its status and its line.
type Row<'a> = (RunFault, u8, &'a str);

/// `Ok`, or the number of the first row with another line or status.
fn all_told(alloc: Global, rows: &[Row<'_>]) -> Result<(), usize> {
    for (n, (fault, status, line)) in rows.iter().enumerate() {
        if !is_told(alloc, fault, *status, line) {
            return Err(n);
        }
    }
    Ok(())
}

const TEXTS: [Row; 6] = [
    (
        RunFault::Stl(StlFault::Expected {
            word: Word::Loop,
            at: 31,
        }),
        3,
        "stlslice: expected loop at byte 31",
    ),
    (
        RunFault::Stl(StlFault::Ended {
            word: Word::FacetOrEnd,
        }),
        3,
        "stlslice: input ended before facet or endsolid",
    ),
    (
        RunFault::Stl(StlFault::Number {
            cause: NumFault::NotNumber,
            at: 45,
        }),
        3,
        "stlslice: number at byte 45: not a number",
    ),
    (
        RunFault::Stl(StlFault::Number {
            cause: NumFault::TooLong,
            at: 45,
        }),
        3,
        "stlslice: number at byte 45: too long",
    ),
    (
        RunFault::Stl(StlFault::Number {
            cause: NumFault::OutOfRange,
            at: 45,
        }),
        3,
        "stlslice: number at byte 45: out of range",
    ),
    (
        RunFault::Stl(StlFault::TooMany { at: 252 }),
        3,
        "stlslice: too many facets at byte 252",
    ),
];

#[test]
fn faults_of_texts(rt: HostRuntime) -> Result<(), usize> {
    all_told(rt.alloc(), &TEXTS)
}

const GRIDS: [Row; 5] = [
    (
        RunFault::Grid(GridFault::EmptyMesh),
        5,
        "stlslice: no facet is left",
    ),
    (
        RunFault::Grid(GridFault::TooLarge {
            columns: 16385,
            rows: 2,
            layers: 3,
        }),
        5,
        "stlslice: grid too large: 16385 columns, 2 rows, 3 layers",
    ),
    (
        RunFault::Grid(GridFault::NoCells),
        5,
        "stlslice: grid has no cells",
    ),
    (
        RunFault::Grid(GridFault::FarCentre),
        5,
        "stlslice: grid reaches too far",
    ),
    (
        RunFault::Outside {
            columns: 2,
            rows: 3,
            layers: 4,
        },
        5,
        "stlslice: voxel outside the grid: 2 columns, 3 rows, 4 layers",
    ),
];

#[test]
fn faults_of_grids(rt: HostRuntime) -> Result<(), usize> {
    all_told(rt.alloc(), &GRIDS)
}

const DEVICES: [Row; 3] = [
    (RunFault::Read, 7, "stlslice: read failed"),
    (RunFault::Memory, 6, "stlslice: out of memory"),
    (
        RunFault::Write { written: 5 },
        7,
        "stlslice: write failed after 5 bytes",
    ),
];

#[test]
fn faults_of_devices_and_memory(rt: HostRuntime) -> Result<(), usize> {
    all_told(rt.alloc(), &DEVICES)
}

/// The fault of an edge of which no two numbers are equal.
fn edge() -> Option<RunFault> {
    let from = Point::new(-1, 2, -3)?;
    let to = Point::new(4, -5, 6)?;
    Some(RunFault::Open {
        from,
        to,
        there: 7,
        back: 8,
    })
}

#[test]
fn faults_of_open_edges(rt: HostRuntime) -> Result<(), usize> {
    let line = "stlslice: open edge -1 2 -3 to 4 -5 6 there 7 back 8";
    match edge() {
        Some(fault) => all_told(rt.alloc(), &[(fault, 4, line)]),
        None => Err(0),
    }
}
