//! Runs of `--box`, and texts that are misread by each task: no clause says that a run succeeds, nor that the line of a fault
//! is printed.
use crate::answers::{Told, all_written, refuses};
use crate::meshes::Mesh::{Boxes, Parts, Text};
use crate::meshes::{FLAT, OPEN, SPIKED, mesh_text};
use std::alloc::Global;
use std::sync::Wait;
use std::thread::Threads;
use test_meshes::{CUBE, CUBE_AND_FLAT};

static BOXES: [Told; 9] = [
    ("--box", Parts(CUBE), "facets 12 box 0 0 0 2 2 2\n"),
    (
        "--box --pitch 5",
        Parts(CUBE),
        "facets 12 box 0 0 0 2 2 2\n",
    ),
    ("--box", Parts(OPEN), "facets 11 box 0 0 0 2 2 2\n"),
    ("--box", Parts(FLAT), "facets 1 box 0 0 0 2 0 0\n"),
    ("--box", Parts(CUBE_AND_FLAT), "facets 13 box 0 0 0 2 2 2\n"),
    ("--box", Parts(SPIKED), "facets 13 box 0 0 0 9 2 2\n"),
    (
        "--box",
        Boxes(&[[[-128_000_000, -3, 0], [-1, 5, 128_000_000]]]),
        "facets 12 box -128000000 -3 0 -1 5 128000000\n",
    ),
    ("--box", Text("solid facet normal\nENDSOLID"), "facets 0\n"),
    (
        "--box --unit inch",
        Parts(CUBE),
        "facets 12 box 0 0 0 51 51 51\n",
    ),
];

#[test]
fn boxes(rt: HostRuntime) -> Result<(), usize> {
    all_written(&rt, &BOXES)
}

/// Whether the text of the cube has this length.
fn is_long(alloc: Global, length: usize) -> bool {
    match mesh_text(alloc, Parts(CUBE)) {
        Ok(cube) => cube.len() == length,
        Err(_) => false,
    }
}

#[test]
fn the_length_of_the_cube(rt: HostRuntime) {
    assert!(rt; is_long(rt.alloc(), 1483));
}

/// The file of the cube up to its first `endloop`.
const CUT: &str = "solid t
facet normal 0 0 0
outer loop
vertex 0.000 0.000 0.000
vertex 0.000 0.002 0.000
vertex 0.002 0.002 0.000
endloop";

/// Whether the text of the cube begins so, and goes on with the end of a facet.
fn is_cut_from_the_cube(alloc: Global) -> bool {
    match mesh_text(alloc, Parts(CUBE)) {
        Ok(cube) => match cube.as_str().strip_prefix(CUT) {
            Some(rest) => rest.starts_with("\nendfacet\n"),
            None => false,
        },
        Err(_) => false,
    }
}

#[test]
fn the_cube_cut_after_its_first_endloop(rt: HostRuntime) {
    assert!(rt; is_cut_from_the_cube(rt.alloc()));
    assert!(rt; is_misread(&rt, CUT, "stlslice: input ended before endfacet"));
}

/// Texts that are misread, and the lines of their faults.
static MISREAD: [(&str, &str); 6] = [
    ("", "stlslice: input ended before solid"),
    ("solid", "stlslice: input ended before facet or endsolid"),
    (
        "solid t\nfacet normal 0 0 0\nouter loop\nvertex 0 0 0\nvertex 0 2 0\nvertex 2 2 0\nendloop",
        "stlslice: input ended before endfacet",
    ),
    (
        "solid\nfacet normal 0 0 1\nouter lop",
        "stlslice: expected loop at byte 31",
    ),
    (
        "solid\nfacet normal 0 0 1\nouter loop\nvertex 1 x 3",
        "stlslice: number at byte 45: not a number",
    ),
    (
        "solid\nfacet normal 0 0 1\nouter loop\nvertex 1 128.0000005e3 3",
        "stlslice: number at byte 45: out of range",
    ),
];

/// The words of each task, and of slices in a grid with no cells.
static TASKS: [&str; 4] = [
    "--box",
    "--pitch 1 --layer 1",
    "--pitch 1 --layer 1 --report --grid 0,1,1,0,0,0",
    "--pitch 1 --layer 1 --probe 2,0,0",
];

/// Whether each task ends with this line and status 3 for a text.
fn is_misread<R: Threads + Wait + Sync + AllocGlobal>(rt: &R, input: &str, told: &str) -> bool {
    for line in &TASKS {
        if !refuses(rt, line, input, 3, told) {
            return false;
        }
    }
    true
}

#[test]
fn misread_texts_by_each_task(rt: HostRuntime) {
    for row in &MISREAD {
        assert!(rt; is_misread(&rt, row.0, row.1), "{}", row.1);
    }
}
