//! Runs of `--probe` with rays that are known, and its faults in their order.
use crate::answers::{Refused, Told, all_refused, all_written};
use crate::meshes::Mesh::{Boxes, Parts, Text};
use crate::meshes::{OCTAHEDRON, OPEN};
use test_meshes::{CUBE, INWARD_CUBE, TWO_CUBES};

static RAYS: [Told; 15] = [
    (
        "--pitch 4 --layer 4 --probe 0,0,0",
        Text(OCTAHEDRON),
        "voxel 0 0 0 x 1 y 1\n",
    ),
    (
        "--pitch 4 --layer 4 --probe 0,0,0 --grid 1,1,1,-2,-4,-2",
        Text(OCTAHEDRON),
        "voxel 0 0 0 x 0 y 1\n",
    ),
    (
        "--pitch 2 --layer 2 --probe 0,0,0",
        Boxes(&[[[0, 0, 0], [1, 1, 1]], [[1, 1, 1], [3, 3, 3]]]),
        "voxel 0 0 0 x 1 y 1\n",
    ),
    (
        "--pitch 2 --layer 2 --probe 1,1,1",
        Parts(TWO_CUBES),
        "voxel 1 1 1 x 2 y 2\n",
    ),
    (
        "--pitch 2 --layer 2 --probe 1,1,1 --report",
        Boxes(&[[[0, 0, 0], [4, 4, 4]], [[2, 2, 2], [6, 6, 6]]]),
        "voxel 1 1 1 x 2 y 2\n",
    ),
    (
        "--pitch 1 --layer 1 --probe 0,0,0",
        Parts(INWARD_CUBE),
        "voxel 0 0 0 x -1 y -1\n",
    ),
    (
        "--unit inch --pitch 51 --layer 51 --probe 0,0,0",
        Parts(CUBE),
        "voxel 0 0 0 x 1 y 1\n",
    ),
    (
        "--pitch 1 --layer 1 --probe 4,3,2 --grid 9,8,7,-4,-3,-2",
        Parts(CUBE),
        "voxel 4 3 2 x 1 y 1\n",
    ),
    (
        "--pitch 1 --layer 1 --probe 3,3,2 --grid 9,8,7,-4,-3,-2",
        Parts(CUBE),
        "voxel 3 3 2 x 0 y 0\n",
    ),
    (
        "--pitch 1 --layer 1 --probe 0,0,0 --grid 1,4,1,0,0,0",
        Parts(CUBE),
        "voxel 0 0 0 x 1 y 1\n",
    ),
    (
        "--pitch 1 --layer 1 --probe 0,3,0 --grid 1,4,1,0,0,0",
        Parts(CUBE),
        "voxel 0 3 0 x 0 y 0\n",
    ),
    (
        "--pitch 1 --layer 1 --probe 003,0,0 --grid 4,1,1,-3,0,0",
        Parts(CUBE),
        "voxel 3 0 0 x 1 y 1\n",
    ),
    (
        "--pitch 1 --layer 1 --probe 16383,16383,65534 --grid 16384,16384,65535,-16382,-16382,-65533",
        Parts(CUBE),
        "voxel 16383 16383 65534 x 1 y 1\n",
    ),
    // The last centres are at 128100000, as far as a grid may reach.
    (
        "--pitch 64 --layer 64 --probe 0,0,0 --grid 1563,1563,1563,128000000,128000000,128000000",
        Parts(CUBE),
        "voxel 0 0 0 x 0 y 0\n",
    ),
    (
        "--pitch 1 --layer 1 --probe 0,1,0 --grid 1,2,1,0,0,0",
        Text("solid facet normal\nENDSOLID"),
        "voxel 0 1 0 x 0 y 0\n",
    ),
];

#[test]
fn rays_at_voxels(rt: HostRuntime) -> Result<(), usize> {
    all_written(&rt, &RAYS)
}

static FAULTS: [Refused; 9] = [
    (
        "--pitch 1 --layer 1 --grid 0,1,1,0,0,0 --probe 2,0,0",
        Text("solid"),
        3,
        "stlslice: input ended before facet or endsolid",
    ),
    (
        "--pitch 1 --layer 1 --grid 0,1,1,0,0,0 --probe 2,0,0",
        Parts(OPEN),
        4,
        "stlslice: open edge 0 0 0 to 0 2 0 there 0 back 1",
    ),
    (
        "--pitch 1 --layer 1 --grid 0,1,1,0,0,0 --probe 2,0,0",
        Parts(CUBE),
        5,
        "stlslice: grid has no cells",
    ),
    (
        "--pitch 1 --layer 1 --grid 16385,1,1,0,0,0 --probe 2,1,0",
        Parts(CUBE),
        5,
        "stlslice: grid too large: 16385 columns, 1 rows, 1 layers",
    ),
    (
        "--pitch 1 --layer 1 --probe 2,0,0",
        Text("solid facet normal\nENDSOLID"),
        5,
        "stlslice: no facet is left",
    ),
    (
        "--pitch 1 --layer 1 --probe 2,0,0",
        Parts(CUBE),
        5,
        "stlslice: voxel outside the grid: 2 columns, 2 rows, 2 layers",
    ),
    (
        "--pitch 1 --layer 1 --grid 2,3,4,0,0,0 --probe 2,0,0",
        Parts(CUBE),
        5,
        "stlslice: voxel outside the grid: 2 columns, 3 rows, 4 layers",
    ),
    (
        "--pitch 1 --layer 1 --grid 2,3,4,0,0,0 --probe 0,3,0",
        Parts(CUBE),
        5,
        "stlslice: voxel outside the grid: 2 columns, 3 rows, 4 layers",
    ),
    (
        "--pitch 1 --layer 1 --grid 2,3,4,0,0,0 --probe 0,0,4",
        Parts(CUBE),
        5,
        "stlslice: voxel outside the grid: 2 columns, 3 rows, 4 layers",
    ),
];

#[test]
fn faults_in_their_order(rt: HostRuntime) -> Result<(), usize> {
    all_refused(&rt, &FAULTS)
}
