//! The meshes of the tests, and their texts.
use std::alloc::{AllocError, Global};
use std::fmt::Write;
use stl_text::Point;
use stlslice::RunFault;
use test_meshes::{BOX, CORNERS, INWARD, OPEN_BOX, Part, text_of};

/// A mesh, as the tables of the tests name it.
#[derive(Clone, Copy)]
pub(crate) enum Mesh<'a> {
    /// A text of its own.
    Text(&'a str),
    /// Corners, and facets by the numbers of their corners, in the plainest form of a file.
    Parts(&'a [Part<'a>]),
    /// Boxes, one after the other.
    Boxes(&'a [Corners]),
    /// A box, and one whose facets are inward.
    Hollow(Corners, Corners),
    /// A solid for each box, in another spelling.
    Loud(&'a [Corners]),
}

/// The ASCII STL text of a mesh.
pub(crate) fn mesh_text(alloc: Global, mesh: Mesh<'_>) -> Result<String, AllocError> {
    match mesh {
        Mesh::Text(words) => String::from_str(alloc, words),
        Mesh::Parts(parts) => text_of(alloc, parts),
        Mesh::Boxes(boxes) => boxes_text(alloc, boxes),
        Mesh::Hollow(outward, inward) => hollow_text(alloc, &outward, &inward),
        Mesh::Loud(boxes) => loud_text(alloc, boxes),
    }
}

/// A facet with two equal corners.
const DEGENERATE: &[[u8; 3]] = &[[0, 0, 4]];

/// The cube without its first facet.
pub(crate) const OPEN: &[Part] = &[(CORNERS, OPEN_BOX)];

/// The same, and a facet with two equal corners.
pub(crate) const OPEN_AND_FLAT: &[Part] = &[(CORNERS, OPEN_BOX), (CORNERS, DEGENERATE)];

/// A facet with two equal corners alone.
pub(crate) const FLAT: &[Part] = &[(CORNERS, DEGENERATE)];

/// The cube, and a facet with two equal corners that reaches out of it along x.
pub(crate) const SPIKED: &[Part] = &[(CORNERS, BOX), (&[[0, 0, 0], [9, 0, 0]], &[[0, 0, 1]])];

/// The octahedron with corners 2 micrometres from the origin along each axis.
pub(crate) const OCTAHEDRON: &str = "solid o
facet normal 0 0 0 outer loop vertex 2e-3 0 0 vertex 0 2e-3 0 vertex 0 0 2e-3 endloop endfacet
facet normal 0 0 0 outer loop vertex 0 2e-3 0 vertex -2e-3 0 0 vertex 0 0 2e-3 endloop endfacet
facet normal 0 0 0 outer loop vertex -2e-3 0 0 vertex 0 -2e-3 0 vertex 0 0 2e-3 endloop endfacet
facet normal 0 0 0 outer loop vertex 0 -2e-3 0 vertex 2e-3 0 0 vertex 0 0 2e-3 endloop endfacet
facet normal 0 0 0 outer loop vertex 0 2e-3 0 vertex 2e-3 0 0 vertex 0 0 -2e-3 endloop endfacet
facet normal 0 0 0 outer loop vertex -2e-3 0 0 vertex 0 2e-3 0 vertex 0 0 -2e-3 endloop endfacet
facet normal 0 0 0 outer loop vertex 0 -2e-3 0 vertex -2e-3 0 0 vertex 0 0 -2e-3 endloop endfacet
facet normal 0 0 0 outer loop vertex 2e-3 0 0 vertex 0 -2e-3 0 vertex 0 0 -2e-3 endloop endfacet
endsolid o
";

/// A box by its least and its greatest corner, in micrometres.
pub(crate) type Corners = [[i32; 3]; 2];

/// Two boxes that overlap.
pub(crate) const NESTED: [Corners; 2] = [[[0, 0, 0], [4, 4, 4]], [[2, 2, 2], [6, 6, 6]]];

/// Boxes, one after the other, each with the facets of the cube in their order, and a blank line after it.
fn push_boxes(text: &mut String, boxes: &[Corners]) -> Result<(), AllocError> {
    text.push_str("solid b\n")?;
    for corners in boxes {
        push_facets(text, BOX, corners)?;
        text.push_str("\n")?;
    }
    text.push_str("endsolid b\n")
}

fn boxes_text(alloc: Global, boxes: &[Corners]) -> Result<String, AllocError> {
    let mut text = String::new(alloc);
    push_boxes(&mut text, boxes)?;
    Ok(text)
}

/// A box, and one whose facets are inward.
fn hollow_text(alloc: Global, outward: &Corners, inward: &Corners) -> Result<String, AllocError> {
    let mut text = String::new(alloc);
    text.push_str("solid h\n")?;
    push_facets(&mut text, BOX, outward)?;
    push_facets(&mut text, INWARD, inward)?;
    text.push_str("endsolid h\n")?;
    Ok(text)
}

/// The facets of a table, at the corners of a box.
fn push_facets(text: &mut String, facets: &[[u8; 3]], corners: &Corners) -> Result<(), AllocError> {
    for facet in facets {
        text.push_str("facet normal 0 0 0\nouter loop\n")?;
        for number in facet {
            push_corner(text, *number, corners)?;
        }
        text.push_str("endloop\nendfacet\n")?;
    }
    Ok(())
}

/// What a corner's number has for the greater x, y and z.
const AXES: [u8; 3] = [4, 2, 1];

/// A corner of a box. Its coordinates are in micrometres, with an exponent that makes them millimetres.
fn push_corner(text: &mut String, number: u8, corners: &Corners) -> Result<(), AllocError> {
    let [low, high] = corners;
    text.push_str("vertex")?;
    for (axis, bit) in AXES.iter().enumerate() {
        let at = if number & bit == 0 { low } else { high };
        write!(text, " {}e-3", at[axis])?;
    }
    text.push_str("\n")
}

/// A solid for each box, in capitals, with normals that are no numbers, and with lines that end in CR LF.
fn loud_text(alloc: Global, boxes: &[Corners]) -> Result<String, AllocError> {
    let mut text = String::new(alloc);
    for corners in boxes {
        push_loud_box(alloc, &mut text, corners)?;
    }
    Ok(text)
}

fn push_loud_box(alloc: Global, text: &mut String, corners: &Corners) -> Result<(), AllocError> {
    let solid = boxes_text(alloc, &[*corners])?;
    for line in solid.as_str().lines() {
        push_loud(text, line)?;
    }
    Ok(())
}

fn push_loud(text: &mut String, line: &str) -> Result<(), AllocError> {
    if line.starts_with("facet") {
        text.push_str("FACET NORMAL nan nan nan")?;
    } else {
        for letter in line.chars() {
            text.push(letter.to_ascii_uppercase())?;
        }
    }
    text.push_str("\r\n")
}

/// The open cube's fault, of an edge from (0, 0, 0) to (0, 2, 0) that is there only back.
pub(crate) fn gap() -> Option<RunFault> {
    let from = Point::new(0, 0, 0)?;
    let to = Point::new(0, 2, 0)?;
    Some(RunFault::Open {
        from,
        to,
        there: 0,
        back: 1,
    })
}
