//! The texts of small meshes, in the plainest form of a file.
use crate::meshes::{Part, facets_of};
use geometry::{Facet, Point};
use std::alloc::{AllocError, Allocator};
use std::fmt::Write;

/// Adds a coordinate in micrometres, as a number in millimetres with three decimals.
fn push_number<A: Allocator>(text: &mut String<A>, micrometres: i32) -> Result<(), AllocError> {
    let sign = if micrometres < 0 { "-" } else { "" };
    let size = micrometres.unsigned_abs();
    write!(text, " {sign}{}.{:03}", size / 1000, size % 1000)
}

fn push_vertex<A: Allocator>(text: &mut String<A>, point: Point) -> Result<(), AllocError> {
    text.push_str("vertex")?;
    for at in [point.x(), point.y(), point.z()] {
        push_number(text, at)?;
    }
    text.push_str("\n")
}

fn push_facet<A: Allocator>(text: &mut String<A>, facet: &Facet) -> Result<(), AllocError> {
    text.push_str("facet normal 0 0 0\nouter loop\n")?;
    for number in 0..3 {
        push_vertex(text, facet.corner(number))?;
    }
    text.push_str("endloop\nendfacet\n")
}

/// The ASCII STL text of facets: one solid, a keyword or a vertex a line, and coordinates in millimetres with three
/// decimals. `Err` only if an allocation failed.
pub fn text_of_facets<A: Allocator + Copy>(
    alloc: A,
    facets: &[Facet],
) -> Result<String<A>, AllocError> {
    let mut text = String::new(alloc);
    text.push_str("solid t\n")?;
    for facet in facets {
        push_facet(&mut text, facet)?;
    }
    text.push_str("endsolid t\n")?;
    Ok(text)
}

/// The text of a mesh in this form. `Err` only if an allocation failed, or a coordinate is out of range.
pub fn text_of<A: Allocator + Copy>(alloc: A, parts: &[Part<'_>]) -> Result<String<A>, AllocError> {
    let facets = facets_of(alloc, parts)?;
    text_of_facets(alloc, facets.as_slice())
}
