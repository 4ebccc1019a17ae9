//! PNGs of the layers of a session: those of the layers' spans, in each depth and with all mirrors.
use crate::sessions::{fitted, job_of, open};
use build_book::Job;
use layer_png::write_png;
use layer_session::{Depth, Mirrors, Session, SessionFault};
use raster::Rule;
use std::alloc::Global;
use test_layers::layer;
use test_meshes::{COLUMN, CUBE, OCTAHEDRON, Part, SHEET, TWO_CUBES};

const EACH_MIRRORS: [Mirrors; 4] = [
    Mirrors { x: false, y: false },
    Mirrors { x: true, y: false },
    Mirrors { x: false, y: true },
    Mirrors { x: true, y: true },
];

/// The PNG of a layer of a job, by its spans.
fn png_of(
    alloc: Global,
    job: &Job<Global>,
    k: u32,
    depth: Depth,
    mirrors: Mirrors,
) -> Option<Vec<u8, Global>> {
    if k >= job.grid().layers() {
        return None;
    }
    match layer(alloc, job.solid(), job.grid(), job.rule(), k) {
        Ok(spans) => write_png(
            Vec::new(alloc),
            job.grid(),
            spans.as_slice(),
            depth,
            mirrors,
        )
        .ok(),
        Err(_) => None,
    }
}

/// Whether a layer of a session has this PNG.
fn is_png(session: &Session<Global>, k: u32, depth: Depth, mirrors: Mirrors, png: &[u8]) -> bool {
    match session.png(k, depth, mirrors) {
        Ok(found) => found.as_slice() == png,
        Err(_) => false,
    }
}

/// Whether a layer of a session has the PNGs of its spans in a job, and of both depths not the same.
fn is_layer_drawn(
    alloc: Global,
    session: &Session<Global>,
    job: &Job<Global>,
    k: u32,
    mirrors: Mirrors,
) -> bool {
    let Some(bits) = png_of(alloc, job, k, Depth::One, mirrors) else {
        return false;
    };
    match png_of(alloc, job, k, Depth::Eight, mirrors) {
        Some(bytes) => {
            bits.as_slice() != bytes.as_slice()
                && is_png(session, k, Depth::One, mirrors, bits.as_slice())
                && is_png(session, k, Depth::Eight, mirrors, bytes.as_slice())
        }
        None => false,
    }
}

/// The same of each layer.
fn are_layers_drawn(
    alloc: Global,
    session: &Session<Global>,
    job: &Job<Global>,
    mirrors: Mirrors,
) -> bool {
    for k in 0..session.layers() {
        if !is_layer_drawn(alloc, session, job, k, mirrors) {
            return false;
        }
    }
    true
}

/// Whether the layers of a mesh have the PNGs of their spans, and of both depths not the same.
fn are_pngs_of(alloc: Global, parts: &[Part<'_>], mirrors: Mirrors) -> bool {
    let Some(job) = job_of(alloc, parts, 1, Rule::NonZero) else {
        return false;
    };
    match open(alloc, parts, &fitted(1, Rule::NonZero)) {
        Ok(session) => are_layers_drawn(alloc, &session, &job, mirrors),
        Err(_) => false,
    }
}

#[test]
fn pngs_are_those_of_the_spans(rt: HostRuntime) {
    for parts in [CUBE, TWO_CUBES, OCTAHEDRON, SHEET] {
        for mirrors in EACH_MIRRORS {
            assert!(rt; are_pngs_of(rt.alloc(), parts, mirrors));
        }
    }
}

/// Signature, size, depth, and greyscale without interlace; the last four bytes are the CRC that Python's zlib tells.
const HEAD: &[u8] =
    b"\x89PNG\r\n\x1a\n\0\0\0\rIHDR\0\0\0\x01\0\0\0\x01\x08\0\0\0\0\x3a\x7e\x9b\x55";

/// Whether the PNG of a layer of a session, without mirrors, has this head.
fn has_head(session: &Session<Global>, k: u32, head: &[u8]) -> bool {
    match session.png(k, Depth::Eight, EACH_MIRRORS[0]) {
        Ok(png) => png.as_slice().starts_with(head),
        Err(_) => false,
    }
}

#[test]
fn a_png_of_one_pixel(rt: HostRuntime) {
    match open(rt.alloc(), COLUMN, &fitted(1, Rule::EvenOdd)) {
        Ok(session) => assert!(rt; has_head(&session, 16, HEAD)),
        Err(_) => assert!(rt; false),
    }
}

/// Whether a layer of the column's session is outside.
fn is_outside(session: &Session<Global>, k: u32) -> bool {
    let outside = SessionFault::Outside {
        columns: 1,
        rows: 1,
        layers: 17,
    };
    match session.png(k, Depth::One, EACH_MIRRORS[3]) {
        Ok(_found) => false,
        Err(fault) => fault == outside,
    }
}

#[test]
fn no_png_lies_outside_the_grid(rt: HostRuntime) {
    match open(rt.alloc(), COLUMN, &fitted(1, Rule::NonZero)) {
        Ok(session) => assert!(rt; is_outside(&session, 17) && is_outside(&session, u32::MAX)),
        Err(_) => assert!(rt; false),
    }
}
