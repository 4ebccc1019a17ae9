//! What an open mesh is asked.
ghost use Rattle.stlslice_c.specs.Answers.{IsAreaAnswer, IsAreasAnswer, IsMaskAnswer, IsPngAnswer, IsProbeAnswer, IsStripeAnswer};

use crate::buffers::{has_room, put, put_if_room};
use crate::options::{depth_numbered, mirrors_numbered, rule_numbered};
use crate::shape::Rays;
use crate::status::{DONE, NO_ROOM, OUT_OF_RANGE, Status, status_of};
use layer_session::Session;
use std::alloc::Allocator;

/// Puts the image of layer k into the front of a buffer. If it does not fit, nothing is sliced.
pub(crate) fn put_mask<A: Allocator + Copy + Send + Sync>(
    session: &Session<A>,
    k: u32,
    image: &mut [u8],
    wanted: &mut usize,
) -> Status
    ensures { IsMaskAnswer session.now.job k image.old image.new wanted.old wanted.new result }
{
    if k < session.layers() && !has_room(session.image_len(), image, wanted) {
        return NO_ROOM;
    }
    match session.image(k) {
        Ok(bytes) => put(bytes.as_slice(), image, wanted),
        Err(fault) => status_of(&fault),
    }
}

/// Puts the images of stripe s into the front of a buffer. If they do not fit, nothing is sliced.
pub(crate) fn put_stripe<A: Allocator + Copy + Send + Sync>(
    session: &Session<A>,
    s: u64,
    images: &mut [u8],
    wanted: &mut usize,
) -> Status
    ensures { IsStripeAnswer session.now.job s images.old images.new wanted.old wanted.new result }
{
    if s < session.stripes() && !has_room(session.stripe_len(s), images, wanted) {
        return NO_ROOM;
    }
    match session.stripe(s) {
        Ok(bytes) => put(bytes.as_slice(), images, wanted),
        Err(fault) => status_of(&fault),
    }
}

/// Puts the PNG of layer k into the front of a buffer. If it does not fit, only its size is put, which takes as long.
pub(crate) fn put_png<A: Allocator + Copy + Send + Sync>(
    session: &Session<A>,
    k: u32,
    depth: u32,
    mirrors: u32,
    png: &mut [u8],
    wanted: &mut usize,
) -> Status
    ensures { IsPngAnswer session.now.job k depth mirrors png.old png.new wanted.old wanted.new result }
{
    let Some(depth) = depth_numbered(depth) else {
        return OUT_OF_RANGE;
    };
    let Some(mirrors) = mirrors_numbered(mirrors) else {
        return OUT_OF_RANGE;
    };
    match session.png(k, depth, mirrors) {
        Ok(bytes) => put_if_room(bytes.as_slice(), png, wanted),
        Err(fault) => status_of(&fault),
    }
}

/// Puts the number of filled pixels of layer k.
pub(crate) fn put_area<A: Allocator + Copy + Send + Sync>(
    session: &Session<A>,
    k: u32,
    area: &mut u64,
) -> Status
    ensures { IsAreaAnswer session.now.job k area.old area.new result }
{
    match session.area(k) {
        Ok(pixels) => {
            *area = pixels;
            DONE
        }
        Err(fault) => status_of(&fault),
    }
}

/// Puts the numbers of pixels that a rule fills of the layers from `first` on, as many as there are places for.
pub(crate) fn put_areas<A: Allocator + Copy + Send + Sync>(
    session: &Session<A>,
    rule: u32,
    first: u32,
    areas: &mut [u64],
) -> Status
    ensures { IsAreasAnswer session.now.job rule first areas.old areas.new result }
{
    let Some(rule) = rule_numbered(rule) else {
        return OUT_OF_RANGE;
    };
    if areas.len() as u64 > u64::from(session.layers()) {
        return OUT_OF_RANGE;
    }
    match session.areas_by(rule, first, areas.len() as u32) {
        Ok(pixels) => {
            areas.copy_from_slice(pixels.as_slice());
            DONE
        }
        Err(fault) => status_of(&fault),
    }
}

/// Puts the crossings of the rays from the centre of a voxel.
pub(crate) fn put_probe<A: Allocator + Copy + Send + Sync>(
    session: &Session<A>,
    i: u32,
    j: u32,
    k: u32,
    rays: &mut Rays,
) -> Status
    ensures { IsProbeAnswer session.now.job i j k rays.old rays.new result }
{
    match session.probe(i, j, k) {
        Ok((along_x, along_y)) => {
            *rays = Rays { along_x, along_y };
            DONE
        }
        Err(fault) => status_of(&fault),
    }
}
