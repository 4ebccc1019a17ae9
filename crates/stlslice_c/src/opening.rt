//! Reading a file: its bounding box, or its session; and the session of arrays. A session is kept in a handle.
ghost use Rattle.std.specs.Prelude.{◌≡◌, Err, IfErr, IfOk, List, Some, length};
ghost use Rattle.geometry.specs.BoundingBox.{extent};
ghost use Rattle.geometry.specs.Facet.{Facet};
ghost use Rattle.geometry.specs.declared.limits.TheConstants.{FACET_LIMIT};
ghost use Rattle.layer_session.specs.Setup.{HasSteps};
ghost use Rattle.layer_session.specs.declared.session_fault.SessionFault.TheVariants.{Step};
ghost use Rattle.layer_session.specs.Session.{IsFaultOfFile, IsOpenFault, IsSessionOf, ReadsFile, of_arrays, of_file};
ghost use Rattle.stlslice_c.specs.Answers.{IsFaultLine};
ghost use Rattle.stlslice_c.specs.Shape.{corners_told, shape_told};
ghost use Rattle.stlslice_c.specs.Status.{status_of};
ghost use Rattle.stlslice_c.specs.declared.status.TheConstants.{DONE};

use crate::handle::Handle;
use crate::lines::put_fault;
use crate::shape::{Corners, Shape, corners_told, shape_told};
use crate::status::{DONE, Status};
use geometry::extent;
use layer_session::{Session, SessionFault, Setup, Unit, read_file};
use std::alloc::{Allocator, Global};

/// The number and the box of a file's facets.
pub(crate) fn read_corners<A: Allocator + Copy + Send + Sync>(
    alloc: A,
    bytes: &[u8],
    unit: Unit,
) -> Result<Corners, SessionFault>
    ensures found { IfOk result (λ corners. (facets : List Facet) × ReadsFile FACET_LIMIT unit bytes.now facets
        × (corners ≡ corners_told (length facets) (extent facets))) }
    ensures fault { IfErr result (IsFaultOfFile FACET_LIMIT unit bytes.now) }
{
    let facets = read_file(alloc, bytes, unit)?;
    Ok(corners_told(facets.len(), extent(facets.as_slice())))
}

/// The session of a file.
pub(crate) fn open<A: Allocator + Copy + Send + Sync>(
    alloc: A,
    bytes: &[u8],
    setup: &Setup,
) -> Result<Box<Session<A>, A>, SessionFault>
    ensures found { IfOk result (λ session. IsSessionOf setup.now (of_file bytes.now) session.value) }
    ensures fault { IfErr result (IsOpenFault setup.now (of_file bytes.now)) }
    ensures step { (HasSteps setup.now → ⊥) → result ≡ Err Step }
{
    let session = Session::open(alloc, bytes, setup)?;
    match Box::new(alloc, session) {
        Ok(session) => Ok(session),
        Err(_) => Err(SessionFault::Memory),
    }
}

/// The session of points and triangles.
pub(crate) fn open_mesh<A: Allocator + Copy + Send + Sync>(
    alloc: A,
    points: &[[i32; 3]],
    triangles: &[[u32; 3]],
    setup: &Setup,
) -> Result<Box<Session<A>, A>, SessionFault>
    ensures found { IfOk result (λ session. IsSessionOf setup.now (of_arrays points.now triangles.now) session.value) }
    ensures fault { IfErr result (IsOpenFault setup.now (of_arrays points.now triangles.now)) }
    ensures step { (HasSteps setup.now → ⊥) → result ≡ Err Step }
{
    let session = Session::open_mesh(alloc, points, triangles, setup)?;
    match Box::new(alloc, session) {
        Ok(session) => Ok(session),
        Err(_) => Err(SessionFault::Memory),
    }
}

/// Puts an opened mesh into a handle, and its shape; or puts the line of the fault.
pub(crate) fn keep(
    alloc: Global,
    opened: Result<Box<Session<Global>, Global>, SessionFault>,
    handle: &mut Handle,
    shape: &mut Shape,
    line: &mut [u8],
) -> Status
    ensures kept { IfOk opened (λ session. (handle.new.mesh.session ≡ Some session.value) × (shape.new ≡ shape_told session.value)
        × (line.new ≡ line.old) × (result ≡ DONE)) }
    ensures fault { IfErr opened (λ fault. (handle.new.mesh.session ≡ handle.old.mesh.session) × (shape.new ≡ shape.old)
        × (result ≡ status_of fault) × IsFaultLine fault line.old line.new) }
{
    match opened {
        Ok(session) => {
            *shape = shape_told(&session);
            handle.put(alloc, session);
            DONE
        }
        Err(fault) => put_fault(alloc, &fault, line),
    }
}
