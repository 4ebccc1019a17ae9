//! What C keeps of an open mesh.
ghost use Rattle.std.specs.Prelude.{◌≡◌, None, Some, is_some, option_map};

use crate::box_parts::BoxParts;
use crate::mesh_pointer::MeshPointer;
use layer_session::Session;
use std::alloc::Global;

/// What C sees of a handle: two words, of which it knows nothing. They are a [`Handle`], as contracts say.
#[repr(C)]
#[derive(Clone, Copy)]
pub struct HandleWords {
    is_open: bool,
    at: *mut u8,
}

/// A handle: an open mesh, or none. One whose bytes are all 0 has none.
#[repr(C)]
#[derive(Drop)]
pub struct Handle {
    is_open: bool,
    pub mesh: MeshPointer,
    ghost tells: { is_open ≡ is_some mesh.session },
}

impl Handle {
    /// With no mesh.
    pub(crate) fn empty() -> Handle
        ensures { result.mesh.session ≡ None }
    {
        Handle {
            is_open: false,
            mesh: MeshPointer::empty(),
        }
    }

    /// With a mesh.
    pub(crate) fn of(session: Box<Session<Global>, Global>) -> Handle
        ensures { result.mesh.session ≡ Some session.value }
    {
        Handle {
            is_open: true,
            mesh: MeshPointer::of(BoxParts::of(session)),
        }
    }

    /// Its mesh, if there is one.
    fn into_session(self, alloc: Global) -> Option<Box<Session<Global>, Global>>
        ensures { option_map (λ session. session.value) result ≡ self.mesh.session }
    {
        let Handle { is_open, mesh } = self;
        if is_open {
            Some(mesh.into_parts(alloc).into_box())
        } else {
            None
        }
    }

    /// Its mesh, if there is one, to be read.
    pub(crate) fn session(&self) -> Option<&Session<Global>>
        ensures { option_map (λ session. session.now) result ≡ self.now.mesh.session }
    {
        if self.is_open {
            Some(self.mesh.session())
        } else {
            None
        }
    }

    /// Takes its mesh out.
    pub(crate) fn take(&mut self, alloc: Global) -> Option<Box<Session<Global>, Global>>
        ensures taken { option_map (λ session. session.value) result ≡ self.old.mesh.session }
        ensures empty { self.new.mesh.session ≡ None }
    {
        std::mem::replace(self, Handle::empty()).into_session(alloc)
    }

    /// Puts a mesh in, in place of the one that it has.
    pub(crate) fn put(&mut self, alloc: Global, session: Box<Session<Global>, Global>)
        ensures { self.new.mesh.session ≡ Some session.value }
    {
        drop(self.take(alloc));
        *self = Handle::of(session);
    }
}
