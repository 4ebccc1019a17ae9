//! An open mesh as a pointer that C keeps, or none.
ghost use Rattle.std.specs.Prelude.{◌≡◌, None, Option, Some, is_some, true};
ghost use Rattle.layer_session.specs.Session.{Session as SessionModel};

use crate::box_parts::BoxParts;
use layer_session::Session;
use std::alloc::Global;
use std::marker::Model;

/// The place of an open mesh in memory, if there is one.
#[repr(C)]
#[derive(Drop)]
pub struct MeshPointer {
    at: *mut u8,
    pub ghost session: { Option SessionModel },
}

impl Model for MeshPointer {
    ghost use Rattle.stlslice_c.specs.MeshPointer.{owned, seen, session_row, token};

    ghost also_owns = { λ m. owned token session_row m.at m.session };

    ghost also_shares = { λ m _ κ. seen session_row m.at m.session κ };
}

unsafe impl Send for MeshPointer {}

unsafe impl Sync for MeshPointer {}

impl MeshPointer {
    /// No mesh.
    pub(crate) fn empty() -> MeshPointer
        ensures { result.session ≡ None }
    {
        MeshPointer {
            at: std::ptr::null_mut(),
        }
    }

    /// The mesh of a `Box` that was taken apart.
    pub(crate) fn of(parts: BoxParts<Session<Global>, Global>) -> MeshPointer
        ensures { result.session ≡ Some parts.value }
    {
        let BoxParts { at, alloc: _ } = parts;
        MeshPointer { at: at as *mut u8 }
    }

    /// The mesh, to be read.
    pub(crate) fn session(&self) -> &Session<Global>
        requires { is_some self.now.session ≡ true }
        ensures { self.now.session ≡ Some result.now }
    {
        let at = self.at as *const Session<Global>;
        unsafe { &*at }
    }

    /// The `Box` again, taken apart.
    pub(crate) fn into_parts(self, alloc: Global) -> BoxParts<Session<Global>, Global>
        requires { is_some self.session ≡ true }
        ensures { self.session ≡ Some result.value }
    {
        let MeshPointer { at } = self;
        BoxParts {
            at: at as *mut Session<Global>,
            alloc,
        }
    }
}
