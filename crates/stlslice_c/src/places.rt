//! Where C has put what it gives.
ghost use Rattle.std.specs.Prelude.{◌≡◌, ◌⊎◌, ◌<◌};
ghost use denote.RawPtr.{InBlock, Testable};
ghost use Rattle.stlslice_c.specs.Pointers.{count_at};

use std::ptr::NonNull;

/// The most bytes that an object has: `PTRDIFF_MAX` of C.
const MOST_BYTES: usize = 9_223_372_036_854_775_807;

/// Where values lie, and how many.
#[derive(Clone, Copy)]
pub(crate) struct Place {
    pub(crate) at: *mut u8,
    pub(crate) count: usize,
}

/// Where values of a size lie for which C gives a pointer and their number. If none can lie there it is no place, but not null.
pub(crate) fn place_of(at: *mut u8, count: usize, size: usize) -> Place
    requires { Testable at × (0 < size) }
    ensures { InBlock result.at × (result.count ≡ count_at size at count) × ((result.count ≡ 0) ⊎ (result.at ≡ at)) }
{
    let none = 0;
    match NonNull::new(at) {
        Some(_) if count <= MOST_BYTES / size => Place { at, count },
        _ => Place {
            at: NonNull::from_ref(&none).as_ptr(),
            count: 0,
        },
    }
}
