//! Writes bytes into the buffers that C gives.
ghost use Rattle.std.specs.Prelude.{◌≡◌, ◌≤◌, ◌<◌, ◌++◌, ◌↔◌, IsTrue, drop, length};
ghost use Rattle.stlslice_c.specs.Answers.{IsPutInFront};
ghost use Rattle.stlslice_c.specs.declared.status.TheConstants.{DONE};

use crate::status::{DONE, NO_ROOM, Status};

/// Whether `count` bytes fit a buffer. If they do not, their number is put into `wanted`.
pub(crate) fn has_room(count: u64, buffer: &[u8], wanted: &mut usize) -> bool
    ensures room { IsTrue result ↔ (count ≤ length buffer.now) }
    ensures fits { IsTrue result → wanted.new ≡ wanted.old }
    ensures small { length buffer.now < count → wanted.new ≡ count }
{
    if count <= buffer.len() as u64 {
        return true;
    }
    *wanted = count as usize;
    false
}

/// Puts bytes into the front of a buffer that they fit, and their number into `wanted`.
pub(crate) fn put(bytes: &[u8], buffer: &mut [u8], wanted: &mut usize) -> Status
    requires { length bytes.now ≤ length buffer.old }
    ensures put { buffer.new ≡ bytes.now ++ drop (length bytes.now) buffer.old }
    ensures told { wanted.new ≡ length bytes.now }
    ensures done { result ≡ DONE }
{
    *wanted = bytes.len();
    buffer[..bytes.len()].copy_from_slice(bytes);
    DONE
}

/// Puts bytes into the front of a buffer, if they fit, and their number into `wanted`.
pub(crate) fn put_if_room(bytes: &[u8], buffer: &mut [u8], wanted: &mut usize) -> Status
    ensures { IsPutInFront bytes.now buffer.old buffer.new wanted.new result }
{
    if has_room(bytes.len() as u64, buffer, wanted) {
        put(bytes, buffer, wanted)
    } else {
        NO_ROOM
    }
}
