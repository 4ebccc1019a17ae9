//! Tests of sessions, of their outlines, of parts on screens, and of the zlib streams that PNGs have. They are in a
//! crate of their own, because a crate's tests are proved with the whole crate once more.
#![tactic(auto)]

#[cfg(test)]
mod outlines;
#[cfg(test)]
mod screens;
#[cfg(test)]
mod session_arrays;
#[cfg(test)]
mod session_binaries;
#[cfg(test)]
mod session_chunks;
#[cfg(test)]
mod session_pngs;
#[cfg(test)]
mod sessions;
#[cfg(test)]
mod zlib_streams;
