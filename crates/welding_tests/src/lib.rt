//! Tests of facets that are cut and crossed, of closed meshes, and of the segments of planes through them. They are in a crate
//! of their own, because a crate's tests are proved with the whole crate once more.
#![tactic(auto)]

#[cfg(test)]
mod counted_heights;
#[cfg(test)]
mod cuts;
#[cfg(test)]
mod failed_welds;
#[cfg(test)]
mod many_facets;
#[cfg(test)]
mod rays;
#[cfg(test)]
mod segments;
#[cfg(test)]
mod walks;
#[cfg(test)]
mod welders;
#[cfg(test)]
mod welding;
