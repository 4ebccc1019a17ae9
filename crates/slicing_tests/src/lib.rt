//! Tests of layers: of loops, sweeps, grids, filled spans and images, and of claims, the book and the pool that builds them.
//! They are in a crate of their own, because a crate's tests are proved with the whole crate once more.
#![tactic(auto)]

#[cfg(test)]
mod book;
#[cfg(test)]
mod byte_writers;
#[cfg(test)]
mod claims;
#[cfg(test)]
mod contours;
#[cfg(test)]
mod dense_rows;
#[cfg(test)]
mod failed_rises;
#[cfg(test)]
mod filling;
#[cfg(test)]
mod image_writers;
#[cfg(test)]
mod images;
#[cfg(test)]
mod jobs;
#[cfg(test)]
mod pool;
#[cfg(test)]
mod spans;
#[cfg(test)]
mod tall_facets;
#[cfg(test)]
mod worked_layers;
