//! What a user may expect of a slicer, proved of the definitions of rays, images and areas that `raster`'s contracts cite.
//! Each law is the contract of a function that does nothing.
//!
//! - [`turned_inside_out`]: by `evenodd` and by `nonzero` it makes no difference which way the facets face, so long as all
//!   of them are turned.
//! - [`any_order`]: the order of the facets makes no difference.
//! - [`slabs_join`]: a grid may be sliced in two parts, one above the other, each by itself.
//! - [`moved_together`]: where mesh and grid lie makes no difference, so long as they move together.
//! - [`turned_by_quarters`]: the images of a closed part turn with it, but for centres that lie on a facet.
//! - [`shells_add`]: shells that fill no voxel in common fill together what each fills.
//! - [`box_is_half_open`]: a box holds its near faces and not its far ones, so two boxes side by side share no voxel and
//!   leave none out between them.
//!
//! For example, slice layers 0 to 9 alone, and then a grid that begins ten layer heights higher. By `slabs_join` their images,
//! one after the other, are the images of the whole.
//!
//! Meshes and origins are in micrometres, centres of voxels in half-micrometres.
#![tactic(auto)]

mod laws;

pub use laws::{
    any_order, box_is_half_open, moved_together, shells_add, slabs_join, turned_by_quarters,
    turned_inside_out,
};
