//! How many facets there are, and their bounding box, as facets come.
ghost use Rattle.std.specs.Prelude.{◌≡◌, ◌++◌, [], List};
ghost use Rattle.geometry.specs.Facet.{Facet};
ghost use Rattle.mesh_reading.specs.Extent.{IsExtentOf, extent_of};

use geometry::{Facet, Point, extent_with};

/// The number of facets, and their bounding box if there is one.
#[derive(Clone, Copy)]
pub struct Extent {
    /// The number of facets.
    pub count: usize,
    /// The corners of least and of greatest x, y and z, in micrometres; `None` if there are no facets.
    pub corners: Option<(Point, Point)>,
}

impl Extent {
    /// The extent of no facet.
    pub(crate) fn none() -> Extent
        ensures { result ≡ extent_of [] }
    {
        Extent {
            count: 0,
            corners: None,
        }
    }

    /// The extent of these facets and of those before them.
    pub(crate) fn with(self, facets: &[Facet]) -> Extent
        ensures { (earlier : List Facet) → IsExtentOf earlier self → IsExtentOf (earlier ++ facets.now) result }
    {
        Extent {
            count: self.count.saturating_add(facets.len()),
            corners: extent_with(self.corners, facets),
        }
    }
}
