//! The output of `--box`: how many facets there are, and their bounding box.
ghost use Rattle.std.specs.Prelude.{◌≡◌, IfOk, string_bytes};
ghost use Rattle.stlslice.specs.Outcome.{line_text};

use mesh_reading::Extent;
use std::alloc::{AllocError, Allocator};

/// The line on how many facets there are, and their box in micrometres.
pub(crate) fn box_line<A: Allocator + Copy + Send + Sync>(
    alloc: A,
    extent: Extent,
) -> Result<String<A>, AllocError>
    ensures { IfOk result (λ line. string_bytes line ≡ line_text extent.count extent.corners) }
{
    let count = extent.count;
    match extent.corners {
        None => format!(in alloc; "facets {count}\n"),
        Some(corners) => {
            let low = corners.0;
            let high = corners.1;
            format!(in alloc; "facets {count} box {low} {high}\n")
        }
    }
}
