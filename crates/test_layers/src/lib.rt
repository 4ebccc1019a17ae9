//! The spans of single layers, for the tests of several crates.
#![tactic(auto)]

ghost use Rattle.std.specs.Prelude.{◌<◌, IfOk};
ghost use Rattle.raster.specs.Filler.{IsFillOf};
ghost use Rattle.raster.specs.Span.{AreSpans};

use mesh_weld::Solid;
use plane_segments::segments;
use raster::{Filler, Grid, Rule, Span, fill};
use std::alloc::{AllocError, Allocator};

/// The spans of a layer. `Err` only if an allocation failed.
pub fn layer<A: Allocator + Copy + Send + Sync>(
    alloc: A,
    solid: &Solid<A>,
    g: &Grid,
    rule: Rule,
    k: u32,
) -> Result<Vec<Span, A>, AllocError>
    requires { k < g.now.layers }
    ensures filled { IfOk result (λ spans. IsFillOf g.now rule solid.now.facets k spans.items) }
    ensures spans { IfOk result (λ spans. AreSpans g.now.columns g.now.rows spans.items) }
{
    let cut = segments(alloc, solid, g.plane(k))?;
    fill(alloc, solid, g, rule, k, cut.as_slice())
}

/// The spans of a layer, by a filler that may have filled others. `Err` only if an allocation failed.
pub fn layer_by<A: Allocator + Copy + Send + Sync>(
    filler: &mut Filler<A>,
    alloc: A,
    solid: &Solid<A>,
    g: &Grid,
    rule: Rule,
    k: u32,
) -> Result<Vec<Span, A>, AllocError>
    requires { k < g.now.layers }
    ensures { IfOk result (λ spans. IsFillOf g.now rule solid.now.facets k spans.items) }
{
    let cut = segments(alloc, solid, g.plane(k))?;
    filler.fill(solid, g, rule, k, cut.as_slice())
}
