//! A facet relative to a centre. The types have a file of their own because definitions in `specs/` cite them.
ghost use Rattle.exact_int.specs.Bounds.{IsAtMost};
ghost use Rattle.exact_cut.specs.Bounds.{offset_limit};

/// The vector from a centre to a corner, in half-micrometres.
#[derive(Clone, Copy)]
pub(crate) struct Offset {
    pub(crate) x: i64,
    pub(crate) y: i64,
    pub(crate) z: i64,
    ghost x_in: { IsAtMost offset_limit x },
    ghost y_in: { IsAtMost offset_limit y },
    ghost z_in: { IsAtMost offset_limit z },
}

/// A facet in coordinates whose origin is a centre.
#[derive(Clone, Copy)]
pub(crate) struct RelativeFacet {
    pub(crate) a: Offset,
    pub(crate) b: Offset,
    pub(crate) c: Offset,
}
