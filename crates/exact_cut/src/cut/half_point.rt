//! The corners of a facet in half-micrometres. The type has a file of its own because definitions in `specs/` cite it.
ghost use Rattle.exact_int.specs.Bounds.{IsAtMost};
ghost use Rattle.exact_cut.specs.Bounds.{half_point_limit};

/// A point of a mesh in half-micrometres.
#[derive(Clone, Copy)]
pub(crate) struct HalfPoint {
    pub(crate) x: i64,
    pub(crate) y: i64,
    pub(crate) z: i64,
    ghost x_in: { IsAtMost half_point_limit x },
    ghost y_in: { IsAtMost half_point_limit y },
    ghost z_in: { IsAtMost half_point_limit z },
}
