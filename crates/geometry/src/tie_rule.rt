//! The tie rule: a corner that lies in a plane counts as below it. Each half-edge then lies below the plane, lies above it, or
//! passes it once. So a plane or a ray through a vertex or an edge needs no special case.
ghost use Rattle.std.specs.Prelude.{◌≡◌, ◌↔◌, IsTrue, not};
ghost use Rattle.geometry.specs.TieRule as TieRule;
ghost use Rattle.geometry.specs.TieRule.{IsAbove, IsBelow, is_above};

/// Whether a height counts as below a horizontal plane, both in half-micrometres. Otherwise it is above the plane.
#[inline(always)]
pub fn is_below(height: i64, plane: i64) -> bool
    ensures value { result ≡ TieRule.is_below height plane }
    ensures below { IsTrue result ↔ IsBelow height plane }
    ensures above { is_above height plane ≡ not result }
    ensures over { IsTrue (not result) ↔ IsAbove height plane }
{
    height <= plane
}

/// Whether an edge from one height to another passes a horizontal plane upward, all in half-micrometres: it begins
/// below the plane and ends above it.
#[inline(always)]
pub fn rises_through(from: i64, to: i64, plane: i64) -> bool
    ensures { result ≡ TieRule.rises_through from to plane }
{
    is_below(from, plane) && !is_below(to, plane)
}
