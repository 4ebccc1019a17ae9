//! Bounds on magnitudes. Points and centres test their ranges with this function.
ghost use Rattle.std.specs.Prelude.{◌↔◌, IsTrue};
ghost use Rattle.exact_int.specs.Bounds.{IsAtMost};

/// Whether the magnitude of `n` is at most `bound`: `n` lies from `-bound` to `bound`, both ends included.
pub fn is_at_most(bound: u64, n: i64) -> bool
    ensures { IsTrue result ↔ IsAtMost bound n }
{
    n.unsigned_abs() <= bound
}
