//! Two numbers packed into one word. Lists are sorted by such words.
ghost use Rattle.std.specs.Prelude.{◌≡◌, ◌+◌, ◌*◌};
ghost use Rattle.mesh_weld.specs.declared.packing.TheConstants.{HALF_WORD};

/// One more than the greatest number in half a word: a word modulo this is its lower half.
pub(crate) const HALF_WORD: u64 = 1 << 32;

/// The word of two halves. It ascends with the upper one, and then with the lower one.
#[inline(always)]
pub(crate) fn packed(upper: u32, lower: u32) -> u64
    ensures { result ≡ upper * HALF_WORD + lower }
{
    u64::from(upper) << 32 | u64::from(lower)
}
