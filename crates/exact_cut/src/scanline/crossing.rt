//! The crossing of a facet by a scanline, as an exact fraction.
ghost use Rattle.std.specs.Prelude.{◌≡◌, ℤ, pos, ◌<ℤ◌};
ghost use Rattle.exact_int.specs.Bounds.{IsAtMost};
ghost use Rattle.exact_cut.specs.Bounds.{denominator_limit, numerator_limit};
ghost use Rattle.exact_cut.specs.Crossing.{IsUnit};

use std::marker::Model;

/// The crossing of a facet by a scanline: at x = `num / den`, in half-micrometres. Its sign is the facet's winding round the
/// scanline.
#[derive(Clone, Copy, Debug, PartialEq, Eq)]
pub struct Crossing {
    sign: i32,
    num: i128,
    den: i128,
}

impl Model for Crossing {
    ghost use Rattle.exact_cut.specs.Crossing.{Crossing, IsCrossing};

    ghost Value = { Crossing };

    ghost view = { λ c. record { sign = c.sign; num = c.num; den = c.den } };

    ghost invariant = { λ c. IsCrossing (record { sign = c.sign; num = c.num; den = c.den }) };

    ghost inverse = { λ v. record { sign = v.sign; num = v.num; den = v.den } };
}

impl Crossing {
    /// The crossing with this sign at `num / den`.
    pub(crate) fn of(sign: i32, num: i128, den: i128) -> Crossing
        requires unit { IsUnit sign }
        requires den_positive { pos 0 <ℤ den }
        requires num_in { IsAtMost numerator_limit num }
        requires den_in { IsAtMost denominator_limit den }
        ensures { result ≡ record { sign = sign; num = num; den = den } }
    {
        Crossing { sign, num, den }
    }

    /// The facet's winding round the scanline, 1 or -1.
    pub fn sign(&self) -> i32
        ensures value { result ≡ self.now.sign }
        ensures unit { IsUnit result }
    {
        self.sign
    }

    /// The numerator of x in half-micrometres.
    pub fn num(&self) -> i128
        ensures value { result ≡ self.now.num }
        ensures within { IsAtMost numerator_limit result }
    {
        self.num
    }

    /// The denominator of x in half-micrometres, above 0.
    pub fn den(&self) -> i128
        ensures value { result ≡ self.now.den }
        ensures positive { pos 0 <ℤ result }
        ensures within { IsAtMost denominator_limit result }
    {
        self.den
    }
}
