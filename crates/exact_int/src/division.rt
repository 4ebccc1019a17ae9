//! Division that rounds up. Callers use it to find the first column whose centre is not left of a crossing.
ghost use Rattle.std.specs.Prelude.{pos, ◌<ℤ◌};
ghost use Rattle.exact_int.specs.Division.{IsCeilDiv};

/// The least whole number that is not below `n / d`, for a `d` above 0: 4 for 7 / 2, and -3 for -7 / 2.
pub fn ceil_div(n: i128, d: i128) -> i128
    requires { pos 0 <ℤ d }
    ensures { IsCeilDiv result n d }
{
    let q = n / d;
    if n % d > 0 { q + 1 } else { q }
}

/// [`ceil_div`] for numbers of 64 bits: the least whole number that is not below `n / d`, for a `d` above 0.
pub fn ceil_div_64(n: i64, d: i64) -> i64
    requires { pos 0 <ℤ d }
    ensures { IsCeilDiv result n d }
{
    let quotient = n / d;
    if n % d > 0 { quotient + 1 } else { quotient }
}

/// [`ceil_div`], faster if both numbers fit 64 bits: a division of 64 bits takes a fraction of the time of one of 128 bits.
pub fn quick_ceil_div(n: i128, d: i128) -> i128
    requires { pos 0 <ℤ d }
    ensures { IsCeilDiv result n d }
{
    match (i64::try_from(n), i64::try_from(d)) {
        (Ok(n), Ok(d)) => i128::from(ceil_div_64(n, d)),
        _ => ceil_div(n, d),
    }
}
