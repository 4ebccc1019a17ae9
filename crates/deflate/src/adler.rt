//! Adler-32 (RFC 1950, 8.2) of runs of equal bytes, each in one step.
ghost use Rattle.std.specs.Prelude.{◌≡◌, ◌+◌, ◌*◌, ◌^◌, ◌<◌, ◌≤◌, replicate};
ghost use Rattle.deflate.specs.Adler.{Sums, after_bytes, first_sums, sum_value};

use crate::run::RUN_LIMIT;
use std::marker::Model;

/// What the sums are taken modulo: the greatest prime below 2^16.
const MODULUS: u64 = 65521;

/// The two sums of Adler-32.
#[derive(Drop)]
pub struct Adler {
    a: u64,
    b: u64,
}

impl Model for Adler {
    ghost use Rattle.std.specs.Prelude.{◌<◌};
    ghost use Rattle.deflate.specs.Adler.{Sums};
    ghost use Rattle.deflate.specs.declared.adler.TheConstants.{MODULUS};

    ghost Value = { Sums };

    ghost view = { λ s. record { a = s.a; b = s.b } };

    ghost invariant = { λ s. (s.a < MODULUS) × (s.b < MODULUS) };
}

impl Adler {
    /// The sums of no bytes.
    pub fn new() -> Self
        ensures { result ≡ first_sums }
    {
        Adler { a: 1, b: 0 }
    }

    /// Adds a run of `count` equal bytes, at most [`RUN_LIMIT`].
    pub fn run(&mut self, byte: u8, count: u64)
        requires { count ≤ RUN_LIMIT }
        ensures { self.new ≡ after_bytes self.old (replicate count byte) }
    {
        let byte = u64::from(byte);
        self.b = (self.b + count * self.a + byte * (count * (count + 1) / 2)) % MODULUS;
        self.a = (self.a + count * byte) % MODULUS;
    }

    /// Both sums in one number.
    pub fn value(&self) -> u32
        ensures { result ≡ sum_value self.now }
    {
        ((self.b << 16) + self.a) as u32
    }
}
