//! The header of an image in raw PBM.
ghost use Rattle.std.specs.Prelude.{◌≡◌, ◌<◌, ◌≤◌, ◌+◌, [], ◌∷◌, ◌++◌, decimal, length};
ghost use Rattle.raster.specs.Image.{header};
ghost use Rattle.raster.specs.declared.pbm.header.TheConstants.{HEADER_LIMIT};
ghost use Rattle.geometry.specs.declared.limits.TheConstants.{COLUMN_LIMIT};

use std::marker::Model;

/// The greatest length of an image's header: `P4`, a line break, the width, a blank, the height and a line break. Each of the
/// two numbers has at most five digits.
pub(crate) const HEADER_LIMIT: usize = 15;

/// The bytes of a header.
#[derive(Drop)]
pub(crate) struct Header {
    bytes: [u8; HEADER_LIMIT],
    len: usize,
}

impl Model for Header {
    ghost use Rattle.std.specs.Prelude.{◌≡◌, ◌≤◌, List, ℕ, length, take};
    ghost use Rattle.raster.specs.declared.pbm.header.TheConstants.{HEADER_LIMIT};

    ghost Value = { List ℕ };

    ghost view = { λ h. take h.len h.bytes };

    ghost invariant = { λ h. (h.len ≤ HEADER_LIMIT) × (length h.bytes ≡ HEADER_LIMIT) };
}

impl Header {
    /// The header of an image of this width and height.
    pub(crate) fn of(width: u32, height: u32) -> Header
        requires width { width ≤ COLUMN_LIMIT }
        requires height { height ≤ COLUMN_LIMIT }
        ensures { result ≡ header width height }
    {
        let mut header = Header::begun();
        header.push_decimal(width);
        header.push(b' ');
        header.push_decimal(height);
        header.push(b'\n');
        header
    }

    /// The bytes.
    pub(crate) fn bytes(&self) -> &[u8]
        ensures { result.now ≡ self.now }
    {
        &self.bytes[..self.len]
    }

    /// The part before the width, which is the same for all images.
    fn begun() -> Header
        ensures { result ≡ 80 ∷ 52 ∷ 10 ∷ [] }
    {
        let mut header = Header {
            bytes: [0; HEADER_LIMIT],
            len: 0,
        };
        header.push(b'P');
        header.push(b'4');
        header.push(b'\n');
        header
    }

    /// Appends a byte.
    fn push(&mut self, byte: u8)
        requires { length self.old < HEADER_LIMIT }
        ensures { self.new ≡ self.old ++ byte ∷ [] }
    {
        self.bytes[self.len] = byte;
        self.len += 1;
    }

    /// Appends a number in plain decimal.
    // `write!` will not do: no clause of it says that it succeeds.
    fn push_decimal(&mut self, n: u32)
        requires { length self.old + length (decimal n) ≤ HEADER_LIMIT }
        ensures { self.new ≡ self.old ++ decimal n }
    {
        if n >= 10 {
            self.push_decimal(n / 10);
        }
        self.push(b'0' + (n % 10) as u8);
    }
}
