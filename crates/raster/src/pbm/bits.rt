//! Sets pixels in packed rows: eight pixels a byte, the leftmost in the highest bit, as in pbm(5).
ghost use Rattle.std.specs.Prelude.{◌≡◌, ◌<◌, ◌≤◌, ◌≢◌, ◌*◌, ◌+◌, ◌-◌, ◌/◌, ◌%◌, ℕ, length, max, slice_index};
ghost use Rattle.std.specs.Int.{bit_at};
ghost use Rattle.raster.specs.Bits.{pixel_bit};

/// Sets the pixels of the columns from `from` up to but not including `to`.
pub(crate) fn set_pixels(row: &mut [u8], from: usize, to: usize)
    requires some { from < to }
    requires room { to ≤ 8 * length row.old }
    ensures inside { (i : ℕ) → from ≤ i → i < to → pixel_bit row.new i ≡ 1 }
    ensures left { (i : ℕ) → i < from → pixel_bit row.new i ≡ pixel_bit row.old i }
    ensures right { (i : ℕ) → to ≤ i → pixel_bit row.new i ≡ pixel_bit row.old i }
{
    let first = from / 8;
    let last = (to - 1) / 8;
    if last < first + 8 && first + 8 <= row.len() {
        set_word(row, first, mask_between(from % 8, to - 8 * first));
        return;
    }
    let head = mask_from(from);
    let tail = mask_through(to - 1);
    if first == last {
        set_bits(row, first, head & tail);
    } else {
        set_bits(row, first, head);
        set_bytes(row, first + 1, last);
        set_bits(row, last, tail);
    }
}

/// The mask of the pixels of a byte from this column on.
fn mask_from(column: usize) -> u8
    ensures inside { (b : ℕ) → b < 8 → column % 8 ≤ b → bit_at result (7 - b) ≡ 1 }
    ensures outside { (b : ℕ) → b < column % 8 → bit_at result (7 - b) ≡ 0 }
{
    0xff >> (column % 8)
}

/// The mask of the pixels of a byte up to and including this column.
fn mask_through(column: usize) -> u8
    ensures inside { (b : ℕ) → b ≤ column % 8 → bit_at result (7 - b) ≡ 1 }
    ensures outside { (b : ℕ) → b < 8 → column % 8 < b → bit_at result (7 - b) ≡ 0 }
{
    0xff << (7 - column % 8)
}

/// The mask of those of 64 pixels in the columns from `from` up to but not including `to`, the leftmost in the highest bit.
fn mask_between(from: usize, to: usize) -> u64
    requires some { from < to }
    requires few { to ≤ 64 }
    ensures inside { (b : ℕ) → from ≤ b → b < to → bit_at result (63 - b) ≡ 1 }
    ensures left { (b : ℕ) → b < from → bit_at result (63 - b) ≡ 0 }
    ensures right { (b : ℕ) → to ≤ b → b < 64 → bit_at result (63 - b) ≡ 0 }
{
    (u64::MAX >> from) & (u64::MAX << (64 - to))
}

/// Sets the pixels of the eight bytes from this index on that are in the mask, all of them at once.
fn set_word(row: &mut [u8], first: usize, mask: u64)
    requires { first + 8 ≤ length row.old }
    ensures there { (i : ℕ) → first ≤ i / 8 → i / 8 < first + 8 → pixel_bit row.new i ≡ max (pixel_bit row.old i) (bit_at mask (63 - (i - 8 * first))) }
    ensures left { (i : ℕ) → i / 8 < first → pixel_bit row.new i ≡ pixel_bit row.old i }
    ensures right { (i : ℕ) → first + 8 ≤ i / 8 → pixel_bit row.new i ≡ pixel_bit row.old i }
{
    let mut bytes = [0; 8];
    bytes.copy_from_slice(&row[first..first + 8]);
    row[first..first + 8].copy_from_slice(&with_mask(bytes, mask));
}

/// Eight bytes with the pixels set that are in the mask.
fn with_mask(bytes: [u8; 8], mask: u64) -> [u8; 8]
    ensures { (k b : ℕ) → k < 8 → b < 8 → bit_at (slice_index result k) (7 - b) ≡ max (bit_at (slice_index bytes k) (7 - b)) (bit_at mask (63 - (8 * k + b))) }
{
    (u64::from_be_bytes(bytes) | mask).to_be_bytes()
}

/// Sets the pixels of the byte at this index that are in the mask.
fn set_bits(row: &mut [u8], index: usize, mask: u8)
    requires { index < length row.old }
    ensures there { (i : ℕ) → i / 8 ≡ index → pixel_bit row.new i ≡ max (pixel_bit row.old i) (bit_at mask (7 - i % 8)) }
    ensures elsewhere { (i : ℕ) → i / 8 ≢ index → pixel_bit row.new i ≡ pixel_bit row.old i }
{
    row[index] |= mask;
}

/// Sets all pixels of the bytes from `first` up to but not including `last`.
fn set_bytes(row: &mut [u8], first: usize, last: usize)
    requires order { first ≤ last }
    requires room { last ≤ length row.old }
    ensures inside { (i : ℕ) → first ≤ i / 8 → i / 8 < last → pixel_bit row.new i ≡ 1 }
    ensures left { (i : ℕ) → i / 8 < first → pixel_bit row.new i ≡ pixel_bit row.old i }
    ensures right { (i : ℕ) → last ≤ i / 8 → pixel_bit row.new i ≡ pixel_bit row.old i }
{
    row[first..last].fill(0xff);
}
