//! The layout of facets: what a file writes before, between and after the numbers of a facet. Most files write it with the same
//! bytes in each facet. So these are compared as a whole, and not read word by word.
ghost use Rattle.std.specs.Prelude.{◌≡◌, ◌≢◌, ◌≤◌, ◌<◌, ℕ, [], ◌∷◌, ◌++◌, ◌+◌, ◌↔◌, IfSome, IsTrue, List, None, Ok, Some, length, nat_le, not, take, true, ℤ};
ghost use Rattle.std.specs.List.{list_all, prefix_len};
ghost use Rattle.micro_num.specs.Micrometres.{coordinate_of};
ghost use Rattle.stl_text.specs.Layout.{IsClosing, IsSeparator, Skips, separator_tokens};
ghost use Rattle.stl_text.specs.Reader.{Spells};
ghost use Rattle.stl_text.specs.Text.{Token, after_word, coordinate, facet_tokens, first_word, is_white, normal_word, rest_after};
ghost use Rattle.stl_text.specs.declared.grammar.Separator.TheVariants.{Closing};

use crate::grammar::{Separator, facet_by_words};
use crate::reader::Reader;
use crate::scanning::{
    after_coordinate, after_front, ends_word, skip_blank, skip_space, split_word,
};
use geometry::{Facet, Point};
use micro_num::Unit;
use std::marker::Model;
use std::simd::prelude::*;

/// The number of bytes that are looked at together.
const LANES: usize = 16;

/// The bytes with which a file writes each separator, with white space at the end of each.
#[derive(Drop)]
pub(crate) struct Layout<'t> {
    opening: &'t [u8],
    first: &'t [u8],
    next: &'t [u8],
    closing: &'t [u8],
    /// The number of bytes of `closing` up to the end of its last word.
    words_len: usize,
}

impl<'t> Model for Layout<'t> {
    ghost use Rattle.stl_text.specs.Layout.{IsLayout, Layout};

    ghost Value = { Layout };

    ghost view = { λ l. record { opening = l.opening.now; first = l.first.now; next = l.next.now; closing = l.closing.now; words_len = l.words_len } };

    ghost invariant = { λ l. IsLayout (record {
      opening = l.opening.now;
      first = l.first.now;
      next = l.next.now;
      closing = l.closing.now;
      words_len = l.words_len;
    }) };
}

impl<'t> Reader<'t> {
    /// Goes on after these bytes, if the text goes on with them.
    #[inline(always)]
    fn skip(&mut self, bytes: &[u8]) -> Option<()>
        ensures { IfSome result (λ _. (tokens : List Token) → IsSeparator tokens bytes.now → Skips tokens self.old self.new) }
    {
        self.rest = after_bytes(self.rest, bytes)?;
        Some(())
    }

    /// Goes on after the words of a closing, if the text goes on with its bytes.
    #[inline(always)]
    fn close(&mut self, layout: &Layout<'_>) -> Option<()>
        ensures { IfSome result (λ _. Spells (separator_tokens Closing) self.old self.new) }
    {
        let start = self.rest;
        after_bytes(start, layout.closing)?;
        let (_, rest) = start.split_at(layout.words_len);
        self.rest = rest;
        Some(())
    }

    /// `normal_words`, which first tries words one blank apart.
    #[inline(always)]
    fn near_normal(&mut self) -> Option<()>
        ensures some { IfSome result (λ _. Spells (normal_word ∷ normal_word ∷ normal_word ∷ []) self.old self.new) }
        ensures none { result ≡ None → rest_after self.old.unit (normal_word ∷ normal_word ∷ normal_word ∷ []) self.old.rest ≡ None }
    {
        self.near_word()?;
        self.near_word()?;
        self.near_word()
    }

    /// `normal_word`, which first tries a short word with at most one blank before it.
    #[inline(always)]
    fn near_word(&mut self) -> Option<()>
        ensures some { IfSome result (λ _. Spells (normal_word ∷ []) self.old self.new) }
        ensures none { result ≡ None → first_word self.old.rest ≡ [] }
    {
        self.rest = match after_short_word(skip_blank(self.rest)) {
            Some(rest) => rest,
            None => after_any_word(self.rest)?,
        };
        Some(())
    }

    /// `point`, which first tries coordinates one blank apart.
    #[inline(always)]
    fn near_point(&mut self) -> Option<Point>
        ensures { IfSome result (λ p. Spells (coordinate p.x ∷ coordinate p.y ∷ coordinate p.z ∷ []) self.old self.new) }
    {
        let x = self.near_coordinate()?;
        let y = self.near_coordinate()?;
        let z = self.near_coordinate()?;
        let Some(point) = Point::new(x, y, z) else {
            return None;
        };
        Some(point)
    }

    /// `coordinate`, which first tries at most one blank before it.
    #[inline(always)]
    fn near_coordinate(&mut self) -> Option<i32>
        ensures some { IfSome result (λ z. Spells (coordinate z ∷ []) self.old self.new) }
        ensures none { result ≡ None → (z : ℤ) → coordinate_of self.old.unit (first_word self.old.rest) ≢ Ok z }
    {
        let (z, rest) = match after_front(skip_blank(self.rest), self.unit) {
            Some(found) => found,
            None => after_any_coordinate(self.rest, self.unit)?,
        };
        self.rest = rest;
        Some(z)
    }
}

/// The text after these bytes, if it begins with them.
#[inline(always)]
fn after_bytes<'t>(text: &'t [u8], bytes: &[u8]) -> Option<&'t [u8]>
    ensures some { IfSome result (λ rest. text.now ≡ bytes.now ++ rest.now) }
    ensures none { result ≡ None → (rest : List ℕ) → text.now ≢ bytes.now ++ rest }
{
    if text.len() < bytes.len() {
        return None;
    }
    let (front, rest) = text.split_at(bytes.len());
    if are_equal(front, bytes) {
        Some(rest)
    } else {
        None
    }
}

/// Whether two texts of the same length are equal. Most separators have 8 to 32 bytes. The first 8 or 16 bytes of such a text and
/// its last, which may overlap, are all of it.
#[inline(always)]
fn are_equal(a: &[u8], b: &[u8]) -> bool
    requires { length a.now ≡ length b.now }
    ensures { IsTrue result ↔ (a.now ≡ b.now) }
{
    match b.len() {
        8..16 => have_equal_ends(a, b),
        16..=32 => have_equal_long_ends(a, b),
        _ => a == b,
    }
}

/// Whether two texts of the same length, from 16 to 32 bytes, are equal.
#[inline(always)]
fn have_equal_long_ends(a: &[u8], b: &[u8]) -> bool
    requires same { length a.now ≡ length b.now }
    requires some { 16 ≤ length b.now }
    requires most { length b.now ≤ 32 }
    ensures { IsTrue result ↔ (a.now ≡ b.now) }
{
    let (a_front, _) = a.split_at(16);
    let (b_front, _) = b.split_at(16);
    let (_, a_end) = a.split_at(a.len() - 16);
    let (_, b_end) = b.split_at(b.len() - 16);
    have_equal_ends(a_front, b_front) & have_equal_ends(a_end, b_end)
}

/// Whether two texts of the same length, from 8 to 16 bytes, are equal.
#[inline(always)]
fn have_equal_ends(a: &[u8], b: &[u8]) -> bool
    requires same { length a.now ≡ length b.now }
    requires some { 8 ≤ length b.now }
    requires most { length b.now ≤ 16 }
    ensures { IsTrue result ↔ (a.now ≡ b.now) }
{
    match (
        a.first_chunk::<8>(),
        a.last_chunk::<8>(),
        b.first_chunk::<8>(),
        b.last_chunk::<8>(),
    ) {
        // both tests at once, without a branch between them
        (Some(p), Some(q), Some(r), Some(s)) => are_equal_as_numbers(p, r)
            & are_equal_as_numbers(q, s),
        // never reached: each has at least 8 bytes
        _ => false,
    }
}

/// Whether two arrays are equal. They are compared as numbers, since a comparison of arrays is compiled to a call.
#[inline(always)]
fn are_equal_as_numbers(a: &[u8; 8], b: &[u8; 8]) -> bool
    ensures { IsTrue result ↔ (a.now ≡ b.now) }
{
    u64::from_le_bytes(*a) == u64::from_le_bytes(*b)
}

/// The text after its first word, if it has one. It is out of line: few words of a normal are longer than 16 bytes or have more
/// than one blank before them.
#[cold]
#[inline(never)]
fn after_any_word(bytes: &[u8]) -> Option<&[u8]>
    ensures word { IfSome result (λ rest. 0 < length (first_word bytes.now)) }
    ensures rest { IfSome result (λ rest. rest.now ≡ after_word bytes.now) }
    ensures none { result ≡ None → first_word bytes.now ≡ [] }
{
    let (word, rest) = split_word(bytes);
    if word.is_empty() { None } else { Some(rest) }
}

/// `after_coordinate`, out of line: few coordinates have more than one blank before them.
#[cold]
#[inline(never)]
fn after_any_coordinate(bytes: &[u8], unit: Unit) -> Option<(i32, &[u8])>
    ensures read { IfSome result (λ found. coordinate_of unit (first_word bytes.now) ≡ Ok found.0) }
    ensures rest { IfSome result (λ found. found.1.now ≡ after_word bytes.now) }
    ensures none { result ≡ None → (z : ℤ) → coordinate_of unit (first_word bytes.now) ≢ Ok z }
{
    after_coordinate(bytes, unit)
}

/// The number of bytes at the front of a text that are above a blank (32), so not white space. `LANES` if there are more.
#[inline(always)]
fn front_len(bytes: &[u8]) -> usize
    requires { LANES ≤ length bytes.now }
    ensures count { result ≡ prefix_len (λ byte. not (nat_le byte 32)) (take LANES bytes.now) }
    ensures clear { list_all (λ byte. not (is_white byte)) (take result bytes.now) ≡ true }
    ensures within { result ≤ LANES }
{
    let low = u8x16::from_slice(bytes)
        .simd_le(u8x16::splat(b' '))
        .to_bitmask();
    if low == 0 {
        LANES
    } else {
        low.trailing_zeros() as usize
    }
}

/// The text after the word at its front, if that has fewer than `LANES` bytes. `None` says nothing about the text.
#[inline(always)]
fn after_short_word(bytes: &[u8]) -> Option<&[u8]>
    ensures word { IfSome result (λ rest. 0 < length (first_word bytes.now)) }
    ensures rest { IfSome result (λ rest. rest.now ≡ after_word bytes.now) }
{
    if bytes.len() < LANES {
        return None;
    }
    let count = front_len(bytes);
    let (_, rest) = bytes.split_at(count);
    if count > 0 && ends_word(rest) {
        Some(rest)
    } else {
        None
    }
}

/// The bytes of a separator at the front of a text, with the white space after them, which is at least one byte.
fn separator_at(text: &[u8], separator: Separator) -> Option<&[u8]>
    ensures { IfSome result (λ bytes. IsSeparator (separator_tokens separator) bytes.now) }
{
    let mut reader = Reader::new(text, Unit::Millimetre);
    reader.separator(separator)?;
    let after = skip_space(reader.rest);
    let (bytes, _) = text.split_at(text.len().saturating_sub(after.len()));
    let mut again = Reader::new(bytes, Unit::Millimetre);
    again.separator(separator)?;
    if again.rest.is_empty() || !again.is_at_end() {
        return None;
    }
    Some(bytes)
}

/// The number of bytes of a closing up to the end of its last word, if its keywords are at the front and something follows
/// them.
fn words_len(closing: &[u8]) -> Option<usize>
    ensures { IfSome result (λ n. IsClosing n closing.now) }
{
    let mut reader = Reader::new(closing, Unit::Millimetre);
    reader.separator(Separator::Closing)?;
    if reader.rest.is_empty() {
        return None;
    }
    Some(closing.len() - reader.rest.len())
}

impl<'t> Layout<'t> {
    /// The layout of the facet at the front of a text, if there is one. The unit of its numbers does not matter.
    pub(crate) fn of(text: &'t [u8]) -> Option<Layout<'t>> {
        let opening = separator_at(text, Separator::Opening)?;
        let mut reader = Reader::new(text, Unit::Millimetre);
        reader.separator(Separator::Opening)?;
        reader.normal_words()?;
        let first = separator_at(reader.rest, Separator::First)?;
        reader.separator(Separator::First)?;
        reader.point()?;
        let next = separator_at(reader.rest, Separator::Next)?;
        reader.separator(Separator::Next)?;
        reader.point()?;
        reader.separator(Separator::Next)?;
        reader.point()?;
        let closing = separator_at(reader.rest, Separator::Closing)?;
        let words_len = words_len(closing)?;
        Some(Layout {
            opening,
            first,
            next,
            closing,
            words_len,
        })
    }
}

/// The facet in this layout at the front of a text, and the text after it, which is not empty. `None` says nothing about
/// the text.
#[inline(never)]
fn facet_by_layout<'t>(
    bytes: &'t [u8],
    unit: Unit,
    layout: &Layout<'_>,
) -> Option<(Facet, &'t [u8])>
    ensures read { IfSome result (λ found. rest_after unit (facet_tokens found.0) bytes.now ≡ Some found.1.now) }
    ensures some { IfSome result (λ found. 0 < length found.1.now) }
    ensures shorter { IfSome result (λ found. length found.1.now < length bytes.now) }
{
    // The first two arms are compiled for their unit, so none of a facet's nine numbers tests it.
    match unit {
        Unit::Millimetre => facet_in_unit(bytes, Unit::Millimetre, layout),
        Unit::Inch => facet_in_unit(bytes, Unit::Inch, layout),
        Unit::Centimetre | Unit::Metre => facet_in_unit(bytes, unit, layout),
    }
}

/// `facet_by_layout`, compiled anew for each call.
#[inline(always)]
fn facet_in_unit<'t>(bytes: &'t [u8], unit: Unit, layout: &Layout<'_>) -> Option<(Facet, &'t [u8])>
    ensures read { IfSome result (λ found. rest_after unit (facet_tokens found.0) bytes.now ≡ Some found.1.now) }
    ensures some { IfSome result (λ found. 0 < length found.1.now) }
    ensures shorter { IfSome result (λ found. length found.1.now < length bytes.now) }
{
    // No call that is not inlined takes this reader by reference, so the rest of its text stays in registers.
    let mut reader = Reader::new(bytes, unit);
    reader.skip(layout.opening)?;
    reader.near_normal()?;
    reader.skip(layout.first)?;
    let a = reader.near_point()?;
    reader.skip(layout.next)?;
    let b = reader.near_point()?;
    reader.skip(layout.next)?;
    let c = reader.near_point()?;
    reader.close(layout)?;
    let rest = reader.rest;
    if rest.is_empty() {
        return None;
    }
    Some((Facet::of(a, b, c), rest))
}

/// The whole facet at the front of a text, from `facet` to `endfacet`, and the text after it, which is not empty. It is read by
/// the layout if it has it, else word by word. `None` says nothing about the text.
#[inline(always)]
pub(crate) fn front_facet<'t>(
    bytes: &'t [u8],
    unit: Unit,
    layout: &Option<Layout<'_>>,
) -> Option<(Facet, &'t [u8])>
    ensures read { IfSome result (λ found. rest_after unit (facet_tokens found.0) bytes.now ≡ Some found.1.now) }
    ensures some { IfSome result (λ found. 0 < length found.1.now) }
    ensures shorter { IfSome result (λ found. length found.1.now < length bytes.now) }
{
    if let Some(layout) = layout {
        if let Some(found) = facet_by_layout(bytes, unit, layout) {
            return Some(found);
        }
    }
    facet_by_words(bytes, unit)
}
