//! Scanning the front of a text: white space, words, keywords, coordinates and lines.

ghost use Rattle.std.specs.Prelude.{◌≡◌, ◌≢◌, ◌↔◌, ◌+◌, ◌≤◌, IfSome, IsTrue, None, Ok, false, length, not, true, ℤ};
ghost use Rattle.std.specs.Str.{str_to_ascii_lowercase};
ghost use Rattle.std.specs.List.{list_all, position_or_len, prefix_len};
ghost use Rattle.micro_num.specs.Micrometres.{coordinate_of};
ghost use Rattle.stl_text.specs.Text as Text;
ghost use Rattle.stl_text.specs.Text.{after_line, after_space, after_word, first_word, is_line_end};
ghost use Rattle.stl_text.specs.Written.{IsApart};

use memchr::memchr2;
use micro_num::{Unit, read_front};

/// Whether a byte is white space.
#[inline(always)]
fn is_white(byte: u8) -> bool
    ensures { result ≡ Text.is_white byte }
{
    byte == b' ' || (9 <= byte && byte <= 13)
}

/// The number of bytes of white space at the front.
#[inline(always)]
fn space_len(bytes: &[u8]) -> usize
    ensures len { result ≡ prefix_len Text.is_white bytes.now }
    ensures within { result ≤ length bytes.now }
{
    bytes.iter().take_while(|b| is_white(**b)).count()
}

/// The number of bytes before the first white space.
pub(crate) fn word_len(bytes: &[u8]) -> usize
    ensures len { result ≡ position_or_len Text.is_white bytes.now }
    ensures within { result ≤ length bytes.now }
{
    bytes.iter().take_while(|b| !is_white(**b)).count()
}

/// The text after the white space at the front.
#[inline(always)]
pub(crate) fn skip_space(bytes: &[u8]) -> &[u8]
    ensures { result.now ≡ after_space bytes.now }
{
    let n = space_len(bytes);
    bytes.split_at(n).1
}

/// The text after at most one byte of white space at its front.
#[inline(always)]
pub(crate) fn skip_blank(bytes: &[u8]) -> &[u8]
    ensures { after_space result.now ≡ after_space bytes.now }
{
    match bytes.split_first() {
        Some((first, rest)) if is_white(*first) => rest,
        _ => bytes,
    }
}

/// The first word, which is empty at the end of the text, and the text after it.
pub(crate) fn split_word(bytes: &[u8]) -> (&[u8], &[u8])
    ensures word { result.0.now ≡ first_word bytes.now }
    ensures rest { result.1.now ≡ after_word bytes.now }
    ensures offset { length result.0.now + length result.1.now ≡ length (after_space bytes.now) }
    ensures within { length (after_space bytes.now) ≤ length bytes.now }
{
    let front = skip_space(bytes);
    let n = word_len(front);
    front.split_at(n)
}

/// The number of bytes before the first LF or CR.
fn line_len(bytes: &[u8]) -> usize
    ensures len { result ≡ position_or_len is_line_end bytes.now }
    ensures within { result ≤ length bytes.now }
{
    match memchr2(b'\n', b'\r', bytes) {
        Some(at) => at,
        None => bytes.len(),
    }
}

/// The text from the first LF or CR on.
pub(crate) fn skip_line(bytes: &[u8]) -> &[u8]
    ensures line { result.now ≡ after_line bytes.now }
    ensures within { length result.now ≤ length bytes.now }
{
    let n = line_len(bytes);
    bytes.split_at(n).1
}

/// Whether a word is this keyword, in any case.
#[inline(always)]
pub(crate) fn is_keyword(word: &[u8], text: &[u8]) -> bool
    requires { str_to_ascii_lowercase text.now ≡ text.now }
    ensures { result ≡ Text.is_keyword text.now word.now }
{
    // most texts have their keywords in lower case, so bytes are compared first
    word == text || word.eq_ignore_ascii_case(text)
}

/// Whether a word ends before this text: the text is empty, or begins with white space.
#[inline(always)]
pub(crate) fn ends_word(bytes: &[u8]) -> bool
    ensures { IsTrue result ↔ IsApart bytes.now }
{
    match bytes.first() {
        Some(byte) => is_white(*byte),
        None => true,
    }
}

/// The text after the first word, if that is this keyword.
#[inline(always)]
pub(crate) fn after_keyword<'t>(bytes: &'t [u8], text: &[u8]) -> Option<&'t [u8]>
    requires lower { str_to_ascii_lowercase text.now ≡ text.now }
    requires word { list_all (λ byte. not (Text.is_white byte)) text.now ≡ true }
    ensures keyword { IfSome result (λ rest. Text.is_keyword text.now (first_word bytes.now) ≡ true) }
    ensures rest { IfSome result (λ rest. rest.now ≡ after_word bytes.now) }
    ensures within { IfSome result (λ rest. length rest.now ≤ length bytes.now) }
    ensures none { result ≡ None → Text.is_keyword text.now (first_word bytes.now) ≡ false }
{
    let front = skip_space(bytes);
    if front.len() < text.len() {
        return None;
    }
    let (word, rest) = front.split_at(text.len());
    if ends_word(rest) && is_keyword(word, text) {
        Some(rest)
    } else {
        None
    }
}

/// The coordinate that the word at the front of a text stands for, and the text after the word.
#[inline(always)]
pub(crate) fn after_front(bytes: &[u8], unit: Unit) -> Option<(i32, &[u8])>
    ensures front { IfSome result (λ found. after_space bytes.now ≡ bytes.now) }
    ensures read { IfSome result (λ found. coordinate_of unit (first_word bytes.now) ≡ Ok found.0) }
    ensures rest { IfSome result (λ found. found.1.now ≡ after_word bytes.now) }
    ensures within { IfSome result (λ found. length found.1.now ≤ length bytes.now) }
    ensures none { result ≡ None → after_space bytes.now ≡ bytes.now → (z : ℤ) → coordinate_of unit (first_word bytes.now) ≢ Ok z }
{
    let (z, count) = read_front(bytes, unit)?;
    let (_, rest) = bytes.split_at(count);
    if ends_word(rest) {
        Some((z, rest))
    } else {
        None
    }
}

/// The coordinate that the first word stands for, and the text after the word.
#[inline(always)]
pub(crate) fn after_coordinate(bytes: &[u8], unit: Unit) -> Option<(i32, &[u8])>
    ensures read { IfSome result (λ found. coordinate_of unit (first_word bytes.now) ≡ Ok found.0) }
    ensures rest { IfSome result (λ found. found.1.now ≡ after_word bytes.now) }
    ensures within { IfSome result (λ found. length found.1.now ≤ length bytes.now) }
    ensures none { result ≡ None → (z : ℤ) → coordinate_of unit (first_word bytes.now) ≢ Ok z }
{
    let (z, rest) = after_front(skip_space(bytes), unit)?;
    Some((z, rest))
}
