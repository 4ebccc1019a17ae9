//! The reader of a facet's words, from left to right: keywords, words of a normal and coordinates.
ghost use Rattle.std.specs.Prelude.{◌≡◌, ◌≢◌, ◌↔◌, [], ◌∷◌, IfSome, IsTrue, None, Ok, false, ℤ};
ghost use Rattle.micro_num.specs.Micrometres.{coordinate_of};
ghost use Rattle.stl_text.specs.Reader.{Spells, reader_at_start};
ghost use Rattle.stl_text.specs.Text.{after_space, begins_with, coordinate, first_word, keyword_of, HasOneKeyword, normal_word};

use crate::scanning::{after_coordinate, after_keyword, skip_space, split_word};
use crate::word::Word;
use micro_num::Unit;
use std::marker::Model;

/// A text that is read from left to right, word by word. If another word comes than the one that is wanted, the reader says no
/// more than that; [`TextReader`](crate::TextReader) finds what is wrong there.
#[derive(Drop)]
pub(crate) struct Reader<'t> {
    /// The text that is not read yet.
    pub(crate) rest: &'t [u8],
    /// The unit of its numbers.
    pub(crate) unit: Unit,
}

impl<'t> Model for Reader<'t> {
    ghost use Rattle.stl_text.specs.Reader.{Reader};

    ghost Value = { Reader };

    ghost view = { λ r. record { unit = r.unit; rest = r.rest.now } };
}

impl<'t> Reader<'t> {
    /// A reader at the start of a text.
    pub(crate) fn new(bytes: &'t [u8], unit: Unit) -> Reader<'t>
        ensures { result ≡ reader_at_start unit bytes.now }
    {
        Reader { rest: bytes, unit }
    }

    /// Whether only white space is left.
    pub(crate) fn is_at_end(&self) -> bool
        ensures { IsTrue result ↔ (after_space self.now.rest ≡ []) }
    {
        skip_space(self.rest).is_empty()
    }

    /// Reads the keyword of `wanted`, which has only one, if it comes next.
    #[inline(always)]
    pub(crate) fn keyword(&mut self, wanted: Word) -> Option<()>
        requires { HasOneKeyword wanted }
        ensures some { IfSome result (λ _. Spells (keyword_of wanted ∷ []) self.old self.new) }
        ensures none { result ≡ None → begins_with self.old.unit (keyword_of wanted) self.old.rest ≡ false }
    {
        self.rest = after_keyword(self.rest, wanted.text().as_bytes())?;
        Some(())
    }

    /// Reads a word of a normal, if one is left.
    pub(crate) fn normal_word(&mut self) -> Option<()>
        ensures some { IfSome result (λ _. Spells (normal_word ∷ []) self.old self.new) }
        ensures none { result ≡ None → first_word self.old.rest ≡ [] }
    {
        let (word, rest) = split_word(self.rest);
        if word.is_empty() {
            return None;
        }
        self.rest = rest;
        Some(())
    }

    /// Reads a coordinate, in whole micrometres, if one comes next.
    #[inline(always)]
    pub(crate) fn coordinate(&mut self) -> Option<i32>
        ensures some { IfSome result (λ z. Spells (coordinate z ∷ []) self.old self.new) }
        ensures none { result ≡ None → (z : ℤ) → coordinate_of self.old.unit (first_word self.old.rest) ≢ Ok z }
    {
        let (z, rest) = after_coordinate(self.rest, self.unit)?;
        self.rest = rest;
        Some(z)
    }
}
