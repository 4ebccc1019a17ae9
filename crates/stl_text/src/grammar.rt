//! The grammar of a facet; each rule is a method of the reader. It also reads what is whole at the front of a text: a facet, or
//! the end of one solid and the beginning of the next.
ghost use Rattle.std.specs.Prelude.{◌≡◌, ◌<◌, ℕ, [], ◌∷◌, IfSome, List, None, Some, length};
ghost use Rattle.micro_num.specs.declared.unit.Unit.{Unit as LengthUnit};
ghost use Rattle.stl_text.specs.Layout.{separator_tokens};
ghost use Rattle.stl_text.specs.FacetRun.{next_solid};
ghost use Rattle.stl_text.specs.Reader.{Spells};
ghost use Rattle.stl_text.specs.Text.{coordinate, facet_tokens, normal_word, rest_after};

use crate::reader::Reader;
use crate::scanning::{after_keyword, skip_line};
use crate::word::{END_SOLID, FACET, Word};
use geometry::{Facet, Point};
use micro_num::Unit;

/// The keywords before, between or after the numbers of a facet.
#[derive(Clone, Copy)]
pub(crate) enum Separator {
    /// `facet normal`
    Opening,
    /// `outer loop vertex`, before the first vertex
    First,
    /// `vertex`, before the others
    Next,
    /// `endloop endfacet`
    Closing,
}

impl<'t> Reader<'t> {
    /// Reads the keywords of a separator, if they come next. If they do not, the reader may be left anywhere.
    #[inline(always)]
    pub(crate) fn separator(&mut self, separator: Separator) -> Option<()>
        ensures some { IfSome result (λ _. Spells (separator_tokens separator) self.old self.new) }
        ensures none { result ≡ None → rest_after self.old.unit (separator_tokens separator) self.old.rest ≡ None }
    {
        match separator {
            Separator::Opening => {
                self.rest = after_keyword(self.rest, FACET)?;
                self.keyword(Word::Normal)
            },
            Separator::First => {
                self.keyword(Word::Outer)?;
                self.keyword(Word::Loop)?;
                self.keyword(Word::Vertex)
            },
            Separator::Next => self.keyword(Word::Vertex),
            Separator::Closing => {
                self.keyword(Word::EndLoop)?;
                self.keyword(Word::EndFacet)
            },
        }
    }

    /// Reads the three words of a normal, if they come next.
    #[inline(always)]
    pub(crate) fn normal_words(&mut self) -> Option<()>
        ensures some { IfSome result (λ _. Spells (normal_word ∷ normal_word ∷ normal_word ∷ []) self.old self.new) }
        ensures none { result ≡ None → rest_after self.old.unit (normal_word ∷ normal_word ∷ normal_word ∷ []) self.old.rest ≡ None }
    {
        self.normal_word()?;
        self.normal_word()?;
        self.normal_word()
    }

    /// Reads the three coordinates of a vertex, if they come next.
    #[inline(always)]
    pub(crate) fn point(&mut self) -> Option<Point>
        ensures { IfSome result (λ p. Spells (coordinate p.x ∷ coordinate p.y ∷ coordinate p.z ∷ []) self.old self.new) }
    {
        let x = self.coordinate()?;
        let y = self.coordinate()?;
        let z = self.coordinate()?;
        let Some(point) = Point::new(x, y, z) else {
            return None;
        };
        Some(point)
    }

    /// Reads a facet word by word, if one comes next. If none does, the reader may be left anywhere.
    fn facet(&mut self) -> Option<Facet>
        ensures { IfSome result (λ t. Spells (facet_tokens t) self.old self.new) }
    {
        self.separator(Separator::Opening)?;
        self.normal_words()?;
        self.separator(Separator::First)?;
        let a = self.point()?;
        self.separator(Separator::Next)?;
        let b = self.point()?;
        self.separator(Separator::Next)?;
        let c = self.point()?;
        self.separator(Separator::Closing)?;
        Some(Facet::of(a, b, c))
    }
}

/// The whole facet at the front of a text, read word by word, and the text after it, which is not empty. `None` says
/// nothing about the text.
pub(crate) fn facet_by_words(bytes: &[u8], unit: Unit) -> Option<(Facet, &[u8])>
    ensures read { IfSome result (λ found. rest_after unit (facet_tokens found.0) bytes.now ≡ Some found.1.now) }
    ensures some { IfSome result (λ found. 0 < length found.1.now) }
    ensures shorter { IfSome result (λ found. length found.1.now < length bytes.now) }
{
    let mut reader = Reader::new(bytes, unit);
    let facet = reader.facet()?;
    let rest = reader.rest;
    if rest.is_empty() {
        return None;
    }
    Some((facet, rest))
}

/// The text after the end of a solid and the beginning of the next. `None` if these are not at the front of the text, or
/// nothing follows them.
pub(crate) fn after_solid(bytes: &[u8]) -> Option<&[u8]>
    ensures read { IfSome result (λ rest. (unit : LengthUnit) → rest_after unit next_solid bytes.now ≡ Some rest.now) }
    ensures some { IfSome result (λ rest. 0 < length rest.now) }
    ensures shorter { IfSome result (λ rest. length rest.now < length bytes.now) }
    ensures none { result ≡ None → (unit : LengthUnit) (rest : List ℕ) → rest_after unit next_solid bytes.now ≡ Some rest → rest ≡ [] }
{
    let remark = after_keyword(bytes, END_SOLID)?;
    let name = after_keyword(skip_line(remark), Word::Solid.text().as_bytes())?;
    let inside = skip_line(name);
    if inside.is_empty() {
        return None;
    }
    Some(inside)
}
