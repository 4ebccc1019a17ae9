//! What may be wanted at a byte offset of a text, and the table of keywords.
ghost use Rattle.std.specs.Prelude.{◌≡◌, Some};
ghost use Rattle.stl_text.specs.StlFault.{wanted_text};
ghost use Rattle.stl_text.specs.Text.{HasOneKeyword, keyword_text};

use micro_num::WORD_LIMIT;
use std::fmt::{Display, Error, Formatter, Write};

/// The keyword that begins a facet, in lower case. It and the next one are those of `Word::FacetOrEnd`, whose text names both.
pub(crate) const FACET: &[u8] = b"facet";

/// The keyword that ends a solid, in lower case.
pub(crate) const END_SOLID: &[u8] = b"endsolid";

/// The number of bytes at the front of a word that decide what it stands for, if anything. No keyword and no number is that
/// long.
pub(crate) const WORD_FRONT: usize = WORD_LIMIT + 1;

/// What is wanted at a byte offset of a text: a keyword, one of two keywords, or a number.
#[derive(Clone, Copy, Debug, PartialEq, Eq)]
pub enum Word {
    Solid,
    FacetOrEnd,
    Normal,
    Outer,
    Loop,
    Vertex,
    /// A coordinate of a vertex, or a word of a normal.
    Number,
    EndLoop,
    EndFacet,
}

impl Word {
    /// What is wanted: the keyword in lower case, `facet or endsolid`, or `number`.
    #[inline(always)]
    pub(crate) fn text(self) -> &'static str
        ensures text { result.now ≡ wanted_text self }
        ensures keyword { HasOneKeyword self → result.now ≡ keyword_text self }
    {
        match self {
            Word::Solid => "solid",
            Word::FacetOrEnd => "facet or endsolid",
            Word::Normal => "normal",
            Word::Outer => "outer",
            Word::Loop => "loop",
            Word::Vertex => "vertex",
            Word::Number => "number",
            Word::EndLoop => "endloop",
            Word::EndFacet => "endfacet",
        }
    }
}

impl Display for Word {
    ghost output = { λ word. Some (wanted_text word) };

    /// The keyword in lower case; `facet or endsolid`; `number`.
    fn fmt<W: Write>(&self, f: &mut Formatter<W>) -> Result<(), Error> {
        f.write_str(self.text())
    }
}
