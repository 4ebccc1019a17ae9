//! Stages: how far the reading of a text has come in the grammar, and what the next word does there.
ghost use Rattle.std.specs.Prelude.{◌≡◌, ◌-◌, ◌<◌, [], ◌≤◌, ℕ, Bool, List, IfErr, IfOk, length};
ghost use Rattle.exact_int.specs.Bounds.{IsAtMost};
ghost use Rattle.geometry.specs.Facet.{Facet};
ghost use Rattle.geometry.specs.Point.{IsMeshPoint};
ghost use Rattle.geometry.specs.declared.limits.TheConstants.{COORDINATE_LIMIT};
ghost use Rattle.micro_num.specs.declared.unit.Unit.{Unit as LengthUnit};
ghost use Rattle.stl_text.specs.Text.{IsFaultOf, Reads, after_space, first_word};
ghost use Rattle.stl_text.specs.Stage.{AtWord, IsPlain, IsWantedAt, ReadInside, StandsAfter, Stands, StopsInside, between_solids, in_facets, inside, with_axis, with_number, word_front};

use crate::scanning::is_keyword;
use crate::stl_fault::StlFault;
use crate::word::{END_SOLID, FACET, Word};
use geometry::{Facet, Point};
use micro_num::{Unit, read_micro};

/// A coordinate of a point.
#[derive(Clone, Copy)]
pub(crate) enum Axis {
    X,
    Y,
    Z,
}

/// A corner of a facet: the first, the second or the third.
#[derive(Clone, Copy)]
pub(crate) enum FacetCorner {
    A,
    B,
    C,
}

/// What a word inside a facet has to be.
#[derive(Clone, Copy)]
pub(crate) enum InnerWord {
    /// The one keyword of this kind.
    Keyword(Word),
    /// A word of a normal.
    NormalWord,
    /// This coordinate of this corner.
    Number(FacetCorner, Axis),
}

/// How far the reading of a text has come in the grammar, between two words: what the next word may be.
#[derive(Clone, Copy)]
pub(crate) enum Stage {
    /// `solid` is wanted. `some` says whether a whole solid was read.
    Between { some: bool },
    /// `facet` or `endsolid` is wanted.
    Facets,
    /// In a facet, after `words` of the words that follow `facet`. The coordinates that were read are those of
    /// `facet`.
    Inside { words: usize, facet: Facet },
}

/// What a word does.
#[derive(Clone, Copy)]
pub(crate) enum Step {
    /// The reading is at this stage after the word.
    To(Stage),
    /// The reading is at this stage after the rest of the word's line.
    Line(Stage),
    /// The word ends this facet.
    Whole(Facet),
}

/// The state of a `TextReader`: a stage, the rest of a line, in which no word counts, or the end at a fault.
#[derive(Clone, Copy)]
pub(crate) enum ReaderState {
    /// Between two words, or in one.
    Word(Stage),
    /// In the rest of a line, with this stage after it.
    Line(Stage),
    /// At a fault.
    Stopped(StlFault),
}

/// The number of words between a facet's `facet` and its last word, `endfacet`.
pub(crate) const LAST_WORD: usize = 19;

/// The point with these coordinates.
fn point_of(x: i32, y: i32, z: i32) -> Point
    requires { IsMeshPoint (record { x = x; y = y; z = z }) }
    ensures { result ≡ record { x = x; y = y; z = z } }
{
    let Some(point) = Point::new(x, y, z) else {
        unreachable!();
    };
    point
}

/// A point with another coordinate.
fn put(point: Point, axis: Axis, value: i32) -> Point
    requires { IsAtMost COORDINATE_LIMIT value }
    ensures { result ≡ with_axis axis value point }
{
    let x = point.x();
    let y = point.y();
    let z = point.z();
    match axis {
        Axis::X => point_of(value, y, z),
        Axis::Y => point_of(x, value, z),
        Axis::Z => point_of(x, y, value),
    }
}

/// A facet with another coordinate.
fn put_in(facet: Facet, corner: FacetCorner, axis: Axis, value: i32) -> Facet
    requires { IsAtMost COORDINATE_LIMIT value }
    ensures { result ≡ with_number corner axis value facet }
{
    let a = facet.corner(0);
    let b = facet.corner(1);
    let c = facet.corner(2);
    match corner {
        FacetCorner::A => Facet::of(put(a, axis, value), b, c),
        FacetCorner::B => Facet::of(a, put(b, axis, value), c),
        FacetCorner::C => Facet::of(a, b, put(c, axis, value)),
    }
}

/// A facet at the origin, before its coordinates are read.
fn unread_facet() -> Facet {
    let origin = point_of(0, 0, 0);
    Facet::of(origin, origin, origin)
}

/// What is wanted in a facet after `words` of the words that follow `facet`.
fn wanted_after(words: usize) -> InnerWord
    ensures plain { IsPlain result }
    ensures wanted { words ≤ LAST_WORD → IsWantedAt words result }
{
    match words {
        0 => InnerWord::Keyword(Word::Normal),
        1 => InnerWord::NormalWord,
        2 => InnerWord::NormalWord,
        3 => InnerWord::NormalWord,
        4 => InnerWord::Keyword(Word::Outer),
        5 => InnerWord::Keyword(Word::Loop),
        6 => InnerWord::Keyword(Word::Vertex),
        7 => InnerWord::Number(FacetCorner::A, Axis::X),
        8 => InnerWord::Number(FacetCorner::A, Axis::Y),
        9 => InnerWord::Number(FacetCorner::A, Axis::Z),
        10 => InnerWord::Keyword(Word::Vertex),
        11 => InnerWord::Number(FacetCorner::B, Axis::X),
        12 => InnerWord::Number(FacetCorner::B, Axis::Y),
        13 => InnerWord::Number(FacetCorner::B, Axis::Z),
        14 => InnerWord::Keyword(Word::Vertex),
        15 => InnerWord::Number(FacetCorner::C, Axis::X),
        16 => InnerWord::Number(FacetCorner::C, Axis::Y),
        17 => InnerWord::Number(FacetCorner::C, Axis::Z),
        18 => InnerWord::Keyword(Word::EndLoop),
        _ => InnerWord::Keyword(Word::EndFacet),
    }
}

/// Reads a word of a facet after `words` of the words that follow `facet`. Returns the facet with this word's coordinate.
fn read_inside(
    words: usize,
    facet: Facet,
    word: &[u8],
    at: usize,
    unit: Unit,
) -> Result<Facet, StlFault>
    ensures read { words ≤ LAST_WORD → (after : List ℕ) → word_front (first_word after) ≡ word_front word.now → 0 < length word.now
        → IfOk result (ReadInside unit words facet after) }
    ensures fault { words ≤ LAST_WORD → (after : List ℕ) → word_front (first_word after) ≡ word_front word.now → 0 < length word.now
        → IfErr result (StopsInside unit words facet after at) }
{
    match wanted_after(words) {
        InnerWord::Keyword(kind) => {
            if is_keyword(word, kind.text().as_bytes()) {
                Ok(facet)
            } else {
                Err(StlFault::Expected { word: kind, at })
            }
        }
        InnerWord::NormalWord => Ok(facet),
        InnerWord::Number(corner, axis) => match read_micro(word, unit) {
            Ok(value) => Ok(put_in(facet, corner, axis, value)),
            Err(cause) => Err(StlFault::Number { cause, at }),
        },
    }
}

/// Reads a word when `solid` is wanted.
fn step_between(word: &[u8], at: usize) -> Result<Step, StlFault>
    ensures read { (limit : ℕ) (unit : LengthUnit) (some : Bool) (facets : List Facet) (text after : List ℕ)
        → AtWord limit unit (between_solids some) facets text after word.now at
        → IfOk result (StandsAfter limit unit facets text after) }
    ensures fault { (limit : ℕ) (unit : LengthUnit) (some : Bool) (facets : List Facet) (text after : List ℕ)
        → AtWord limit unit (between_solids some) facets text after word.now at
        → IfErr result (IsFaultOf limit unit text) }
{
    if is_keyword(word, Word::Solid.text().as_bytes()) {
        Ok(Step::Line(Stage::Facets))
    } else {
        Err(StlFault::Expected {
            word: Word::Solid,
            at,
        })
    }
}

/// Reads a word when `facet` or `endsolid` is wanted. `room` more facets may begin.
fn step_facets(word: &[u8], at: usize, room: usize) -> Result<Step, StlFault>
    ensures read { (limit : ℕ) (unit : LengthUnit) (facets : List Facet) (text after : List ℕ)
        → AtWord limit unit in_facets facets text after word.now at → room ≡ limit - length facets
        → IfOk result (StandsAfter limit unit facets text after) }
    ensures fault { (limit : ℕ) (unit : LengthUnit) (facets : List Facet) (text after : List ℕ)
        → AtWord limit unit in_facets facets text after word.now at → room ≡ limit - length facets
        → IfErr result (IsFaultOf limit unit text) }
{
    if is_keyword(word, FACET) {
        if room == 0 {
            return Err(StlFault::TooMany { at });
        }
        return Ok(Step::To(Stage::Inside {
            words: 0,
            facet: unread_facet(),
        }));
    }
    if is_keyword(word, END_SOLID) {
        return Ok(Step::Line(Stage::Between { some: true }));
    }
    Err(StlFault::Expected {
        word: Word::FacetOrEnd,
        at,
    })
}

/// Reads a word inside a facet.
fn step_inside(
    words: usize,
    facet: Facet,
    word: &[u8],
    at: usize,
    unit: Unit,
) -> Result<Step, StlFault>
    ensures read { (limit : ℕ) (facets : List Facet) (text after : List ℕ)
        → AtWord limit unit (inside words facet) facets text after word.now at
        → IfOk result (StandsAfter limit unit facets text after) }
    ensures fault { (limit : ℕ) (facets : List Facet) (text after : List ℕ)
        → AtWord limit unit (inside words facet) facets text after word.now at
        → IfErr result (IsFaultOf limit unit text) }
{
    let read = read_inside(words, facet, word, at, unit)?;
    if words < LAST_WORD {
        Ok(Step::To(Stage::Inside {
            words: words + 1,
            facet: read,
        }))
    } else {
        Ok(Step::Whole(read))
    }
}

impl Stage {
    /// Reads a word that begins at the byte offset `at`. `room` more facets may begin.
    pub(crate) fn step(
        self,
        word: &[u8],
        at: usize,
        room: usize,
        unit: Unit,
    ) -> Result<Step, StlFault>
        ensures read { (limit : ℕ) (facets : List Facet) (text after : List ℕ)
            → AtWord limit unit self facets text after word.now at → room ≡ limit - length facets
            → IfOk result (StandsAfter limit unit facets text after) }
        ensures fault { (limit : ℕ) (facets : List Facet) (text after : List ℕ)
            → AtWord limit unit self facets text after word.now at → room ≡ limit - length facets
            → IfErr result (IsFaultOf limit unit text) }
    {
        match self {
            Stage::Between { .. } => step_between(word, at),
            Stage::Facets => step_facets(word, at, room),
            Stage::Inside { words, facet } => step_inside(words, facet, word, at, unit),
        }
    }

    /// What the end of a text means here: the text is whole, or a word is wanted.
    pub(crate) fn end(self) -> Result<(), StlFault>
        ensures read { (limit : ℕ) (unit : LengthUnit) (facets : List Facet) (text after : List ℕ)
            → Stands limit unit self facets text after → after_space after ≡ []
            → IfOk result (λ _. Reads limit unit text facets) }
        ensures fault { (limit : ℕ) (unit : LengthUnit) (facets : List Facet) (text after : List ℕ)
            → Stands limit unit self facets text after → after_space after ≡ []
            → IfErr result (IsFaultOf limit unit text) }
    {
        let word = match self {
            Stage::Between { some: true } => return Ok(()),
            Stage::Between { some: false } => Word::Solid,
            Stage::Facets => Word::FacetOrEnd,
            Stage::Inside { words, .. } => match wanted_after(words) {
                InnerWord::Keyword(kind) => kind,
                InnerWord::NormalWord => Word::Number,
                InnerWord::Number(_, _) => Word::Number,
            },
        };
        Err(StlFault::Ended { word })
    }
}
