//! The texts of option values: rules, units, depths, grids and voxels.
ghost use Rattle.std.specs.Prelude.{◌≡◌, option_map};
ghost use Rattle.task_words.specs.Texts.{ReadsField, StepsTo, coordinate_in, count_in, depth_named, fields, grid_in, left_of};
ghost use Rattle.task_words.specs.Texts.{rule_named, unit_named, voxel_in};

use crate::task::Given;
use geometry::Point;
use layer_png::Depth;
use micro_num::Unit;
use raster::Rule;

/// The rule of that name.
pub(crate) fn read_rule(text: &str) -> Option<Rule>
    ensures { result ≡ rule_named text.now }
{
    match text {
        "evenodd" => Some(Rule::EvenOdd),
        "nonzero" => Some(Rule::NonZero),
        "positive" => Some(Rule::Positive),
        _ => None,
    }
}

/// The unit of that name.
pub(crate) fn read_unit(text: &str) -> Option<Unit>
    ensures { result ≡ unit_named text.now }
{
    match text {
        "mm" => Some(Unit::Millimetre),
        "inch" => Some(Unit::Inch),
        _ => None,
    }
}

/// The depth of this many bits.
pub(crate) fn read_depth(text: &str) -> Option<Depth>
    ensures { result ≡ depth_named text.now }
{
    match text {
        "8" => Some(Depth::Eight),
        "1" => Some(Depth::One),
        _ => None,
    }
}

/// A grid of the form `COLUMNS,ROWS,LAYERS,X0,Y0,Z0`.
pub(crate) fn read_grid(text: &str) -> Option<Given>
    ensures { result ≡ grid_in text.now }
{
    let mut fields = Fields { rest: Some(text) };
    let columns = fields.count()?;
    let rows = fields.count()?;
    let layers = fields.count()?;
    let x = fields.coordinate()?;
    let y = fields.coordinate()?;
    let z = fields.coordinate()?;
    if fields.rest.is_some() {
        return None;
    }
    let origin = Point::new(x, y, z)?;
    Some(Given {
        columns,
        rows,
        layers,
        origin,
    })
}

/// The column, row and layer of a voxel.
#[derive(Clone, Copy)]
pub(crate) struct Voxel {
    pub(crate) i: u32,
    pub(crate) j: u32,
    pub(crate) k: u32,
}

/// A voxel of the form `I,J,K`.
pub(crate) fn read_voxel(text: &str) -> Option<Voxel>
    ensures { result ≡ voxel_in text.now }
{
    let mut fields = Fields { rest: Some(text) };
    let i = fields.count()?;
    let j = fields.count()?;
    let k = fields.count()?;
    if fields.rest.is_some() {
        None
    } else {
        Some(Voxel { i, j, k })
    }
}

/// What is left of a text whose fields have a comma between them; `None` past the last.
#[derive(Drop)]
struct Fields<'a> {
    rest: Option<&'a str>,
}

impl<'a> Fields<'a> {
    /// The next field.
    fn next(&mut self) -> Option<&'a str>
        ensures { StepsTo (left_of self.old) (option_map (λ s. s.now) result) (left_of self.new) }
    {
        let text = self.rest?;
        match text.split_once(',') {
            Some((field, rest)) => {
                self.rest = Some(rest);
                Some(field)
            }
            None => {
                self.rest = None;
                Some(text)
            }
        }
    }

    /// The next field as a count.
    fn count(&mut self) -> Option<u32>
        ensures { ReadsField count_in (left_of self.old) result (left_of self.new) }
    {
        read_count(self.next()?)
    }

    /// The next field as a coordinate.
    fn coordinate(&mut self) -> Option<i32>
        ensures { ReadsField coordinate_in (left_of self.old) result (left_of self.new) }
    {
        read_coordinate(self.next()?)
    }
}

/// A number of 1 to 9 digits.
fn read_count(text: &str) -> Option<u32>
    ensures { result ≡ count_in text.now }
{
    if text.len() <= 9 && !text.starts_with('+') {
        text.parse().ok()
    } else {
        None
    }
}

/// A number of 1 to 9 digits, with or without a minus before them.
fn read_coordinate(text: &str) -> Option<i32>
    ensures { result ≡ coordinate_in text.now }
{
    let digits = text.strip_prefix('-').unwrap_or(text);
    if digits.len() <= 9 && !text.starts_with('+') {
        text.parse().ok()
    } else {
        None
    }
}
