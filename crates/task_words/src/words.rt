//! From words to a task. Faults of options are looked for in a fixed order.
ghost use Rattle.std.specs.Prelude.{◌≡◌, ◌≤◌, List, None, Option, Some, IfErr, IfOk, IfSome, codes, false, map, option_map};
ghost use Rattle.std.specs.Prelude.{string_bytes};
ghost use Rattle.std.specs.List.{list_any};
ghost use Rattle.task_words.specs.Matches.{Holds, HoldsNumber};
ghost use Rattle.task_words.specs.Options.{Text, Use, gives, is_given, said};
ghost use Rattle.task_words.specs.Task.{IsInRange};
ghost use Rattle.task_words.specs.WordFault.{IsNoMemoryRefusal};
ghost use Rattle.task_words.specs.Words.{HasGrid, IsFaultOfWords, IsOptionFault, IsTaskOf, StandFor, depth_given, first_fault};
ghost use Rattle.task_words.specs.Words.{grid_given, is_progress_word, number_of, options, png_option_given, rule_given, told};
ghost use Rattle.task_words.specs.Words.{unit_given, voxel_given, without_png};
ghost use Rattle.task_words.specs.declared.word_fault.WordFault.TheVariants.{BadDepth, BadGrid, BadProbe, BadRule, BadUnit};
ghost use Rattle.task_words.specs.declared.word_fault.WordFault.TheVariants.{Missing};
ghost use Rattle.geometry.specs.Limits.{IsStep};

use crate::command::{
    BOX, DEPTH, GRID, LAYER, MIRROR_X, MIRROR_Y, PITCH, PNG, PROBE, PROGRESS_WORD, REPORT, RULE,
    UNIT, WORKERS, command,
};
use crate::task::{Given, Task};
use crate::texts::{Voxel, read_depth, read_grid, read_rule, read_unit, read_voxel};
use crate::word_fault::{PngOption, Wanted, WordFault};
use clap::ArgMatches;
use clap::parser::ValueSource;
use geometry::STEP_LIMIT;
use layer_png::{Depth, Mirrors};
use micro_num::Unit;
use raster::Rule;
use std::alloc::Global;
use stripe_claims::PASS_LIMIT;

/// The task that the words after the program's name stand for. If several tasks are given, the box goes before the probe, the
/// probe before the report, and the report before PNGs.
///
/// # Errors
/// The first of these faults:
/// - `Refused` if the words are not of the command's form, or ask for help or the version,
/// - `BadRule`, `BadUnit`, `BadGrid`, `BadProbe`, `BadDepth` if the text of that option names no rule, unit, grid, voxel or
///   depth,
/// - `WithoutPng` if an option of PNGs is given and `--png` is not,
/// - `Missing` if the task is not the box and the pitch is not given, then if the layer height is not.
///
/// `Memory` stands for a failed allocation, which never comes as `Refused`. No clause says when `Memory` comes; tests do. The
/// texts of help, version and refusals are not proved.
pub fn read_words(alloc: Global, words: &[String]) -> Result<Task, WordFault>
    ensures range { IfOk result IsInRange }
    ensures refused { IfErr result IsNoMemoryRefusal }
    ensures task { IfOk result (StandFor (map string_bytes words.now)) }
    ensures fault { IfErr result (IsFaultOfWords (map string_bytes words.now)) }
{
    let matches = command(alloc)?.try_get_matches_from(words)?;
    task_of(&matches)
}

/// Whether words that stand for a task ask for the run's progress to be shown. The flag is a word of its own, since no
/// option takes a value that begins with two dashes.
pub fn wants_progress(words: &[String]) -> bool
    ensures word { result ≡ list_any is_progress_word (map string_bytes words.now) }
    ensures asked { (uses : List Use) → said options (map string_bytes words.now) ≡ gives uses
        → result ≡ is_given (codes "progress") uses }
{
    words.iter().any(|word| word.as_str() == PROGRESS_WORD)
}

/// The task of words that are of the command's form.
fn task_of(matches: &ArgMatches<'_>) -> Result<Task, WordFault>
    ensures range { IfOk result IsInRange }
    ensures option { IfErr result IsOptionFault }
    ensures task { (uses : List Use) → Holds matches.now uses
        → IfOk result (λ task. (first_fault uses ≡ None) × IsTaskOf uses task) }
    ensures fault { (uses : List Use) → Holds matches.now uses → IfErr result (λ fault. first_fault uses ≡ Some fault) }
{
    let rule = rule_of(matches)?;
    let unit = unit_of(matches)?;
    let grid = grid_of(matches)?;
    let voxel = voxel_of(matches)?;
    let depth = depth_of(matches)?;
    let png = png_of(matches)?;
    if is_box(matches) {
        return Ok(Task::Box { unit });
    }
    let pitch = wanted(matches, PITCH, Wanted::Pitch)?;
    let layer = wanted(matches, LAYER, Wanted::Layer)?;
    match voxel {
        Some(voxel) => Ok(Task::Probe {
            unit,
            pitch,
            layer,
            grid,
            i: voxel.i,
            j: voxel.j,
            k: voxel.k,
        }),
        None => Ok(slicing_of(matches, unit, pitch, layer, rule, grid, png, depth)),
    }
}

/// Whether the box is asked for, whatever else is.
fn is_box(matches: &ArgMatches<'_>) -> bool
    ensures { (uses : List Use) → Holds matches.now uses → result ≡ is_given (codes "box") uses }
{
    matches.get_flag(BOX)
}

/// The task of writing all layers: as PNGs if they are asked for, unless a report is.
fn slicing_of(
    matches: &ArgMatches<'_>,
    unit: Unit,
    pitch: u32,
    layer: u32,
    rule: Rule,
    grid: Option<Given>,
    png: bool,
    depth: Depth,
) -> Task
    requires pitch { IsStep pitch }
    requires layer { IsStep layer }
    ensures range { IsInRange result }
    ensures given { (uses : List Use) → Holds matches.now uses → HasGrid uses unit pitch layer grid
        → is_given (codes "box") uses ≡ false → voxel_given uses ≡ Some None → rule_given uses ≡ Some rule
        → depth_given uses ≡ Some depth → png ≡ is_given (codes "png") uses → IsTaskOf uses result }
{
    let workers = number_of(matches, WORKERS, PASS_LIMIT).unwrap_or(1);
    let report = matches.get_flag(REPORT);
    if png && !report {
        let mirrors = mirrors_of(matches);
        return Task::Png {
            unit,
            pitch,
            layer,
            rule,
            workers,
            grid,
            depth,
            mirrors,
        };
    }
    Task::Slice {
        unit,
        pitch,
        layer,
        rule,
        workers,
        report,
        grid,
    }
}

/// The rule. The command has a default for it, so there is always a text.
fn rule_of(matches: &ArgMatches<'_>) -> Result<Rule, WordFault>
    ensures fault { IfErr result (λ fault. fault ≡ BadRule) }
    ensures given { (uses : List Use) → Holds matches.now uses → result ≡ told (rule_given uses) BadRule }
{
    match matches.get_str(RULE) {
        Some(text) => read_rule(text).ok_or(WordFault::BadRule),
        None => Err(WordFault::BadRule),
    }
}

/// The unit. The command has a default for it too.
fn unit_of(matches: &ArgMatches<'_>) -> Result<Unit, WordFault>
    ensures fault { IfErr result (λ fault. fault ≡ BadUnit) }
    ensures given { (uses : List Use) → Holds matches.now uses → result ≡ told (unit_given uses) BadUnit }
{
    match matches.get_str(UNIT) {
        Some(text) => read_unit(text).ok_or(WordFault::BadUnit),
        None => Err(WordFault::BadUnit),
    }
}

/// The grid, if there is one.
fn grid_of(matches: &ArgMatches<'_>) -> Result<Option<Given>, WordFault>
    ensures fault { IfErr result (λ fault. fault ≡ BadGrid) }
    ensures given { (uses : List Use) → Holds matches.now uses → result ≡ told (grid_given uses) BadGrid }
{
    match matches.get_str(GRID) {
        Some(text) => match read_grid(text) {
            Some(grid) => Ok(Some(grid)),
            None => Err(WordFault::BadGrid),
        },
        None => Ok(None),
    }
}

/// The voxel of a probe, if there is one.
fn voxel_of(matches: &ArgMatches<'_>) -> Result<Option<Voxel>, WordFault>
    ensures fault { IfErr result (λ fault. fault ≡ BadProbe) }
    ensures given { (uses : List Use) → Holds matches.now uses → result ≡ told (voxel_given uses) BadProbe }
{
    match matches.get_str(PROBE) {
        Some(text) => match read_voxel(text) {
            Some(voxel) => Ok(Some(voxel)),
            None => Err(WordFault::BadProbe),
        },
        None => Ok(None),
    }
}

/// The depth of PNGs. The command has a default for it too.
fn depth_of(matches: &ArgMatches<'_>) -> Result<Depth, WordFault>
    ensures fault { IfErr result (λ fault. fault ≡ BadDepth) }
    ensures given { (uses : List Use) → Holds matches.now uses → result ≡ told (depth_given uses) BadDepth }
{
    match matches.get_str(DEPTH) {
        Some(text) => read_depth(text).ok_or(WordFault::BadDepth),
        None => Err(WordFault::BadDepth),
    }
}

/// Whether PNGs are asked for. If not, none of their options may be given.
fn png_of(matches: &ArgMatches<'_>) -> Result<bool, WordFault>
    ensures option { IfErr result IsOptionFault }
    ensures given { (uses : List Use) → Holds matches.now uses
        → IfOk result (λ png. (png ≡ is_given (codes "png") uses) × (without_png uses ≡ None)) }
    ensures fault { (uses : List Use) → Holds matches.now uses → IfErr result (λ fault. without_png uses ≡ Some fault) }
{
    if matches.get_flag(PNG) {
        return Ok(true);
    }
    match png_option_of(matches) {
        Some(option) => Err(WordFault::WithoutPng { option }),
        None => Ok(false),
    }
}

/// The first option of PNGs that is given.
fn png_option_of(matches: &ArgMatches<'_>) -> Option<PngOption>
    ensures { (uses : List Use) → Holds matches.now uses → result ≡ png_option_given uses }
{
    let is_depth_given = match matches.value_source(DEPTH) {
        Some(ValueSource::CommandLine) => true,
        _ => false,
    };
    if is_depth_given {
        Some(PngOption::Depth)
    } else if matches.get_flag(MIRROR_X) {
        Some(PngOption::MirrorX)
    } else if matches.get_flag(MIRROR_Y) {
        Some(PngOption::MirrorY)
    } else {
        None
    }
}

/// How PNGs are mirrored.
fn mirrors_of(matches: &ArgMatches<'_>) -> Mirrors
    ensures x { (uses : List Use) → Holds matches.now uses → result.x ≡ is_given (codes "mirror-x") uses }
    ensures y { (uses : List Use) → Holds matches.now uses → result.y ≡ is_given (codes "mirror-y") uses }
{
    Mirrors {
        x: matches.get_flag(MIRROR_X),
        y: matches.get_flag(MIRROR_Y),
    }
}

/// The micrometres of an option that the task needs.
fn wanted(matches: &ArgMatches<'_>, name: &str, option: Wanted) -> Result<u32, WordFault>
    ensures range { IfOk result IsStep }
    ensures fault { IfErr result (λ fault. fault ≡ Missing option) }
    ensures given { (value : Option Text) → HoldsNumber matches.now name.now STEP_LIMIT value
        → result ≡ told (option_map number_of value) (Missing option) }
{
    number_of(matches, name, STEP_LIMIT).ok_or(WordFault::Missing { option })
}

/// The number of an option, 1 to `most`. The command refuses all other numbers before, so `None` means that the option
/// is not given.
fn number_of(matches: &ArgMatches<'_>, name: &str, most: u32) -> Option<u32>
    ensures range { IfSome result (λ n. (1 ≤ n) × (n ≤ most)) }
    ensures given { (value : Option Text) → HoldsNumber matches.now name.now most value
        → result ≡ option_map number_of value }
{
    let number = matches.get_one::<u32>(name)?;
    if 1 <= number && number <= most {
        Some(number)
    } else {
        None
    }
}
