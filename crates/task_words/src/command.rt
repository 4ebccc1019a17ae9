//! The command as `--help` shows it: its options, their values and defaults.
ghost use Rattle.std.specs.Prelude.{◌≡◌, ◌∷◌, [], None, Some, IfOk, codes, false};
ghost use Rattle.clap.specs.Words.{app_of, rule_of, with_rule};
ghost use Rattle.geometry.specs.declared.limits.TheConstants.{STEP_LIMIT};
ghost use Rattle.stripe_claims.specs.declared.limits.TheConstants.{PASS_LIMIT};
ghost use Rattle.task_words.specs.Command.{command_with, declared};
ghost use Rattle.task_words.specs.Options.{any_text, flag, number};
ghost use Rattle.task_words.specs.Words.{row, settings};

use clap::{Arg, ArgAction, Command, value_parser};
use geometry::STEP_LIMIT;
use std::alloc::{AllocError, Global};
use stripe_claims::PASS_LIMIT;

// The ids of the options, which are also their long names.
pub(crate) const PITCH: &str = "pitch";

pub(crate) const LAYER: &str = "layer";

pub(crate) const RULE: &str = "rule";

pub(crate) const WORKERS: &str = "workers";

pub(crate) const REPORT: &str = "report";

pub(crate) const BOX: &str = "box";

pub(crate) const UNIT: &str = "unit";

pub(crate) const GRID: &str = "grid";

pub(crate) const PROBE: &str = "probe";

pub(crate) const PNG: &str = "png";

pub(crate) const DEPTH: &str = "depth";

pub(crate) const MIRROR_X: &str = "mirror-x";

pub(crate) const MIRROR_Y: &str = "mirror-y";

pub(crate) const PROGRESS: &str = "progress";

/// The flag that asks for progress, as it is written.
pub(crate) const PROGRESS_WORD: &str = "--progress";

/// What `--version` prints after the program's name: the version, and the toolchain that proved it.
const VERSION: &str = "1.0.0 (proved with rattle-kit-13 logic dac8208d650f15bf)";

const ABOUT: &str = "Slices a closed triangle mesh into one image a layer.

Reads ASCII STL on standard input and writes P4 images (raw PBM) on standard
output, from the lowest layer up, with nothing between them. A pixel is 1 if the
centre of its voxel is inside the mesh. The first row of an image is that of the
greatest y, the first pixel of a row that of the least x. Lengths in options and
output are whole micrometres. With --png the images are PNGs. Binary STL is
refused; stlslice-sl1, stlslice-pngs and stlslice-page read it.";

const EXAMPLES: &str = "Examples:
  stlslice --pitch 50 --layer 100 < part.stl > layers.pbm
          images with pixels of 0.05 mm, every 0.1 mm
  stlslice --pitch 50 --layer 100 --report < part.stl
          loops and area of each layer
  stlslice --pitch 50 --layer 50 --png --mirror-x < part.stl > layers.png
          PNGs, one after another, for a printer that needs them mirrored
  stlslice --pitch 50 --layer 50 --grid=400,300,120,-9500,-7500,0 < part.stl
          a printer's canvas; --grid= with an equals sign takes negative values
  stlslice --box < part.stl
          how many facets there are, and their box in micrometres
  stlslice --pitch 50 --layer 100 --probe 3,4,0 < part.stl
          the signed crossings at one voxel

Exit status:
  0  done
  2  an option is wrong or missing
  3  the input is no ASCII STL
  4  the mesh is open
  5  there is no such grid, or no such voxel in it
  6  out of memory
  7  the input or the output failed";

/// The command. It takes the words after the program's name. It requires no option, and no option excludes another: `words`
/// looks for what is missing.
pub(crate) fn command<'a>(alloc: Global) -> Result<Command<'a>, AllocError>
    ensures { IfOk result (λ c. app_of c ≡ command_with settings) }
{
    let command = Command::new(alloc, "stlslice")
        .version(VERSION)
        .no_binary_name(true)
        .about(ABOUT)
        .after_help(EXAMPLES)
        .arg(pitch(alloc))?
        .arg(layer(alloc))?
        .arg(rule(alloc))?
        .arg(unit(alloc))?
        .arg(grid(alloc))?
        .arg(workers(alloc))?;
    with_pngs(alloc, command)?
        .arg(flag(
            alloc,
            REPORT,
            "Write a report in place of images: how many loops and pixels\neach layer has, and the pixels of all",
        ))?
        .arg(flag(
            alloc,
            BOX,
            "Write how many facets there are and their box in\nmicrometres, and do nothing else; the mesh may be open",
        ))?
        .arg(probe(alloc))?
        .arg(flag(
            alloc,
            PROGRESS,
            "Show on standard error how far slicing is: layers made,\nimages written, and the time left",
        ))
}

/// The command with the options of PNGs.
fn with_pngs<'a>(alloc: Global, command: Command<'a>) -> Result<Command<'a>, AllocError>
    ensures { IfOk result (λ c. app_of c ≡ with_rule (with_rule (with_rule (with_rule (app_of command.entry)
        (declared (row (codes "png") flag None))) (declared (row (codes "depth") any_text (Some (codes "8")))))
        (declared (row (codes "mirror-x") flag None))) (declared (row (codes "mirror-y") flag None))) }
{
    command
        .arg(flag(
            alloc,
            PNG,
            "Write PNGs in place of P4 images: greyscale, a filled pixel\nwhite",
        ))?
        .arg(depth(alloc))?
        .arg(flag(
            alloc,
            MIRROR_X,
            "Mirror each PNG: the greatest x stands at the left",
        ))?
        .arg(flag(
            alloc,
            MIRROR_Y,
            "Mirror each PNG: the least y stands at the top",
        ))
}

fn pitch<'a>(alloc: Global) -> Arg<'a>
    ensures rule { rule_of result ≡ declared (row (codes "pitch") (number STEP_LIMIT) None) }
    ensures local { result.global ≡ false }
{
    Arg::new(alloc, PITCH)
        .long(PITCH)
        .value_name("N")
        .value_parser(value_parser!(u32).range(1..=i64::from(STEP_LIMIT)))
        .help(
            "Width and depth of a pixel in micrometres, 1 to 100000,\nas in --pitch 50; needed unless --box is given",
        )
}

fn layer<'a>(alloc: Global) -> Arg<'a>
    ensures rule { rule_of result ≡ declared (row (codes "layer") (number STEP_LIMIT) None) }
    ensures local { result.global ≡ false }
{
    Arg::new(alloc, LAYER)
        .long(LAYER)
        .value_name("N")
        .value_parser(value_parser!(u32).range(1..=i64::from(STEP_LIMIT)))
        .help(
            "Height of a layer in micrometres, 1 to 100000,\nas in --layer 100; needed unless --box is given",
        )
}

fn rule<'a>(alloc: Global) -> Arg<'a>
    ensures rule { rule_of result ≡ declared (row (codes "rule") any_text (Some (codes "evenodd"))) }
    ensures local { result.global ≡ false }
{
    Arg::new(alloc, RULE)
        .long(RULE)
        .value_name("R")
        .default_value("evenodd")
        .help(
            "Which pixels are filled where shells overlap: evenodd leaves\nthe overlap empty; positive fills it, as a part with supports\nor several shells needs; nonzero fills it too, and shells that\nare inside out",
        )
}

fn unit<'a>(alloc: Global) -> Arg<'a>
    ensures rule { rule_of result ≡ declared (row (codes "unit") any_text (Some (codes "mm"))) }
    ensures local { result.global ≡ false }
{
    Arg::new(alloc, UNIT)
        .long(UNIT)
        .value_name("U")
        .default_value("mm")
        .help(
            "Unit of the numbers in the input: mm or inch;\noptions and output stay in micrometres",
        )
}

fn grid<'a>(alloc: Global) -> Arg<'a>
    ensures rule { rule_of result ≡ declared (row (codes "grid") any_text None) }
    ensures local { result.global ≡ false }
{
    Arg::new(alloc, GRID)
        .long(GRID)
        .value_name("COLUMNS,ROWS,LAYERS,X0,Y0,Z0")
        .help(
            "A grid to slice by, in place of the one that fits the mesh:\nthree counts (at most 16384, 16384 and 65535), and its least\ncorner in micrometres, as in --grid 400,300,120,0,0,-500",
        )
}

fn workers<'a>(alloc: Global) -> Arg<'a>
    ensures rule { rule_of result ≡ declared (row (codes "workers") (number PASS_LIMIT) (Some (codes "1"))) }
    ensures local { result.global ≡ false }
{
    Arg::new(alloc, WORKERS)
        .long(WORKERS)
        .value_name("N")
        .default_value("1")
        .value_parser(value_parser!(u32).range(1..=i64::from(PASS_LIMIT)))
        .help("Number of threads, 1 to 64, as in --workers 4;\nthe output is the same for each")
}

fn depth<'a>(alloc: Global) -> Arg<'a>
    ensures rule { rule_of result ≡ declared (row (codes "depth") any_text (Some (codes "8"))) }
    ensures local { result.global ≡ false }
{
    Arg::new(alloc, DEPTH)
        .long(DEPTH)
        .value_name("D")
        .default_value("8")
        .help("Bits of a pixel of a PNG: 8 or 1")
}

fn probe<'a>(alloc: Global) -> Arg<'a>
    ensures rule { rule_of result ≡ declared (row (codes "probe") any_text None) }
    ensures local { result.global ≡ false }
{
    Arg::new(alloc, PROBE).long(PROBE).value_name("I,J,K").help(
        "Write the sums of signed crossings at one voxel, by a ray\nalong x and one along y: its column, row (from the least y)\nand layer, counted from 0, as in --probe 3,4,0",
    )
}

fn flag<'a>(alloc: Global, name: &'a str, help: &'a str) -> Arg<'a>
    ensures rule { rule_of result ≡ declared (row name.entry.now flag None) }
    ensures local { result.global ≡ false }
{
    Arg::new(alloc, name)
        .long(name)
        .action(ArgAction::SetTrue)
        .help(help)
}
