//! What follows from the definitions of an outcome and of a run alone.
ghost use Rattle.std.specs.Prelude.{◌≡◌, ◌↔◌, Bool, List, Ok, Option, Result, Some, map, ℕ};
ghost use Rattle.std.specs.Io.KnownBytes.{Appends};
ghost use Rattle.micro_num.specs.declared.unit.Unit.{Unit as LengthUnit};
ghost use Rattle.devices.specs.Transcript.{Transcript};
ghost use Rattle.raster.specs.Filler.{below};
ghost use Rattle.raster.specs.Image.{image_of_pixels};
ghost use Rattle.raster.specs.Stream.{behind_image, cut};
ghost use Rattle.raster.specs.declared.rule.Rule.{Rule};
ghost use Rattle.layer_png.specs.Stream.{cut_pngs};
ghost use Rattle.layer_png.specs.Text.{png_of_pixels};
ghost use Rattle.layer_png.specs.declared.depth.Depth.{Depth};
ghost use Rattle.layer_png.specs.declared.mirrors.Mirrors.{Mirrors};
ghost use Rattle.task_words.specs.declared.task.Given.{Given};
ghost use Rattle.task_words.specs.declared.task.Task.{Task};
ghost use Rattle.stlslice.specs.Outcome.{IsOutcome, slicing};
ghost use Rattle.stlslice.specs.Run.{IsRun};
ghost use Rattle.stlslice.specs.WrittenPixels.{IsSlicedFrom};
ghost use Rattle.stlslice.specs.declared.run_fault.RunFault.{RunFault};
ghost use Rattle.stlslice.specs.declared.write.Output.{Output};
ghost use Rattle.stlslice.specs.declared.write.Output.TheVariants as output;

/// A task and an input have exactly one outcome, a text or a fault, and slicing has the same with any number of workers.
pub fn one_answer()
    ensures exists { (t : Task) (input : List ℕ) → (answer : Result (List ℕ) RunFault) × IsOutcome t input answer }
    ensures one { (t : Task) (input : List ℕ) (answer other : Result (List ℕ) RunFault)
        → IsOutcome t input answer → IsOutcome t input other → answer ≡ other }
    ensures workers { (unit : LengthUnit) (pitch layer : ℕ) (rule : Rule) (workers others : ℕ) (grid : Option Given) (out : Output)
        (input : List ℕ) (answer : Result (List ℕ) RunFault)
        → IsOutcome (slicing unit pitch layer rule workers grid out) input answer
        ↔ IsOutcome (slicing unit pitch layer rule others grid out) input answer }
{}

/// What slicing writes, said of all facets that were read, degenerate ones among them, as `headline` of `build_book` says it
/// of layers in memory. It holds of each output: P4 images, a report, or PNGs of either depth with any mirrors.
///
/// - `pixels`: if slicing has a text, the input reads as facets that are closed and have their grid. Each layer consists of
///   closed loops, with each segment of its plane in exactly one. The ray from a voxel's centre has signed crossings with all
///   these facets. The voxel's pixel is 1 exactly if their sum is odd, or not zero, or above zero, by the rule. The text is the
///   images of the pixels, or the report, or the PNGs of the pixels. The report counts the loops and, as the area of a layer,
///   its pixels that are 1. A reader (ISO 15948) finds white in a PNG exactly where a pixel is 1, in its place by the mirrors.
/// - `all`: the other way round, each text of which this holds is what slicing writes for the input.
/// - `run`: a run that succeeds has appended such a text to its sink, whatever the number of workers.
pub fn written_pixels()
    ensures pixels { (unit : LengthUnit) (pitch layer : ℕ) (rule : Rule) (workers : ℕ) (grid : Option Given) (out : Output)
        (input text : List ℕ) → IsOutcome (slicing unit pitch layer rule workers grid out) input (Ok text)
        → IsSlicedFrom unit pitch layer rule out grid input text }
    ensures all { (unit : LengthUnit) (pitch layer : ℕ) (rule : Rule) (workers : ℕ) (grid : Option Given) (out : Output)
        (input text : List ℕ) → IsSlicedFrom unit pitch layer rule out grid input text
        → IsOutcome (slicing unit pitch layer rule workers grid out) input (Ok text) }
    ensures run { (unit : LengthUnit) (pitch layer : ℕ) (rule : Rule) (workers : ℕ) (grid : Option Given) (out : Output)
        (input : List ℕ) (source sink : Transcript) (is_settled : Bool)
        → IsRun {T = Unit {0}} (slicing unit pitch layer rule workers grid out) (Ok tt) source sink is_settled → source.old ≡ Some input
        → (text : List ℕ) × IsSlicedFrom unit pitch layer rule out grid input text × Appends sink.old sink.new text }
{}

/// How what slicing writes is cut into one file a layer again.
///
/// - `images`: who reads a header of P4 and as many bytes as it tells, again and again, finds exactly the images of the layers,
///   from 0 up.
/// - `pngs`: who reads chunk by chunk up to IEND, again and again, finds exactly the PNGs of the layers, from 0 up.
pub fn written_files()
    ensures images { (unit : LengthUnit) (pitch layer : ℕ) (rule : Rule) (grid : Option Given) (input text : List ℕ)
        → (from : IsSlicedFrom unit pitch layer rule output.Images grid input text)
        → cut behind_image text ≡ Some (map (λ k. image_of_pixels from.grid.columns from.grid.rows (from.pixel k)) (below from.grid.layers)) }
    ensures pngs { (unit : LengthUnit) (pitch layer : ℕ) (rule : Rule) (grid : Option Given) (depth : Depth) (mirrors : Mirrors)
        (input text : List ℕ) → (from : IsSlicedFrom unit pitch layer rule (output.Pngs depth mirrors) grid input text)
        → cut_pngs text ≡ Some (map (λ k. png_of_pixels from.grid depth mirrors (from.pixel k)) (below from.grid.layers)) }
{}
