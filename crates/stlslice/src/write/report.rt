//! The output of `--report`: loops and area of each layer, and the total.
ghost use Rattle.std.specs.Prelude.{◌≡◌, ◌++◌, IfOk, OnOk, string_bytes};
ghost use Rattle.stlslice.specs.SlicedText.{line_of_layer, report_text, total_line};

use build_book::Build;
use std::alloc::{AllocError, Allocator};
use std::fmt::Write;

/// The report of a build: a line for each layer, and one on the filled pixels of all.
pub(crate) fn report<A: Allocator + Copy + Send + Sync>(
    alloc: A,
    build: &Build<'_, A>,
) -> Result<String<A>, AllocError>
    ensures { IfOk result (λ text. string_bytes text
        ≡ report_text build.now.job.grid build.now.job.rule build.now.job.solid.facets) }
{
    let mut text = String::new(alloc);
    for layer in build.layers() {
        push_layer(
            &mut text,
            layer.number(),
            layer.loops().count(),
            layer.area(),
        )?;
    }
    push_total(&mut text, build.total_area())?;
    Ok(text)
}

/// Appends the line of a layer: its number, the count of its loops, the count of its filled pixels.
fn push_layer<A: Allocator>(
    text: &mut String<A>,
    number: u32,
    loops: usize,
    area: u64,
) -> Result<(), AllocError>
    ensures { OnOk result (string_bytes text.new ≡ string_bytes text.old ++ line_of_layer number loops area) }
{
    write!(text, "layer {number} loops {loops} area {area}\n")
}

/// Adds the last line, on the filled pixels of all layers.
fn push_total<A: Allocator>(text: &mut String<A>, total: u64) -> Result<(), AllocError>
    ensures { OnOk result (string_bytes text.new ≡ string_bytes text.old ++ total_line total) }
{
    write!(text, "total {total}\n")
}
