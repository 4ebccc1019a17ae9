//! Spans: filled pixels side by side in a row. A filled layer is passed on as a list of them.
ghost use Rattle.std.specs.Prelude.{◌≡◌};
ghost use Rattle.raster.specs.Span.{IsLayerOfSpans, span_area};

/// Filled pixels of one row of a layer: the columns from `from` up to but not including `to`.
#[derive(Clone, Copy, Debug, PartialEq, Eq)]
pub struct Span {
    pub row: u32,
    pub from: u32,
    pub to: u32,
}

/// The number of pixels in the spans of one layer. The spans are in order, neither empty nor touching, and within
/// `COLUMN_LIMIT` columns and rows.
pub fn area(spans: &[Span]) -> u64
    requires { IsLayerOfSpans spans.now }
    ensures { result ≡ span_area spans.now }
{
    let mut sum = 0;
    for span in spans {
        sum += u64::from(span.to - span.from);
    }
    sum
}
