//! Spans as tests write them.

/// Spans, each as `ROW: FROM, TO`. Who calls it imports [`raster::Span`].
macro_rules! spans {
    ($($row:literal: $from:literal, $to:literal);*) => {
        [$(Span { row: $row, from: $from, to: $to }),*]
    };
}

pub(crate) use spans;
