//! Tests the texts that show progress, on a terminal and elsewhere. No clause speaks of these.
use progress_line::{Bar, BarText, Images, Phase};
use std::alloc::Global;

/// What is shown, and its text.
type Row<'a> = (BarText, &'a str);

static TEXTS: [Row; 5] = [
    (
        BarText {
            bar: Bar {
                phase: Phase::Slicing,
                done: 9,
                total: 20,
                begun: None,
            },
            seconds_left: Some(12),
            is_terminal: true,
        },
        "\r[####      ] slicing 45 %, 9 of 20 layers, 12 s left\x1b[K",
    ),
    (
        BarText {
            bar: Bar {
                phase: Phase::Writing(Images::P4),
                done: 5_402_640,
                total: 5_402_640,
                begun: None,
            },
            seconds_left: None,
            is_terminal: true,
        },
        "\r[##########] writing 100 %, 5402640 of 5402640 bytes\x1b[K",
    ),
    (
        BarText {
            bar: Bar {
                phase: Phase::Writing(Images::P4),
                done: 540_263,
                total: 5_402_640,
                begun: None,
            },
            seconds_left: Some(0),
            is_terminal: false,
        },
        "stlslice: writing 9 %, 540263 of 5402640 bytes, 0 s left\n",
    ),
    (
        BarText {
            bar: Bar {
                phase: Phase::Writing(Images::Pngs),
                done: 12,
                total: 40,
                begun: None,
            },
            seconds_left: Some(3),
            is_terminal: false,
        },
        "stlslice: writing 30 %, 12 of 40 layers, 3 s left\n",
    ),
    (
        BarText {
            bar: Bar {
                phase: Phase::Slicing,
                done: 0,
                total: 0,
                begun: None,
            },
            seconds_left: None,
            is_terminal: false,
        },
        "stlslice: slicing 0 %, 0 of 0 layers\n",
    ),
];

/// Whether this text is shown.
fn is_text(alloc: Global, shown: &BarText, text: &str) -> bool {
    match shown.to_string(alloc) {
        Ok(found) => found.as_str() == text,
        Err(_) => false,
    }
}

#[test]
fn texts_of_bars(rt: HostRuntime) {
    for row in &TEXTS {
        assert!(rt; is_text(rt.alloc(), &row.0, row.1), "{}", row.1);
    }
}
