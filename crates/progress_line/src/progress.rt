//! How far slicing is, shown on standard error: the layers that are made, then the bytes of their images, or the PNGs, that
//! are written.
ghost use Rattle.std.specs.Prelude.{◌≡◌};

use crate::png_count::PngCount;
use build_book::Piece;
use layer_pool::Gate;
use raster::image_len;
use std::alloc::Allocator;
use std::fmt::{self, Display, Formatter};
use std::io::{self, Write};
use std::marker::Model;
use std::sync::{Mutex, Wait};
use std::time::{Clock, Instant};
use task_words::Task;

/// The form of the images that a run writes.
#[derive(Clone, Copy, PartialEq, Eq)]
pub enum Images {
    /// P4, of a length that is known before.
    P4,
    /// PNGs, of any length.
    Pngs,
}

/// What a run does with the layers.
#[derive(Clone, Copy, PartialEq, Eq)]
pub enum Phase {
    /// It makes the layers.
    Slicing,
    /// It writes their images.
    Writing(Images),
}

/// How far a phase is: in layers while slicing and while writing PNGs, else in bytes.
#[derive(Clone, Copy)]
pub struct Bar {
    /// What the run does.
    pub phase: Phase,
    /// How many layers or bytes are done.
    pub done: u64,
    /// How many there are in all, or 0 if that is not known yet.
    pub total: u64,
    /// When the phase began. `None` before that, and if the clock cannot be read.
    pub begun: Option<Instant>,
}

impl Bar {
    /// How many of `steps` equal steps are done.
    fn steps_done(&self, steps: u64) -> u64 {
        let done = self.done.min(self.total).saturating_mul(steps);
        done.checked_div(self.total).unwrap_or(0)
    }

    /// The seconds that the phase will still take at its rate so far.
    fn seconds_left(&self, now: Instant) -> Option<u64> {
        let millis = now.duration_since(self.begun?).as_millis();
        let left = u128::from(self.total.saturating_sub(self.done));
        let millis_left = millis
            .saturating_mul(left)
            .checked_div(u128::from(self.done))?;
        u64::try_from(millis_left / 1000).ok()
    }
}

/// The text on a bar. On a terminal it takes the place of the text before it; elsewhere it is a line.
#[derive(Clone, Copy)]
pub struct BarText {
    /// The bar.
    pub bar: Bar,
    /// The seconds that its phase will still take. `None` shows no time.
    pub seconds_left: Option<u64>,
    /// Whether it is shown on a terminal.
    pub is_terminal: bool,
}

/// The number of cells of the bar that a terminal shows.
const CELLS: u64 = 10;

impl Display for BarText {
    fn fmt<W: fmt::Write>(&self, f: &mut Formatter<W>) -> fmt::Result {
        if self.is_terminal {
            self.fmt_in_place(f)
        } else {
            self.fmt_line(f)
        }
    }
}

impl BarText {
    /// Takes the place of the text that a terminal shows on the line.
    fn fmt_in_place<W: fmt::Write>(&self, f: &mut Formatter<W>) -> fmt::Result {
        f.write_str("\r")?;
        self.fmt_cells(f)?;
        self.fmt_counts(f)?;
        // clears what a longer text left there
        f.write_str("\x1b[K")
    }

    /// A line of its own, if standard error is no terminal.
    fn fmt_line<W: fmt::Write>(&self, f: &mut Formatter<W>) -> fmt::Result {
        f.write_str("stlslice: ")?;
        self.fmt_counts(f)?;
        f.write_str("\n")
    }

    fn fmt_cells<W: fmt::Write>(&self, f: &mut Formatter<W>) -> fmt::Result {
        let filled = self.bar.steps_done(CELLS);
        f.write_str("[")?;
        for cell in 0..CELLS {
            f.write_str(if cell < filled { "#" } else { " " })?;
        }
        f.write_str("] ")
    }

    fn fmt_counts<W: fmt::Write>(&self, f: &mut Formatter<W>) -> fmt::Result {
        let (phase, unit) = match self.bar.phase {
            Phase::Slicing => ("slicing", "layers"),
            Phase::Writing(Images::P4) => ("writing", "bytes"),
            Phase::Writing(Images::Pngs) => ("writing", "layers"),
        };
        let percent = self.bar.steps_done(100);
        let done = self.bar.done;
        let total = self.bar.total;
        write!(f, "{phase} {percent} %, {done} of {total} {unit}")?;
        match self.seconds_left {
            Some(seconds) => write!(f, ", {seconds} s left"),
            None => Ok(()),
        }
    }
}

/// Shows how far a run is: on a terminal in one line, which is drawn anew at each percent, elsewhere by a line at each
/// tenth. It is the gate of the workers; a [`ProgressWriter`] reports bytes to it.
#[derive(Drop)]
pub struct Progress<'r, R> {
    rt: &'r R,
    is_terminal: bool,
    /// The images that the run writes, if it does. A report is written at once, so its bytes are not shown.
    writing: Option<Images>,
    state: Mutex<State>,
}

/// What the workers and the writer change.
#[derive(Drop)]
struct State {
    bar: Bar,
    /// How much is to be written, once a piece was made: the bytes of all P4 images, or the number of PNGs, whose bytes are not
    /// known before. It is 0 if no images are written.
    to_write: u64,
    /// Whether a bar was shown.
    is_shown: bool,
}

impl<'r, R: Clock + Eprint + Wait> Progress<'r, R> {
    /// The progress of a task that has not begun. `is_terminal` says whether standard error, where it is shown, is a terminal.
    pub fn new(rt: &'r R, task: &Task, is_terminal: bool) -> Progress<'r, R> {
        let bar = Bar {
            phase: Phase::Slicing,
            done: 0,
            total: 0,
            begun: None,
        };
        Progress {
            rt,
            is_terminal,
            writing: match task {
                Task::Slice { report: false, .. } => Some(Images::P4),
                Task::Png { .. } => Some(Images::Pngs),
                Task::Slice { report: true, .. } | Task::Box { .. } | Task::Probe { .. } => None,
            },
            state: Mutex::new(State {
                bar,
                to_write: 0,
                is_shown: false,
            }),
        }
    }

    /// Ends the line that is drawn on a terminal, so that what follows is on a line of its own. Elsewhere, and if no bar was
    /// shown, it does nothing.
    pub fn end(&self) {
        let is_shown = self.state.lock(self.rt).is_shown;
        if self.is_terminal && is_shown {
            let _ = self.rt.eprint("\n");
        }
    }

    /// The time, if the clock can be read.
    fn now(&self) -> Option<Instant> {
        Instant::now(self.rt).ok()
    }

    /// Adds layers or bytes to the phase's bar, and shows it if that is a step on.
    fn advance(&self, state: &mut State, count: u64) {
        let steps = if self.is_terminal { 100 } else { 10 };
        let before = state.bar.steps_done(steps);
        state.bar.done = state.bar.done.saturating_add(count);
        if state.bar.steps_done(steps) > before {
            state.is_shown = true;
            self.show(&state.bar);
        }
    }

    /// Shows a bar. If standard error cannot be written, nothing is shown.
    fn show(&self, bar: &Bar) {
        let seconds_left = match self.now() {
            Some(now) => bar.seconds_left(now),
            None => None,
        };
        let _ = self.rt.eprint(BarText {
            bar: *bar,
            seconds_left,
            is_terminal: self.is_terminal,
        });
    }

    /// Begins the phase of writing, if it has not begun.
    fn begin_writing(&self, images: Images) {
        let mut state = self.state.lock(self.rt);
        if state.bar.phase == Phase::Slicing {
            state.bar = Bar {
                phase: Phase::Writing(images),
                done: 0,
                total: state.to_write,
                begun: self.now(),
            };
        }
    }

    /// Adds bytes or PNGs that were written.
    fn wrote(&self, count: u64) {
        let mut state = self.state.lock(self.rt);
        self.advance(&mut state, count);
    }
}

impl<'r, A: Allocator, R: Clock + Eprint + Wait> Gate<A> for Progress<'r, R> {
    fn arrived(&self, _worker: u32, _stripe: u64) {
        let mut state = self.state.lock(self.rt);
        if state.bar.begun.is_none() {
            state.bar.begun = self.now();
        }
    }

    fn made(&self, _worker: u32, piece: &Piece<'_, A>) {
        let grid = piece.job().grid();
        let layers = u64::from(grid.layers());
        let mut state = self.state.lock(self.rt);
        state.bar.total = layers;
        state.to_write = match self.writing {
            Some(Images::P4) => image_len(grid).saturating_mul(layers),
            Some(Images::Pngs) => layers,
            None => 0,
        };
        self.advance(&mut state, piece.layers().len() as u64);
    }
}

/// A writer that reports to a progress how much it writes. What it returns is what the writer below returns.
#[derive(Drop)]
pub struct ProgressWriter<'p, 'r, W, R> {
    to: W,
    progress: &'p Progress<'r, R>,
    pngs: PngCount,
}

impl<'p, 'r, W, R> Model for ProgressWriter<'p, 'r, W, R> {
    ghost Value = { W };

    ghost view = { λ writer. writer.to };
}

impl<'p, 'r, W, R> ProgressWriter<'p, 'r, W, R> {
    /// A writer to `to`, of which nothing was written yet.
    pub fn new(to: W, progress: &'p Progress<'r, R>) -> ProgressWriter<'p, 'r, W, R>
        ensures { result ≡ to }
    {
        ProgressWriter {
            to,
            progress,
            pngs: PngCount::new(),
        }
    }
}

impl<'p, 'r, W: Write, R: Clock + Eprint + Wait> Write for ProgressWriter<'p, 'r, W, R> {
    ghost contents = { W.contents };

    fn write(&mut self, buf: &[u8]) -> io::Result<usize> {
        let Some(images) = self.progress.writing else {
            return self.to.write(buf);
        };
        self.progress.begin_writing(images);
        let count = self.to.write(buf)?;
        self.progress.wrote(match images {
            Images::P4 => count as u64,
            Images::Pngs => self.pngs.take(buf.get(..count).unwrap_or(buf)),
        });
        Ok(count)
    }

    fn flush(&mut self) -> io::Result<()> {
        self.to.flush()
    }
}
