//! The program `stlslice`: slices the mesh on standard input, and writes to standard output.
#![tactic(auto)]

use clap::Error as Refusal;
use clap::error::ErrorKind as RefusalKind;
use progress_line::{Progress, ProgressWriter};
use std::env::{self, Env, FillError};
use std::fmt::Display;
use std::io::{self, ErrorKind, IsTerminal};
use std::process::ExitCode;
use stlslice::{Counted, WordFault, read_words, run, run_watched, wants_progress};

/// The status if the words are not UTF-8.
const NO_TEXT: u8 = 2;

/// The status if the help or the version could not be written.
const UNWRITTEN: u8 = 7;

/// What is said of a number that is refused, after the words that name it.
const WHOLE_NUMBERS: &str =
    "stlslice: --pitch and --layer take whole micrometres, as in --pitch 50 for 0.05 mm; --workers takes a whole number";

/// What is said of a word that is no option, after the words that name it.
const PART_ON_INPUT: &str =
    "stlslice: the part is read from standard input, as in stlslice --pitch 50 --layer 100 < part.stl";

/// What is said of a value that begins with a minus, after the words that name it.
const EQUALS_SIGN: &str =
    "stlslice: a value that begins with a minus needs an equals sign; --grid takes three counts first, as in --grid=400,300,120,-9500,-7500,0";

/// What is said if standard input is a terminal.
const AWAITED: &str =
    "stlslice: a part in ASCII STL is awaited on standard input, as in stlslice --pitch 50 --layer 100 < part.stl";

/// How the text on a word that is no option begins.
const UNEXPECTED: &str = "error: unexpected argument '";

fn main(rt: HostRuntime) -> ExitCode {
    let alloc = rt.alloc();
    let words = match words(&rt) {
        Ok(words) => words,
        Err(fault) => return unread(&rt, &fault),
    };
    let task = match read_words(alloc, words.as_slice()) {
        Ok(task) => task,
        Err(fault) => return refused(&rt, &fault),
    };
    if rt.stdin().is_terminal() {
        let _ = rt.eprintln(&AWAITED);
    }
    let mut source = Counted::new(rt.stdin());
    let end = if wants_progress(words.as_slice()) {
        let progress = Progress::new(&rt, &task, rt.stderr().is_terminal());
        let mut sink = Counted::new(ProgressWriter::new(rt.stdout(), &progress));
        let end = run_watched(&rt, alloc, &task, &mut source, &mut sink, &progress);
        progress.end();
        end
    } else {
        let mut sink = Counted::new(rt.stdout());
        run(&rt, alloc, &task, &mut source, &mut sink)
    };
    match end {
        Ok(()) => ExitCode::SUCCESS,
        Err(fault) => ended(&rt, &fault, fault.status()),
    }
}

/// The arguments after the program's name. The name itself need not be UTF-8.
struct AfterName<'r, R>(&'r R);

impl<'r, R: Env> Env for AfterName<'r, R> {
    fn arg(&self, i: usize, buf: &mut [u8]) -> Result<usize, FillError> {
        self.0.arg(i.saturating_add(1), buf)
    }

    fn var(&self, name: &str, buf: &mut [u8]) -> Result<usize, FillError> {
        self.0.var(name, buf)
    }

    fn var_at(&self, i: usize, buf: &mut [u8]) -> Result<usize, FillError> {
        self.0.var_at(i, buf)
    }
}

/// The words after the program's name.
fn words<R: Env + AllocGlobal>(rt: &R) -> io::Result<Vec<String>> {
    let env = (AfterName(rt), rt.alloc());
    let words = env::args(&env);
    let (AfterName(_), _) = env;
    Ok(words?.collect(rt.alloc())?)
}

/// Ends a program whose words could not be read.
fn unread<R: Eprint>(rt: &R, fault: &io::Error) -> ExitCode {
    match fault.kind() {
        ErrorKind::OutOfMemory => ended(rt, &WordFault::Memory, WordFault::Memory.status()),
        _ => ended(rt, &"stlslice: the words are not UTF-8", NO_TEXT),
    }
}

/// Ends a program whose words are no task. Help or a version that they ask for goes to standard output.
fn refused<R: Print + Eprint + AllocGlobal>(rt: &R, fault: &WordFault) -> ExitCode {
    let WordFault::Refused(refusal) = fault else {
        return ended(rt, fault, fault.status());
    };
    let kind = refusal.kind();
    match refusal.print(rt) {
        Err(_) if kind == RefusalKind::DisplayVersion => {
            ended(rt, &"stlslice: the version could not be written", UNWRITTEN)
        }
        Err(_) if fault.status() == 0 => {
            ended(rt, &"stlslice: the help could not be written", UNWRITTEN)
        }
        _ => match hint(rt, refusal) {
            Some(line) => ended(rt, &line, fault.status()),
            None => ExitCode::from(fault.status()),
        },
    }
}

/// The line that says what to write in place of words that are refused.
fn hint<R: AllocGlobal>(rt: &R, refusal: &Refusal) -> Option<&'static str> {
    match refusal.kind() {
        RefusalKind::ValueValidation => Some(WHOLE_NUMBERS),
        RefusalKind::UnknownArgument => {
            let text = refusal.to_string(rt.alloc()).ok()?;
            let word = text.as_str().strip_prefix(UNEXPECTED)?;
            match word.strip_prefix('-') {
                Some(rest) => rest
                    .starts_with(|letter: char| letter.is_ascii_digit())
                    .then_some(EQUALS_SIGN),
                None => Some(PART_ON_INPUT),
            }
        }
        _ => None,
    }
}

/// Ends the program with a line on standard error.
fn ended<R: Eprint, D: Display>(rt: &R, line: &D, status: u8) -> ExitCode {
    let _ = rt.eprintln(line);
    ExitCode::from(status)
}
