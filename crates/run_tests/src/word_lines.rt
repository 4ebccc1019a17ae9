//! The command's words as a line, and the task of such a line.
ghost use Rattle.std.specs.Prelude.{IfErr, IfOk};
ghost use Rattle.task_words.specs.Task.{IsInRange};
ghost use Rattle.task_words.specs.WordFault.{IsNoMemoryRefusal};

use std::alloc::{AllocError, Global};
use task_words::{Task, WordFault, read_words};

/// The words of a line, separated by blanks. `Err` only if an allocation failed.
pub(crate) fn split(alloc: Global, line: &str) -> Result<Vec<String>, AllocError> {
    let mut words = Vec::new(alloc);
    for word in line.split_whitespace() {
        words.push(String::from_str(alloc, word)?)?;
    }
    Ok(words)
}

/// The task of a line of words, or why they are none.
pub(crate) fn task_of(alloc: Global, line: &str) -> Result<Task, WordFault>
    ensures range { IfOk result IsInRange }
    ensures refused { IfErr result IsNoMemoryRefusal }
{
    let words = split(alloc, line)?;
    read_words(alloc, words.as_slice())
}
