//! Tests of the command's words, of loads and of runs: the lines and statuses of faults, and the text of a run with enough
//! memory. They also test what a failed device or allocation leaves, and what is shown of a run's progress. They are in a crate of
//! their own, because a crate's tests are proved with the whole crate once more.
#![tactic(auto)]

#[cfg(test)]
mod allocation_runs;
#[cfg(test)]
mod answers;
#[cfg(test)]
mod box_runs;
#[cfg(test)]
mod byte_runs;
#[cfg(test)]
mod device_runs;
#[cfg(test)]
mod drawn_png_runs;
#[cfg(test)]
mod drawn_runs;
#[cfg(test)]
mod lines;
#[cfg(test)]
mod loads;
#[cfg(test)]
mod meshes;
#[cfg(test)]
mod png_runs;
#[cfg(test)]
mod png_streams;
#[cfg(test)]
mod probe_runs;
#[cfg(test)]
mod progress_texts;
#[cfg(test)]
mod slice_runs;
#[cfg(test)]
mod word_lines;
#[cfg(test)]
mod words;
