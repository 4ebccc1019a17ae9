//! Tests of the numbers and texts that meshes are read from. They are in a crate of their own, because a crate's
//! tests are proved with the whole crate once more.
#![tactic(auto)]

#[cfg(test)]
mod binary_files;
#[cfg(test)]
mod chunks;
#[cfg(test)]
mod failed_readings;
#[cfg(test)]
mod file_forms;
#[cfg(test)]
mod number_texts;
#[cfg(test)]
mod part_borders;
#[cfg(test)]
mod stl_texts;
#[cfg(test)]
mod text_parts;
