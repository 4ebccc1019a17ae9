//! Workers that slice the stripes of a job at the same time. Each claims its stripes without a lock.
//!
//! ```text
//! let build = build(rt, alloc, &job, workers, &OpenGate)?;
//! build.total_area()
//! ```
//!
//! [`build`] returns the complete build of a job, the same for 1 to [`PASS_LIMIT`] workers. A [`Gate`] observes what
//! the workers do; [`OpenGate`] is the one that ignores it. `Claims`, `Pass`, `PASS_LIMIT` and `claims_laws` are those of
//! `stripe_claims`.
//!
//! Workers and stripes count from 0; a stripe is eight layers, and areas are in pixels.
#![tactic(auto)]

mod gate;
mod own_book;
mod pool;

pub use crate::gate::{Gate, OpenGate};
pub use crate::pool::build;
pub use stripe_claims::{Claims, PASS_LIMIT, Pass, claims_laws};
