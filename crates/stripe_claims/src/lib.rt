//! Stripes that several threads draw, without a lock: none is drawn twice, and each is drawn once all passes have ended.
//!
//! ```text
//! let (claims, passes) = Claims::open(alloc, stripes, workers)?;
//! // in each worker, with a pass of its own:
//! while let Some(stripe) = claims.draw(&mut pass) {
//!     slice(stripe);
//! }
//! ```
//!
//! - [`Claims`]: the stripes that no thread has drawn yet. These are the stripes from one number on, and this number is the
//!   one word that threads share.
//! - [`Pass`]: what one thread draws with. A **draw** takes the next number by one `fetch_add` on the word. A pass has
//!   **ended** once it has found a number for which there is no stripe.
//! - [`claims_laws`]: what holds after any number of draws, by any number of passes in any order.
//! - [`PASS_LIMIT`], [`STRIPE_LIMIT`]: the greatest counts of passes and of stripes.
//!
//! All numbers are counts of stripes, of passes or of draws; stripes count from 0.
//!
//! The definitions in `specs/Machine` speak of **hands**. A hand stands for one pass or for several: opening claims
//! cuts the first hand, which stands for all passes, into passes (they are **dealt**), and closing joins them again.
#![tactic(auto)]

mod claims;
mod laws;
mod limits;
mod machine;

pub use crate::claims::{Claims, Pass};
pub use crate::laws::claims_laws;
pub use crate::limits::{PASS_LIMIT, STRIPE_LIMIT};
