//! Exact whole numbers: a division that rounds up, and a test of a magnitude against a bound.
//!
//! Other crates compute crossings of edges and rays as fractions of whole numbers, never with floats. Their proofs use the laws
//! of this crate, in `proofs/lemmas`:
//! - `Ring` and `Identity`: identities of polynomials;
//! - `Signs`: signs of products, comparison of multiples;
//! - `Sizes`: a result fits its type;
//! - `Ceilings`: the division below;
//! - `Laws`: sums and products in another order;
//! - `Lists`: lists that pass a test, and empty ones;
//! - `Tests`: comparisons.
//!
//! `proofs/examples/Calls.antt` shows how the laws of `Identity` and `Sizes` are called.
//!
//! ```
//! assert!(rt; ceil_div(7, 2) == 4 && ceil_div(-7, 2) == -3);
//! assert!(rt; is_at_most(7, -7) && !is_at_most(7, 8));
//! ```
//!
//! - [`ceil_div`]: the division that rounds up; [`ceil_div_64`], [`quick_ceil_div`]: the same in less time.
//! - [`is_at_most`]: the test of a magnitude.
//!
//! All functions take and return plain numbers, without a unit.
#![tactic(auto)]

mod bounds;
mod division;

pub use bounds::is_at_most;
pub use division::{ceil_div, ceil_div_64, quick_ceil_div};
