// The model fill of a gap: an autoregressive model of what is known around the gap, and the samples
// that fit it best, by a banded Cholesky solve. Names follow the Rust that it is taken from. Every
// stage works within one lent workspace, whose areas specs/Areas.antt lists.
#![tactic(auto)]

mod banded;
mod estimate;
pub mod fill;
mod sums;
