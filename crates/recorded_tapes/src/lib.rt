//! Replays recorded readable tapes, and finds whether each row is as it is written, or the first place that differs.
#![tactic(auto)]

mod beside;
mod difference;
mod laws;
mod lines;
mod parts;
mod place;
mod verdict;
mod verify;

pub use difference::Difference;
pub use laws::{tape_round_trip, tapes_are_recorded};
pub use verdict::{Rows, Verdict};
pub use verify::verify_over;
