//! What a day is: its names, its matrix, its limit and its session.
#![tactic(auto)]

mod day;
mod other_term;

pub use day::Day;
pub use other_term::OtherTerm;
