//! The terms of a running day, for `live` and for its followers: by the arguments of a program, or by one file that all peers of
//! the day read.
#![tactic(auto)]

mod argument_reading;
mod arguments;
mod boolean;
mod day_fault;
mod day_file;
mod day_key;
mod entry;
mod file_reading;
mod file_terms;
mod follow_day;
mod kind;
mod lines;
mod listing;
mod live_day;
mod matrix;
mod names;
mod number;
mod place;
mod ports;
mod syntax_fault;
mod table;
mod terms;
mod words_fault;

pub use argument_reading::{decimal, first_argument};
pub use arguments::words;
pub use day_fault::DayFault;
pub use day_file::{DayControl, DayFile, DaySymbols};
pub use day_key::DayKey;
pub use file_reading::read_day;
pub use follow_day::FollowDay;
pub use kind::ValueKind;
pub use live_day::LiveDay;
pub use matrix::matrix_named;
pub use place::FilePlace;
pub use syntax_fault::SyntaxFault;
pub use terms::{FollowTerms, LiveTerms};
pub use words_fault::WordsFault;
