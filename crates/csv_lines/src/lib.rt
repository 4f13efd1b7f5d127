//! Lines of CSV made in memory: a writer of lines whose text is known after each line, and the field of a number.
#![tactic(auto)]

mod fields;
mod lines;

pub use fields::push_number;
pub use lines::{into_text, line_of, lines_in, put_line};
