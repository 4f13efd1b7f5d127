//! Reads the program's arguments: what they ask for or which of them is wrong. It also has help, hints and the statuses.
#![tactic(auto)]

mod arguments;
mod behind;
mod command;
mod flag;
mod given;
mod help;
mod hint;
mod similar;
mod status;
mod word;
mod wrong_argument;

pub use arguments::argument_at;
pub use command::{Asked, Command, Conversion, FileCommand, read_arguments};
pub use flag::Flag;
pub use given::{STANDARD_INPUT, Wrong};
pub use help::{Help, Usage, WordHelp};
pub use hint::{Hint, hint_of};
pub use status::Status;
pub use word::{ALL_WORDS, Word};
pub use wrong_argument::WrongArgument;
