//! Runs the words that take a table or a journal: they write the day's report, its readable tape, what became of each report,
//! or the day's bytes. It also writes the readable tape of a running day as its entries come.
#![tactic(auto)]

mod inputs;
mod journal_words;
mod output;
mod program;
mod progress;
mod refusal_line;
mod run_status;
mod saying;
mod telling;
mod verdict_line;
mod watched_file;
mod watching;

pub use inputs::{begins_journal, run_command};
pub use output::{Output, PipeWriter};
pub use progress::{ClearedWriter, ProgressLine, ToldReader, ToldWriter};
pub use run_status::{ended_status, fault_status};
pub use saying::{say, say_bad_arguments, say_ended, say_status};
pub use telling::{say_followed, say_socket_fault, say_told};
pub use watched_file::watch_file;
pub use watching::{watch, watch_row};
