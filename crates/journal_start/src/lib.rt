//! Starts a day's journal: begins a new one, continues one of this day, or refuses any other and leaves it unchanged.
#![tactic(auto)]

mod begun;
mod comma_numbers;
mod journal_disk;
mod journal_groups;
mod journal_refusal;
mod past_line;
mod past_lines;
mod start_fault;
mod starting;
mod went_on;

pub use journal_disk::JournalDisk;
pub use journal_refusal::JournalRefusal;
pub use past_line::PastLine;
pub use start_fault::StartFault;
pub use starting::{Past, Started, start_journal};
pub use went_on::{CutOff, WentOn};
