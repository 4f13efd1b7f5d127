//! Reads journals, and writes the day's report, its readable tape, what became of each report, or a verdict on the journal.
#![tactic(auto)]

mod explain;
mod journal_day;
mod journal_fault;
mod messages;
mod reading;
mod report;
mod tape;
mod texts;
mod verify;

pub use explain::write_journal_explained;
pub use journal_day::JournalDay;
pub use journal_fault::JournalFault;
pub use reading::{is_journal, read_day};
pub use report::write_journal_report;
pub use tape::write_journal_tape;
pub use texts::{fault_text, verdict_text};
pub use verify::{JournalVerdict, verify_journal};
