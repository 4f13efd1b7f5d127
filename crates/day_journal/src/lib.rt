//! Writes and reads the journal of a day: the feed on disk, as a header and groups of packets.
#![tactic(auto)]

mod append_fault;
mod group_fault;
mod group_putting;
mod group_reader;
mod group_reading;
mod group_writer;
mod header;
mod header_fault;
mod header_reading;
mod journal_end;
mod laws;
mod limits;
mod replaying;

pub use append_fault::AppendFault;
use group_fault::GroupFault;
pub use group_reader::{GroupReader, Next};
pub use group_writer::GroupWriter;
pub use header::put_header;
pub use header_fault::JournalHeaderFault;
pub use header_reading::{JournalHeader, read_header};
pub use journal_end::JournalEnd;
pub use laws::{cut_journals, headers_are_read, one_journal_spelling};
pub use replaying::{ReplayFault, replay_entries};
