//! The day of a journal: its tape, and where a cut group begins.

use tape_core::IndexedTape;

/// The day of a journal.
#[derive(Drop)]
pub struct JournalDay {
    /// The tape of the entries of its whole groups, with the header's listing, matrix and limit.
    pub tape: IndexedTape,
    /// How many bytes of the journal are its header and whole groups, if a group that is cut off follows them; `None` if
    /// nothing follows.
    pub torn: Option<usize>,
}
