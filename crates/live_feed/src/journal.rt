//! A day's journal, opened.

use day_journal::GroupWriter;

/// A day's journal, opened: what the day publishes is appended to it and kept first.
#[derive(Drop)]
pub struct DayJournal<J> {
    /// The groups' writer, which goes on after the header, or after the groups that were read. Its session is the day's.
    pub groups: GroupWriter,
    /// What the journal is kept in. It ends where the writer goes on.
    pub file: J,
    /// What it had when it was opened, if the day goes on.
    pub restored: Option<Restored>,
}

/// What a journal had when it was opened.
#[derive(Drop)]
pub struct Restored {
    /// Its bytes, which end with a whole group.
    pub journal: Vec<u8>,
    /// Where its groups begin: how many bytes its header has.
    pub from: usize,
    /// The header's digest, to which the first group is chained.
    pub digest: [u8; 32],
}
