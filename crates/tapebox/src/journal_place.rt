//! Where a day's journal is.

/// Where a day's journal is, by the day's file.
#[derive(Drop)]
pub struct JournalPlace {
    /// Its path.
    pub path: String,
    /// Whether it is synced before what it has is sent.
    pub is_synced: bool,
}
