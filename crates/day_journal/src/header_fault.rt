//! Lists the reasons why no header is read.

/// Why the bytes do not begin with the header of a journal: the first reason, read from the front.
#[derive(Clone, Copy, Debug, PartialEq, Eq)]
pub enum JournalHeaderFault {
    /// They do not begin as every journal does: another file, or fewer than eight bytes.
    NoJournal,
    /// They are a journal of another version.
    OtherVersion,
    /// They end within the header, as after a write that was cut: no group was ever appended.
    Short,
    /// A field has no value of its own, the names are no listing, or the digest is not that of the header.
    Damaged,
    /// Memory ran out for the listing.
    OutOfMemory,
}
