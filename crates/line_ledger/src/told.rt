//! An admission as a line is told of it.

use reports::Message;
use tape_types::TapeNumber;

/// An admission that a line was told of.
#[derive(Clone, Copy, Debug, PartialEq, Eq)]
pub struct Told {
    /// The tape number of the entry.
    pub number: TapeNumber,
    /// The message of the entry.
    pub message: Message,
}
