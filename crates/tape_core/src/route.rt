//! Holds where a message goes on a tape: its symbol's book, the number of its entry, and what it changes.

use crate::change::Change;
use tape_types::TapeNumber;

/// What a message that the tape does not refuse decides before anything changes.
#[derive(Clone, Copy)]
pub struct Route {
    /// The index of its symbol's book.
    pub book: usize,
    /// The number of its entry.
    pub number: TapeNumber,
    /// What it changes in the book and in the register.
    pub change: Change,
}
