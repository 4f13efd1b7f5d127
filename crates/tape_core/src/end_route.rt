//! Holds where a message goes on an `EndTape`: the number of its entry, and what it changes in the register.

use crate::change::Change;
use tape_types::TapeNumber;

/// What a message that is not refused decides before anything changes.
#[derive(Clone, Copy)]
pub struct EndRoute {
    /// The number of its entry.
    pub number: TapeNumber,
    /// What it changes in the register.
    pub change: Change,
}
