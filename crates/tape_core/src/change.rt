//! Holds what a message changes in its symbol's book and in the register, once the report that it names is looked up.

use reports::Content;
use tape_types::{MsgNumber, TapeNumber};

/// A report that a message names, as it was looked up.
#[derive(Clone, Copy)]
pub struct NamedReport {
    /// The number under which its participant sent it.
    pub target: MsgNumber,
    /// The tape number of its admission.
    pub place: TapeNumber,
    /// The index at which the register had it, so that a change there need not search for it again.
    pub index: usize,
}

/// What a message changes in its symbol's book and in the register: for each kind, what the change needs besides the message's
/// header and the number of its entry.
#[derive(Clone, Copy)]
pub enum Change {
    /// A report is entered with this content, at the number of its entry.
    Enter(Content),
    /// The named report leaves the book, and no longer stands.
    Cancel(NamedReport),
    /// The named report gets this content.
    Correct(NamedReport, Content),
    /// The named report comes back into the book and stands again, with this content, which is its latest.
    Reinstate(NamedReport, Content),
}
