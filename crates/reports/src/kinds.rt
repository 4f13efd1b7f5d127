//! The kinds of messages, each by the byte that its body begins with, and the length of each kind in bytes.

/// The kind of a report.
pub(crate) const REPORT: u8 = b'R';

/// The kind of a cancel.
pub(crate) const CANCEL: u8 = b'X';

/// The kind of a correction.
pub(crate) const CORRECTION: u8 = b'C';

/// The kind of a reinstatement.
pub(crate) const REINSTATEMENT: u8 = b'S';

/// The length of a report's body, in bytes.
pub(crate) const REPORT_LENGTH: usize = 38;

/// The length of a cancel's body, in bytes.
pub(crate) const CANCEL_LENGTH: usize = 26;

/// The length of a correction's body, in bytes.
pub(crate) const CORRECTION_LENGTH: usize = 42;

/// The length of a reinstatement's body, in bytes. It has the fields of a cancel.
pub(crate) const REINSTATEMENT_LENGTH: usize = CANCEL_LENGTH;

/// The length of the longest message, a correction, in bytes: its length of two bytes and its body.
pub const LONGEST_MESSAGE: usize = 2 + CORRECTION_LENGTH;
