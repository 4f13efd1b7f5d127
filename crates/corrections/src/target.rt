//! A report as the register keeps it for the messages that name it: symbol, place, standing and latest content.

use sale_matrix::Content;
use tape_types::{Symbol, TapeNumber};

/// Whether a report stands.
#[derive(Clone, Copy, Debug, PartialEq, Eq)]
pub enum Standing {
    /// The report counts in the summaries.
    Standing,
    /// The report was cancelled and has not been reinstated.
    Cancelled,
}

/// A report that a cancel, a correction or a reinstatement can name.
#[derive(Clone, Copy, Debug, PartialEq, Eq)]
pub struct Target {
    /// The symbol of the report.
    pub symbol: Symbol,
    /// The tape number of the report's admission, which it keeps for the day.
    pub place: TapeNumber,
    /// Whether the report stands.
    pub standing: Standing,
    /// Its latest content: as it was reported, or as it was last corrected. A cancelled report keeps it.
    pub content: Content,
}

/// The report that a target names, and where the register keeps it.
#[derive(Clone, Copy, Debug, PartialEq, Eq)]
pub struct Located {
    /// The tape number of the report's admission.
    pub place: TapeNumber,
    /// The report's latest content.
    pub content: Content,
    /// The index of the report among its participant's reports by rising message number. A report recorded below it moves it,
    /// so it is only the index to look at first.
    pub index: usize,
}
