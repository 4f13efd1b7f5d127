//! Holds the figures of a row of the readable tape. Another column of that tape needs a field here, its value in `row_figures`,
//! and its text where the row's text is made.
use scratch_fold::Summary;

/// What the readable tape shows of a message's symbol, right after the message.
#[derive(Clone, Copy, Debug, PartialEq, Eq)]
pub struct RowFigures {
    /// The symbol's consolidated summary, empty if the symbol is not listed.
    pub consolidated: Summary,
}
