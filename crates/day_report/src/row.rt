//! Makes a row of the report: the summary of a symbol for all participants or for one.

use scratch_fold::Summary;
use summaries::Store;
use tape_core::Tape;
use tape_types::{Participant, Symbol};

/// A row of the report: the summary of a symbol's reports that stand, of all participants or of one.
#[derive(Clone, Copy, Debug, PartialEq, Eq)]
pub struct Row {
    /// The symbol of the row.
    pub symbol: Symbol,
    /// The participant whose reports are counted, by the participant columns of the matrix, or `None` if those of all
    /// participants are, by the consolidated columns.
    pub who: Option<Participant>,
    /// The summary of the reports that stand.
    pub summary: Summary,
}

impl Row {
    ghost use Rattle.std.specs.Prelude.{◌≡◌, Some, true, slice_get};
    ghost use Rattle.tape_core.specs.Tape.{lists_participant};
    ghost use Rattle.day_report.specs.Rows.{consolidated_row, participant_row};

    /// Returns the consolidated row of the symbol at an index of the listing.
    pub(crate) fn consolidated<S: Store>(tape: &Tape<S>, index: usize, symbol: Symbol) -> Row
        requires { slice_get tape.now.listing.symbols index ≡ Some symbol }
        ensures { result ≡ consolidated_row tape.now symbol }
    {
        let summary = tape.summary_at(index).unwrap();
        Row {
            symbol,
            who: None,
            summary,
        }
    }

    /// Returns the row of a listed participant in the symbol at an index of the listing, or `None` if no report of the
    /// participant stands there.
    pub(crate) fn of_participant<S: Store>(
        tape: &Tape<S>,
        index: usize,
        symbol: Symbol,
        who: Participant,
    ) -> Option<Row>
        requires symbol { slice_get tape.now.listing.symbols index ≡ Some symbol }
        requires participant { lists_participant tape.now.listing who ≡ true }
        ensures { result ≡ participant_row tape.now symbol who }
    {
        let summary = tape.summary_of_at(index, who).unwrap();
        if summary.trades == 0 {
            return None;
        }
        Some(Row {
            symbol,
            who: Some(who),
            summary,
        })
    }
}
