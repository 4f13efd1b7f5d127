//! Makes the rows of the report from an `EndTape`, by one pass over its reports.
ghost use Rattle.std.specs.Prelude.{◌≡◌, ◌++◌, IfOk, OnOk};
ghost use Rattle.tape_core.specs.Ending.{AreFiguresOf, IsKept, KeepsEnd};
ghost use Rattle.tape_core.specs.Tape.{TapeState, messages_of};
ghost use Rattle.day_report.specs.Rows.{report_rows, symbol_rows};

use crate::Row;
use std::alloc::{AllocError, Global};
use tape_core::{EndTape, SymbolFigures};
use tape_types::{Listing, Symbol};

/// Adds the rows of a symbol from its figures: the consolidated one, then in listing order one for each participant with a
/// report that stands there.
fn push_figures(
    rows: &mut Vec<Row>,
    listing: &Listing,
    symbol: Symbol,
    figures: &SymbolFigures,
) -> Result<(), AllocError>
    ensures { OnOk result ((t : TapeState) → t.listing ≡ listing.now → AreFiguresOf t (messages_of t.entries) symbol figures.now
        → rows.new.items ≡ rows.old.items ++ symbol_rows t symbol) }
{
    rows.push(Row {
        symbol,
        who: None,
        summary: figures.all,
    })?;
    for who in listing.participants() {
        let summary = figures.own[who.row_index()];
        if summary.trades == 0 {
            continue;
        }
        rows.push(Row {
            symbol,
            who: Some(*who),
            summary,
        })?;
    }
    Ok(())
}

/// Returns the rows of the report, the same as `rows` returns for the tape of this listing. One pass over its reports makes all
/// figures.
pub fn end_rows(alloc: Global, tape: &EndTape, listing: &Listing) -> Result<Vec<Row>, AllocError>
    requires kept { IsKept tape.now }
    ensures rows { IfOk result (λ rows. (t : TapeState) → KeepsEnd t tape.now → t.listing ≡ listing.now → rows.items ≡ report_rows t) }
{
    let table = tape.figures(alloc, listing)?;
    let mut rows = Vec::new(alloc);
    for symbol in listing.symbols() {
        // Each listed symbol has figures at its position; no clause says so of an iterator's items.
        let Some(at) = listing.position(*symbol) else {
            return Err(AllocError);
        };
        if at >= table.len() {
            return Err(AllocError);
        }
        push_figures(&mut rows, listing, *symbol, &table[at])?;
    }
    Ok(rows)
}
