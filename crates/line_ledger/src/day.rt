//! The name of a day, and the ended day, which keeps its closed tape and its cells and confirms tokens.
ghost use Rattle.std.specs.Prelude.{◌≡◌, ◌↔◌, ◌+◌, ◌-◌, ◌<◌, ◌≤◌, [], length, slice_get, IsTrue, Some};
ghost use Rattle.std.specs.Result.{IsOk};
ghost use Rattle.sale_matrix.specs.declared.matrix.Matrix.TheVariants.{One};
ghost use Rattle.line_ledger.specs.Cells.{IsTokenOf, FirstTokens, HaveAll};
ghost use Rattle.line_ledger.specs.Days.{Terms};

use crate::{CellRow, NotOnTape, Sighting, Token};
use seen_cells::Seen;
use std::marker::{Brand, Model};
use std::sync::ledger::Ledger;
use tape_core::{Entry, IndexedTape};

/// The name of one shared day: its ledger, which has one part for each participant, and its terms. A function over it is called
/// with `Brand` once for each day.
pub trait DayName: Ledger {
    /// The terms that the day's tape keeps to.
    ghost terms: { Terms };
}

impl DayName for Brand {
    ghost terms = { record { listing = record { symbols = []; participants = [] }; matrix = One; limit = 0 } };
}

/// An ended day: its closed tape, its cells, and what its end saw in the first of them.
#[derive(Drop)]
pub struct Day {
    pub(crate) tape: IndexedTape,
    pub(crate) row: CellRow,
    pub(crate) seen: Vec<Seen<Entry>>,
}

impl Model for Day {
    ghost use Rattle.std.specs.Prelude.{◌≤◌, length};
    ghost use Rattle.line_ledger.specs.Cells.{FirstSeen};
    ghost use Rattle.line_ledger.specs.Days.{DayState};
    ghost use Rattle.tape_types.specs.Ranges.{TAPE_MOST};

    ghost Value = { DayState };

    ghost view = { λ d. record { tape = d.tape; names = d.row; published = length d.seen.items } };

    ghost invariant = { λ d. FirstSeen d.row d.tape.entries d.seen.items × (length d.seen.items ≤ length d.tape.entries)
        × (length d.seen.items ≤ TAPE_MOST) };
}

impl Day {
    /// Returns the day's tape, which is closed.
    pub fn tape(&self) -> &IndexedTape
        ensures tape { result.now ≡ self.now.tape }
    {
        &self.tape
    }

    /// Returns how many of the first cells the day's end found to hold the tape's first entries, from 0 to the tape's length. A
    /// cell that was set may be missed, so it is at most what was published.
    pub fn published(&self) -> u32
        ensures count { result ≡ self.now.published }
        ensures within { result ≤ length self.now.tape.entries }
    {
        self.seen.len() as u32
    }

    /// Confirms that the day has the token's entry at its number, or returns 93 NotOnTape. It confirms every token up to the
    /// published count.
    pub fn confirm(&self, token: &Token) -> Result<(), NotOnTape>
        requires { IsTokenOf self.now.names token.now }
        ensures exact { IsOk result ↔ (slice_get self.now.tape.entries (token.now.number - 1) ≡ Some token.now.entry) }
        ensures sure { token.now.number ≤ self.now.published → IsOk result }
    {
        let at = token.number() as usize - 1;
        if at < self.seen.len() {
            self.settle(at, token);
            return Ok(());
        }
        match self.tape.entries().get(at) {
            Some(entry) if entry.is_same(&token.entry()) => Ok(()),
            _ => Err(NotOnTape),
        }
    }

    /// Confirms that the day has what was seen in the cell of this number, or returns 93 NotOnTape, as `confirm` does with a
    /// token of the cell.
    pub fn confirm_seen(&self, number: u32, sighting: &Sighting) -> Result<(), NotOnTape>
        requires cell { IsTokenOf self.now.names sighting.now }
        requires number { sighting.now.number ≡ number }
        ensures exact { IsOk result ↔ (slice_get self.now.tape.entries (sighting.now.number - 1) ≡ Some sighting.now.entry) }
        ensures sure { sighting.now.number ≤ self.now.published → IsOk result }
    {
        self.confirm(&self.row.show(number, sighting))
    }

    /// Returns whether the day has what was seen in each of the first `many` cells: whether `confirm_seen` would confirm each
    /// sighting.
    pub fn has_all_seen(&self, sightings: &Vec<Sighting>, many: u32) -> bool
        requires cells { FirstTokens self.now.names sightings.now.items }
        requires many { length sightings.now.items ≡ many }
        ensures { IsTrue result ↔ HaveAll self.now.tape.entries sightings.now.items }
    {
        self.row.have_all_seen(self.tape.entries(), sightings, many)
    }

    /// Shows that the token has the entry that the end saw in its cell, which is the day's, since a cell is set once.
    fn settle(&self, at: usize, token: &Token)
        requires number { at + 1 ≡ token.now.number }
        requires cell { IsTokenOf self.now.names token.now }
        requires within { at < self.now.published }
        ensures { slice_get self.now.tape.entries at ≡ Some token.now.entry }
    {
        self.seen[at].agrees(&token.seen);
    }
}
