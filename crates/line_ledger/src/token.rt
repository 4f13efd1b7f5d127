//! Keeps the entry that one cell was seen to hold.
ghost use Rattle.std.specs.Prelude.{◌≡◌};

use crate::Sighting;
use seen_cells::Seen;
use std::marker::Model;
use tape_core::Entry;

/// The entry that the cell of a number was seen to hold. A cell is set once, so a token stays true. It may be lent to threads.
/// Only a cell that holds an entry makes one.
#[derive(Drop)]
pub struct Token {
    pub(crate) number: u32,
    pub(crate) entry: Entry,
    pub(crate) seen: Seen<Entry>,
}

impl Model for Token {
    ghost use Rattle.std.specs.Prelude.{◌≡◌, Some};
    ghost use Rattle.line_ledger.specs.Cells.{TokenState};

    ghost Value = { TokenState };

    ghost view = { λ t. record { number = t.number; entry = t.entry; cell = t.seen.cell } };

    ghost invariant = { λ t. t.seen.known ≡ Some t.entry };
}

impl Token {
    /// Returns the number of the cell, from 1, which is the entry's tape number if the day confirms it.
    pub fn number(&self) -> u32
        ensures number { result ≡ self.now.number }
    {
        self.number
    }

    /// Returns the entry that the cell holds.
    pub fn entry(&self) -> Entry
        ensures entry { result ≡ self.now.entry }
    {
        self.entry
    }

    /// Returns the record that the cell was seen to hold the entry, which takes no bytes.
    pub fn into_sighting(self) -> Sighting
        ensures same { result ≡ self }
    {
        let Token {
            number,
            entry,
            seen,
        } = self;
        Sighting::of(number, &entry, seen)
    }
}
