//! Records that a cell was seen to hold its entry, without keeping the entry.
ghost use Rattle.std.specs.Prelude.{◌≡◌, Some};

use seen_cells::Seen;
use std::marker::Model;
use std::snapshot::Snapshot;
use tape_core::Entry;

/// A record that the cell of a number was seen to hold its entry. It takes no bytes: clauses see a token, and the entry is read
/// in the cell again. It may be lent to threads.
#[derive(Drop)]
pub struct Sighting {
    pub(crate) number: Snapshot<u32>,
    pub(crate) entry: Snapshot<Entry>,
    pub(crate) seen: Seen<Entry>,
}

impl Model for Sighting {
    ghost use Rattle.std.specs.Prelude.{◌≡◌, Some};
    ghost use Rattle.line_ledger.specs.Cells.{TokenState};

    ghost Value = { TokenState };

    ghost view = { λ s. record { number = s.number.value; entry = s.entry.value; cell = s.seen.cell } };

    ghost invariant = { λ s. s.seen.known ≡ Some s.entry.value };
}

impl Sighting {
    /// Records that this entry was seen in the cell of this number.
    pub(crate) fn of(number: u32, entry: &Entry, seen: Seen<Entry>) -> Sighting
        requires { seen.known ≡ Some entry.now }
        ensures { result ≡ record { number = number; entry = entry.now; cell = seen.cell } }
    {
        Sighting {
            number: Snapshot::of(&number),
            entry: Snapshot::of(entry),
            seen,
        }
    }
}
