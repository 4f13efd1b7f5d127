//! Reads the tape under the lock.
ghost use Rattle.std.specs.Prelude.{◌≡◌, ℕ, length, true, false};
ghost use Rattle.line_ledger.specs.Days.{IsDay};
ghost use Rattle.line_ledger.specs.Ends.{DisagreesAt, FirstTold};

use super::{LineSeat, Locked};
use crate::DayName;
use crate::ends::find_disagreement;
use tape_core::IndexedTape;

impl<D: DayName> Locked<D> {
    /// Returns the day's tape, which is open.
    pub fn tape(&self) -> &IndexedTape
        ensures day { IsDay D.terms self.now.tape }
        ensures tape { result.now ≡ self.now.tape }
    {
        &self.tape
    }

    /// Returns whether the seat of each participant was told what the tape has of it: whether an end with these seats would not
    /// disagree. It reads the tape once for all participants.
    pub fn was_told(&self, seats: &[LineSeat<D>]) -> bool
        ensures told { let listed = self.now.tape.listing.participants in
            result ≡ true → FirstTold (length listed) listed self.now.tape.entries seats.now }
        ensures otherwise { result ≡ false
            → (who : ℕ) × ((at : ℕ) × DisagreesAt self.now.tape.listing.participants self.now.tape.entries seats.now who at) }
    {
        find_disagreement(&self.tape, seats).is_none()
    }
}
