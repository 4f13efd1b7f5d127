//! The first row that a tape refused as stale.
ghost use Rattle.std.specs.Prelude.{◌≡◌, ◌↔◌, IsTrue};

use tape_types::{MsgNumber, Participant};

/// The first row that a tape refused as `Stale`: its number is not above its participant's last one.
#[derive(Clone, Copy, Debug, PartialEq, Eq)]
pub struct StaleRow {
    /// The participant whose row it is.
    pub participant: Participant,
    /// The row's message number.
    pub number: MsgNumber,
    /// The participant's greatest message number on the tape before the row, which is the row's or above.
    pub greatest: u32,
}

impl StaleRow {
    /// Returns whether the row repeats the participant's greatest number. If not, its number is below, so it is out of order.
    pub fn is_repeated(self) -> bool
        ensures { IsTrue result ↔ (self.number ≡ self.greatest) }
    {
        self.number.value() == self.greatest
    }
}
