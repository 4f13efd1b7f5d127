//! The reasons why a listing is refused, each with its number and name.
ghost use Rattle.std.specs.Prelude.{◌≡◌, Some};
ghost use Rattle.tape_types.specs.ListingFaults.{listing_fault_code, listing_fault_name};

use std::fmt;
use thiserror::Error;

/// Why no listing was made: the first fault that applies.
#[derive(Clone, Copy, Debug, PartialEq, Eq, Error)]
pub enum ListingFault {
    /// There is no symbol, or no participant.
    Empty = 1,
    /// There are more than `SYMBOLS_MOST` symbols, or more than `PARTICIPANTS_MOST` participants.
    TooMany = 2,
    /// A symbol or a participant is listed twice.
    Repeated = 3,
    /// Memory ran out.
    OutOfMemory = 4,
}

impl ListingFault {
    /// The number of the fault.
    pub fn code(self) -> u8
        ensures number { result ≡ listing_fault_code self }
    {
        self as u8
    }

    /// The name of the fault, as it is printed.
    pub fn name(self) -> &'static str
        ensures text { result.now ≡ listing_fault_name self }
    {
        match self {
            ListingFault::Empty => "Empty",
            ListingFault::TooMany => "TooMany",
            ListingFault::Repeated => "Repeated",
            ListingFault::OutOfMemory => "OutOfMemory",
        }
    }
}

impl fmt::Display for ListingFault {
    ghost output = { λ e. Some (listing_fault_name e) };

    fn fmt<W: fmt::Write>(&self, f: &mut fmt::Formatter<W>) -> fmt::Result {
        f.write_str(self.name())
    }
}
