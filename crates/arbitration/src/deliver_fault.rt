//! The faults that a packet is refused with, each with its number and name.
ghost use Rattle.std.specs.Prelude.{◌≡◌, Some};
ghost use Rattle.arbitration.specs.DeliverFaults.{deliver_fault_code, deliver_fault_name};

use std::fmt;
use tape_types::TapeNumber;
use thiserror::Error;

/// Why a window refuses a packet. The first that applies is returned, and the window is unchanged.
#[derive(Clone, Copy, Debug, PartialEq, Eq, Error)]
pub enum DeliverFault {
    /// The packet's session is not the window's.
    Foreign,
    /// Another entry is known under the number of an entry of the packet. The number is the least such one.
    Conflict(TapeNumber),
    /// An end is known, and the packet states a number above it or another end; or the packet states an end below the greatest
    /// number announced.
    PastEnd,
}

impl DeliverFault {
    /// The number of the fault: 61, 62 or 63.
    pub fn code(self) -> u8
        ensures number { result ≡ deliver_fault_code self }
    {
        match self {
            DeliverFault::Foreign => 61,
            DeliverFault::Conflict(_) => 62,
            DeliverFault::PastEnd => 63,
        }
    }

    /// The name of the fault, as printed.
    pub fn name(self) -> &'static str
        ensures text { result.now ≡ deliver_fault_name self }
    {
        match self {
            DeliverFault::Foreign => "Foreign",
            DeliverFault::Conflict(_) => "Conflict",
            DeliverFault::PastEnd => "PastEnd",
        }
    }
}

impl fmt::Display for DeliverFault {
    ghost output = { λ e. Some (deliver_fault_name e) };

    fn fmt<W: fmt::Write>(&self, f: &mut fmt::Formatter<W>) -> fmt::Result {
        f.write_str(self.name())
    }
}
