//! The faults of two texts of names, each with its number and its name.
ghost use Rattle.std.specs.Prelude.{◌≡◌, Some};
ghost use Rattle.tape_types.specs.Header.{header_fault_code, header_fault_name};

use crate::ListingFault;
use std::fmt;
use thiserror::Error;

/// Why a text of symbols and one of participants make no listing: the first of these that applies.
#[derive(Clone, Copy, Debug, PartialEq, Eq, Error)]
pub enum HeaderFault {
    /// A text is not names with single separators between them.
    BadHeader,
    /// The names make no listing, or memory ran out.
    BadListing(ListingFault),
}

impl HeaderFault {
    /// The number of the fault.
    pub fn code(self) -> u8
        ensures number { result ≡ header_fault_code self }
    {
        match self {
            HeaderFault::BadHeader => 9,
            HeaderFault::BadListing(fault) => fault.code(),
        }
    }

    /// The name of the fault, as it is printed.
    pub fn name(self) -> &'static str
        ensures text { result.now ≡ header_fault_name self }
    {
        match self {
            HeaderFault::BadHeader => "BadHeader",
            HeaderFault::BadListing(fault) => fault.name(),
        }
    }
}

impl fmt::Display for HeaderFault {
    ghost output = { λ e. Some (header_fault_name e) };

    fn fmt<W: fmt::Write>(&self, f: &mut fmt::Formatter<W>) -> fmt::Result {
        f.write_str(self.name())
    }
}
