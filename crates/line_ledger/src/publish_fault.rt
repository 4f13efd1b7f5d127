//! The errors of a publication.
ghost use Rattle.std.specs.Prelude.{◌≡◌, Some};
ghost use Rattle.line_ledger.specs.Faults.{publish_fault_code, publish_fault_name};

use std::fmt;
use thiserror::Error;

/// Why entries are not published, the first reason that applies. The cells that were set before it stay set and are counted.
#[derive(Clone, Copy, Debug, PartialEq, Eq, Error)]
pub enum PublishFault {
    /// 81 Unpublished: the cell of this number, from 1, was set before or does not exist.
    Unpublished(u32),
    /// 82 OutOfMemory: memory ran out.
    OutOfMemory,
}

impl PublishFault {
    /// Returns the number of the fault.
    pub fn code(self) -> u8
        ensures number { result ≡ publish_fault_code self }
    {
        match self {
            PublishFault::Unpublished(_) => 81,
            PublishFault::OutOfMemory => 82,
        }
    }

    /// Returns the name of the fault, as it is printed.
    pub fn name(self) -> &'static str
        ensures text { result.now ≡ publish_fault_name self }
    {
        match self {
            PublishFault::Unpublished(_) => "Unpublished",
            PublishFault::OutOfMemory => "OutOfMemory",
        }
    }
}

impl fmt::Display for PublishFault {
    ghost output = { λ e. Some (publish_fault_name e) };

    fn fmt<W: fmt::Write>(&self, f: &mut fmt::Formatter<W>) -> fmt::Result {
        f.write_str(self.name())
    }
}
