//! The errors of preparing and opening a day.
ghost use Rattle.std.specs.Prelude.{◌≡◌, Some};
ghost use Rattle.line_ledger.specs.Faults.{open_fault_code, open_fault_name};

use std::fmt;
use thiserror::Error;

/// Why a day is not prepared or opened, the first reason that applies. What was given is spent.
#[derive(Clone, Copy, Debug, PartialEq, Eq, Error)]
pub enum OpenFault {
    /// 7 NotEmpty: the tape is closed, or has an entry.
    NotEmpty,
    /// 8 OutOfMemory: memory ran out.
    OutOfMemory,
}

impl OpenFault {
    /// Returns the number of the fault.
    pub fn code(self) -> u8
        ensures number { result ≡ open_fault_code self }
    {
        match self {
            OpenFault::NotEmpty => 7,
            OpenFault::OutOfMemory => 8,
        }
    }

    /// Returns the name of the fault, as it is printed.
    pub fn name(self) -> &'static str
        ensures text { result.now ≡ open_fault_name self }
    {
        match self {
            OpenFault::NotEmpty => "NotEmpty",
            OpenFault::OutOfMemory => "OutOfMemory",
        }
    }
}

impl fmt::Display for OpenFault {
    ghost output = { λ e. Some (open_fault_name e) };

    fn fmt<W: fmt::Write>(&self, f: &mut fmt::Formatter<W>) -> fmt::Result {
        f.write_str(self.name())
    }
}
