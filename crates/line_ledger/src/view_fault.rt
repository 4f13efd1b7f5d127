//! The errors of a view of the tape.
ghost use Rattle.std.specs.Prelude.{◌≡◌, Some};
ghost use Rattle.line_ledger.specs.Faults.{view_fault_code, view_fault_name};

use std::fmt;
use thiserror::Error;

/// Why a line is not shown a symbol's summary, the first reason that applies.
#[derive(Clone, Copy, Debug, PartialEq, Eq, Error)]
pub enum ViewFault {
    /// The symbol is not listed. This fault has the number of the tape's refusal of this name.
    UnknownSymbol,
    /// 94 Behind: the tape's count, sizes or last number of the participant is not what its line was told.
    Behind,
}

impl ViewFault {
    /// Returns the number of the fault.
    pub fn code(self) -> u8
        ensures number { result ≡ view_fault_code self }
    {
        match self {
            ViewFault::UnknownSymbol => 36,
            ViewFault::Behind => 94,
        }
    }

    /// Returns the name of the fault, as it is printed.
    pub fn name(self) -> &'static str
        ensures text { result.now ≡ view_fault_name self }
    {
        match self {
            ViewFault::UnknownSymbol => "UnknownSymbol",
            ViewFault::Behind => "Behind",
        }
    }
}

impl fmt::Display for ViewFault {
    ghost output = { λ e. Some (view_fault_name e) };

    fn fmt<W: fmt::Write>(&self, f: &mut fmt::Formatter<W>) -> fmt::Result {
        f.write_str(self.name())
    }
}
