//! The reasons why a target is refused, each with its number and name.
ghost use Rattle.std.specs.Prelude.{◌≡◌, Some};
ghost use Rattle.corrections.specs.TargetFaults.{target_fault_code, target_fault_name};

use std::fmt;
use thiserror::Error;

/// Why a target names no report that can be cancelled, corrected or reinstated: the first fault that applies.
#[derive(Clone, Copy, Debug, PartialEq, Eq, Error)]
pub enum TargetFault {
    /// No report of the participant has the target's number.
    NoSuchReport = 37,
    /// The target is a report of another symbol.
    OtherSymbol = 38,
    /// The target is cancelled, so it can neither be cancelled nor corrected.
    Cancelled = 39,
    /// The target stands, so it cannot be reinstated.
    Standing = 43,
}

impl TargetFault {
    /// The number of the fault.
    pub fn code(self) -> u8
        ensures number { result ≡ target_fault_code self }
    {
        self as u8
    }

    /// The name of the fault, as it is printed.
    pub fn name(self) -> &'static str
        ensures text { result.now ≡ target_fault_name self }
    {
        match self {
            TargetFault::NoSuchReport => "NoSuchReport",
            TargetFault::OtherSymbol => "OtherSymbol",
            TargetFault::Cancelled => "Cancelled",
            TargetFault::Standing => "Standing",
        }
    }
}

impl fmt::Display for TargetFault {
    ghost output = { λ e. Some (target_fault_name e) };

    fn fmt<W: fmt::Write>(&self, f: &mut fmt::Formatter<W>) -> fmt::Result {
        f.write_str(self.name())
    }
}
