//! The faults of a batch's line, each with its number and its name.
ghost use Rattle.std.specs.Prelude.{◌≡◌, Some};
ghost use Rattle.message_texts.specs.EndTexts.{line_fault_code, line_fault_name, line_fault_text};

use batch::BatchRefusal;
use std::fmt;
use tape_types::HeaderFault;
use thiserror::Error;

/// What is wrong with a line of a batch.
#[derive(Clone, Copy, Debug, PartialEq, Eq, Error)]
pub enum LineFault {
    /// The line is a header line, and its names make no listing.
    Header(HeaderFault),
    /// The line has no message of the participant whose letter it begins with.
    Message(BatchRefusal),
}

impl LineFault {
    /// The number of the fault, as a batch has it.
    pub fn code(self) -> u8
        ensures number { result ≡ line_fault_code self }
    {
        match self {
            LineFault::Header(fault) => fault.code(),
            LineFault::Message(refusal) => refusal.code(),
        }
    }

    /// The name of the fault, as a batch has it.
    pub fn name(self) -> &'static str
        ensures text { result.now ≡ line_fault_name self }
    {
        match self {
            LineFault::Header(fault) => fault.name(),
            LineFault::Message(refusal) => refusal.name(),
        }
    }
}

impl fmt::Display for LineFault {
    ghost output = { λ fault. Some (line_fault_text fault) };

    fn fmt<W: fmt::Write>(&self, f: &mut fmt::Formatter<W>) -> fmt::Result {
        let code = self.code();
        let name = self.name();
        write!(f, "{code} {name}")
    }
}
