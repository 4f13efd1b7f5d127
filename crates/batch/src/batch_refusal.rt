//! The refusals of a line, each with its number and its name.
ghost use Rattle.std.specs.Prelude.{◌≡◌, Some};
ghost use Rattle.batch.specs.BatchRefusals.{batch_refusal_code, batch_refusal_name};

use reports::MessageFault;
use std::fmt;
use tape_core::Refusal;
use thiserror::Error;

/// Why a line of a batch was refused: the first of these that applies.
#[derive(Clone, Copy, Debug, PartialEq, Eq, Error)]
pub enum BatchRefusal {
    /// The line is not one capital letter, one space and an even number of hexadecimal digits.
    BadLine,
    /// No message stands at the front of the line's bytes.
    BadMessage(MessageFault),
    /// Bytes are left after the message.
    ExtraBytes,
    /// The line's letter is not the message's participant, or the tape refused the message.
    Refused(Refusal),
}

impl BatchRefusal {
    /// The number of the refusal.
    pub fn code(self) -> u8
        ensures number { result ≡ batch_refusal_code self }
    {
        match self {
            BatchRefusal::BadLine => 22,
            BatchRefusal::BadMessage(fault) => fault.code(),
            BatchRefusal::ExtraBytes => 23,
            BatchRefusal::Refused(refusal) => refusal.code(),
        }
    }

    /// The name of the refusal, as it is printed.
    pub fn name(self) -> &'static str
        ensures text { result.now ≡ batch_refusal_name self }
    {
        match self {
            BatchRefusal::BadLine => "BadLine",
            BatchRefusal::BadMessage(fault) => fault.name(),
            BatchRefusal::ExtraBytes => "ExtraBytes",
            BatchRefusal::Refused(refusal) => refusal.name(),
        }
    }
}

impl fmt::Display for BatchRefusal {
    ghost output = { λ e. Some (batch_refusal_name e) };

    fn fmt<W: fmt::Write>(&self, f: &mut fmt::Formatter<W>) -> fmt::Result {
        f.write_str(self.name())
    }
}
