//! The refusals of a message on a line: by the line, or by the tape.
ghost use Rattle.std.specs.Prelude.{◌≡◌, Some};
ghost use Rattle.line_ledger.specs.Faults.{line_refusal_code, line_refusal_name};

use std::fmt;
use tape_core::Refusal;
use thiserror::Error;

/// Why a message is not admitted on a line, the first reason that applies. The tape and the seat are unchanged.
#[derive(Clone, Copy, Debug, PartialEq, Eq, Error)]
pub enum LineRefusal {
    /// 94 Behind: the tape's count, sizes or last number of the participant is not what its line was told.
    Behind,
    /// `WrongLine` if the message is of another participant; otherwise, after 94, the tape's own refusal, `OutOfMemory` last:
    /// any of these but `Closed` and `UnknownParticipant`.
    Refused(Refusal),
}

impl LineRefusal {
    /// The number of the refusal: 94, or that of the tape's refusal.
    pub fn code(self) -> u8
        ensures number { result ≡ line_refusal_code self }
    {
        match self {
            LineRefusal::Behind => 94,
            LineRefusal::Refused(refusal) => refusal.code(),
        }
    }

    /// The name of the refusal, as it is printed.
    pub fn name(self) -> &'static str
        ensures text { result.now ≡ line_refusal_name self }
    {
        match self {
            LineRefusal::Behind => "Behind",
            LineRefusal::Refused(refusal) => refusal.name(),
        }
    }
}

impl fmt::Display for LineRefusal {
    ghost output = { λ e. Some (line_refusal_name e) };

    fn fmt<W: fmt::Write>(&self, f: &mut fmt::Formatter<W>) -> fmt::Result {
        f.write_str(self.name())
    }
}
