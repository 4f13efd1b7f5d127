//! The causes of a write that failed.
ghost use Rattle.std.specs.Prelude.{◌≡◌};
ghost use Rattle.tapebox.specs.Outlets.{write_cause_of};

use std::fmt;
use std::io::ErrorKind;

/// Why a write failed. It prints as the cause in words.
#[derive(Clone, Copy, Debug, PartialEq, Eq)]
pub enum WriteCause {
    /// The disk or the device is full.
    NoSpace,
    /// The user's quota is used up.
    QuotaUsedUp,
    /// The file would be larger than a file may be.
    TooLarge,
    /// The other end reset the connection.
    Reset,
    /// Anything else.
    Other,
}

impl WriteCause {
    /// Returns the cause of an error of this kind.
    pub fn of(kind: ErrorKind) -> WriteCause
        ensures { result ≡ write_cause_of kind }
    {
        match kind {
            ErrorKind::StorageFull => WriteCause::NoSpace,
            ErrorKind::QuotaExceeded => WriteCause::QuotaUsedUp,
            ErrorKind::FileTooLarge => WriteCause::TooLarge,
            ErrorKind::ConnectionReset => WriteCause::Reset,
            _ => WriteCause::Other,
        }
    }
}

impl fmt::Display for WriteCause {
    fn fmt<W: fmt::Write>(&self, f: &mut fmt::Formatter<W>) -> fmt::Result {
        f.write_str(match self {
            WriteCause::NoSpace => "no space left",
            WriteCause::QuotaUsedUp => "quota used up",
            WriteCause::TooLarge => "file too large",
            WriteCause::Reset => "connection reset",
            WriteCause::Other => "write fault",
        })
    }
}
