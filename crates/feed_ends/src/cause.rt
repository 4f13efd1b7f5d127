//! The causes of a socket that is not opened, each with its text.
ghost use Rattle.std.specs.Prelude.{◌≡◌};
ghost use Rattle.feed_ends.specs.SocketFaults.{cause_of, cause_text};

use std::io::ErrorKind;

/// Why a socket is not opened.
#[derive(Clone, Copy, Debug, PartialEq, Eq)]
pub enum Cause {
    /// Another socket has the port.
    AddressInUse,
    /// This machine does not have the address, or no port is free.
    AddressNotAvailable,
    /// The process may not open it.
    PermissionDenied,
    /// Nobody listens there.
    Refused,
    /// The other end reset the connection.
    Reset,
    /// The other end did not answer in time.
    TimedOut,
    /// There is no socket of this name.
    NotFound,
    /// Anything else, for example if the process has as many files as it may.
    Other,
}

impl Cause {
    /// Returns the cause of an error of this kind.
    pub fn of(kind: ErrorKind) -> Cause
        ensures { result ≡ cause_of kind }
    {
        match kind {
            ErrorKind::AddrInUse => Cause::AddressInUse,
            ErrorKind::AddrNotAvailable => Cause::AddressNotAvailable,
            ErrorKind::PermissionDenied => Cause::PermissionDenied,
            ErrorKind::ConnectionRefused => Cause::Refused,
            ErrorKind::ConnectionReset => Cause::Reset,
            ErrorKind::TimedOut => Cause::TimedOut,
            ErrorKind::NotFound => Cause::NotFound,
            _ => Cause::Other,
        }
    }

    /// Returns the cause in words.
    pub fn text(self) -> &'static [u8]
        ensures { result.now ≡ cause_text self }
    {
        match self {
            Cause::AddressInUse => b"address in use",
            Cause::AddressNotAvailable => b"address not available",
            Cause::PermissionDenied => b"permission denied",
            Cause::Refused => b"connection refused",
            Cause::Reset => b"connection reset",
            Cause::TimedOut => b"timed out",
            Cause::NotFound => b"not found",
            Cause::Other => b"not opened",
        }
    }
}
