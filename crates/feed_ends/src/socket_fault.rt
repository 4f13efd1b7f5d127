//! The error of a socket that could not be opened, and its text.
ghost use Rattle.std.specs.Prelude.{◌≡◌, IfOk};
ghost use Rattle.feed_ends.specs.SocketFaults.{cause_of, socket_fault_text};

use crate::{Cause, SocketPlace};
use std::alloc::{AllocError, Global};
use std::io::ErrorKind;

/// A socket that could not be opened. A day ends with `Fault::Read` for it.
#[derive(Clone, Copy, Debug, PartialEq, Eq)]
pub struct SocketFault {
    /// The socket.
    pub place: SocketPlace,
    /// The port of the socket.
    pub port: u16,
    /// Why the socket could not be opened.
    pub cause: Cause,
}

impl SocketFault {
    /// Returns the fault of a socket whose opening failed with an error of this kind.
    pub fn new(place: SocketPlace, port: u16, kind: ErrorKind) -> SocketFault
        ensures { result ≡ record { place = place; port = port; cause = cause_of kind } }
    {
        SocketFault {
            place,
            port,
            cause: Cause::of(kind),
        }
    }

    /// Returns the fault in words, without a line feed: `port 23001 (Q): address in use`. It fails if memory runs out.
    pub fn text(self, alloc: Global) -> Result<Vec<u8>, AllocError>
        ensures { IfOk result (λ text. text.items ≡ socket_fault_text self) }
    {
        let mut text = Vec::new(alloc);
        self.place.push(&mut text, self.port)?;
        text.extend_from_slice(b": ")?;
        text.extend_from_slice(self.cause.text())?;
        Ok(text)
    }
}
