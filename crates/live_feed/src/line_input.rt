//! What a participant's messages are read from.

use crate::line_slot::LineSlot;
use std::io;
use std::io::{BufReader, Error, ErrorKind, Read};
use std::net::TcpStream;
use std::sync::Arc;

/// A participant's connection. If the day can be ended, each read looks whether it was: then the input is at its end, whatever
/// the connection still has. A participant that did not connect has an input that is at its end.
pub(crate) struct LineInput {
    stream: Option<TcpStream>,
    /// The line's slot, if the day can be ended: then reads of the connection end by themselves after a while, so that they can
    /// look.
    slot: Option<Arc<LineSlot>>,
}

/// What a line's messages are read from, in large pieces.
pub(crate) type Reader = BufReader<LineInput>;

impl LineInput {
    /// The input of a day that nobody ends.
    pub(crate) fn of(stream: TcpStream) -> LineInput {
        LineInput {
            stream: Some(stream),
            slot: None,
        }
    }

    /// The input of a line with a slot, without a connection if none came.
    pub(crate) fn with_slot(stream: Option<TcpStream>, slot: Arc<LineSlot>) -> LineInput {
        LineInput {
            stream,
            slot: Some(slot),
        }
    }
}

impl Read for LineInput {
    fn read(&mut self, buf: &mut [u8]) -> io::Result<usize> {
        let Some(stream) = &mut self.stream else {
            return Ok(0);
        };
        let Some(slot) = &self.slot else {
            return stream.read(buf);
        };
        if slot.meets_stop() {
            return Ok(0);
        }
        match stream.read(buf) {
            // Nothing came for a while. The reader tries again.
            Err(error) if error.kind() == ErrorKind::WouldBlock => {
                Err(Error::from(ErrorKind::Interrupted))
            }
            read => read,
        }
    }
}

impl Drop for LineInput {
    fn drop(self) {
        let LineInput { stream, slot } = self;
        drop(stream);
        if let Some(slot) = slot {
            slot.close();
        }
    }
}
