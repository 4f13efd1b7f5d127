//! A line of a follower: reads datagrams from its socket, and wakes the thread that reads.
ghost use Rattle.std.specs.Prelude.{◌≤◌, IfOk};
ghost use Rattle.feed_follower.specs.declared.lines.TheConstants.{ROOM};

use arbitration::Line;
use feed_ends::Fault;
use std::io::ErrorKind;
use std::net::{SocketAddr, UdpSocket};
use tape_frames::LONGEST_PACKET;

/// The bytes that are read of a datagram: one more than the longest packet has, so that a longer datagram is not taken for a
/// packet.
pub(crate) const ROOM: usize = LONGEST_PACKET + 1;

// A datagram that fills the room is no packet, so a cut one is dropped.
const _: () = prove!(ROOM > LONGEST_PACKET);

/// A line of the follower.
#[derive(Drop)]
pub(crate) struct FollowedLine<'a> {
    /// Line A or line B.
    pub(crate) line: Line,
    socket: &'a UdpSocket,
    /// The address that the socket is bound to.
    address: SocketAddr,
}

impl<'a> FollowedLine<'a> {
    /// A line that is read from a socket. `Read` if the socket's address is not known.
    pub(crate) fn new(line: Line, socket: &'a UdpSocket) -> Result<FollowedLine<'a>, Fault> {
        let address = socket.local_addr().map_err(|_| Fault::Read)?;
        Ok(FollowedLine {
            line,
            socket,
            address,
        })
    }

    /// Has the read of the line return, by an empty datagram, which is no packet.
    pub(crate) fn wake(&self) {
        let _ = self.socket.send_to(&[], self.address);
    }

    /// Reads a datagram and returns its length, or 0 if the read was interrupted. `Read` if it failed.
    pub(crate) fn read(&self, room: &mut [u8; ROOM]) -> Result<usize, Fault>
        ensures { IfOk result (λ len. len ≤ ROOM) }
    {
        match self.socket.recv_from(room) {
            Ok((len, _)) => Ok(len),
            Err(error) if error.kind() == ErrorKind::Interrupted => Ok(0),
            Err(_) => Err(Fault::Read),
        }
    }
}
