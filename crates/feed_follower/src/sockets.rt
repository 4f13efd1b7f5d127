//! The sockets of a follower, and how they are opened.
ghost use Rattle.std.specs.Prelude.{◌≡◌, ◌⊎◌, Some, IfErr, IfOk, slice_get};
ghost use Rattle.feed_ends.specs.declared.place.SocketPlace.TheVariants.{A, B};

use feed_ends::{SocketFault, SocketPlace, here};
use std::net::{Net, TcpListener, TcpStream, UdpSocket};

/// The open sockets of a follower, and the port at which it asks.
#[derive(Drop)]
pub struct FollowSockets {
    /// The socket from which line A is read, bound to its port.
    pub a: UdpSocket,
    /// The socket from which line B is read, bound to its port.
    pub b: UdpSocket,
    /// The port of the retransmission, on this machine.
    pub retransmission: u16,
}

/// Opens the socket of a line on a port of this machine.
fn bind<R: Net<Listener = TcpListener, Stream = TcpStream>>(
    rt: &R,
    place: SocketPlace,
    port: u16,
) -> Result<UdpSocket, SocketFault>
    ensures { IfErr result (λ why. (why.place ≡ place) × (why.port ≡ port)) }
{
    UdpSocket::bind(rt, here(port)).map_err(|error| SocketFault::new(place, port, error.kind()))
}

impl FollowSockets {
    /// Opens line A's socket on the first port and then line B's on the second, on this machine alone. It returns the fault of
    /// the first one that cannot be opened; what was opened before is closed.
    pub fn open<R: Net<Listener = TcpListener, Stream = TcpStream>>(
        rt: &R,
        ports: [u16; 2],
        retransmission: u16,
    ) -> Result<FollowSockets, SocketFault>
        ensures retransmission { IfOk result (λ sockets. sockets.retransmission ≡ retransmission) }
        ensures fault { IfErr result (λ why. ((why.place ≡ A) × (slice_get ports 0 ≡ Some why.port))
            ⊎ ((why.place ≡ B) × (slice_get ports 1 ≡ Some why.port))) }
    {
        let [a, b] = ports;
        Ok(FollowSockets {
            a: bind(rt, SocketPlace::A, a)?,
            b: bind(rt, SocketPlace::B, b)?,
            retransmission,
        })
    }
}
