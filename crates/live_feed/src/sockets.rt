//! The sockets that a day's caller opens.

use std::net::{TcpListener, UdpSocket};

/// The open sockets of a live day.
#[derive(Drop)]
pub struct LiveSockets {
    /// One listener for each participant's line, in listing order.
    pub lines: Vec<TcpListener>,
    /// Where subscribers connect for what was lost.
    pub retransmission: TcpListener,
    /// The socket from which the packets of both lines are sent.
    pub sender: UdpSocket,
    /// The ports that line A is sent to, on this machine: one for each follower.
    pub a: Vec<u16>,
    /// The same of line B.
    pub b: Vec<u16>,
}
