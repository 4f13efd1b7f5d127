//! The sockets, the session and the loss that a day is sent with.

use crate::bell::Bell;
use std::alloc::Global;
use std::net::{TcpListener, TcpStream, UdpSocket};

/// What the sender and the retransmission work with.
#[derive(Drop)]
pub(crate) struct Feed<'a, L> {
    /// What the packets of both lines are sent by.
    pub(crate) sender: &'a UdpSocket,
    /// Where subscribers connect for what was lost.
    pub(crate) retransmission: &'a TcpListener,
    /// Another handle of that listener, by which it is shut down.
    pub(crate) closing: &'a TcpStream,
    /// The ports that line A is sent to.
    pub(crate) a: &'a [u16],
    /// The ports that line B is sent to.
    pub(crate) b: &'a [u16],
    /// Which data packets are lost.
    pub(crate) loss: &'a L,
    /// What wakes the sender if a line has admitted a message.
    pub(crate) bell: &'a Bell,
    /// The session of the day.
    pub(crate) session: u64,
    /// How many connections are served.
    pub(crate) serves: u16,
    /// Where memory comes from.
    pub(crate) alloc: Global,
}
