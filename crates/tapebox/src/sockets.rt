//! Opens the sockets of `live`.
ghost use Rattle.std.specs.Prelude.{◌≡◌, IfErr, IfOk};
ghost use Rattle.tapebox.specs.declared.sockets.Unopened.TheVariants.{Memory, Socket};
ghost use Rattle.tapebox.specs.Feeds.{unopened_fault};

use day_terms::LiveDay;
use feed_ends::{Fault, SocketFault, SocketPlace, here};
use live_feed::LiveSockets;
use std::alloc::{AllocError, AllocFailed, Global};
use std::net::{Net, TcpListener, TcpStream, UdpSocket};

/// Why the sockets of a day are not open.
#[derive(Clone, Copy, Debug, PartialEq, Eq)]
pub enum Unopened {
    /// One could not be opened.
    Socket(SocketFault),
    /// Memory ran out.
    Memory,
}

impl From<SocketFault> for Unopened {
    ghost from_gives = { λ why unopened. unopened ≡ Socket why };

    fn from(why: SocketFault) -> Unopened {
        Unopened::Socket(why)
    }
}

impl From<AllocError> for Unopened {
    ghost from_gives = { λ _ unopened. unopened ≡ Memory };

    fn from(_refused: AllocError) -> Unopened {
        Unopened::Memory
    }
}

impl<T: Drop> From<AllocFailed<T>> for Unopened {
    ghost from_gives = { λ _ unopened. unopened ≡ Memory };

    fn from(_refused: AllocFailed<T>) -> Unopened {
        Unopened::Memory
    }
}

impl Unopened {
    /// Returns the fault that the day ends with.
    pub fn fault(self) -> Fault
        ensures { result ≡ unopened_fault self }
    {
        match self {
            Unopened::Socket(_) => Fault::Read,
            Unopened::Memory => Fault::Memory,
        }
    }
}

/// Opens a listener.
fn listen<T: Net<Listener = TcpListener, Stream = TcpStream>>(
    rt: &T,
    place: SocketPlace,
    port: u16,
) -> Result<TcpListener, SocketFault>
    ensures { IfErr result (λ why. (why.place ≡ place) × (why.port ≡ port)) }
{
    TcpListener::bind(rt, here(port)).map_err(|error| SocketFault::new(place, port, error.kind()))
}

/// Opens the socket that packets are sent from, at any free port.
fn open_sender<T: Net<Listener = TcpListener, Stream = TcpStream>>(
    rt: &T,
) -> Result<UdpSocket, SocketFault>
    ensures { IfErr result (λ why. (why.place ≡ SocketPlace.Sender) × (why.port ≡ 0)) }
{
    UdpSocket::bind(rt, here(0)).map_err(|error| SocketFault::new(
        SocketPlace::Sender,
        0,
        error.kind(),
    ))
}

/// Opens a listener for each participant, on consecutive ports from the first.
fn open_lines<T: Net<Listener = TcpListener, Stream = TcpStream>>(
    rt: &T,
    alloc: Global,
    day: &LiveDay,
) -> Result<Vec<TcpListener>, Unopened> {
    let mut lines = Vec::new(alloc);
    let ports = day.first_port..=u16::MAX;
    for (port, participant) in ports.zip(day.terms.day.listing.participants()) {
        lines.push(listen(rt, SocketPlace::Line(*participant), port)?)?;
    }
    Ok(lines)
}

/// Opens the sockets of `live`: the participants' listeners by their ports, the retransmission and then the socket that packets
/// are sent from. It returns the first fault.
pub fn open_live<T: Net<Listener = TcpListener, Stream = TcpStream>>(
    rt: &T,
    alloc: Global,
    day: &LiveDay,
) -> Result<LiveSockets, Unopened>
    ensures a { IfOk result (λ sockets. sockets.a.items ≡ day.now.a.items) }
    ensures b { IfOk result (λ sockets. sockets.b.items ≡ day.now.b.items) }
{
    Ok(LiveSockets {
        lines: open_lines(rt, alloc, day)?,
        a: Vec::from_slice(alloc, &day.a)?,
        b: Vec::from_slice(alloc, &day.b)?,
        retransmission: listen(rt, SocketPlace::Retransmission, day.retransmission)?,
        sender: open_sender(rt)?,
    })
}
