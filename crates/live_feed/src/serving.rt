//! Where the retransmission and the sender meet: the connections that are served, and what they asked for.
ghost use Rattle.std.specs.Prelude.{◌≡◌, IfErr, IfSome};
ghost use Rattle.feed_ends.specs.declared.fault.Fault.TheVariants.{Memory};

use crate::followers::Followers;
use crate::line_slot::LineSlot;
use crate::request_flag::RequestFlag;
use feed_ends::Fault;
use std::alloc::Global;
use std::net::{Shutdown, TcpStream};
use std::sync::atomic::{AtomicBool, Ordering};
use std::sync::{Arc, Mutex, Wait};
use std::thread::Parker;
use std::time::Duration;

/// The connections that are served.
#[derive(Drop)]
struct ServedConnections {
    /// Whether the sender gave the day up: none is served any more.
    is_given_up: bool,
    /// The connections in the order in which they came, each until it ends.
    connections: Vec<Option<Arc<TcpStream>>>,
}

/// What the retransmission and the sender share: the sender learns whether something was asked for and when the last connection
/// has ended, and ends all connections if it gives the day up.
#[derive(Drop)]
pub(crate) struct Serving<'a> {
    /// What the connections ask for, if someone looks on.
    pub(crate) followers: Option<&'a Followers>,
    /// The participants' lines if someone looks on; else none.
    lines: &'a [Arc<LineSlot>],
    /// Whether something was asked for.
    pub(crate) requested: RequestFlag,
    /// Whether a connection is served or awaited.
    is_on: AtomicBool,
    /// Whether memory ran out while a connection was served.
    is_out_of_memory: AtomicBool,
    served: Mutex<ServedConnections>,
    /// Wakes the sender.
    parker: Parker,
}

impl<'a> Serving<'a> {
    /// No connection is served or awaited yet. It allocates nothing.
    pub(crate) fn new(
        alloc: Global,
        followers: Option<&'a Followers>,
        lines: &'a [Arc<LineSlot>],
    ) -> Serving<'a> {
        Serving {
            followers,
            lines,
            requested: RequestFlag::new(),
            is_on: AtomicBool::new(false),
            is_out_of_memory: AtomicBool::new(false),
            served: Mutex::new(ServedConnections {
                is_given_up: false,
                connections: Vec::new(alloc),
            }),
            parker: Parker::new(),
        }
    }

    /// Notes that connections are awaited.
    pub(crate) fn begin(&self) {
        self.is_on.store(true, Ordering::SeqCst)
    }

    /// Notes that the last connection has ended.
    pub(crate) fn end(&self) {
        self.is_on.store(false, Ordering::SeqCst);
        self.parker.unpark()
    }

    /// Waits until the last connection has ended, but no longer than this. Returns whether one is still served or awaited.
    pub(crate) fn is_left_after<R: Wait>(&self, rt: &R, most: Duration) -> bool {
        if self.is_on.load(Ordering::SeqCst) {
            self.parker.park_timeout(rt, most);
        }
        self.is_on.load(Ordering::SeqCst)
    }

    /// Enters a connection that is to be served. Returns its place among those that came, or `None` if the day was given up.
    pub(crate) fn enter<R: Wait>(
        &self,
        rt: &R,
        connection: Arc<TcpStream>,
    ) -> Result<Option<usize>, Fault>
        ensures { IfErr result (λ fault. fault ≡ Memory) }
    {
        let mut served = self.served.lock(rt);
        if served.is_given_up {
            return Ok(None);
        }
        let place = served.connections.len();
        let pushed = served.connections.push(Some(connection));
        pushed.map_err(|_| Fault::Memory)?;
        Ok(Some(place))
    }

    /// Removes the connection at this place, which has ended.
    pub(crate) fn leave<R: Wait>(&self, rt: &R, place: usize) {
        let mut served = self.served.lock(rt);
        if let Some(connection) = served.connections.get_mut(place) {
            *connection = None;
        }
    }

    /// Whether the sender has given the day up.
    pub(crate) fn is_given_up<R: Wait>(&self, rt: &R) -> bool {
        self.served.lock(rt).is_given_up
    }

    /// Ends the reading of the participants' lines, if someone looks on: what they would admit would not be sent.
    pub(crate) fn stop_lines(&self) {
        for line in self.lines {
            line.stop();
        }
    }

    /// Ends all connections that are served, and lets none come any more: reads, writes and accepts that wait return.
    /// `listener` is a handle by which the listener can be shut down. Returns how many were served.
    pub(crate) fn give_up<R: Wait>(&self, rt: &R, listener: &TcpStream) -> u32 {
        if let Some(followers) = self.followers {
            followers.give_up(rt);
        }
        let mut served = self.served.lock(rt);
        served.is_given_up = true;
        let mut many: u32 = 0;
        for connection in &served.connections {
            if let Some(connection) = connection {
                let _ = connection.shutdown(Shutdown::Both);
                many = many.saturating_add(1);
            }
        }
        drop(served);
        let _ = listener.shutdown(Shutdown::Both);
        many
    }

    /// Notes the fault with which serving a connection ended, if there was one. It can only be `Memory`.
    pub(crate) fn note(&self, met: Option<Fault>)
        requires { IfSome met (λ fault. fault ≡ Memory) }
    {
        if met.is_some() {
            self.is_out_of_memory.store(true, Ordering::SeqCst)
        }
    }

    /// Returns the fault that was noted, if one was.
    pub(crate) fn fault(&self) -> Option<Fault>
        ensures { IfSome result (λ fault. fault ≡ Memory) }
    {
        if self.is_out_of_memory.load(Ordering::SeqCst) {
            Some(Fault::Memory)
        } else {
            None
        }
    }
}
