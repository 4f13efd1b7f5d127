//! Opens, accepts at, closes and removes a control socket.
ghost use Rattle.std.specs.Prelude.{◌≡◌, ◌≢◌};
ghost use Rattle.std.specs.IoError.{error_kind};
ghost use Rattle.day_control.specs.declared.control_fault.ControlFault.TheVariants.{InUse, Unopened};

use crate::place::here;
use crate::standing::{clear, enter_folder};
use crate::{ControlFault, ControlPlace};
use std::fs::Files;
use std::io::{Error, ErrorKind};
use std::net::{Net, Shutdown, TcpListener, TcpStream};
use std::os::fd::OwnedFd;
use std::os::unix::net::{UnixListener, UnixStream};
use std::rt::Clock;
use std::sync::Wait;
use std::sync::atomic::{AtomicBool, Ordering};
use std::time::Duration;
use std::{fs, io, thread};

/// How long to rest after a connection that could not be accepted, in milliseconds: what was lacking may be there again then.
const REST: u64 = 50;

/// A socket that accepts connections, of either kind.
#[derive(Drop)]
enum Listening {
    Unix(UnixListener),
    Tcp(TcpListener),
}

/// An open control socket. `serve_control` serves it until it is closed.
#[derive(Drop)]
pub struct ControlListener {
    listening: Listening,
    /// The same socket: a listener can't be shut down by its own type.
    closing: UnixStream,
    is_closed: AtomicBool,
}

/// The fault of an error in opening a socket.
fn fault_of_opening(error: &Error) -> ControlFault
    ensures in_use { error_kind error.now ≡ ErrorKind.AddrInUse → result ≡ InUse }
    ensures other { error_kind error.now ≢ ErrorKind.AddrInUse → result ≡ Unopened }
{
    match error.kind() {
        ErrorKind::AddrInUse => ControlFault::InUse,
        _ => ControlFault::Unopened,
    }
}

/// Opens the socket of a path, or of a port on 127.0.0.1. The folder of a path must be one that only its owner can enter, and
/// is made if it isn't there. A socket at the path that nobody answers at is removed first; any other file is left, and is a
/// fault.
pub fn open_control<R: Files + Net<Listener = TcpListener, Stream = TcpStream>>(
    rt: &R,
    place: &ControlPlace,
) -> Result<ControlListener, ControlFault> {
    let opened = match place {
        ControlPlace::Path(path) => {
            enter_folder(rt, path)?;
            clear(rt, path)?;
            UnixListener::bind(rt, path).and_then(|listener| ControlListener::of_path(listener))
        }
        ControlPlace::Port(port) => {
            TcpListener::bind(rt, here(*port)).and_then(|listener| ControlListener::of_port(
                listener,
            ))
        }
    };
    opened.map_err(|error| fault_of_opening(&error))
}

/// Removes the path of a control socket that was open. A port leaves nothing behind.
pub fn remove_control<R: Files>(rt: &R, place: &ControlPlace) {
    if let ControlPlace::Path(path) = place {
        let _ = fs::remove_file(rt, path);
    }
}

impl ControlListener {
    fn of_path(listener: UnixListener) -> io::Result<ControlListener> {
        let closing = UnixStream::from(OwnedFd::from(listener.try_clone()?));
        Ok(ControlListener {
            listening: Listening::Unix(listener),
            closing,
            is_closed: AtomicBool::new(false),
        })
    }

    fn of_port(listener: TcpListener) -> io::Result<ControlListener> {
        let closing = UnixStream::from(OwnedFd::from(listener.try_clone()?));
        Ok(ControlListener {
            listening: Listening::Tcp(listener),
            closing,
            is_closed: AtomicBool::new(false),
        })
    }

    /// Ends `serve_control`: no further connection is accepted and no further line is read, and an answer that was begun is
    /// written. It may be called from any thread, and never waits.
    pub fn close(&self) {
        self.is_closed.store(true, Ordering::SeqCst);
        let _ = self.closing.shutdown(Shutdown::Both);
    }

    /// Whether the socket is closed.
    pub(crate) fn is_closed(&self) -> bool {
        self.is_closed.load(Ordering::SeqCst)
    }

    /// Accepts a connection. What reads, writes and shuts down a socket does not depend on its kind, so one type serves for
    /// both.
    fn accept(&self) -> io::Result<UnixStream> {
        match &self.listening {
            Listening::Unix(listener) => {
                let (stream, _) = listener.accept()?;
                Ok(stream)
            }
            Listening::Tcp(listener) => {
                let (stream, _) = listener.accept()?;
                Ok(UnixStream::from(OwnedFd::from(stream)))
            }
        }
    }

    /// Waits for the next connection, however often one can't be accepted. Returns `None` if the socket is closed.
    pub(crate) fn next_connection<R: Wait + Clock>(&self, rt: &R) -> Option<UnixStream> {
        for _ in rt.forever() {
            let accepted = self.accept();
            if self.is_closed() {
                return None;
            }
            if let Ok(connection) = accepted {
                return Some(connection);
            }
            thread::sleep(rt, Duration::from_millis(REST));
        }
        unreachable!()
    }
}
