//! Serves a control socket: all connections at once, each in a thread of its own.

use crate::connections::{Connections, Numbered};
use crate::listener::ControlListener;
use crate::operator::Operating;
use crate::{ControlOutcome, Operated, serve_commands};
use std::alloc::Global;
use std::io::Read;
use std::net::Shutdown;
use std::os::unix::net::UnixStream;
use std::rt::Clock;
use std::sync::{Arc, Mutex, Wait};
use std::thread::Threads;
use std::time::Duration;
use std::{io, thread};

/// How long a peer may take to receive an answer, in milliseconds.
const WRITES_WITHIN: u64 = 1_000;

/// How long to wait for bytes after a line that is too long, in milliseconds, and how often.
const DRAINS_WITHIN: u64 = 100;

const DRAINS_MOST: u32 = 16;

/// How long a connection may be silent, and how many lines it may send.
#[derive(Clone, Copy)]
struct Patience {
    /// In milliseconds.
    reads_within: u64,
    lines_most: u32,
}

/// A connection in a thread of its own.
const IN_THREAD: Patience = Patience {
    reads_within: 10_000,
    lines_most: 65_536,
};

/// A connection for which no thread could be started: the next one waits until it ends.
const BETWEEN_OTHERS: Patience = Patience {
    reads_within: 200,
    lines_most: 1,
};

type Open = Connections<Arc<UnixStream>>;

/// A client's connection, from which lines are read until the listener is closed.
#[derive(Drop)]
struct Lines<'a> {
    connection: &'a UnixStream,
    listener: &'a ControlListener,
}

impl Read for Lines<'_> {
    fn read(&mut self, buf: &mut [u8]) -> io::Result<usize> {
        if self.listener.is_closed() {
            return Ok(0);
        }
        let mut connection = self.connection;
        connection.read(buf)
    }
}

/// Sets how long a connection's calls wait at most.
fn set_patience(connection: &UnixStream, reads_within: u64) -> io::Result<()> {
    connection.set_read_timeout(Some(Duration::from_millis(reads_within)))?;
    connection.set_write_timeout(Some(Duration::from_millis(WRITES_WITHIN)))
}

/// Reads on after a line that was too long: unread bytes would cost the peer its answer.
fn drain(connection: &UnixStream) {
    let _ = connection.shutdown(Shutdown::Write);
    if set_patience(connection, DRAINS_WITHIN).is_err() {
        return;
    }
    let mut reader = connection;
    for _ in 0..DRAINS_MOST {
        match reader.read(&mut [0; 1_024]) {
            Ok(len) if len > 0 => {}
            _ => return,
        }
    }
}

/// Answers the lines of a connection until it ends. However its peer behaves, only this connection ends.
fn answer_lines<R: Wait + Clock, O: Operated>(
    rt: &R,
    alloc: Global,
    listener: &ControlListener,
    operated: &O,
    connection: &UnixStream,
    patience: Patience,
) {
    if set_patience(connection, patience.reads_within).is_err() {
        return;
    }
    let mut operating = Operating { rt, operated };
    let mut lines = Lines {
        connection,
        listener,
    };
    let end = serve_commands(
        alloc,
        patience.lines_most,
        &mut operating,
        &mut lines,
        &mut &*connection,
    );
    if matches!(end.ended, ControlOutcome::TooLong) {
        drain(connection);
    }
}

/// Adds a connection, and shuts down the oldest if there are too many, so that its reads and writes return. Returns `None` if
/// memory runs out.
fn enter<R: Wait>(
    rt: &R,
    alloc: Global,
    open: &Mutex<Open>,
    number: u64,
    stream: UnixStream,
) -> Option<Arc<UnixStream>> {
    let connection = Arc::new(alloc, stream).ok()?;
    let came = Numbered {
        number,
        connection: Arc::try_clone(&connection).ok()?,
    };
    let oldest = open.lock(rt).enter(came).ok()?;
    if let Some(oldest) = oldest {
        let _ = oldest.connection.shutdown(Shutdown::Both);
    }
    Some(connection)
}

/// Makes every open connection end after its current answer.
fn end_all<R: Wait>(rt: &R, open: &Mutex<Open>) {
    let connections = open.lock(rt);
    for open in connections.open() {
        let _ = open.connection.shutdown(Shutdown::Read);
    }
}

/// Serves a control socket until it is closed, and returns when all its connections have ended: each ends after its current
/// answer, which no peer holds up for more than `WRITES_WITHIN` a write. Connections are served at once, each in a thread of
/// its own, `CONNECTIONS_MOST` at most: the oldest is shut down if one more comes. One that is silent for ten seconds ends. If
/// no thread can be started for a connection, one line of it is answered before the next is accepted. If memory runs out, only
/// a connection ends.
pub fn serve_control<R: Threads + Wait + Clock + Sync, O: Operated + Sync>(
    rt: &R,
    alloc: Global,
    listener: &ControlListener,
    operated: &O,
) {
    let table = Mutex::new(Connections::new(alloc));
    let open = &table;
    thread::scope(thread::scope_env(), rt, move |scope| {
        for number in 0..u64::MAX {
            let Some(stream) = listener.next_connection(rt) else {
                break;
            };
            let Some(connection) = enter(rt, alloc, open, number, stream) else {
                continue;
            };
            let Ok(theirs) = Arc::try_clone(&connection) else {
                open.lock(rt).leave(number);
                continue;
            };
            let started = scope.spawn(move || {
                answer_lines(rt, alloc, listener, operated, &theirs, IN_THREAD);
                open.lock(rt).leave(number)
            });
            if started.is_err() {
                answer_lines(rt, alloc, listener, operated, &connection, BETWEEN_OTHERS);
                open.lock(rt).leave(number);
            }
        }
        end_all(rt, open)
    });
}
