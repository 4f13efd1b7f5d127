//! Runs `live` and `follow` by arguments in a row, and says how they ended.
ghost use Rattle.std.specs.Prelude.{◌≡◌, ◌≢◌};
ghost use Rattle.command_line.specs.Statuses.{status_code, status_text};
ghost use Rattle.feed_ends.specs.Reports.{WritesItsReport};
ghost use Rattle.tapebox.specs.Program.{IsFeedStatus, RunsFeed};
ghost use Rattle.whole_io.specs.Writing.{WritesPrefix};

use crate::sockets::open_live;
use command_line::Status;
use day_terms::{FollowDay, LiveDay};
use desk_words::{ended_status, fault_status, say_status};
use feed_follower::{FollowSockets, NoSink, follow_ended};
use live_feed::NoLoss;
use std::alloc::Global;
use std::io::Write;
use std::net::{Net, TcpListener, TcpStream};
use std::rt::Clock;
use std::sync::Wait;
use std::thread::Threads;

/// Says the status of a run, if there is something to say of it.
fn report_status<E: Write>(errors: &mut E, status: Status)
    ensures quiet { status_code status ≡ 0 → errors.new ≡ errors.old }
    ensures said { WritesPrefix (status_text status) (E.contents errors.old) (E.contents errors.new) }
{
    say_status(errors, status);
}

/// Runs `live` with its arguments, and returns its status. If it is 0, the report of a legal tape is written.
fn live_status<T, W>(rt: &T, alloc: Global, day: LiveDay, writer: &mut W) -> Status
where
    T: Threads + Wait + Clock + Net<Listener = TcpListener, Stream = TcpStream> + Sync,
    W: Write,
    ensures report { status_code result ≡ 0 → WritesItsReport day.terms.day.listing day.terms.day.matrix day.terms.day.limit (W.contents writer.old) (W.contents writer.new) }
    ensures unwritten { status_code result ≢ 0 → status_code result ≢ 4 → writer.new ≡ writer.old }
    ensures known { IsFeedStatus (status_code result) }
{
    match open_live(rt, alloc, &day) {
        Ok(sockets) => {
            let ended = live_feed::run_live(rt, alloc, day.terms, sockets, &NoLoss, writer);
            ended_status(ended)
        }
        Err(unopened) => fault_status(unopened.fault()),
    }
}

/// Runs `live` with its arguments, says how it ended, and returns its status.
pub fn run_live<T, W, E>(
    rt: &T,
    alloc: Global,
    day: LiveDay,
    writer: &mut W,
    errors: &mut E,
) -> Status
where
    T: Threads + Wait + Clock + Net<Listener = TcpListener, Stream = TcpStream> + Sync,
    W: Write,
    E: Write,
    ensures { RunsFeed (WritesItsReport day.terms.day.listing day.terms.day.matrix day.terms.day.limit) result writer.old writer.new (W.contents writer.old) (W.contents writer.new) errors.old errors.new
        (E.contents errors.old) (E.contents errors.new) }
{
    let status = live_status(rt, alloc, day, writer);
    report_status(errors, status);
    status
}

/// Runs `follow` with its arguments, and returns its status. If it is 0, the report of a legal tape is written.
fn follow_status<T, W>(rt: &T, alloc: Global, day: FollowDay, writer: &mut W) -> Status
where
    T: Threads + Wait + Net<Listener = TcpListener, Stream = TcpStream> + Sync,
    W: Write,
    ensures report { status_code result ≡ 0 → WritesItsReport day.terms.day.listing day.terms.day.matrix day.terms.day.limit (W.contents writer.old) (W.contents writer.new) }
    ensures unwritten { status_code result ≢ 0 → status_code result ≢ 4 → writer.new ≡ writer.old }
    ensures known { IsFeedStatus (status_code result) }
{
    match FollowSockets::open(rt, day.ports, day.retransmission) {
        Ok(sockets) => {
            let (ended, _sink) = follow_ended(rt, alloc, day.terms, sockets, None, NoSink, writer);
            ended_status(ended)
        }
        Err(_) => Status::ReadFault,
    }
}

/// Runs `follow` with its arguments, says how it ended, and returns its status.
pub fn run_follow<T, W, E>(
    rt: &T,
    alloc: Global,
    day: FollowDay,
    writer: &mut W,
    errors: &mut E,
) -> Status
where
    T: Threads + Wait + Net<Listener = TcpListener, Stream = TcpStream> + Sync,
    W: Write,
    E: Write,
    ensures { RunsFeed (WritesItsReport day.terms.day.listing day.terms.day.matrix day.terms.day.limit) result writer.old writer.new (W.contents writer.old) (W.contents writer.new) errors.old errors.new
        (E.contents errors.old) (E.contents errors.new) }
{
    let status = follow_status(rt, alloc, day, writer);
    report_status(errors, status);
    status
}
