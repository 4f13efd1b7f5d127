//! Follows or watches the running day of a file, and says at its end what was heard of it.
ghost use Rattle.std.specs.Prelude.{◌≡◌, IfErr, OnOk};
ghost use Rattle.desk_words.specs.Watches.{IsRunStatus, WritesSome, WritesWhole};
ghost use Rattle.command_line.specs.Statuses.{status_code};
ghost use Rattle.command_line.specs.declared.status.Status.TheVariants.{Done, ReadFault};
ghost use Rattle.tapebox.specs.Feeds.{FollowsDay, follow_status};

use crate::outlet::Outlet;
use crate::sayings::say_day_end;
use crate::write_cause::WriteCause;
use command_line::Status;
use day_terms::FollowDay;
use desk_words::{Output, ended_status, say_followed, say_socket_fault, watch_file};
use feed_follower::{FollowEnd, FollowSockets, NoSink, follow_day};
use std::alloc::Global;
use std::io::Write;
use std::net::{Net, TcpListener, TcpStream};
use std::sync::Wait;
use std::thread::Threads;

/// Opens the sockets of a follower. If one can't be opened, that is said and its status returned.
fn open_follow<T, E>(
    rt: &T,
    alloc: Global,
    day: &FollowDay,
    errors: &mut E,
) -> Result<FollowSockets, Status>
where
    T: Net<Listener = TcpListener, Stream = TcpStream>,
    E: Write,
    ensures quiet { OnOk result (errors.new ≡ errors.old) }
    ensures status { IfErr result (λ status. status ≡ ReadFault) }
{
    match FollowSockets::open(rt, day.ports, day.retransmission) {
        Ok(sockets) => Ok(sockets),
        Err(fault) => {
            say_socket_fault(alloc, errors, fault);
            Err(Status::ReadFault)
        }
    }
}

/// Says what was heard of a day, unless there is no memory for it, and then how it ended, and returns the status. `reader_gone`
/// is whether the reader of its report's output is gone, and `cause` the cause of that output's last error.
fn say_follow_end<E: Write>(
    alloc: Global,
    errors: &mut E,
    end: &FollowEnd,
    reader_gone: bool,
    cause: Option<WriteCause>,
) -> Status
    ensures { result ≡ follow_status end.now.ended }
{
    let ended = end.outcome();
    if say_followed(alloc, errors, end) {
        return ended_status(ended);
    }
    say_day_end(alloc, errors, ended, reader_gone, cause)
}

/// Follows the day of a file, and returns the status. The report of its tape is written to `writer`; if the day's end did not
/// come, that of the entries held is, if `is_partial`. What was heard is said whatever the status, line by line, but nothing of
/// a report whose reader is gone.
pub fn run_follow_file<T, W, E>(
    rt: &T,
    alloc: Global,
    day: FollowDay,
    is_partial: bool,
    writer: &mut W,
    errors: &mut E,
) -> Status
where
    T: Threads + Wait + Net<Listener = TcpListener, Stream = TcpStream> + Sync,
    W: Outlet,
    E: Write,
    ensures { FollowsDay day.terms.day.listing day.terms.day.matrix day.terms.day.limit is_partial result writer.old writer.new (W.contents writer.old) (W.contents writer.new) }
{
    match open_follow(rt, alloc, &day, errors) {
        Ok(sockets) => {
            let (end, _sink) = follow_day(
                rt, alloc, day.terms, sockets, is_partial, NoSink, writer,
            );
            let (reader_gone, cause) = (writer.reader_is_gone(), writer.write_cause());
            say_follow_end(alloc, errors, &end, reader_gone, cause)
        }
        Err(status) => status,
    }
}

/// Watches the day of a file, and returns the status, and the writer if there is one. The readable tape is written to it as it
/// comes. What was heard is said whatever the status, line by line.
pub fn run_watch_file<T, W, E>(
    rt: &T,
    alloc: Global,
    day: FollowDay,
    writer: W,
    errors: &mut E,
) -> (Status, Option<W>)
where
    T: Threads + Wait + Net<Listener = TcpListener, Stream = TcpStream> + Sync,
    W: Output + Send + Drop,
    E: Write,
    ensures known { IsRunStatus (status_code result.0) }
    ensures whole { result.0 ≡ Done → WritesWhole W.contents day.terms.day.listing day.terms.day.matrix day.terms.day.limit writer result.1 }
    ensures part { WritesSome W.contents day.terms.day.listing day.terms.day.matrix day.terms.day.limit writer result.1 }
{
    match open_follow(rt, alloc, &day, errors) {
        Ok(sockets) => watch_file(rt, alloc, day.terms, sockets, writer, errors),
        Err(status) => (status, Some(writer)),
    }
}
