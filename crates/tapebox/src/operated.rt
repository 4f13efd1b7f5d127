//! Runs the day of a file, beside its control socket if it has one, and says at its end what became of it.
ghost use Rattle.std.specs.Prelude.{◌≡◌, ◌⊎◌, IfErr, IfOk, IfSome, IsSome, None, OnOk};
ghost use Rattle.std.specs.Thread.{IsSync};
ghost use Rattle.desk_words.specs.RunStatuses.{ended_status};
ghost use Rattle.feed_ends.specs.Reports.{WritesItsReport};
ghost use Rattle.command_line.specs.declared.status.Status.TheVariants.{OutOfMemory, ReadFault};
ghost use Rattle.tapebox.specs.Feeds.{EndsDay, RunsDay};

use crate::asking::say_control_fault;
use crate::day::LiveFile;
use crate::file_journal::FileJournal;
use crate::kept_journal::{OpenJournal, open_journal};
use crate::outlet::Outlet;
use crate::sayings::{say_day_end, say_no_memory, say_of_journal};
use crate::sockets::{Unopened, open_live};
use crate::write_cause::WriteCause;
use command_line::Status;
use day_control::{ControlListener, Operated, open_control, remove_control, serve_control};
use day_terms::{LiveDay, LiveTerms};
use desk_words::say_socket_fault;
use feed_ends::Fault;
use journal_start::PastLine;
use live_feed::{DayJournal, LiveEnd, LiveSockets, NoLoss, Operation, live_day};
use std::alloc::{AllocError, Global};
use std::fs::{File, Files};
use std::io::Write;
use std::net::{Net, TcpListener, TcpStream};
use std::rt::Clock;
use std::sync::Wait;
use std::thread::{Threads, join_mut};

/// What a day has once its sockets are open.
#[derive(Drop)]
struct OpenDay {
    terms: LiveTerms,
    sockets: LiveSockets,
    operation: Operation,
}

/// The day that a control socket operates.
#[derive(Drop)]
struct OperatedDay<'a> {
    operation: &'a Operation,
}

impl Operated for OperatedDay<'_> {
    fn put_status<R: Wait + Clock>(&self, rt: &R, text: &mut Vec<u8>) -> Result<(), AllocError> {
        self.operation.put_status(rt, text)
    }

    fn end<R: Wait>(&self, _rt: &R) -> bool {
        self.operation.end()
    }
}

/// What a day needs to run.
#[derive(Drop)]
struct Parts {
    terms: LiveTerms,
    sockets: LiveSockets,
    journal: Option<DayJournal<FileJournal>>,
}

/// Runs the day of these parts, which are taken out, and then closes its control socket. It returns `None` if there are none.
fn run_parts<T, W>(
    rt: &T,
    alloc: Global,
    parts: &mut Option<Parts>,
    operation: &Operation,
    listener: &ControlListener,
    writer: &mut W,
) -> Option<LiveEnd>
where
    T: Threads + Wait + Clock + Sync,
    W: Write,
    requires { IsSome parts.old }
    ensures taken { parts.new ≡ None }
    ensures some { IsSome result }
    ensures end { IfSome parts.old (λ parts. IfSome result (EndsDay parts.terms.day.listing parts.terms.day.matrix parts.terms.day.limit
        writer.old writer.new (W.contents writer.old) (W.contents writer.new))) }
{
    let end = match parts.take() {
        Some(
            Parts {
                terms,
                sockets,
                journal,
            },
        ) => Some(live_day(
            rt, alloc, terms, sockets, &NoLoss, operation, journal, writer,
        )),
        None => None,
    };
    listener.close();
    end
}

/// Runs a day beside its control socket, which is closed at its end. If no thread can be started, the day runs without it.
fn run_controlled<T, W>(
    rt: &T,
    alloc: Global,
    parts: Parts,
    operation: &Operation,
    listener: &ControlListener,
    writer: &mut W,
) -> LiveEnd
where
    T: Threads + Wait + Clock + Sync,
    W: Write,
    ensures { EndsDay parts.terms.day.listing parts.terms.day.matrix parts.terms.day.limit writer.old writer.new (W.contents writer.old) (W.contents writer.new) result }
{
    let mut waiting = Some(parts);
    let operated = OperatedDay { operation };
    let ((), end) = join_mut(
        rt,
        &mut || serve_control(rt, alloc, listener, &operated),
        &mut || -> Option<LiveEnd>
            requires { IsSync T.row × IsSome waiting }
            ensures { (waiting.exit ≡ None) × IsSome result
                × IfSome waiting.entry (λ day. IfSome result (EndsDay day.terms.day.listing day.terms.day.matrix day.terms.day.limit
                writer.entry.now writer.exit.now (W.contents writer.entry.now) (W.contents writer.exit.now))) }
        { run_parts(rt, alloc, &mut waiting, operation, listener, writer) },
    );
    match (waiting, end) {
        (None, Some(end)) => end,
        _ => unreachable!(),
    }
}

/// Opens the sockets of a day. If one can't be opened or memory runs out, that is said and its status returned.
fn open_day<T, E>(rt: &T, alloc: Global, day: LiveDay, errors: &mut E) -> Result<OpenDay, Status>
where
    T: Clock + Net<Listener = TcpListener, Stream = TcpStream>,
    E: Write,
    ensures quiet { OnOk result (errors.new ≡ errors.old) }
    ensures status { IfErr result (λ status. (status ≡ ReadFault) ⊎ (status ≡ OutOfMemory)) }
    ensures terms { IfOk result (λ ready. ready.terms ≡ day.terms) }
{
    let sockets = match open_live(rt, alloc, &day) {
        Ok(sockets) => sockets,
        Err(Unopened::Socket(fault)) => {
            say_socket_fault(alloc, errors, fault);
            return Err(Status::ReadFault);
        }
        Err(Unopened::Memory) => return Err(say_no_memory(errors)),
    };
    let terms = day.terms;
    let Ok(operation) = Operation::new(rt, alloc, &terms.day.listing, terms.serves) else {
        return Err(say_no_memory(errors));
    };
    Ok(OpenDay {
        terms,
        sockets,
        operation,
    })
}

/// Notes how far the participants' lines had come in a day that is continued.
fn note_lines<T: Wait>(rt: &T, operation: &Operation, lines: &[PastLine]) {
    for line in lines {
        if line.admitted > 0 {
            operation.go_on(rt, line.who, line.admitted, line.last);
        }
    }
}

/// Returns the journal of a day and its path, if it keeps one. The operation notes how far the lines had come.
fn split_journal<T: Wait>(
    rt: &T,
    operation: &Operation,
    opened: Option<OpenJournal>,
) -> (Option<DayJournal<FileJournal>>, Option<String>) {
    let Some(
        OpenJournal {
            path,
            journal,
            lines,
        },
    ) = opened
    else {
        return (None, None);
    };
    note_lines(rt, operation, &lines);
    (Some(journal), Some(path))
}

/// Says that the journal could not be written if so, and then how the day ended, and returns the status.
fn say_end<E: Write>(
    alloc: Global,
    errors: &mut E,
    ended: Result<(), Fault>,
    failed_journal: Option<&str>,
    reader_gone: bool,
    cause: Option<WriteCause>,
) -> Status
    ensures { result ≡ ended_status ended }
{
    let Some(path) = failed_journal else {
        return say_day_end(alloc, errors, ended, reader_gone, cause);
    };
    say_of_journal(alloc, errors, path, &WriteCause::Other);
    match ended {
        Err(Fault::Write) => Status::WriteFault,
        _ => say_day_end(alloc, errors, ended, reader_gone, cause),
    }
}

/// Runs a day, beside its control socket if it has one, says what became of it, and returns the status.
#[tactic(auto, using(crate::proofs::FeedLemmas::unready_day))]
fn run_day<T, W, E>(
    rt: &T,
    alloc: Global,
    day: LiveDay,
    opened: Option<OpenJournal>,
    listener: Option<&ControlListener>,
    writer: &mut W,
    errors: &mut E,
) -> Status
where
    T: Threads + Wait + Clock + Net<Listener = TcpListener, Stream = TcpStream> + Sync,
    W: Outlet,
    E: Write,
    ensures { RunsDay (WritesItsReport day.terms.day.listing day.terms.day.matrix day.terms.day.limit) result writer.old writer.new (W.contents writer.old) (W.contents writer.new) }
{
    let OpenDay {
        terms,
        sockets,
        operation,
    } = match open_day(rt, alloc, day, errors) {
        Ok(ready) => ready,
        Err(status) => return status,
    };
    let (journal, path) = split_journal(rt, &operation, opened);
    let end = match listener {
        Some(listener) => {
            let parts = Parts {
                terms,
                sockets,
                journal,
            };
            run_controlled(rt, alloc, parts, &operation, listener, writer)
        }
        None => live_day(
            rt, alloc, terms, sockets, &NoLoss, &operation, journal, writer,
        ),
    };
    let _said = end.account.write(errors);
    let failed = if end.journal_failed {
        path.as_deref()
    } else {
        None
    };
    let (reader_gone, cause) = (writer.reader_is_gone(), writer.write_cause());
    say_end(alloc, errors, end.result, failed, reader_gone, cause)
}

/// Runs a day whose journal is open, if it keeps one, beside its control socket if it has one.
#[tactic(auto, using(crate::proofs::FeedLemmas::uncontrolled_day))]
fn run_opened<T, W, E>(
    rt: &T,
    alloc: Global,
    file: LiveFile,
    opened: Option<OpenJournal>,
    writer: &mut W,
    errors: &mut E,
) -> Status
where
    T: Threads + Wait + Clock + Files + Net<Listener = TcpListener, Stream = TcpStream> + Sync,
    W: Outlet,
    E: Write,
    ensures { RunsDay (WritesItsReport file.day.terms.day.listing file.day.terms.day.matrix file.day.terms.day.limit) result writer.old writer.new (W.contents writer.old) (W.contents writer.new) }
{
    let mut file = file;
    let Some(place) = file.control.take() else {
        return run_day(rt, alloc, file.day, opened, None, writer, errors);
    };
    match open_control(rt, &place) {
        Ok(listener) => {
            let status = run_day(rt, alloc, file.day, opened, Some(&listener), writer, errors);
            remove_control(rt, &place);
            status
        }
        Err(fault) => say_control_fault(alloc, errors, &place, fault),
    }
}

/// Runs the day of a file, and returns its status. The report is written to `writer`, and what became of the day is said
/// whatever the status, line by line, but nothing of a report whose reader is gone. Its journal is opened first: if it is not
/// this day's, the status is `Bad`, and nothing else is opened or written. Its control socket is opened before all other
/// sockets, and removed once the day has ended.
#[tactic(auto, using(crate::proofs::FeedLemmas::unopened_day))]
pub fn run_live_file<T, W, E>(
    rt: &T,
    alloc: Global,
    file: LiveFile,
    writer: &mut W,
    errors: &mut E,
) -> Status
where
    T: Threads
        + Wait
        + Clock
        + Files<File = File>
        + Net<Listener = TcpListener, Stream = TcpStream>
        + Sync,
    W: Outlet,
    E: Write,
    ensures { RunsDay (WritesItsReport file.day.terms.day.listing file.day.terms.day.matrix file.day.terms.day.limit) result writer.old writer.new (W.contents writer.old) (W.contents writer.new) }
{
    let mut file = file;
    let Some(place) = file.journal.take() else {
        return run_opened(rt, alloc, file, None, writer, errors);
    };
    match open_journal(rt, alloc, &file.day.terms.day, place, errors) {
        Ok(opened) => run_opened(rt, alloc, file, Some(opened), writer, errors),
        Err(status) => status,
    }
}
