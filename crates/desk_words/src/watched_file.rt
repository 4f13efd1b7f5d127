//! Follows a running day that a file describes, and writes the readable tape of its entries as they come.
ghost use Rattle.std.specs.Prelude.{◌≡◌, ◌⊎◌, OnOk};
ghost use Rattle.command_line.specs.Statuses.{status_code};
ghost use Rattle.command_line.specs.declared.status.Status.TheVariants.{Done};
ghost use Rattle.desk_words.specs.Watches.{IsRunStatus, WritesPartOf, WritesSome, WritesTapeOf, WritesWhole};

use crate::Output;
use crate::run_status::ended_status;
use crate::saying::{say_ended, say_status};
use crate::telling::say_followed;
use crate::watching::{RowSink, Watched, flushed, sink_fault, unbuffered};
use command_line::Status;
use csv_days::{EntryRows, write_head};
use day_terms::FollowTerms;
use feed_ends::Fault;
use feed_follower::{FollowEnd, FollowSockets, follow_tape_day};
use std::alloc::Global;
use std::io::{BufWriter, Write};
use std::net::{Net, TcpListener, TcpStream};
use std::sync::Wait;
use std::thread::Threads;

/// How a day ended whose rows were written.
struct RowsEnd<W> {
    /// How it was followed, or `None` if the names of the columns could not be written.
    end: Option<FollowEnd>,
    /// The fault that ended it, if any.
    ended: Result<(), Fault>,
    writer: W,
}

/// Follows a day, writes the rows of its tape to a writer as they come, and returns the writer.
#[tactic(auto, using(crate::proofs::WatchLemmas::head_part))]
fn watch_rows<T, W>(
    rt: &T,
    alloc: Global,
    terms: FollowTerms,
    sockets: FollowSockets,
    writer: W,
) -> RowsEnd<W>
where
    T: Threads + Wait + Net<Listener = TcpListener, Stream = TcpStream> + Sync,
    W: Write + Send + Drop,
    ensures whole { OnOk result.ended (WritesTapeOf terms.day.listing terms.day.matrix terms.day.limit (W.contents writer) (W.contents result.writer)) }
    ensures part { (result.writer ≡ writer) ⊎ WritesPartOf terms.day.listing terms.day.matrix terms.day.limit (W.contents writer) (W.contents result.writer) }
{
    let mut writer = writer;
    if let Err(fault) = write_head(alloc, &mut writer) {
        return RowsEnd {
            end: None,
            ended: Err(sink_fault(fault).fault()),
            writer,
        };
    }
    let sink = RowSink {
        rows: EntryRows::new(alloc),
        writer,
    };
    let (end, sink) = follow_tape_day(rt, alloc, terms, sockets, sink);
    let RowSink {
        rows: _,
        mut writer,
    } = sink;
    let ended = flushed(end.outcome(), &mut writer);
    RowsEnd {
        end: Some(end),
        ended,
        writer,
    }
}

/// Watches the day that a file describes as a follower: it writes the readable tape of its entries to a writer as they come,
/// and returns the status and the writer. The writer, its buffer and the statuses are as in `watch`. What was heard of the day
/// is said on `errors`, line by line, with any status.
#[tactic(auto, using(crate::proofs::WatchLemmas::run_status, crate::proofs::WatchLemmas::done_well))]
pub fn watch_file<T, W, E>(
    rt: &T,
    alloc: Global,
    terms: FollowTerms,
    sockets: FollowSockets,
    writer: W,
    errors: &mut E,
) -> (Status, Option<W>)
where
    T: Threads + Wait + Net<Listener = TcpListener, Stream = TcpStream> + Sync,
    W: Output + Send + Drop,
    E: Write,
    ensures known { IsRunStatus (status_code result.0) }
    ensures whole { result.0 ≡ Done → WritesWhole W.contents terms.day.listing terms.day.matrix terms.day.limit writer result.1 }
    ensures part { WritesSome W.contents terms.day.listing terms.day.matrix terms.day.limit writer result.1 }
{
    let Ok(buffer) = BufWriter::new(alloc, writer) else {
        say_status(errors, Status::OutOfMemory);
        return (Status::OutOfMemory, None);
    };
    let RowsEnd {
        end,
        ended,
        writer: buffer,
    } = watch_rows(rt, alloc, terms, sockets, buffer);
    let Watched {
        ended,
        reader_gone,
        writer,
    } = unbuffered(ended, buffer);
    let status = ended_status(ended);
    let is_named = match &end {
        Some(end) => say_followed(alloc, errors, end),
        None => false,
    };
    if !is_named {
        say_ended(errors, status, reader_gone);
    }
    (status, writer)
}
