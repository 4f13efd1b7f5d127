//! Waits for the participants of a day that can be ended, at all their listeners at once.
ghost use Rattle.std.specs.Prelude.{◌≡◌, IfOk, length, vec_len};
ghost use Rattle.live_feed.specs.Accounts.{absent_stage};

use crate::accepting::is_transient;
use crate::clock::nanos_of;
use crate::line_counts::LineStage;
use crate::line_input::{LineInput, Reader};
use crate::line_slot::LineSlot;
use crate::operation::Operation;
use crate::patience::is_enough;
use feed_ends::Fault;
use std::alloc::Global;
use std::io::{BufReader, ErrorKind};
use std::net::{TcpListener, TcpStream};
use std::rt::Clock;
use std::sync::{Arc, Wait};
use std::thread;
use std::time::Duration;

/// How long to rest between two looks for connections, in milliseconds.
const REST: u64 = 5;

/// How long a read of a line waits before it looks whether the day was ended, in milliseconds.
const READ_WAIT: u64 = 50;

/// A participant's listener until its connection has come, and the connection then.
#[derive(Drop)]
struct Door {
    listener: Option<TcpListener>,
    stream: Option<TcpStream>,
}

impl Door {
    /// Whether the connection is waited for.
    fn is_open(&self) -> bool {
        self.listener.is_some()
    }
}

/// The doors at which the connections are waited for.
fn doors_of(alloc: Global, listeners: Vec<TcpListener>) -> Result<Vec<Door>, Fault>
    ensures { IfOk result (λ doors. vec_len doors ≡ vec_len listeners) }
{
    let mut doors = Vec::new(alloc);
    for listener in listeners {
        if listener.set_nonblocking(true).is_err() {
            return Err(Fault::Read);
        }
        let door = Door {
            listener: Some(listener),
            stream: None,
        };
        if doors.push(door).is_err() {
            return Err(Fault::Memory);
        }
    }
    Ok(doors)
}

/// Returns a connection that came, if one did. Its reads end by themselves after a while if nothing comes.
fn connection_at(listener: &TcpListener) -> Result<Option<TcpStream>, Fault> {
    match listener.accept() {
        Ok((stream, _)) => {
            let limited = stream.set_read_timeout(Some(Duration::from_millis(READ_WAIT)));
            limited.map_err(|_| Fault::Read)?;
            Ok(Some(stream))
        }
        Err(error) if error.kind() == ErrorKind::WouldBlock || is_transient(&error) => Ok(None),
        Err(_) => Err(Fault::Read),
    }
}

/// Looks whether a connection has come to an open door. If so, its listener is closed, so that a second one is refused, and the
/// time is noted.
fn look<R: Wait + Clock>(
    rt: &R,
    operation: &Operation,
    slot: &LineSlot,
    door: &mut Door,
) -> Result<(), Fault> {
    let Some(listener) = &door.listener else {
        return Ok(());
    };
    let Some(stream) = connection_at(listener)? else {
        return Ok(());
    };
    *door = Door {
        listener: None,
        stream: Some(stream),
    };
    slot.set_stage(rt, LineStage::Open(operation.seconds(rt)));
    Ok(())
}

/// Looks at all doors, and returns whether one is still open.
fn look_at_all<R: Wait + Clock>(
    rt: &R,
    operation: &Operation,
    doors: &mut [Door],
) -> Result<bool, Fault>
    ensures { length doors.new ≡ length doors.old }
{
    let mut is_open = false;
    for at in 0..doors.len() {
        let Some(slot) = operation.lines.get(at) else {
            return Err(Fault::Read);
        };
        look(rt, operation, slot, &mut doors[at])?;
        is_open = is_open || doors[at].is_open();
    }
    Ok(is_open)
}

/// Waits until all connections have come, this many seconds have passed, or the day was ended.
fn wait_at<R: Wait + Clock>(
    rt: &R,
    operation: &Operation,
    connect_within: Option<u32>,
    doors: &mut [Door],
) -> Result<(), Fault>
    ensures { length doors.new ≡ length doors.old }
{
    let began = nanos_of(rt);
    for _ in rt.forever() {
        let is_open = look_at_all(rt, operation, doors)?;
        if !is_open || is_enough(operation.is_ended(), connect_within, began, nanos_of(rt)) {
            return Ok(());
        }
        thread::sleep(rt, Duration::from_millis(REST));
    }
    unreachable!()
}

/// The stage of a line whose connection did not come.
fn stage_of_absent(is_ended: bool, connect_within: Option<u32>) -> LineStage
    ensures { result ≡ absent_stage is_ended connect_within }
{
    match connect_within {
        Some(seconds) if !is_ended => LineStage::Absent(seconds),
        _ => LineStage::Unawaited,
    }
}

/// Returns what a line is read from. If no connection came, its listener is closed and the line's stage is set.
fn reader_at<R: Wait>(
    rt: &R,
    alloc: Global,
    slot: &Arc<LineSlot>,
    absent: LineStage,
    door: Door,
) -> Result<Reader, Fault> {
    let Door { listener, stream } = door;
    drop(listener);
    if stream.is_none() {
        slot.set_stage(rt, absent);
    }
    let Ok(slot) = Arc::try_clone(slot) else {
        return Err(Fault::Memory);
    };
    BufReader::new(alloc, LineInput::with_slot(stream, slot)).map_err(|_| Fault::Memory)
}

/// Returns what all lines are read from, in their order.
fn readers_at<R: Wait>(
    rt: &R,
    alloc: Global,
    operation: &Operation,
    absent: LineStage,
    doors: Vec<Door>,
) -> Result<Vec<Reader>, Fault>
    ensures { IfOk result (λ readers. vec_len readers ≡ vec_len doors) }
{
    let mut readers = Vec::new(alloc);
    for door in doors {
        let Some(slot) = operation.lines.get(readers.len()) else {
            return Err(Fault::Read);
        };
        let reader = reader_at(rt, alloc, slot, absent, door)?;
        if readers.push(reader).is_err() {
            return Err(Fault::Memory);
        }
    }
    Ok(readers)
}

/// Waits for one connection at each listener, at all of them at once, until this many seconds have passed or the day was ended.
/// Returns what each line is read from, in listing order. The line of a participant that did not connect has nothing to read.
/// Errors: `Read` if a connection can't be accepted or the operation is of another listing, and `Memory`.
pub(crate) fn wait_for_lines<R: Wait + Clock>(
    rt: &R,
    alloc: Global,
    operation: &Operation,
    connect_within: Option<u32>,
    listeners: Vec<TcpListener>,
) -> Result<Vec<Reader>, Fault>
    ensures { IfOk result (λ readers. vec_len readers ≡ vec_len listeners) }
{
    let mut doors = doors_of(alloc, listeners)?;
    wait_at(rt, operation, connect_within, doors.as_mut_slice())?;
    let absent = stage_of_absent(operation.is_ended(), connect_within);
    readers_at(rt, alloc, operation, absent, doors)
}
