//! The calls that only a subscriber has.
ghost use Rattle.std.specs.Prelude.{◌≡◌};
ghost use Rattle.batch.specs.Header.{header_listing};
ghost use Rattle.tapebox_c.specs.Exports.{OpensIn};
ghost use Rattle.tapebox_c.specs.Feeds.{DeliversIn, DrainsIn, MissingIn, conflict_of, line_numbered, news_told};
ghost use Rattle.tapebox_c.specs.Opening.{matrix_numbered, subscriber_opened};
ghost use Rattle.tapebox_c.specs.declared.held.Held.TheVariants.{Subscriber as AsSubscriber};

use crate::fault::CallFault;
use crate::handle::Handle;
use crate::held::Held;
use crate::opening::open_subscriber;
use crate::rows::{NewsRow, RequestRow, TakenRow, taken_row};
use arbitration::{DeliverFault, Line};
use std::alloc::Global;
use subscriber::DeliveryFault;
use tape_frames::write_request;

/// The line of a number.
fn line_numbered(number: u32) -> Option<Line>
    ensures { result ≡ line_numbered number }
{
    match number {
        0 => Some(Line::A),
        1 => Some(Line::B),
        2 => Some(Line::R),
        _ => None,
    }
}

/// The entry of which another is known, if a packet is refused for it, else 0.
fn conflict_of(fault: &DeliveryFault) -> u32
    ensures { result ≡ conflict_of fault.now }
{
    match fault {
        DeliveryFault::Refused(DeliverFault::Conflict(number)) => number.value(),
        _ => 0,
    }
}

/// Opens a subscriber, as a tape is opened, to the session in which the tape is sent.
#[unsafe(no_mangle)]
pub extern "C" fn tapebox_subscribe(
    alloc: Global,
    handle: &mut Handle,
    symbols: &[u8],
    participants: &[u8],
    matrix: u32,
    limit: u32,
    session: u64,
) -> u32
    ensures { OpensIn AsSubscriber handle.old.inside.held (subscriber_opened (matrix_numbered matrix) limit session (header_listing symbols.now participants.now)) result handle.new.inside.held }
{
    if handle.is_full() {
        return CallFault::InUse.code();
    }
    match open_subscriber(alloc, symbols, participants, matrix, limit, session) {
        Ok(subscriber) => handle.fill(alloc, Held::Subscriber(subscriber)),
        Err(fault) => fault.code(),
    }
}

/// Takes the packet that the bytes are, from a line: 0 for A, 1 for B, 2 for the retransmission. If it is refused, only the
/// conflict is written.
#[unsafe(no_mangle)]
pub extern "C" fn tapebox_deliver(
    alloc: Global,
    handle: &mut Handle,
    line: u32,
    packet: &[u8],
    row: &mut TakenRow,
) -> u32
    ensures { DeliversIn handle.old.inside.held (line_numbered line) packet.now result row.old row.new handle.new.inside.held }
{
    let Some(line) = line_numbered(line) else {
        return CallFault::NoLine.code();
    };
    let Some(mut held) = handle.take(alloc) else {
        return CallFault::NoSubscriber.code();
    };
    let told = held.deliver(line, packet);
    handle.put(held);
    match told {
        Some(Ok(taken)) => {
            *row = taken_row(&taken);
            0
        }
        Some(Err(fault)) => {
            row.conflict = conflict_of(&fault);
            CallFault::NotDelivered(fault).code()
        }
        None => CallFault::NoSubscriber.code(),
    }
}

/// Replays what is ready, and writes how many entries were put on the tape, even if it stops.
#[unsafe(no_mangle)]
pub extern "C" fn tapebox_drain(alloc: Global, handle: &mut Handle, drained: &mut u32) -> u32
    ensures { DrainsIn handle.old.inside.held result drained.old drained.new handle.new.inside.held }
{
    let Some(mut held) = handle.take(alloc) else {
        return CallFault::NoSubscriber.code();
    };
    let told = held.drain();
    handle.put(held);
    match told {
        Some(Ok(count)) => {
            *drained = count;
            0
        }
        Some(Err(fault)) => {
            *drained = fault.drained;
            CallFault::Stopped(fault.why).code()
        }
        None => CallFault::NoSubscriber.code(),
    }
}

/// Writes the bytes of a request for the first numbers that are missing, and how many it asks for: 0 if none is missing.
#[unsafe(no_mangle)]
pub extern "C" fn tapebox_missing(alloc: Global, handle: &mut Handle, row: &mut RequestRow) -> u32
    ensures told { MissingIn handle.old.inside.held result row.old row.new }
    ensures kept { handle.new.inside.held ≡ handle.old.inside.held }
{
    let Some(held) = handle.take(alloc) else {
        return CallFault::NoSubscriber.code();
    };
    let told = held.missing();
    handle.put(held);
    match told {
        Some(Some(request)) => {
            *row = RequestRow {
                count: u32::from(request.count.value()),
                bytes: write_request(&request),
            };
            0
        }
        Some(None) => {
            row.count = 0;
            0
        }
        None => CallFault::NoSubscriber.code(),
    }
}

/// Writes what the subscriber knows of the feed.
#[unsafe(no_mangle)]
pub extern "C" fn tapebox_news_of(alloc: Global, handle: &mut Handle, row: &mut NewsRow) -> u32
    ensures told { (result, row.new) ≡ news_told handle.old.inside.held row.old }
    ensures kept { handle.new.inside.held ≡ handle.old.inside.held }
{
    let Some(held) = handle.take(alloc) else {
        return CallFault::NoSubscriber.code();
    };
    let told = held.news();
    handle.put(held);
    let Some(news) = told else {
        return CallFault::NoSubscriber.code();
    };
    *row = news;
    0
}
