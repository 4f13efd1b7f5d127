//! Reads requests and their answers for another language.
ghost use Rattle.std.specs.Prelude.{◌≡◌, Ok};
ghost use Rattle.tapebox_c.specs.Asked.{AnswerRead, GivesPacket, ReadsAnswer, ReadsRequest, fault_row, request_due};

use crate::fault::CallFault;
use crate::rows::{ReplyRow, RequestFieldsRow};
use crate::sending::give_text;
use retransmit::{AskFault, ask};
use std::alloc::Global;
use std::io::sink;
use tape_frames::{REQUEST_LENGTH, Request, Span, decode_request};

/// Reads the request that the bytes are.
#[unsafe(no_mangle)]
pub extern "C" fn tapebox_read_request(request: &[u8], row: &mut RequestFieldsRow) -> u32
    ensures { ReadsRequest (request_due request.now) result row.old row.new }
{
    let Ok(request) = <[u8; REQUEST_LENGTH]>::try_from(request) else {
        return CallFault::NoRequest.code();
    };
    match decode_request(&request) {
        Ok(request) => {
            *row = RequestFieldsRow {
                session: request.session,
                from: request.from,
                count: u32::from(request.count.value()),
            };
            0
        }
        Err(fault) => CallFault::BadRequest(fault).code(),
    }
}

/// Reads the answer at the front of the bytes: how many packets it has and how many bytes were read, or why it has none.
#[unsafe(no_mangle)]
pub extern "C" fn tapebox_read_answer(alloc: Global, answer: &[u8], row: &mut ReplyRow) -> u32
    ensures { ReadsAnswer answer.now result row.old row.new }
{
    let (told, taken) = answered(alloc, answer);
    match told {
        Ok(packets) => {
            *row = ReplyRow {
                packets: packets.len(),
                taken,
                refusal: 0,
            };
            0
        }
        Err(fault) => {
            tell_fault(fault, taken, row);
            CallFault::NotAnswered(fault).code()
        }
    }
}

/// Writes the bytes of the packet at a place, from 0, of the answer at the front of the bytes, at the front of the row.
#[unsafe(no_mangle)]
pub extern "C" fn tapebox_answer_packet(
    alloc: Global,
    answer: &[u8],
    place: u32,
    row: &mut [u8],
    len: &mut usize,
) -> u32
    ensures { GivesPacket answer.now place result row.old row.new len.old len.new }
{
    let (told, _) = answered(alloc, answer);
    match told {
        Ok(packets) => {
            let Some(packet) = packets.get(place as usize) else {
                return CallFault::NoEntry.code();
            };
            give_text(packet, row, len)
        }
        Err(fault) => CallFault::NotAnswered(fault).code(),
    }
}

/// Writes why an answer has no packets. If memory ran out, the row stays as it was.
fn tell_fault(fault: AskFault, taken: usize, row: &mut ReplyRow)
    ensures { row.new ≡ fault_row fault taken row.old }
{
    let refusal = match fault {
        AskFault::OutOfMemory => return,
        AskFault::Refused(refusal) => u32::from(refusal.code()),
        _ => 0,
    };
    *row = ReplyRow {
        packets: 0,
        taken,
        refusal,
    };
}

/// A request to write when only an answer is read.
fn any_request() -> Request {
    Request {
        session: 0,
        from: 1,
        count: Span::try_new(1).unwrap(),
    }
}

/// Reads the answer at the front of the bytes as one who asked, and returns it with how many bytes it has.
fn answered(alloc: Global, bytes: &[u8]) -> (Result<Vec<Vec<u8>>, AskFault>, usize)
    ensures { AnswerRead bytes.now result.0 result.1 }
{
    let mut unread = bytes;
    let mut nowhere = sink();
    let told = ask(alloc, &any_request(), &mut unread, &mut nowhere);
    let taken = bytes.len() - unread.len();
    match told {
        // Bytes in memory are read to their end, and nothing is written, so neither fault comes.
        Err(AskFault::WriteFault) => (Err(AskFault::OutOfMemory), taken),
        Err(AskFault::ReadFault) if taken < bytes.len() => (Err(AskFault::OutOfMemory), taken),
        told => (told, taken),
    }
}
