//! Admits messages one after the other.
ghost use Rattle.std.specs.Prelude.{◌≡◌, ◌≤◌, length};
ghost use Rattle.tapebox_c.specs.Many.{AdmitsMany, AdmitsManyIn, TurnAt};

use crate::fault::CallFault;
use crate::handle::Handle;
use crate::rows::ManyRow;
use reports::{MessageFault, decode};
use std::alloc::Global;
use tape_core::IndexedTape;

/// Admits the messages of the bytes, one after the other in their order, and writes a number for each: 0 if it was admitted,
/// else that of its refusal. It stops at the end of the bytes, if the numbers have no room for another (108), and at bytes that
/// begin with no message, with the number of their fault.
#[unsafe(no_mangle)]
pub extern "C" fn tapebox_admit_many(
    alloc: Global,
    handle: &mut Handle,
    messages: &[u8],
    numbers: &mut [u32],
    row: &mut ManyRow,
) -> u32
    ensures { AdmitsManyIn handle.old.inside.held messages.now result numbers.old numbers.new row.old row.new handle.new.inside.held }
{
    let Some(mut held) = handle.take(alloc) else {
        return CallFault::NoTape.code();
    };
    let told = held.admit_many(messages, numbers);
    handle.put(held);
    let Some((done, code)) = told else {
        return CallFault::NoTape.code();
    };
    *row = done;
    code
}

/// Admits the messages of bytes, and returns how far it came and why it stopped, 0 at the end of the bytes.
pub(crate) fn admit_each(
    tape: &mut IndexedTape,
    bytes: &[u8],
    numbers: &mut [u32],
) -> (ManyRow, u32)
    ensures { AdmitsMany bytes.now tape.old result.1 numbers.old numbers.new result.0 tape.new }
{
    let mut answered = 0;
    let mut taken = 0;
    while taken < bytes.len() {
        if answered == numbers.len() {
            return (ManyRow { answered, taken }, CallFault::NoRoom.code());
        }
        match turn(tape, bytes, taken) {
            Ok((number, next)) => {
                numbers[answered] = number;
                answered += 1;
                taken = next;
            }
            Err(fault) => return (
                ManyRow { answered, taken },
                CallFault::NoMessage(fault).code(),
            ),
        }
    }
    (ManyRow { answered, taken }, 0)
}

/// Admits the message at a place of bytes, and returns its number and the place after it.
fn turn(tape: &mut IndexedTape, bytes: &[u8], at: usize) -> Result<(u32, usize), MessageFault>
    requires within { at ≤ length bytes.now }
    ensures { TurnAt bytes.now tape.old at result tape.new }
{
    let (message, taken) = decode(&bytes[at..])?;
    let number = match tape.admit(message) {
        Ok(_) => 0,
        Err(refusal) => CallFault::Refused(refusal).code(),
    };
    Ok((number, at + taken))
}
