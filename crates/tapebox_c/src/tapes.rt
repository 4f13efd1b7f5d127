//! The calls of a tape, and those that a subscriber shares with it.
ghost use Rattle.std.specs.Prelude.{◌≡◌, None};
ghost use Rattle.batch.specs.Header.{header_listing};
ghost use Rattle.tapebox_c.specs.Calls.{held_tape};
ghost use Rattle.tapebox_c.specs.Exports.{AdmitsIn, ClosesIn, EntryTold, OpensIn, count_told, entry_found, summary_found, summary_of_found, told};
ghost use Rattle.tapebox_c.specs.Rows.{summary_row};
ghost use Rattle.tapebox_c.specs.Opening.{matrix_numbered, tape_opened};
ghost use Rattle.tapebox_c.specs.declared.held.Held.TheVariants.{Tape as AsTape};

use crate::fault::CallFault;
use crate::handle::Handle;
use crate::held::Held;
use crate::opening::open_tape;
use crate::rows::{AnswerRow, EntryRow, SummaryRow, answer_row, entry_row, summary_row};
use std::alloc::Global;

/// Opens a tape: the symbols and the participants' letters with single spaces between them, the matrix (1 or 2) and the most
/// entries. The handle must hold nothing.
#[unsafe(no_mangle)]
pub extern "C" fn tapebox_open(
    alloc: Global,
    handle: &mut Handle,
    symbols: &[u8],
    participants: &[u8],
    matrix: u32,
    limit: u32,
) -> u32
    ensures { OpensIn AsTape handle.old.inside.held (tape_opened (matrix_numbered matrix) limit (header_listing symbols.now participants.now)) result handle.new.inside.held }
{
    if handle.is_full() {
        return CallFault::InUse.code();
    }
    match open_tape(alloc, symbols, participants, matrix, limit) {
        Ok(tape) => handle.fill(alloc, Held::Tape(tape)),
        Err(fault) => fault.code(),
    }
}

/// Admits the message that the bytes are. The answer is written if it was admitted.
#[unsafe(no_mangle)]
pub extern "C" fn tapebox_admit(
    alloc: Global,
    handle: &mut Handle,
    message: &[u8],
    answer: &mut AnswerRow,
) -> u32
    ensures { AdmitsIn handle.old.inside.held message.now result answer.old answer.new handle.new.inside.held }
{
    let Some(mut held) = handle.take(alloc) else {
        return CallFault::NoTape.code();
    };
    let told = held.admit(message);
    handle.put(held);
    match told {
        Ok(entry) => {
            *answer = answer_row(&entry);
            0
        }
        Err(fault) => fault.code(),
    }
}

/// Closes the day: the tape then admits nothing more.
#[unsafe(no_mangle)]
pub extern "C" fn tapebox_close(alloc: Global, handle: &mut Handle) -> u32
    ensures { ClosesIn handle.old.inside.held result handle.new.inside.held }
{
    let Some(mut held) = handle.take(alloc) else {
        return CallFault::NoTape.code();
    };
    let told = held.close();
    handle.put(held);
    match told {
        Ok(()) => 0,
        Err(fault) => fault.code(),
    }
}

/// Writes the consolidated summary of a symbol, by its name without padding.
#[unsafe(no_mangle)]
pub extern "C" fn tapebox_summary(
    alloc: Global,
    handle: &mut Handle,
    symbol: &[u8],
    row: &mut SummaryRow,
) -> u32
    ensures told { (result, row.new) ≡ told summary_row (summary_found (held_tape handle.old.inside.held) symbol.now) row.old }
    ensures kept { handle.new.inside.held ≡ handle.old.inside.held }
{
    let Some(held) = handle.take(alloc) else {
        return CallFault::NoTape.code();
    };
    let found = held.summary(symbol);
    handle.put(held);
    match found {
        Ok(summary) => {
            *row = summary_row(&summary);
            0
        }
        Err(fault) => fault.code(),
    }
}

/// Writes a participant's own summary of a symbol, by its letter and the symbol's name.
#[unsafe(no_mangle)]
pub extern "C" fn tapebox_summary_of(
    alloc: Global,
    handle: &mut Handle,
    symbol: &[u8],
    participant: u8,
    row: &mut SummaryRow,
) -> u32
    ensures told { (result, row.new) ≡ told summary_row (summary_of_found (held_tape handle.old.inside.held) symbol.now participant) row.old }
    ensures kept { handle.new.inside.held ≡ handle.old.inside.held }
{
    let Some(held) = handle.take(alloc) else {
        return CallFault::NoTape.code();
    };
    let found = held.summary_of(symbol, participant);
    handle.put(held);
    match found {
        Ok(summary) => {
            *row = summary_row(&summary);
            0
        }
        Err(fault) => fault.code(),
    }
}

/// Returns how many entries the tape has, 0 if there is none.
#[unsafe(no_mangle)]
pub extern "C" fn tapebox_count(alloc: Global, handle: &mut Handle) -> u32
    ensures count { result ≡ count_told (held_tape handle.old.inside.held) }
    ensures kept { handle.new.inside.held ≡ handle.old.inside.held }
{
    let Some(held) = handle.take(alloc) else {
        return 0;
    };
    let count = held.count();
    handle.put(held);
    count
}

/// Writes the entry of a tape number.
#[unsafe(no_mangle)]
pub extern "C" fn tapebox_entry(
    alloc: Global,
    handle: &mut Handle,
    number: u32,
    row: &mut EntryRow,
) -> u32
    ensures told { EntryTold (entry_found (held_tape handle.old.inside.held) number) result row.old row.new }
    ensures kept { handle.new.inside.held ≡ handle.old.inside.held }
{
    let Some(held) = handle.take(alloc) else {
        return CallFault::NoTape.code();
    };
    let found = held.entry(number);
    handle.put(held);
    match found {
        Ok(entry) => {
            *row = entry_row(&entry);
            0
        }
        Err(fault) => fault.code(),
    }
}

/// Frees what the handle holds, if anything. The handle holds nothing then, and may be opened again.
#[unsafe(no_mangle)]
pub extern "C" fn tapebox_free(alloc: Global, handle: &mut Handle)
    ensures { handle.new.inside.held ≡ None }
{
    let _ = handle.take(alloc);
}
