//! The calls that read a tape's names, and what a participant has sent.
ghost use Rattle.std.specs.Prelude.{◌≡◌};
ghost use Rattle.tapebox_c.specs.Calls.{held_tape};
ghost use Rattle.tapebox_c.specs.Exports.{told};
ghost use Rattle.tapebox_c.specs.Listed.{letter_found, name_row, symbol_found, totals_found, totals_row};

use crate::fault::CallFault;
use crate::handle::Handle;
use crate::rows::{NameRow, TotalsRow};
use std::alloc::Global;
use tape_core::Figures;

/// Writes what a participant has sent, by its letter: zeros for one that is not listed.
#[unsafe(no_mangle)]
pub extern "C" fn tapebox_totals(
    alloc: Global,
    handle: &mut Handle,
    participant: u8,
    row: &mut TotalsRow,
) -> u32
    ensures told { (result, row.new) ≡ told totals_row (totals_found (held_tape handle.old.inside.held) participant) row.old }
    ensures kept { handle.new.inside.held ≡ handle.old.inside.held }
{
    let Some(held) = handle.take(alloc) else {
        return CallFault::NoTape.code();
    };
    let found = held.totals(participant);
    handle.put(held);
    match found {
        Ok(figures) => {
            *row = totals_row(figures);
            0
        }
        Err(fault) => fault.code(),
    }
}

/// Writes the symbol at a place of the listing, from 0.
#[unsafe(no_mangle)]
pub extern "C" fn tapebox_symbol(
    alloc: Global,
    handle: &mut Handle,
    place: u32,
    row: &mut NameRow,
) -> u32
    ensures told { (result, row.new) ≡ told name_row (symbol_found (held_tape handle.old.inside.held) place) row.old }
    ensures kept { handle.new.inside.held ≡ handle.old.inside.held }
{
    let Some(held) = handle.take(alloc) else {
        return CallFault::NoTape.code();
    };
    let found = held.symbol(place);
    handle.put(held);
    match found {
        Ok(symbol) => {
            let bytes = symbol.value();
            *row = NameRow { bytes };
            0
        }
        Err(fault) => fault.code(),
    }
}

/// Writes the letter of the participant at a place of the listing, from 0.
#[unsafe(no_mangle)]
pub extern "C" fn tapebox_participant(
    alloc: Global,
    handle: &mut Handle,
    place: u32,
    letter: &mut u8,
) -> u32
    ensures told { (result, letter.new) ≡ told (λ who. who) (letter_found (held_tape handle.old.inside.held) place) letter.old }
    ensures kept { handle.new.inside.held ≡ handle.old.inside.held }
{
    let Some(held) = handle.take(alloc) else {
        return CallFault::NoTape.code();
    };
    let found = held.participant(place);
    handle.put(held);
    match found {
        Ok(participant) => {
            *letter = participant.value();
            0
        }
        Err(fault) => fault.code(),
    }
}

/// What a participant has sent, as a row.
fn totals_row(figures: Figures) -> TotalsRow
    ensures { result ≡ totals_row figures }
{
    TotalsRow {
        shares: figures.sizes,
        messages: figures.count,
        last: figures.last,
    }
}
