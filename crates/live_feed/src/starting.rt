//! Prepares a day before it starts: its empty tape, its memory, and a connection of each participant.
ghost use Rattle.std.specs.Prelude.{◌≡◌, IfOk, vec_len};

use crate::line_input::{LineInput, Reader};
use days::Day;
use feed_ends::Fault;
use line_ledger::{Prepared, prepare};
use std::alloc::Global;
use std::io::BufReader;
use std::net::TcpListener;
use tape_core::{IndexedTape, Tape};

/// Makes the empty tape of a day, and allocates the memory of that day.
pub(crate) fn prepare_day(alloc: Global, day: Day) -> Result<Prepared, Fault>
    ensures listed { IfOk result (λ prepared. prepared.tape.listing ≡ day.listing) }
    ensures by_matrix { IfOk result (λ prepared. prepared.tape.matrix ≡ day.matrix) }
    ensures limited { IfOk result (λ prepared. prepared.tape.limit ≡ day.limit) }
{
    let tape: IndexedTape = Tape::new(alloc, day.listing, day.limit.value(), day.matrix)?;
    prepare(alloc, tape).map_err(|_| Fault::Memory)
}

/// Waits for one connection at a listener, to be read in large pieces, and closes the listener.
fn accept(alloc: Global, listener: TcpListener) -> Result<Reader, Fault> {
    let Ok((stream, _)) = listener.accept() else {
        return Err(Fault::Read);
    };
    BufReader::new(alloc, LineInput::of(stream)).map_err(|_| Fault::Memory)
}

/// Waits for one connection at each listener, in their order. Each listener is closed once its connection has come, so that
/// a second one is refused and not taken to be lost.
pub(crate) fn accept_all(alloc: Global, listeners: Vec<TcpListener>) -> Result<Vec<Reader>, Fault>
    ensures { IfOk result (λ readers. vec_len readers ≡ vec_len listeners) }
{
    let mut readers = Vec::new(alloc);
    for listener in listeners {
        let reader = accept(alloc, listener)?;
        if readers.push(reader).is_err() {
            return Err(Fault::Memory);
        }
    }
    Ok(readers)
}
