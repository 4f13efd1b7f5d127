//! Prepares a shared day: an empty open tape, its ledger, its cells and room for what will be seen in them.
ghost use Rattle.std.specs.Prelude.{◌≡◌, ◌≢◌, ◌≤◌, ◌⊎◌, ◌↔◌, [], length, false, true, IfOk, IfErr, IfSome, Err};
ghost use Rattle.std.specs.Vec.{vec_capacity};
ghost use Rattle.line_ledger.specs.declared.open_fault.OpenFault.TheVariants.{NotEmpty, OutOfMemory};

use crate::{CellRow, OpenFault};
use seen_cells::Seen;
use std::alloc::Global;
use std::sync::ledger::Blank;
use tape_core::{Entry, IndexedTape};

/// An empty open tape, with a ledger that has no name yet and one part for each participant, and an empty cell for each
/// number up to the tape's limit.
#[derive(Drop)]
pub struct Prepared {
    pub(crate) alloc: Global,
    pub(crate) tape: IndexedTape,
    pub(crate) blank: Blank,
    pub(crate) row: CellRow,
    pub(crate) room: Vec<Seen<Entry>>, // for what the day's end sees in the cells, so that an end takes no memory
    pub ghost empty: { tape.entries ≡ [] },
    pub ghost unclosed: { tape.closed ≡ false },
    pub ghost one_each: { blank.parts ≡ length tape.listing.participants },
    pub ghost celled: { length row ≡ tape.limit },
    pub ghost unused: { room.items ≡ [] },
    pub ghost roomy: { tape.limit ≤ vec_capacity room },
}

/// Prepares a tape for a shared day, with 8 bytes for the cell of each number up to the tape's limit. What is opened later
/// allocates from `alloc`. It returns 7 NotEmpty exactly if the tape is closed or has an entry, and 8 OutOfMemory if memory
/// runs out. The tape is spent in each case.
pub fn prepare(alloc: Global, tape: IndexedTape) -> Result<Prepared, OpenFault>
    ensures ok { IfOk result (λ prepared. prepared.tape ≡ tape) }
    ensures not_empty { (result ≡ Err NotEmpty) ↔ ((tape.closed ≡ true) ⊎ (tape.entries ≢ [])) }
{
    if tape.closed() || !tape.entries().is_empty() {
        return Err(OpenFault::NotEmpty);
    }
    prepare_empty(alloc, tape)
}

/// Prepares an empty open tape.
fn prepare_empty(alloc: Global, tape: IndexedTape) -> Result<Prepared, OpenFault>
    requires empty { tape.entries ≡ [] }
    requires unclosed { tape.closed ≡ false }
    ensures ok { IfOk result (λ prepared. prepared.tape ≡ tape) }
    ensures memory { IfErr result (λ fault. fault ≡ OutOfMemory) }
{
    let Some((row, room)) = cells_and_room(alloc, tape.limit()) else {
        return Err(OpenFault::OutOfMemory);
    };
    let blank = Blank::new(tape.listing().participants().as_slice().len() as u64);
    Ok(Prepared {
        alloc,
        tape,
        blank,
        row,
        room,
    })
}

/// Returns `limit` empty cells and room for what will be seen in them, or `None` if memory runs out.
fn cells_and_room(alloc: Global, limit: u32) -> Option<(CellRow, Vec<Seen<Entry>>)>
    ensures cells { IfSome result (λ made. length made.0 ≡ limit) }
    ensures unused { IfSome result (λ made. made.1.items ≡ []) }
    ensures roomy { IfSome result (λ made. limit ≤ vec_capacity made.1) }
{
    let row = CellRow::new(alloc, limit).ok()?;
    let room = Vec::with_capacity(alloc, limit as usize).ok()?;
    Some((row, room))
}
