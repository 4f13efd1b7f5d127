//! Makes the rows of a report: workers take pieces of the listing, and their rows are joined in listing order.
ghost use Rattle.std.specs.Prelude.{◌≡◌, ◌≢◌, ◌++◌, ◌+◌, ◌*◌, ◌^◌, ◌<◌, ◌≤◌, Err, Some, None, IfErr, IfOk, IfSome, OnOk, length, slice_get, take, drop};
ghost use Rattle.std.specs.List.{flat_map};
ghost use Rattle.day_report.specs.Pieces.{IsPieceAt, AreMade, AreFrom, MOST_WORKERS};
ghost use denote.Param.Send.{IsSync};
ghost use Rattle.day_report.specs.Rows.{report_rows, symbol_rows};
ghost use Rattle.day_report.specs.declared.report_fault.ReportFault.TheVariants.{BadWorkers, Unstarted, WriteFault};
ghost use Rattle.tape_types.specs.Ranges.{SYMBOLS_MOST};

use crate::{ReportFault, Row};
use std::alloc::{AllocError, Global};
use std::sync::atomic::{AtomicUsize, Ordering};
use std::thread;
use std::thread::Threads;
use summaries::Store;
use tape_core::Tape;
use tape_types::{Gate, SYMBOLS_MOST, Symbol, can_start};

/// The greatest number of workers of a report.
pub const WORKERS_MOST: usize = 64;

/// The greatest number of pieces of the listing per worker. The workers take them one after another, so a worker that is held
/// up, or whose symbols take long, leaves more of them to the others.
const PIECES_EACH: usize = 16;

/// The rows of a piece of the listing.
#[derive(Drop)]
struct Piece {
    /// The index of its first symbol in the listing.
    start: usize,
    rows: Vec<Row>,
}

/// Adds the rows of the symbol at an index of the listing: the consolidated one, then in listing order one for each
/// participant with a report that stands there.
fn push_symbol<S: Store>(
    rows: &mut Vec<Row>,
    tape: &Tape<S>,
    index: usize,
    symbol: Symbol,
) -> Result<(), AllocError>
    requires { slice_get tape.now.listing.symbols index ≡ Some symbol }
    ensures { OnOk result (rows.new.items ≡ rows.old.items ++ symbol_rows tape.now symbol) }
{
    rows.push(Row::consolidated(tape, index, symbol))?;
    for who in tape.listing().participants() {
        let Some(row) = Row::of_participant(tape, index, symbol, *who) else {
            continue;
        };
        rows.push(row)?;
    }
    Ok(())
}

/// Makes the rows of the piece that begins at index `start` of the listing. The worker has done `done` symbols before.
fn piece_rows<S: Store, G: Gate>(
    alloc: Global,
    tape: &Tape<S>,
    start: usize,
    piece: &[Symbol],
    worker: usize,
    done: u32,
    gate: &G,
) -> Result<Vec<Row>, AllocError>
    requires place { IsPieceAt tape.now.listing.symbols start piece.now }
    requires few { start + length piece.now ≤ SYMBOLS_MOST }
    requires before { done ≤ SYMBOLS_MOST * SYMBOLS_MOST }
    ensures { IfOk result (λ rows. rows.items ≡ flat_map (symbol_rows tape.now) piece.now) }
{
    let mut rows = Vec::new(alloc);
    let mut turn = 0;
    for symbol in piece {
        push_symbol(&mut rows, tape, start + turn as usize, *symbol)?;
        turn += 1;
        gate.between(worker, done + turn);
    }
    Ok(rows)
}

/// Returns at most `size` symbols of the listing from index `start` on, or `None` if `start` is at its end or past it.
fn piece_from<S: Store>(tape: &Tape<S>, start: usize, size: usize) -> Option<&[Symbol]>
    ensures piece { IfSome result (λ piece. piece.now ≡ take size (drop start tape.now.listing.symbols)) }
    ensures place { IfSome result (λ piece. IsPieceAt tape.now.listing.symbols start piece.now) }
    ensures few { IfSome result (λ piece. start + length piece.now ≤ SYMBOLS_MOST) }
    ensures some { IfSome result (λ piece. 0 < size → 0 < length piece.now) }
    ensures none { result ≡ None → length tape.now.listing.symbols ≤ start }
{
    let symbols = tape.listing().symbols().as_slice();
    if start >= symbols.len() {
        return None;
    }
    let end = symbols.len().min(start.saturating_add(size));
    Some(&symbols[start..end])
}

/// Takes the next piece that no worker has taken and makes its rows, until there is none. Returns the pieces.
fn worker_pieces<S: Store, G: Gate>(
    alloc: Global,
    tape: &Tape<S>,
    size: usize,
    next: &AtomicUsize,
    worker: usize,
    gate: &G,
) -> Result<Vec<Piece>, AllocError>
    ensures { IfOk result (λ pieces. AreMade tape.now size pieces.items) }
{
    let mut pieces = Vec::new(alloc);
    let mut done = 0;
    // There are no more pieces than symbols; the bound only shows that the loop ends.
    for _ in 0..SYMBOLS_MOST {
        let start = next.fetch_add(size, Ordering::SeqCst);
        let Some(piece) = piece_from(tape, start, size) else {
            break;
        };
        let rows = piece_rows(alloc, tape, start, piece, worker, done, gate)?;
        done += piece.len() as u32;
        pieces.push(Piece { start, rows })?;
    }
    Ok(pieces)
}

/// Returns the pieces that `count` workers take. Each worker has a thread of its own if one can be started, except the last,
/// which works in this thread. The threads are started one after another: two that are started at the same time may get one
/// processor.
#[cycle(workers)]
fn pieces_by<S: Store + Sync, G: Gate + Sync, R: Threads + Sync>(
    rt: &R,
    alloc: Global,
    tape: &Tape<S>,
    size: usize,
    next: &AtomicUsize,
    worker: usize,
    count: usize,
    gate: &G,
) -> Result<Vec<Piece>, AllocError>
    requires count { 0 < count }
    requires room { worker + count < 2 ^ 64 }
    ensures { IfOk result (λ pieces. AreMade tape.now size pieces.items) }
{
    if count == 1 {
        return worker_pieces(alloc, tape, size, next, worker, gate);
    }
    let own = move || -> Result<Vec<Piece>, AllocError>
        ensures { IfOk result (λ pieces. AreMade tape.entry.now size pieces.items) }
    { worker_pieces(alloc, tape, size, next, worker, gate) };
    let others = move || -> Result<Vec<Piece>, AllocError>
        requires { IsSync R.row × (1 < count) × (worker + count < 2 ^ 64) }
        ensures { IfOk result (λ pieces. AreMade tape.entry.now size pieces.items) }
    { pieces_by(rt, alloc, tape, size, next, worker + 1, count - 1, gate) };
    let (own, others) = thread::join(rt, own, others);
    let mut pieces = others?;
    let mut own = own?;
    pieces.append(&mut own)?;
    Ok(pieces)
}

/// Returns the rows of the piece that begins at index `start` of the listing, or `None` if it is not among `pieces`.
fn rows_from(pieces: &[Piece], start: usize) -> Option<&[Row]>
    ensures { IfSome result (λ rows. AreFrom pieces.now start rows.now) }
{
    let piece = pieces.iter().find(|piece| piece.start == start)?;
    Some(piece.rows.as_slice())
}

/// Returns the number of rows of all pieces.
fn row_count(pieces: &[Piece]) -> usize {
    let mut count: usize = 0;
    for piece in pieces {
        count = count.saturating_add(piece.rows.len());
    }
    count
}

/// Joins the pieces that the workers made into the rows of the tape.
fn joined<S: Store>(
    alloc: Global,
    tape: &Tape<S>,
    size: usize,
    pieces: &[Piece],
) -> Result<Vec<Row>, AllocError>
    requires size { 0 < size }
    requires made { AreMade tape.now size pieces.now }
    ensures { IfOk result (λ rows. rows.items ≡ report_rows tape.now) }
{
    // Allocates all of the room at once, since only one thread joins the pieces and a growing vector may be copied.
    let mut rows = Vec::with_capacity(alloc, row_count(pieces))?;
    let mut start = 0;
    while let Some(piece) = piece_from(tape, start, size) {
        // The workers took every piece, so this one is there; no clause says so.
        let Some(made) = rows_from(pieces, start) else {
            return Err(AllocError);
        };
        rows.extend_from_slice(made)?;
        start += piece.len();
    }
    Ok(rows)
}

/// Tries to start a thread, and returns `Unstarted` if none can be started. If a thread cannot be started later, the caller's
/// own thread does that worker's work.
fn try_start<R: Threads>(rt: &R) -> Result<(), ReportFault>
    ensures { IfErr result (λ fault. fault ≡ Unstarted) }
{
    if can_start(rt) {
        Ok(())
    } else {
        Err(ReportFault::Unstarted)
    }
}

/// Returns the rows of a tape: for each symbol in listing order the consolidated row, then in listing order one row for each
/// participant with a report that stands there. The rows are the same for every number of workers, 1 to `WORKERS_MOST`: each
/// worker takes one piece of the listing after another and makes its rows. A single worker starts no thread.
///
/// Errors, the first that applies: `BadWorkers` exactly if `workers` is outside 1 to `WORKERS_MOST`, `Unstarted` if `workers`
/// is 2 or more and no thread can be started, `OutOfMemory` if memory runs out. The tape is only read.
///
/// The gate is called once after each symbol of a worker's pieces, with the worker's number, from 0, and how many of its
/// symbols are done, from 1.
pub fn rows<S: Store + Sync, G: Gate + Sync, R: Threads + Sync>(
    rt: &R,
    alloc: Global,
    tape: &Tape<S>,
    workers: usize,
    gate: &G,
) -> Result<Vec<Row>, ReportFault>
    ensures rows { IfOk result (λ rows. rows.items ≡ report_rows tape.now) }
    ensures bad { result ≡ Err BadWorkers → ¬ ((1 ≤ workers) × (workers ≤ MOST_WORKERS)) }
    ensures within { ¬ ((1 ≤ workers) × (workers ≤ MOST_WORKERS)) → result ≡ Err BadWorkers }
    ensures unstarted { result ≡ Err Unstarted → 2 ≤ workers }
    ensures written { result ≢ Err WriteFault }
{
    if workers == 0 || workers > WORKERS_MOST {
        return Err(ReportFault::BadWorkers);
    }
    let symbols = tape.listing().symbols().as_slice();
    if workers == 1 {
        let rows = piece_rows(alloc, tape, 0, symbols, 0, 0, gate)?;
        return Ok(rows);
    }
    try_start(rt)?;
    let size = symbols.len().div_ceil(workers * PIECES_EACH);
    let next = AtomicUsize::new(0);
    let pieces = pieces_by(
        rt,
        alloc,
        tape,
        size,
        &next,
        0,
        workers.min(symbols.len()),
        gate,
    )?;
    let rows = joined(alloc, tape, size, &pieces)?;
    Ok(rows)
}
