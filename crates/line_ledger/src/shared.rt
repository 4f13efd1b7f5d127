//! Shares a day's tape behind one lock, with its cells beside the lock: calls admit, view, publish, read and end.
ghost use Rattle.std.specs.Prelude.{◌≡◌, ◌≤◌, ◌↔◌, false, map, length, IfOk, IfErr, IfSome, IsTrue, Err};
ghost use Rattle.tape_core.specs.Tape.{lists_symbol};
ghost use Rattle.line_ledger.specs.Days.{terms_of};
ghost use Rattle.line_ledger.specs.declared.end_fault.EndFault.TheVariants.{MissingSeat, Disagrees};
ghost use Rattle.line_ledger.specs.declared.open_fault.OpenFault.TheVariants.{OutOfMemory};
ghost use Rattle.line_ledger.specs.declared.view_fault.ViewFault.TheVariants.{UnknownSymbol};
ghost use Rattle.line_ledger.specs.Admissions.{Tells, TellsWhy};
ghost use Rattle.line_ledger.specs.Cells.{IsTokenOf, FirstTokens, HaveAll};
ghost use Rattle.line_ledger.specs.Ends.{IsOneEach, IsEnd, IsDispute};
ghost use Rattle.line_ledger.specs.Seats.{untold};
ghost use Rattle.line_ledger.specs.Views.{IsShown};

use crate::{
    CellRow, Day, DayName, EndFault, LineRefusal, LineSeat, Locked, OpenFault, Prepared,
    PublishFault, Receipt, Sighting, Token, Unended, View, ViewFault,
};
use reports::Message;
use std::alloc::Global;
use std::hint::spin_loop;
use std::marker::Model;
use std::sync::{Mutex, MutexGuard, Wait};
use tape_core::Entry;
use tape_types::Symbol;

/// How often a call of the sender or of a viewer tries the lock before it may sleep.
const TRIES: u32 = 30;

/// How often a line tries the lock before it may sleep: less often, so that lines that meet at the lock sleep and let the
/// sender pass.
const LINE_TRIES: u32 = 6;

/// The number of turns of `spin_loop` between two tries, about as long as ten admissions take. With more frequent tries the
/// lock and the end of the tape would move from one processor's caches to another's at each message.
const TURNS: u32 = 200;

/// Spins for `TURNS` turns.
fn pause() {
    for _ in 0..TURNS {
        spin_loop();
    }
}

/// A day's tape behind one lock, with its cells beside it. Whenever the lock is free, what it guards is the day's legal open
/// tape, and a book that counts its entries. A contract sees the names of the cells.
#[derive(Drop)]
pub struct SharedTape<D: DayName> {
    locked: Mutex<Locked<D>>,
    row: CellRow,
}

impl<D: DayName> Model for SharedTape<D> {
    ghost use Rattle.std.specs.Prelude.{List, ℕ};

    ghost Value = { List ℕ };

    ghost view = { λ s. s.row };
}

impl<D: DayName> SharedTape<D> {
    /// Opens the day. It returns the shared tape and a seat for each participant, in listing order and told nothing, or 8
    /// OutOfMemory if memory runs out. What was prepared is spent in both cases. `D` must name what was prepared.
    pub fn open(prepared: Prepared) -> Result<(SharedTape<D>, Vec<LineSeat<D>>), OpenFault>
        requires name { prepared.blank.name ≡ D.name }
        requires parts { prepared.blank.parts ≡ D.parts }
        requires terms { terms_of prepared.tape ≡ D.terms }
        ensures cells { IfOk result (λ r. length r.0 ≡ prepared.tape.limit) }
        ensures seats { IfOk result (λ r. r.1.items ≡ map untold prepared.tape.listing.participants) }
        ensures each { IfOk result (λ r. IsOneEach D.terms.listing.participants r.1.items) }
        ensures memory { IfErr result (λ fault. fault ≡ OutOfMemory) }
    {
        let (locked, row, seats) = Locked::start(prepared)?;
        Ok((
            SharedTape {
                locked: Mutex::new(locked),
                row,
            },
            seats,
        ))
    }

    /// Takes the lock. Its holder is done sooner than a thread could sleep and be woken, so the lock is tried `tries` times
    /// before the thread may sleep.
    #[inline(always)]
    fn lock(&self, rt: &impl Wait, tries: u32) -> MutexGuard<'_, Locked<D>> {
        for _ in 0..tries {
            if let Some(guard) = self.locked.try_lock() {
                return guard;
            }
            pause();
        }
        self.locked.lock(rt)
    }

    /// Admits a message of the seat's participant under the lock, as `Locked::admit` does, with its refusals. No clause can
    /// name the tape of that moment, so the clauses say what the seat's holder learns. It may wait for the lock.
    #[inline(always)]
    pub fn admit(
        &self,
        rt: &impl Wait,
        seat: &mut LineSeat<D>,
        message: Message,
    ) -> Result<Receipt, LineRefusal>
        ensures ok { IfOk result (λ r. Tells seat.old message r seat.new) }
        ensures err { IfErr result (λ why. TellsWhy D.terms seat.old message why seat.new) }
    {
        self.lock(rt, LINE_TRIES).admit(seat, message)
    }

    /// Shows the seat's holder a symbol's consolidated summary under the lock, as `Locked::view` does, with its refusals:
    /// `UnknownSymbol`, then 94 Behind. It may wait for the lock.
    pub fn view(
        &self,
        rt: &impl Wait,
        seat: &LineSeat<D>,
        symbol: Symbol,
    ) -> Result<View, ViewFault>
        ensures ok { IfOk result (IsShown D.terms seat.now symbol) }
        ensures told { IfOk result (λ view. length seat.now.told ≤ view.count) }
        ensures unlisted { (result ≡ Err UnknownSymbol) ↔ (lists_symbol D.terms.listing symbol ≡ false) }
    {
        self.lock(rt, TRIES).view(seat, symbol)
    }

    /// Publishes the tape's next entries under the lock, at most `most`, as `Locked::publish` does, with its errors, and
    /// returns how many cells were set. It allocates only the memory of the cells. It may wait for the lock; whoever looks at
    /// the cells does not.
    pub fn publish(&self, rt: &impl Wait, most: u32) -> Result<u32, PublishFault>
        ensures most { IfOk result (λ set. set ≤ most) }
        ensures cells { IfOk result (λ set. set ≤ length self.now) }
    {
        let seen = self.lock(rt, TRIES).set_next(&self.row, most)?;
        Ok(seen.len() as u32)
    }

    /// Takes the lock for a reader of the tape, for example when the lines have ended. It lends what the lock guards, and
    /// whoever admits, views or publishes waits until the guard is dropped. It may wait for the lock.
    pub fn read(&self, rt: &impl Wait) -> MutexGuard<'_, Locked<D>> {
        self.lock(rt, TRIES)
    }

    /// Reads the cell of a tape number, and returns `None` if the number is 0, above the tape's limit, or not seen to be
    /// published. It takes no lock, never waits, whatever the lines do, and takes the same few steps at each number. It may
    /// miss what was published.
    pub fn look(&self, number: u32) -> Option<Token>
        ensures token { IfSome result (λ token. (token.number ≡ number) × IsTokenOf self.now token) }
    {
        self.row.look(number)
    }

    /// Returns a token of the same cell with the same entry.
    pub fn again(&self, token: &Token) -> Token
        requires { IsTokenOf self.now token.now }
        ensures same { result ≡ token.now }
    {
        self.row.again(token)
    }

    /// Returns the token of a cell that was seen to hold its entry, which is read there again. It takes no lock and never
    /// waits.
    pub fn show(&self, number: u32, sighting: &Sighting) -> Token
        requires cell { IsTokenOf self.now sighting.now }
        requires number { sighting.now.number ≡ number }
        ensures same { result ≡ sighting.now }
    {
        self.row.show(number, sighting)
    }

    /// Shows that two tokens of one number have the same entry, whichever threads got them.
    pub fn compare(&self, one: &Token, other: &Token)
        requires one { IsTokenOf self.now one.now }
        requires other { IsTokenOf self.now other.now }
        requires number { one.now.number ≡ other.now.number }
        ensures same { one.now.entry ≡ other.now.entry }
    {
        self.row.compare(one, other);
    }

    /// Returns whether these entries have what was seen in each of the first `many` cells, as the entries of a tape of the day
    /// have. It takes no lock.
    pub fn have_all_seen(&self, entries: &[Entry], sightings: &Vec<Sighting>, many: u32) -> bool
        requires cells { FirstTokens self.now sightings.now.items }
        requires many { length sightings.now.items ≡ many }
        ensures { IsTrue result ↔ HaveAll entries.now sightings.now.items }
    {
        self.row.have_all_seen(entries, sightings, many)
    }

    /// Returns the number of cells: the tape's limit.
    pub(crate) fn cells(&self) -> u32
        ensures { result ≡ length self.now }
    {
        self.row.many()
    }

    /// Returns the allocator of the cells.
    pub(crate) fn alloc(&self) -> Global {
        self.row.alloc()
    }

    /// Ends the day, with the seats in any order. If there is not exactly one seat of each participant, it returns 91
    /// MissingSeat with the shared tape, which stays open, and the seats. Otherwise it closes the tape and spends the seats,
    /// and returns 92 Disagrees if a seat was not told what the tape has of its participant. It waits for nobody: the owner of
    /// the shared tape has joined every thread that borrowed it. It reads the tape once for all participants, and the cells
    /// once.
    pub fn end(self, seats: Vec<LineSeat<D>>) -> Result<Day, EndFault<D>>
        ensures ok { IfOk result (λ day. IsEnd D.terms seats.items day.tape) }
        ensures cells { IfOk result (λ day. day.names ≡ self) }
        ensures missing { (f : _) → result ≡ Err (MissingSeat f)
            → ¬ (IsOneEach D.terms.listing.participants seats.items) × (f.seats.items ≡ seats.items) × (f.shared ≡ self) }
        ensures disagrees { (d : _) → result ≡ Err (Disagrees d) → IsDispute D.terms seats.items d.participant d.at d.tape }
    {
        let SharedTape { locked, row } = self;
        let locked = locked.into_inner();
        if !locked.is_each(seats.as_slice()) {
            let shared = SharedTape {
                locked: Mutex::new(locked),
                row,
            };
            return Err(EndFault::MissingSeat(Unended { shared, seats }));
        }
        match locked.finish(row, seats) {
            Ok(day) => Ok(day),
            Err(disagreement) => Err(EndFault::Disagrees(disagreement)),
        }
    }
}
