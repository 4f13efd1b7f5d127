//! Keeps the value behind the lock, and the seats. A seat's share and what it was told grow only here, in `Locked::admit`.
ghost use Rattle.std.specs.Prelude.{◌≡◌, ◌↔◌, ◌+◌, ◌≤◌, ◌++◌, ◌∷◌, [], true, length, map, IfOk, IfErr, IfNone, IfSome, None, OnErr, OnOk};
ghost use Rattle.std.specs.Prelude.{MatchResult, Some, IsTrue, unwrap_or};
ghost use Rattle.reports.specs.Messages.{header_of};
ghost use Rattle.std.specs.Vec.{vec_capacity};
ghost use Rattle.tape_core.specs.Tape.{lists_participant, refusal, with_message};
ghost use Rattle.tape_core.specs.declared.refusal.Refusal.TheVariants.{OutOfMemory as TapeOutOfMemory};
ghost use Rattle.line_ledger.specs.declared.open_fault.OpenFault.TheVariants.{OutOfMemory};
ghost use Rattle.line_ledger.specs.Admissions.{Admits, Refuses, line_refusal};
ghost use Rattle.line_ledger.specs.Days.{IsDay, has_figures, terms_of};
ghost use Rattle.line_ledger.specs.Ends.{IsOneEach, FirstTold, DisagreesAt, told_in_all};
ghost use Rattle.line_ledger.specs.Seats.{agrees, untold, sizes_told, last_told};
ghost use Rattle.line_ledger.specs.Views.{Shows, view_fault};

mod publishing;
mod reading;

use crate::ends::{find_disagreement, is_one_each};
use crate::{
    CellRow, Day, DayName, Disagreement, LineRefusal, OpenFault, Prepared, Told, ViewFault,
};
use reports::Message;
use scratch_fold::Summary;
use seen_cells::Seen;
use std::alloc::Global;
use std::marker::Model;
use std::sync::ledger::{Book, Share};
use tape_core::{Entry, IndexedTape, Refusal};
use tape_types::{Participant, Symbol, TapeNumber};

/// The value behind the lock: the open tape of the day, the book, which counts the tape's entries, and how many of the first
/// cells were set to them. What the seats count is in their shares of the ledger.
#[derive(Drop)]
pub struct Locked<D: DayName> {
    alloc: Global,
    tape: IndexedTape,
    book: Book<D>,
    rest: Share<D>, // what is left of the ledger when each seat has its share: no part, no amount
    set: u32,
    room: Vec<Seen<Entry>>, // for what the end sees in the cells
}

impl<D: DayName> Model for Locked<D> {
    ghost use Rattle.std.specs.Prelude.{◌≡◌, ◌≤◌, [], length};
    ghost use Rattle.std.specs.Vec.{vec_capacity};
    ghost use Rattle.line_ledger.specs.Days.{LockedState, IsDay};

    ghost Value = { LockedState };

    ghost view = { λ l. record { tape = l.tape; set = l.set } };

    ghost invariant = { λ l. IsDay D.terms l.tape × (l.book.total ≡ length l.tape.entries)
        × (l.rest.parts ≡ 0) × (l.rest.amount ≡ 0) × (D.parts ≡ length D.terms.listing.participants)
        × (l.set ≤ length l.tape.entries) × (l.room.items ≡ []) × (l.tape.limit ≤ vec_capacity l.room) };
}

/// The right of one participant's line to admit messages, and what the line was told. It can't be dropped; only an end of the
/// day takes it.
pub struct LineSeat<D: DayName> {
    who: Participant,
    share: Share<D>,
    told: Vec<Told>,
    sizes: u64,
    last: u32,
}

impl<D: DayName> Model for LineSeat<D> {
    ghost use Rattle.line_ledger.specs.Seats.{SeatState, IsCounted};

    ghost Value = { SeatState };

    ghost view = { λ s. record { who = s.who; told = s.told.items } };

    ghost invariant = { λ s. IsCounted D.terms.listing s.who s.share.parts s.share.amount s.sizes s.last s.told.items };
}

/// What an admission returns: the tape number of the message. Only `Locked::admit` makes one.
#[derive(Drop)]
pub struct Receipt {
    number: TapeNumber,
}

impl Model for Receipt {
    ghost use Rattle.std.specs.Prelude.{ℕ};

    ghost Value = { ℕ };

    ghost view = { λ r. r.number };
}

impl Receipt {
    /// Returns the tape number of the entry.
    pub fn number(&self) -> TapeNumber
        ensures number { result ≡ self.now }
    {
        self.number
    }
}

/// What a seat's holder was shown of the tape, as it was at one moment. Only `Locked::view` makes one.
#[derive(Drop)]
pub struct View {
    symbol: Symbol,
    count: u32,
    mine: u32,
    summary: Summary,
}

impl Model for View {
    ghost use Rattle.line_ledger.specs.Views.{ViewState};

    ghost Value = { ViewState };

    ghost view = { λ v. record { symbol = v.symbol; count = v.count; mine = v.mine; summary = v.summary } };
}

impl View {
    /// Returns the symbol that was asked for.
    pub fn symbol(&self) -> Symbol
        ensures symbol { result ≡ self.now.symbol }
    {
        self.symbol
    }

    /// Returns how many entries the tape had, from 0 to `TAPE_MOST`.
    pub fn count(&self) -> u32
        ensures count { result ≡ self.now.count }
    {
        self.count
    }

    /// Returns how many of them are of the seat's participant: as many as the seat was told of.
    pub fn mine(&self) -> u32
        ensures mine { result ≡ self.now.mine }
    {
        self.mine
    }

    /// Returns the symbol's consolidated summary.
    pub fn summary(&self) -> Summary
        ensures summary { result ≡ self.now.summary }
    {
        self.summary
    }
}

impl<D: DayName> LineSeat<D> {
    /// Returns the participant of the line.
    pub fn participant(&self) -> Participant
        ensures participant { result ≡ self.now.who }
    {
        self.who
    }

    /// Returns how many admissions the line was told of, from 0 to `TAPE_MOST`.
    pub fn count(&self) -> u32
        ensures count { result ≡ length self.now.told }
    {
        let told = &self.told;
        told.len() as u32
    }

    /// Returns the sum of the sizes of the reports that the line was told of, each as it was reported. No other message adds to
    /// it.
    pub fn sizes(&self) -> u64
        ensures sizes { result ≡ sizes_told self.now.told }
    {
        self.sizes
    }

    /// Returns the participant's number of the last message that the line was told of, or 0 if there is none.
    pub fn last(&self) -> u32
        ensures last { result ≡ last_told 0 self.now.told }
    {
        self.last
    }

    /// Returns the admissions that the line was told of, in order.
    pub fn told(&self) -> &[Told]
        ensures told { result.now ≡ self.now.told }
    {
        self.told.as_slice()
    }
}

/// Returns whether the tape has these figures of the participant.
fn has_figures(tape: &IndexedTape, who: Participant, count: usize, sizes: u64, last: u32) -> bool
    ensures { result ≡ has_figures tape.now who count sizes last }
{
    let figures = tape.figures_of(who);
    figures.count as usize == count && figures.sizes == sizes && figures.last == last
}

/// Admits a message to the tape, tells it to a line, and returns its tape number. Its errors are the tape's refusals,
/// `OutOfMemory` last, which leave the tape and what was told unchanged.
#[inline(always)]
fn admit_and_tell(
    tape: &mut IndexedTape,
    told: &mut Vec<Told>,
    message: Message,
) -> Result<TapeNumber, Refusal>
    ensures may { OnOk result (refusal tape.old message ≡ None) }
    ensures number { IfOk result (λ number. number ≡ length tape.old.entries + 1) }
    ensures tape { OnOk result (tape.new ≡ with_message tape.old message) }
    ensures told { IfOk result (λ number. told.new.items ≡ told.old.items ++ record { number = number; message = message } ∷ []) }
    ensures why { IfErr result (λ why. why ≡ unwrap_or (refusal tape.old message) TapeOutOfMemory) }
    ensures same_tape { OnErr result (tape.new ≡ tape.old) }
    ensures same_told { OnErr result (told.new.items ≡ told.old.items) }
{
    if told.reserve(1).is_err() {
        return Err(tape.refusal(&message).unwrap_or(Refusal::OutOfMemory));
    }
    let number = match tape.admit(message) {
        Ok(entry) => entry.number,
        Err(refusal) => return Err(refusal),
    };
    told.push_reserved(Told { number, message });
    Ok(number)
}

/// Makes a seat for each of the day's participants, in their order and told nothing, each with a part of what is left of the
/// ledger. They are put into `seats`, which has room for them.
fn untold_seats<D: DayName>(
    alloc: Global,
    participants: &[Participant],
    rest: &mut Share<D>,
    seats: Vec<LineSeat<D>>,
) -> Vec<LineSeat<D>>
    requires listed { participants.now ≡ D.terms.listing.participants }
    requires parts { rest.old.parts ≡ length participants.now }
    requires amount { rest.old.amount ≡ 0 }
    requires room { length participants.now ≤ vec_capacity seats }
    requires empty { seats.items ≡ [] }
    ensures seats { result.items ≡ map untold participants.now }
    ensures parts { rest.new.parts ≡ 0 }
    ensures amount { rest.new.amount ≡ 0 }
{
    let mut seats = seats;
    for i in 0..participants.len() {
        let share = rest.split_off(1, 0);
        seats.push_reserved(LineSeat {
            who: participants[i],
            share,
            told: Vec::new(alloc),
            sizes: 0,
            last: 0,
        });
    }
    seats
}

/// Spends seats and adds their shares to what is left of the ledger.
fn take_shares<D: DayName>(rest: &mut Share<D>, seats: Vec<LineSeat<D>>)
    ensures parts { rest.new.parts ≡ rest.old.parts + length seats.items }
    ensures amount { rest.new.amount ≡ rest.old.amount + told_in_all seats.items }
{
    let mut left = seats.into_iter();
    while let Some(seat) = left.next() {
        let LineSeat {
            who: _,
            share,
            told: _,
            sizes: _,
            last: _,
        } = seat;
        rest.merge(share);
    }
    left.destroy_empty();
}

impl<D: DayName> Locked<D> {
    /// Opens the ledger. It returns the value to lock, the cells beside the lock, and a seat for each participant, in listing
    /// order and told nothing, or 8 OutOfMemory if memory runs out. What was prepared is spent in both cases. `D` must name
    /// what was prepared.
    pub fn start(prepared: Prepared) -> Result<(Locked<D>, CellRow, Vec<LineSeat<D>>), OpenFault>
        requires name { prepared.blank.name ≡ D.name }
        requires parts { prepared.blank.parts ≡ D.parts }
        requires terms { terms_of prepared.tape ≡ D.terms }
        ensures locked { IfOk result (λ r. r.0 ≡ record { tape = prepared.tape; set = 0 }) }
        ensures cells { IfOk result (λ r. length r.1 ≡ prepared.tape.limit) }
        ensures seats { IfOk result (λ r. r.2.items ≡ map untold prepared.tape.listing.participants) }
        ensures each { IfOk result (λ r. IsOneEach D.terms.listing.participants r.2.items) }
        ensures memory { IfErr result (λ fault. fault ≡ OutOfMemory) }
    {
        let alloc = prepared.alloc;
        // For the proof alone: by the clauses of these calls the tape is legal and its limit in range.
        let _ = prepared.tape.entries();
        let _ = prepared.tape.limit();
        let many = prepared.tape.listing().participants().as_slice().len();
        let Ok(empty) = Vec::with_capacity(alloc, many) else {
            return Err(OpenFault::OutOfMemory);
        };
        let Prepared {
            alloc: _,
            tape,
            blank,
            row,
            room,
        } = prepared;
        let (book, mut rest) = blank.open::<D>();
        let participants = tape.listing().participants().as_slice();
        let seats = untold_seats(alloc, participants, &mut rest, empty);
        let locked = Locked {
            alloc,
            tape,
            book,
            rest,
            set: 0,
            room,
        };
        Ok((locked, row, seats))
    }

    /// Returns why a seat's message is refused before it reaches the tape: `WrongLine` if it is another participant's, then 94
    /// Behind if the tape's count, sizes or last number of the participant is not the seat's.
    #[inline(always)]
    fn refusal_at_seat(&self, seat: &LineSeat<D>, message: &Message) -> Option<LineRefusal>
        ensures day { IsDay D.terms self.now.tape }
        ensures listed { lists_participant D.terms.listing seat.now.who ≡ true }
        ensures some { IfSome result (λ why. line_refusal self.now.tape seat.now message.now ≡ Some why) }
        ensures own { IfNone result ((header_of message.now).participant ≡ seat.now.who) }
        ensures agrees { IfNone result (agrees self.now.tape seat.now ≡ true) }
    {
        // For the proof alone: this value's own invariant is known after a field is read.
        let _ = &self.tape;
        if message.header().participant != seat.who {
            return Some(LineRefusal::Refused(Refusal::WrongLine));
        }
        if !has_figures(&self.tape, seat.who, seat.told.len(), seat.sizes, seat.last) {
            return Some(LineRefusal::Behind);
        }
        None
    }

    /// Admits a message of the seat's participant to the tape and tells the seat so: its share, count, sizes and last number
    /// rise with it. Errors, the first that applies: `WrongLine` if it is another participant's message, 94 Behind if the
    /// tape's count, sizes or last number of the participant is not the seat's, and then the tape's own refusals, `OutOfMemory`
    /// last. A refusal leaves the tape and the seat unchanged.
    #[inline(always)]
    pub fn admit(
        &mut self,
        seat: &mut LineSeat<D>,
        message: Message,
    ) -> Result<Receipt, LineRefusal>
        ensures day { IsDay D.terms self.old.tape }
        ensures listed { lists_participant D.terms.listing seat.old.who ≡ true }
        ensures ok { IfOk result (λ r. Admits self.old.tape seat.old message r self.new.tape seat.new) }
        ensures err { IfErr result (λ why. Refuses self.old.tape seat.old message why self.new.tape seat.new) }
        ensures set { self.new.set ≡ self.old.set }
    {
        if let Some(refusal) = self.refusal_at_seat(seat, &message) {
            return Err(refusal);
        }
        let number = match admit_and_tell(&mut self.tape, &mut seat.told, message) {
            Ok(number) => number,
            Err(refusal) => return Err(LineRefusal::Refused(refusal)),
        };
        self.book.add(&mut seat.share, 1);
        self.book.audit(&mut seat.share);
        // For the proof alone: the clauses of these calls bound the tape's length.
        let _ = self.tape.entries();
        let _ = self.tape.limit();
        seat.sizes += message.reported_size();
        seat.last = message.header().number.value();
        Ok(Receipt { number })
    }

    /// Shows the seat's holder a symbol's consolidated summary and the length of the tape, which is at least the seat's count.
    /// Errors, the first that applies: `UnknownSymbol` if the symbol is not listed, 94 Behind if the tape's count, sizes or
    /// last number of the participant is not the seat's.
    pub fn view(&self, seat: &LineSeat<D>, symbol: Symbol) -> Result<View, ViewFault>
        ensures day { IsDay D.terms self.now.tape }
        ensures answer { MatchResult result (Shows self.now.tape seat.now symbol) (λ fault. view_fault self.now.tape seat.now symbol ≡ Some fault) }
        ensures told { IfOk result (λ view. length seat.now.told ≤ view.count) }
    {
        // For the proof alone: this value's own invariant is known after a field is read.
        let _ = &self.tape;
        let Some(summary) = self.tape.summary(symbol) else {
            return Err(ViewFault::UnknownSymbol);
        };
        if !has_figures(&self.tape, seat.who, seat.told.len(), seat.sizes, seat.last) {
            return Err(ViewFault::Behind);
        }
        Ok(View {
            symbol,
            count: self.tape.entries().len() as u32,
            mine: self.tape.count_of(seat.who),
            summary,
        })
    }

    /// Returns whether there is exactly one seat of each participant of the day.
    pub(crate) fn is_each(&self, seats: &[LineSeat<D>]) -> bool
        ensures { IsTrue result ↔ IsOneEach D.terms.listing.participants seats.now }
    {
        // For the proof alone: this value's own invariant is known after a field is read.
        let _ = &self.tape;
        is_one_each(self.tape.listing().participants().as_slice(), seats)
    }

    /// Ends the day with one seat of each participant, in any order, and closes its tape, whose length is the sum of the seats'
    /// counts: the shares prove it, and no code adds them up. If a seat was not told what the tape has of its participant, it
    /// returns a disagreement with the closed tape. Otherwise the day keeps the cells and what was seen in them. The seats are
    /// spent in each case.
    pub fn finish(self, row: CellRow, seats: Vec<LineSeat<D>>) -> Result<Day, Disagreement>
        requires { IsOneEach D.terms.listing.participants seats.items }
        ensures day { IsDay D.terms self.tape }
        ensures ok { IfOk result (λ day. day.tape ≡ record self.tape { closed = true }) }
        ensures cells { IfOk result (λ day. day.names ≡ row) }
        ensures told { OnOk result (FirstTold (length self.tape.listing.participants) self.tape.listing.participants self.tape.entries seats.items) }
        ensures err { IfErr result (λ d. d.tape ≡ record self.tape { closed = true }) }
        ensures disagrees { IfErr result (λ d. DisagreesAt self.tape.listing.participants self.tape.entries seats.items d.participant d.at) }
        ensures sum { length self.tape.entries ≡ told_in_all seats.items }
    {
        let Locked {
            alloc: _,
            mut tape,
            mut book,
            mut rest,
            set: _,
            room,
        } = self;
        let found = find_disagreement(&tape, seats.as_slice());
        take_shares(&mut rest, seats);
        book.audit(&mut rest);
        tape.close();
        match found {
            None => {
                let seen = row.first_seen(tape.entries(), room);
                Ok(Day { tape, row, seen })
            }
            Some((participant, at)) => Err(Disagreement {
                participant,
                at,
                tape,
            }),
        }
    }
}
