//! Admits messages to a tape of which only the final summaries are needed. It keeps the register and which messages are
//! reports, and makes the summaries in one pass at the end.
ghost use Rattle.std.specs.Prelude.{◌≡◌, ℕ, ◌+◌, ◌-◌, ◌<◌, [], length, All, IfOk, OnOk, OnErr};
ghost use Rattle.tape_types.specs.Names.{Names};
ghost use Rattle.tape_types.specs.Ranges.{TAPE_MOST};
ghost use Rattle.tape_core.specs.Standing.{last_number};
ghost use Rattle.tape_core.specs.Tape.{TapeState, empty_tape, is_in_matrix, messages_of};
ghost use Rattle.tape_core.specs.Ending.{AnswersEnd, AreOfAtMost, AreTableOf, CountsMessage, HasMore, IsKept, IsKeptFor, IsRouted, IsSameEnd, KeepsEnd, RoutesEnd, sent_of};

use crate::end_figures::empty_table;
use crate::end_route::EndRoute;
use crate::notes::note_change;
use crate::tape::matrix_has;
use crate::{Refusal, SymbolFigures, targets};
use corrections::{Register, Standing};
use reports::Message;
use sale_matrix::{Matrix, cells};
use std::alloc::{AllocError, Global};
use tape_types::{Listing, MsgNumber, PARTICIPANTS_MOST, Participant, TAPE_MOST, TapeNumber};

/// A report, as its participant sent it.
#[derive(Clone, Copy, Debug, PartialEq, Eq)]
pub struct Sent {
    /// The participant.
    pub who: Participant,
    /// The message number under which the participant sent it.
    pub number: MsgNumber,
}

/// A tape of which only the final summaries are needed: it answers messages as a tape does that has the same matrix, the
/// greatest limit and any listing with the messages' names, which need not be known before the end. It keeps the register that
/// the answers need, and by tape number which report a message is. It keeps no summary: all are made at once.
#[derive(Drop)]
pub struct EndTape {
    matrix: Matrix,
    register: Register,
    /// By tape number: the report that the message is, or `None` for a message of another kind.
    reports: Vec<Option<Sent>>,
}

impl EndTape {
    /// Returns an empty tape. It does not allocate.
    pub fn new(alloc: Global, matrix: Matrix) -> EndTape
        ensures { (listing : Names) → KeepsEnd (empty_tape listing TAPE_MOST matrix) result }
    {
        EndTape {
            matrix,
            register: Register::new(alloc),
            reports: Vec::new(alloc),
        }
    }

    /// Admits a message and returns the number of its entry, or the refusal that `admit` returns on a tape whose listing has
    /// the message's names. Nothing is changed on a refusal.
    pub fn admit(&mut self, message: Message) -> Result<TapeNumber, Refusal>
        requires kept { IsKeptFor self.old message }
        ensures answers { AnswersEnd self.old message result self.new }
    {
        match self.route(&message) {
            Ok(route) => self.append(route, &message).or(Err(Refusal::OutOfMemory)),
            Err(refused) => Err(refused),
        }
    }

    /// Where the message goes, or the refusal of the first rule that it breaks.
    fn route(&self, message: &Message) -> Result<EndRoute, Refusal>
        ensures { RoutesEnd self.now message.now result }
    {
        let header = message.header();
        let count = self.reports.len();
        if count >= TAPE_MOST as usize {
            return Err(Refusal::Full);
        }
        if header.number.value() <= self.register.last_number(header.participant) {
            return Err(Refusal::Stale);
        }
        if !matrix_has(self.matrix, message) {
            return Err(Refusal::NotInMatrix);
        }
        let change = targets::locate(&self.register, message)?;
        Ok(EndRoute {
            number: number_after(count),
            change,
        })
    }

    /// Appends a message's entry and returns its number. If memory runs out, nothing is changed.
    fn append(&mut self, route: EndRoute, message: &Message) -> Result<TapeNumber, AllocError>
        requires routed { IsRouted self.old message.now route }
        ensures number { IfOk result (λ number. number ≡ route.number) }
        ensures ok { OnOk result (HasMore self.old message.now route self.new) }
        ensures err { OnErr result (IsSameEnd self.old self.new) }
    {
        self.reports.reserve(1)?;
        let header = message.header();
        note_change(&mut self.register, &route, &header)?;
        self.register.advance(header.participant, header.number);
        self.reports.push_reserved(sent_of(message));
        Ok(route.number)
    }

    /// The participant's greatest message number on the tape, 0 if it has none.
    pub fn last_of(&self, participant: Participant) -> u32
        ensures last { (t : TapeState) → KeepsEnd t self.now → result ≡ last_number (messages_of t.entries) participant }
    {
        self.register.last_number(participant)
    }

    /// Returns the summaries of the reports that stand, for each symbol in the order of a listing. It goes over the reports
    /// once, by rising place.
    pub fn figures(
        &self,
        alloc: Global,
        listing: &Listing,
    ) -> Result<Vec<SymbolFigures>, AllocError>
        requires kept { IsKept self.now }
        ensures figures { IfOk result (λ table. (t : TapeState) → KeepsEnd t self.now → t.listing ≡ listing.now
            → AreTableOf t (messages_of t.entries) table.items) }
        ensures count { IfOk result (λ table. length table.items ≡ length listing.now.symbols) }
    {
        let mut table = empty_table(alloc, listing.symbols().as_slice().len())?;
        self.count_all(listing, &mut table);
        Ok(table)
    }

    /// Counts what is kept of each message.
    fn count_all(&self, listing: &Listing, table: &mut Vec<SymbolFigures>)
        requires kept { IsKept self.now }
        requires none { All (AreOfAtMost 0) table.old.items }
        ensures figures { (t : TapeState) → KeepsEnd t self.now → t.listing ≡ listing.now → AreTableOf t [] table.old.items
            → AreTableOf t (messages_of t.entries) table.new.items }
        ensures count { length table.new.items ≡ length table.old.items }
    {
        let mut near = [0; PARTICIPANTS_MOST];
        for sent in self.reports.as_slice() {
            self.count(listing, table, &mut near, *sent);
        }
    }

    /// Counts what is kept of a message, if it is a report that stands. The register has it at or after the index near which
    /// the participant's last one was found.
    fn count(
        &self,
        listing: &Listing,
        table: &mut Vec<SymbolFigures>,
        near: &mut [usize; PARTICIPANTS_MOST],
        sent: Option<Sent>,
    )
        requires kept { IsKept self.now }
        requires few { All (AreOfAtMost (TAPE_MOST - 1)) table.old.items }
        ensures few { (most : ℕ) → All (AreOfAtMost most) table.old.items → All (AreOfAtMost (most + 1)) table.new.items }
        ensures figures { CountsMessage self.now listing.now sent table.old.items table.new.items }
        ensures count { length table.new.items ≡ length table.old.items }
    {
        let Some(sent) = sent else {
            return;
        };
        let row = sent.who.row_index();
        let Some((index, target)) = self.register.held_near(sent.who, sent.number, near[row]) else {
            return;
        };
        near[row] = index.saturating_add(1);
        if target.standing == Standing::Cancelled {
            return;
        }
        let Some(at) = listing.position(target.symbol) else {
            return;
        };
        if at >= table.len() {
            return;
        }
        let cells = cells(self.matrix, &target.content.condition);
        table[at].count(target.place, sent.who, &target.content, cells);
    }
}

/// The sender and number of a report; `None` for a message of another kind.
fn sent_of(message: &Message) -> Option<Sent>
    ensures { (number : ℕ) → result ≡ sent_of (number, message.now) }
{
    match message {
        Message::Report { header, .. } => Some(Sent {
            who: header.participant,
            number: header.number,
        }),
        Message::Cancel { .. } | Message::Correct { .. } | Message::Reinstate { .. } => None,
    }
}

/// The number of the entry after `count` entries.
fn number_after(count: usize) -> TapeNumber
    requires { count < TAPE_MOST }
    ensures { result ≡ count + 1 }
{
    TapeNumber::try_new(count as u32 + 1).unwrap()
}
