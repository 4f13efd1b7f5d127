//! Compares what the participants' lines were told with the tape, by a cursor for each participant.
ghost use Rattle.std.specs.Prelude.{◌≡◌, ◌↔◌, ℕ, [], ◌++◌, ◌∷◌, false, IsTrue, IfSome, List, MatchOption, Some, slice_get};
ghost use Rattle.tape_core.specs.declared.entry.Entry.{Entry};
ghost use Rattle.tape_core.specs.Standing.{is_of};
ghost use Rattle.tape_types.specs.Ranges.{IsParticipant};
ghost use Rattle.line_ledger.specs.declared.told.Told.{Told};
ghost use Rattle.line_ledger.specs.Cursors.{AllStandAt, Compared, Passes, StandsAt, cursor_at};
ghost use Rattle.line_ledger.specs.Ends.{told_by, told_entry, told_of, DiffersFirst};
ghost use Rattle.line_ledger.specs.Seats.{SeatState};

use crate::{DayName, LineSeat, Told};
use tape_core::Entry;
use tape_types::{PARTICIPANTS_MOST, Participant};

/// What one participant's line was told, and how much of it the participant's entries so far match.
#[derive(Clone, Copy)]
pub(crate) struct Cursor<'a> {
    told: &'a [Told],
    /// How many entries, from the first, are as they were told.
    at: usize,
    /// Whether the next entry was told otherwise.
    differs: bool,
}

impl<'a> Cursor<'a> {
    /// Makes a cursor that has passed no entry.
    pub(crate) fn new(told: &'a [Told]) -> Cursor<'a>
        ensures told { result.told.now ≡ told.now }
        ensures compared { Compared told.now [] result.at result.differs }
    {
        Cursor {
            told,
            at: 0,
            differs: false,
        }
    }

    /// Passes the participant's next entry.
    pub(crate) fn pass(self, entry: &Entry) -> Cursor<'a>
        ensures { Passes entry.now self.entry result }
    {
        if self.differs {
            return self;
        }
        if tells(self.told, self.at, entry) {
            Cursor {
                at: self.at + 1,
                ..self
            }
        } else {
            Cursor {
                differs: true,
                ..self
            }
        }
    }

    /// Returns, once all of the participant's entries are passed, the first position, from 0, where what was told differs from
    /// them. One list being longer is a difference too.
    pub(crate) fn difference(self) -> Option<usize>
        ensures { (told entries : List Told) → StandsAt told entries self.entry → MatchOption result (told ≡ entries) (DiffersFirst told entries) }
    {
        if self.differs || self.at < self.told.len() {
            Some(self.at)
        } else {
            None
        }
    }
}

/// Returns whether this entry was told at this position.
fn tells(told: &[Told], at: usize, entry: &Entry) -> bool
    ensures { IsTrue result ↔ (slice_get told.now at ≡ Some (told_entry entry.now)) }
{
    at < told.len() && is_told(&told[at], entry)
}

/// Returns whether the entry is the one that was told.
fn is_told(told: &Told, entry: &Entry) -> bool
    ensures { IsTrue result ↔ (told.now ≡ told_entry entry.now) }
{
    told.number == entry.number && told.message == entry.message
}

/// A cursor for each participant, by letter.
#[derive(Drop)]
pub(crate) struct Cursors<'a> {
    row: [Cursor<'a>; PARTICIPANTS_MOST],
}

impl<'a> Cursors<'a> {
    /// Makes cursors that have passed no entry, each over what the participant's first seat was told, or over nothing if it has
    /// no seat.
    pub(crate) fn new<D: DayName>(seats: &'a [LineSeat<D>]) -> Cursors<'a>
        ensures { AllStandAt result.row seats.now [] }
    {
        let mut row = [Cursor::new(&[]); PARTICIPANTS_MOST];
        for seat in seats.iter().rev() {
            row[seat.participant().row_index()] = Cursor::new(seat.told());
        }
        Cursors { row }
    }

    /// Returns the participant's cursor.
    fn of(&self, who: Participant) -> Cursor<'a>
        ensures cursor { cursor_at self.now who ≡ Some result }
        ensures letter { IsParticipant who }
    {
        let row = &self.row[..];
        row[who.row_index()]
    }

    /// Returns the first position, from 0, where what the participant's first seat was told differs from its entries that were
    /// passed.
    pub(crate) fn difference(&self, who: Participant) -> Option<usize>
        ensures { (seats : List SeatState) (entries : List Entry) → AllStandAt self.now.row seats entries
            → MatchOption result (told_by who seats ≡ told_of who entries) (DiffersFirst (told_by who seats) (told_of who entries)) }
    {
        self.of(who).difference()
    }

    /// Passes the tape's next entry, which moves the cursor of its participant.
    pub(crate) fn pass(&mut self, entry: &Entry)
        ensures own { (who : ℕ) → IsParticipant who → IsTrue (is_of who entry.now.message)
            → IfSome (cursor_at self.new who) (λ after. MatchOption (cursor_at self.old who) ⊥ (λ before. Passes entry.now before after)) }
        ensures others { (who : ℕ) → IsParticipant who → is_of who entry.now.message ≡ false → cursor_at self.new who ≡ cursor_at self.old who }
    {
        let index = entry.message.header().participant.row_index();
        let row = &mut self.row[..];
        row[index] = row[index].pass(entry);
    }
}
