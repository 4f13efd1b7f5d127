//! Keeps what the explanation of a day's reports is made from: the day, each entry's row and last change, and the participants'
//! figures.
ghost use Rattle.std.specs.Prelude.{◌≡◌, ◌≢◌, ◌+◌, ◌/◌, ◌%◌, ◌<◌, ◌^◌, ◌++◌, ◌∷◌, ℕ, [], IfErr, IfOk, None, OnOk, length, slice_index, if◌then◌else◌, true};
ghost use Rattle.csv_messages.specs.Tables.{FIRST_ROW};
ghost use Rattle.reports.specs.Messages.{header_of};
ghost use Rattle.tape_core.specs.Standing.{participant_summary};
ghost use Rattle.tape_core.specs.Tape.{lists_participant, lists_symbol, messages_of, numbered_message, participant_summary_at_index};
ghost use Rattle.tape_types.specs.Ranges.{FIRST_PARTICIPANT, PARTICIPANTS_MOST};
ghost use Rattle.tape_core.specs.Answers.{answers};
ghost use Rattle.csv_days.specs.Days.{AnswersMore, HasAnswered, first_tape, symbol_of};
ghost use Rattle.csv_days.specs.Explained.{admitted_rows, explained_at, is_change_at, rows_of};
ghost use Rattle.csv_days.specs.Accounts.{AreChanges, AreOwn, IsAccount};
ghost use Rattle.csv_days.specs.TableEnds.{IsMessagesEnd};
ghost use Rattle.csv_days.specs.declared.table_end.TableEnd.TheVariants.{WriteFault};

use crate::TableEnd;
use crate::day::TableDay;
use crate::explained::Explained;
use crate::tape_row::figures_of;
use reports::Message;
use sale_matrix::{Matrix, cells};
use scratch_fold::{Mark, Summary};
use std::alloc::{AllocError, Global};
use tape_core::{Entry, IndexedTape, TapeAnswer};
use tape_types::{PARTICIPANTS_MOST, Participant};

/// A day that has answered its messages, and what the rows of its reports need besides.
#[derive(Drop)]
pub struct Account {
    /// The day.
    pub day: TableDay,
    /// For each entry of the tape, its row in the table.
    pub rows: Vec<u64>,
    /// For each entry of the tape, the tape number of the last message that changed it as a report, 0 for none.
    pub changes: Vec<u32>,
    /// The participants' own summaries, symbol by symbol in the order of the listing, and per symbol letter by letter.
    pub own: Vec<Summary>,
}

/// Notes the number of a row if its message is admitted.
#[tactic(auto, unfolding(crate::specs::Explained::admitted_rows))]
fn note_row(rows: &mut Vec<u64>, row: u64, answered: &TapeAnswer) -> Result<(), AllocError>
    ensures { OnOk result (rows.new.items ≡ rows.old.items ++ admitted_rows row (answered.now ∷ [])) }
{
    if answered.is_ok() {
        rows.push(row)?;
    }
    Ok(())
}

/// Answers the messages of a day's next rows, in order, and returns the number of each row whose message is admitted.
fn admitted_rows(
    alloc: Global,
    day: &mut TableDay,
    messages: &[Message],
) -> Result<Vec<u64>, AllocError>
    requires { day.old.row + length messages.now < 2 ^ 64 }
    ensures rows { IfOk result (λ rows. rows.items ≡ admitted_rows day.old.row (answers day.old.tape messages.now)) }
    ensures more { OnOk result (AnswersMore day.old day.new messages.now) }
{
    let mut rows = Vec::new(alloc);
    for message in messages {
        let row = day.row;
        let answered = day.answer(*message)?;
        note_row(&mut rows, row, &answered)?;
    }
    Ok(rows)
}

/// Notes an entry as the last change of the report that its message names, if it names one.
fn note_change(tape: &IndexedTape, entry: &Entry, changes: &mut [u32])
    ensures { (k : ℕ) → k < length changes.old → slice_index changes.new k
        ≡ (if is_change_at (messages_of tape.now.entries) (k + 1) (numbered_message entry.now) then entry.now.number else slice_index changes.old k) }
{
    let Some(target) = entry.message.target() else {
        return;
    };
    let Some(report) = tape.report_of(entry.message.header().participant, target) else {
        return;
    };
    let index = report.place.value() as usize - 1;
    if index < changes.len() {
        changes[index] = entry.number.value();
    }
}

/// Returns the last change of each report of a tape.
fn changes_of(alloc: Global, tape: &IndexedTape) -> Result<Vec<u32>, AllocError>
    ensures { IfOk result (λ changes. AreChanges (messages_of tape.now.entries) (messages_of tape.now.entries) changes.items) }
{
    let entries = tape.entries();
    let mut changes = vec![in alloc; 0; entries.len()]?;
    for entry in entries {
        note_change(tape, entry, &mut changes);
    }
    Ok(changes)
}

/// How many participants' own summaries there are for each symbol: one for each letter.
const LETTERS: usize = PARTICIPANTS_MOST;

/// Returns the participant of a letter by its index, 0 for `A`.
fn participant_at(letter: usize) -> Participant
    requires { letter < PARTICIPANTS_MOST }
    ensures { result ≡ FIRST_PARTICIPANT + letter }
{
    Participant::try_new(b'A' + letter as u8).unwrap()
}

/// Returns a participant's own summary of a symbol, by its place among all: symbol by symbol, and per symbol letter by letter.
/// `None` if the tape does not list both.
fn own_at(tape: &IndexedTape, place: usize) -> Option<Summary>
    ensures { result ≡ participant_summary_at_index tape.now (place / PARTICIPANTS_MOST) (FIRST_PARTICIPANT + place % PARTICIPANTS_MOST) }
{
    tape.summary_of_at(place / LETTERS, participant_at(place % LETTERS))
}

/// Returns no mark.
fn no_mark() -> Option<Mark>
    ensures { result ≡ None }
{
    None
}

/// Returns the participants' own summaries of all symbols, so that none is looked up for each report.
fn own_summaries(alloc: Global, tape: &IndexedTape) -> Result<Vec<Summary>, AllocError>
    ensures { IfOk result (λ own. AreOwn tape.now own.items) }
{
    let count = tape.listing().symbols().as_slice().len() * LETTERS;
    // For the proof alone: the check knows the types of a function's own values, and those that they are over.
    let _ = no_mark();
    let mut own = Vec::new(alloc);
    for place in 0..count {
        let summary = own_at(tape, place).unwrap_or(Summary::empty());
        own.push(summary)?;
    }
    Ok(own)
}

impl Account {
    /// Answers messages by a matrix, and collects what the rows of the day's reports need.
    pub fn of_messages(
        alloc: Global,
        matrix: Matrix,
        messages: &[Message],
    ) -> Result<Account, TableEnd>
        requires few { length messages.now + FIRST_ROW < 2 ^ 64 }
        ensures day { IfOk result (λ account. HasAnswered (first_tape matrix messages.now) messages.now account.day) }
        ensures rows { IfOk result (λ account. account.rows.items ≡ rows_of matrix messages.now) }
        ensures account { IfOk result IsAccount }
        ensures end { IfErr result (λ end. (end ≢ WriteFault) × IsMessagesEnd messages.now end) }
    {
        let mut day = TableDay::of_names(alloc, matrix, messages)?;
        let rows = admitted_rows(alloc, &mut day, messages)?;
        let changes = changes_of(alloc, &day.tape)?;
        let own = own_summaries(alloc, &day.tape)?;
        Ok(Account {
            day,
            rows,
            changes,
            own,
        })
    }

    /// Returns the explanation of the report at an index of the tape's entries, or `None` if the entry is no report.
    pub fn explained_at(&self, index: usize) -> Option<Explained>
        requires index { index < length self.now.day.tape.entries }
        requires account { IsAccount self.now }
        ensures { result ≡ explained_at self.now.day.tape self.now.rows.items index }
    {
        let tape = &self.day.tape;
        let report = tape.report_at(index)?;
        let message = &tape.entries()[index].message;
        Some(Explained {
            report,
            header: message.header(),
            row: self.rows[index],
            changed: self.changes[index],
            cells: cells(tape.matrix(), &report.content.condition),
            figures: figures_of(tape, message).consolidated,
            own: self.own_figures_of(message),
        })
    }

    /// Returns the own figures of a message's participant in its symbol, both of which the tape lists.
    fn own_figures_of(&self, message: &Message) -> Summary
        requires account { IsAccount self.now }
        requires symbol { lists_symbol self.now.day.tape.listing (symbol_of message.now) ≡ true }
        requires participant { lists_participant self.now.day.tape.listing (header_of message.now).participant ≡ true }
        ensures { result ≡ participant_summary self.now.day.tape.matrix (messages_of self.now.day.tape.entries)
            (symbol_of message.now) (header_of message.now).participant }
    {
        let header = message.header();
        match self.day.tape.listing().position(header.symbol) {
            Some(at) => self.own[at * LETTERS + header.participant.row_index()],
            None => unreachable!(),
        }
    }
}
