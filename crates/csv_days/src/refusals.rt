//! Counts the rows that a tape answered and those that it refused by reason, and keeps the first row of each and the numbers of
//! the first stale row.
ghost use Rattle.std.specs.Prelude.{◌≡◌, ◌↔◌, ◌+◌, ◌<◌, ◌^◌, ◌++◌, ◌∷◌, ℕ, List, [], Option, None, Result, Err, IfSome, IsTrue, is_none, length};
ghost use Rattle.std.specs.List.{list_all};
ghost use Rattle.tape_core.specs.declared.refusal.Refusal.{Refusal as Reason};
ghost use Rattle.tape_core.specs.declared.refusal.Refusal.TheVariants.{Stale};
ghost use Rattle.csv_days.specs.Refusals.{is_refusal, one_more, refused_for};
ghost use Rattle.csv_days.specs.StaleRows.{stale_after, stale_row};

use crate::stale_row::StaleRow;
use reports::Message;
use tape_core::{ALL_REFUSALS, Refusal, TapeAnswer};

/// The rows that a tape refused for one reason.
#[derive(Clone, Copy, Debug, PartialEq, Eq)]
pub struct RefusedRows {
    /// How many there are, 1 or more.
    pub count: u64,
    /// The row of the first of them; the header row is row 1.
    pub first: u64,
}

/// What a tape refused of the rows that it answered: for each reason how many rows, and the first of them; and the numbers of
/// the first stale row.
#[derive(Clone, Copy, Debug, PartialEq, Eq)]
pub struct Refusals {
    rows: u64,
    reasons: [Option<RefusedRows>; ALL_REFUSALS.len()],
    stale: Option<StaleRow>,
}

/// Returns whether a refusal is that of a stale row.
fn is_stale(refusal: Refusal) -> bool
    ensures { result ≡ is_refusal Stale (Err refusal) }
{
    refusal.code() == Refusal::Stale.code()
}

/// Counts one row more that is refused for a reason.
fn one_more(refused: Option<RefusedRows>, row: u64) -> RefusedRows
    ensures { IfSome refused (λ refused. refused.count + 1 < 2 ^ 64) → result ≡ one_more refused row }
{
    match refused {
        Some(refused) => RefusedRows {
            count: refused.count.saturating_add(1),
            first: refused.first,
        },
        None => RefusedRows {
            count: 1,
            first: row,
        },
    }
}

impl Refusals {
    ghost use Rattle.csv_messages.specs.Tables.{FIRST_ROW};
    ghost use Rattle.csv_days.specs.Refusals.{AreReasons, AreRefusals, RefusesNone};

    /// Creates counts of no row.
    pub fn none() -> Refusals
        ensures counts { AreRefusals [] result }
        ensures stale { result.stale ≡ None }
    {
        Refusals {
            rows: 0,
            reasons: [None; ALL_REFUSALS.len()],
            stale: None,
        }
    }

    /// Returns how many rows were answered, refused ones among them.
    pub fn rows(&self) -> u64
        ensures rows { result ≡ self.now.rows }
    {
        self.rows
    }

    /// Returns the rows that were refused for this reason, or `None` if none was.
    pub fn of(&self, refusal: Refusal) -> Option<RefusedRows>
        ensures refused { result ≡ refused_for self.now refusal }
    {
        self.reasons[refusal.position()]
    }

    /// Returns the first row that was refused as `Stale`, or `None` if none was.
    pub fn stale(&self) -> Option<StaleRow>
        ensures stale { result ≡ self.now.stale }
    {
        self.stale
    }

    /// Returns whether no row was refused for any of these reasons.
    fn has_none_of(&self, reasons: &[Refusal]) -> bool
        ensures none { result ≡ list_all (λ reason. is_none (refused_for self.now reason)) reasons.now }
    {
        for reason in reasons {
            if self.of(*reason).is_some() {
                return false;
            }
        }
        true
    }

    /// Returns whether no row was refused.
    pub fn is_empty(&self) -> bool
        ensures empty { IsTrue result ↔ RefusesNone self.now }
    {
        self.has_none_of(&ALL_REFUSALS)
    }

    /// Counts one answered row more.
    fn count_row(&mut self)
        ensures rows { self.old.rows + 1 < 2 ^ 64 → self.new.rows ≡ self.old.rows + 1 }
        ensures reasons { self.new.reasons ≡ self.old.reasons }
        ensures stale { self.new.stale ≡ self.old.stale }
    {
        self.rows = self.rows.saturating_add(1);
    }

    /// Counts one row more that is refused for this reason, by its number.
    fn add(&mut self, refusal: Refusal, row: u64)
        ensures rows { self.new.rows ≡ self.old.rows }
        ensures stale { self.new.stale ≡ self.old.stale }
        ensures counts { (answers : List (Result ℕ Reason)) → row ≡ length answers + FIRST_ROW
            → AreReasons answers self.old → AreReasons (answers ++ Err refusal ∷ []) self.new }
    {
        let place = refusal.position();
        let more = one_more(self.reasons[place], row);
        self.reasons[place] = Some(more);
    }

    /// Notes a row that was refused for this reason, if it is the first stale one.
    fn note_stale(&mut self, refusal: Refusal, message: &Message, greatest: u32)
        ensures rows { self.new.rows ≡ self.old.rows }
        ensures reasons { self.new.reasons ≡ self.old.reasons }
        ensures stale { self.new.stale ≡ stale_after self.old.stale (Err refusal) (stale_row message.now greatest) }
    {
        if is_stale(refusal) && self.stale.is_none() {
            let header = message.header();
            self.stale = Some(StaleRow {
                participant: header.participant,
                number: header.number,
                greatest,
            });
        }
    }

    /// Counts the row of this number, and its answer if that is a refusal. `greatest` is the participant's greatest message number
    /// on the tape before the row.
    pub(crate) fn count(&mut self, answer: &TapeAnswer, row: u64, message: &Message, greatest: u32)
        ensures stale { self.new.stale ≡ stale_after self.old.stale answer.now (stale_row message.now greatest) }
        ensures counts { (answers : List (Result ℕ Reason)) → row ≡ length answers + FIRST_ROW
            → AreRefusals answers self.old → AreRefusals (answers ++ answer.now ∷ []) self.new }
    {
        self.count_row();
        match answer {
            Ok(_) => {}
            Err(refusal) => {
                self.note_stale(*refusal, message, greatest);
                self.add(*refusal, row);
            }
        }
    }
}
