//! Answers the rows of a table one by one: the tape so far, what it refused, and the number of the next row.
ghost use Rattle.std.specs.Prelude.{◌≡◌, ◌≢◌, ◌+◌, ◌<◌, ◌^◌, ◌∷◌, [], IfErr, IfOk, OnOk, fold, length};
ghost use Rattle.tape_core.specs.Answers.{answer, tape_after};
ghost use Rattle.csv_days.specs.Days.{first_tape};
ghost use Rattle.csv_days.specs.TableEnds.{IsMessagesEnd};
ghost use Rattle.csv_days.specs.declared.table_end.TableEnd.TheVariants.{WriteFault};

use crate::day_names::listing_of;
use crate::{Refusals, TableEnd};
use csv_messages::FIRST_ROW;
use reports::Message;
use sale_matrix::Matrix;
use std::alloc::{AllocError, Global};
use tape_core::{IndexedTape, Tape, TapeAnswer};
use tape_types::TAPE_MOST;

/// A table's tape while its rows are answered, and what it has refused.
#[derive(Drop)]
pub struct TableDay {
    /// The allocator for the text of a refusal.
    pub alloc: Global,
    /// The tape.
    pub tape: IndexedTape,
    /// What it refused of the rows so far.
    pub refusals: Refusals,
    /// The number of the next row.
    pub row: u64,
}

impl TableDay {
    ghost use Rattle.csv_days.specs.Days.{AnswersMore, HasAnswered};

    /// Creates a day whose tape lists the names in messages, and has answered no row.
    pub fn of_names(
        alloc: Global,
        matrix: Matrix,
        messages: &[Message],
    ) -> Result<TableDay, TableEnd>
        ensures day { IfOk result (HasAnswered (first_tape matrix messages.now) []) }
        ensures end { IfErr result (λ end. (end ≢ WriteFault) × IsMessagesEnd messages.now end) }
    {
        let listing = listing_of(alloc, messages)?;
        let tape = Tape::new(alloc, listing, TAPE_MOST, matrix).map_err(|_| TableEnd::OutOfMemory)?;
        Ok(TableDay {
            alloc,
            tape,
            refusals: Refusals::none(),
            row: FIRST_ROW,
        })
    }

    /// Answers the next row's message.
    pub fn answer(&mut self, message: Message) -> Result<TapeAnswer, AllocError>
        requires { self.old.row + 1 < 2 ^ 64 }
        ensures answer { IfOk result (λ answered. answered ≡ answer self.old.tape message) }
        ensures tape { OnOk result (self.new.tape ≡ tape_after self.old.tape message) }
        ensures row { OnOk result (self.new.row ≡ self.old.row + 1) }
        ensures more { OnOk result (AnswersMore self.old self.new (message ∷ [])) }
    {
        let greatest = self.tape.last_of(message.header().participant);
        let answered = self.tape.answer(message)?;
        self.refusals.count(&answered, self.row, &message, greatest);
        self.row += 1;
        Ok(answered)
    }

    /// Answers the messages of the next rows, in order.
    pub fn answer_all(&mut self, messages: &[Message]) -> Result<(), AllocError>
        requires { self.old.row + length messages.now < 2 ^ 64 }
        ensures { OnOk result (AnswersMore self.old self.new messages.now) }
    {
        for message in messages {
            let _ = self.answer(*message)?;
        }
        Ok(())
    }
}
