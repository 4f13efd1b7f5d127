//! Answers the rows of a table of which only the end of the day is asked, as for a report: no entry is kept.
ghost use Rattle.std.specs.Prelude.{◌∷◌, [], OnOk};

use crate::Refusals;
use crate::day_names::DayNames;
use csv_messages::FIRST_ROW;
use reports::Message;
use sale_matrix::Matrix;
use std::alloc::{AllocError, Global};
use tape_core::EndTape;

/// A table's day of which only the end is asked: what is kept of its tape, the names in the rows so far, and what the tape has
/// refused.
#[derive(Drop)]
pub struct EndDay {
    /// What is kept of the tape.
    pub tape: EndTape,
    /// The names in the rows so far.
    pub names: DayNames,
    /// What it refused of the rows so far.
    pub refusals: Refusals,
    /// The number of the next row.
    pub row: u64,
}

impl EndDay {
    ghost use Rattle.csv_days.specs.EndDays.{EndsMore, HasEnded, IsEnding};

    /// Creates a day that has answered no row.
    pub fn new(alloc: Global, matrix: Matrix) -> EndDay
        ensures day { HasEnded matrix [] result }
    {
        EndDay {
            tape: EndTape::new(alloc, matrix),
            names: DayNames::new(alloc),
            refusals: Refusals::none(),
            row: FIRST_ROW,
        }
    }

    /// Answers the next row's message.
    fn answer(&mut self, message: Message) -> Result<(), AllocError>
        requires ending { IsEnding self.old }
        ensures more { OnOk result (EndsMore self.old self.new (message ∷ [])) }
    {
        self.names.add(&message)?;
        let greatest = self.tape.last_of(message.header().participant);
        let answered = self.tape.answer(message)?;
        self.refusals.count(&answered, self.row, &message, greatest);
        match self.row.checked_add(1) {
            Some(row) => self.row = row,
            None => return Err(AllocError),
        }
        Ok(())
    }

    /// Answers the messages of the next rows, in order.
    pub fn answer_all(&mut self, messages: &[Message]) -> Result<(), AllocError>
        requires ending { IsEnding self.old }
        ensures more { OnOk result (EndsMore self.old self.new messages.now) }
    {
        for message in messages {
            self.answer(*message)?;
        }
        Ok(())
    }
}
