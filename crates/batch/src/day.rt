//! Answers the lines of an input on one tape, and keeps the answers until the input has been read whole.
ghost use Rattle.std.specs.Prelude.{◌≡◌, ◌≢◌, ◌≤◌, ◌↔◌, [], ◌∷◌, false, Err, Ok, IsOk, IsTrue, IfErr, IfSome, OnOk, OnErr};
ghost use Rattle.std.specs.IoError.{error_kind};
ghost use Rattle.tape_core.specs.declared.refusal.Refusal.TheVariants.{OutOfMemory};
ghost use Rattle.batch.specs.Batch.{line_answer, tape_after_line};
ghost use Rattle.batch.specs.Reading.{EndsReading, Fits};
ghost use Rattle.batch.specs.Day.{AnswersMore, AnswersTaken};
ghost use Rattle.batch.specs.Lines.{lines_of};
ghost use Rattle.batch.specs.declared.batch_refusal.BatchRefusal.TheVariants.{Refused};
ghost use Rattle.batch.specs.declared.read_end.ReadEnd.TheVariants.{OutOfMemory as ReadOutOfMemory, ReadFault as ReadFailed};

use crate::BatchRefusal;
use crate::input::Input;
use crate::lines::{WholeLines, whole_lines};
use crate::message_line::read_message;
use crate::read_end::ReadEnd;
use std::alloc::{AllocError, Global};
use std::io::{BufRead, Error, ErrorKind};
use tape_core::{IndexedTape, Refusal};
use tape_types::TapeNumber;
use whole_io::ReadFault;

/// The answer to a line: its message's tape number, or why it was refused.
pub type LineAnswer = Result<TapeNumber, BatchRefusal>;

// A day holds an answer to each of its lines.
const _: () = prove!(size_of::<LineAnswer>() == 5);

/// Admits a line's message and returns its tape number, or its refusal, which leaves the tape unchanged.
#[tactic(auto, unfolding(crate::specs::Batch::line_answer, crate::specs::Batch::tape_after_line))]
fn answer(tape: &mut IndexedTape, line: &[u8]) -> LineAnswer
    ensures answer { (result ≢ Err (Refused OutOfMemory)) → result ≡ line_answer tape.old line.now }
    ensures tape { (result ≢ Err (Refused OutOfMemory)) → tape.new ≡ tape_after_line tape.old line.now }
    ensures refused { OnErr result (tape.new ≡ tape.old) }
    ensures memory { result ≡ Err (Refused OutOfMemory) → IsOk (line_answer tape.old line.now) }
{
    let message = read_message(line)?;
    match tape.answer(message) {
        Ok(Ok(number)) => Ok(number),
        Ok(Err(refusal)) => Err(BatchRefusal::Refused(refusal)),
        Err(AllocError) => Err(BatchRefusal::Refused(Refusal::OutOfMemory)),
    }
}

/// Whether memory ran out at the line of an answer.
fn lacks_memory(answer: &LineAnswer) -> bool
    ensures { IsTrue result ↔ (answer.now ≡ Err (Refused OutOfMemory)) }
{
    matches!(answer, Err(BatchRefusal::Refused(refusal)) if refusal.is_out_of_memory())
}

/// The end of reading after a failed read of a piece: none if the read was interrupted, since the next read tries again.
fn unread_piece(error: &Error) -> Result<(), ReadEnd>
    ensures interrupted { error_kind error.now ≡ ErrorKind.Interrupted → result ≡ Ok tt }
    ensures memory { error_kind error.now ≡ ErrorKind.OutOfMemory → result ≡ Err ReadOutOfMemory }
    ensures fault { error_kind error.now ≢ ErrorKind.Interrupted → error_kind error.now ≢ ErrorKind.OutOfMemory → result ≡ Err ReadFailed }
{
    match error.kind() {
        ErrorKind::Interrupted => Ok(()),
        _ => Err(ReadEnd::from(ReadFault::of(error))),
    }
}

/// A day: its tape, and the answers that it holds until its input has been read whole.
#[derive(Drop)]
pub struct BatchDay {
    /// The tape.
    pub tape: IndexedTape,
    /// The answers to the lines so far.
    pub answers: Vec<LineAnswer>,
    /// Whether memory ran out at a line, whose refusal is then the last answer.
    pub is_stopped: bool,
}

impl BatchDay {
    /// A day without answers.
    pub fn new(alloc: Global, tape: IndexedTape) -> Self
        ensures tape { result.tape ≡ tape }
        ensures answers { result.answers.items ≡ [] }
        ensures goes_on { result.is_stopped ≡ false }
    {
        BatchDay {
            tape,
            answers: Vec::new(alloc),
            is_stopped: false,
        }
    }

    /// Answers a line, unless memory ran out at an earlier one. `AllocError` if there is no memory to keep the answer.
    fn answer_line(&mut self, line: &[u8]) -> Result<(), AllocError>
        ensures answered { OnOk result (AnswersMore self.old self.new (line.now ∷ [])) }
        ensures goes_on { OnErr result (self.new.is_stopped ≡ false) }
    {
        if self.is_stopped {
            return Ok(());
        }
        // The answer's room is allocated first, so a refusal for want of memory can be kept.
        self.answers.reserve(1)?;
        let answer = answer(&mut self.tape, line);
        self.is_stopped = lacks_memory(&answer);
        self.answers.push(answer).unwrap();
        Ok(())
    }

    /// Answers lines one after another.
    fn answer_lines(&mut self, lines: WholeLines<'_>) -> Result<(), AllocError>
        ensures answered { OnOk result (AnswersMore self.old self.new (lines_of lines.entry.rest.now)) }
        ensures goes_on { OnErr result (self.new.is_stopped ≡ false) }
    {
        for line in lines {
            self.answer_line(line)?;
        }
        Ok(())
    }

    /// Answers the lines that stand whole in the input's next piece, unless memory ran out at an earlier one.
    fn answer_piece<B: BufRead>(&mut self, input: &mut Input<B>) -> Result<(), ReadEnd>
        ensures answered { OnOk result (AnswersTaken self.old self.new
            (B.remaining input.old.left) (B.remaining input.new.left) input.old.taken input.new.taken) }
        ensures grows { OnOk result (input.old.taken ≤ input.new.taken) }
        ensures err { IfErr result (EndsReading (B.remaining input.old.left) input.old.taken) }
        ensures goes_on { result ≡ Err ReadOutOfMemory → self.new.is_stopped ≡ false }
    {
        if self.is_stopped {
            return Ok(());
        }
        let piece = match input.left.fill_buf() {
            Ok(piece) => piece,
            Err(error) => return unread_piece(&error),
        };
        let whole = whole_lines(piece);
        let answered = self.answer_lines(WholeLines::new(&piece[..whole]));
        input.left.consume(whole);
        input.count(whole)?;
        answered?;
        Ok(())
    }

    /// Answers all lines of an input: those that stand whole in a piece, then the one between two pieces, and so on. If memory
    /// runs out at a line, the rest is skipped without allocating, to find whether the input fits.
    ///
    /// Errors: `ReadFault` if a read fails, `TooLarge` beyond the limit, and `OutOfMemory` if there is no memory for an answer,
    /// a line between two pieces, or a read. Memory that runs out at a line is no error, and if the reader then lacks memory
    /// for the rest, the error is `ReadFault`.
    pub fn answer_all<B: BufRead>(
        &mut self,
        input: &mut Input<B>,
        line: &mut Vec<u8>,
    ) -> Result<(), ReadEnd>
        ensures answered { OnOk result (IfSome (B.remaining input.old.left) (λ bytes. AnswersMore self.old self.new (lines_of bytes))) }
        ensures fits { OnOk result (Fits (B.remaining input.old.left) input.old.taken) }
        ensures err { IfErr result (EndsReading (B.remaining input.old.left) input.old.taken) }
        ensures goes_on { result ≡ Err ReadOutOfMemory → self.new.is_stopped ≡ false }
    {
        self.answer_piece(input)?;
        while !self.is_stopped {
            if !input.next_line(line)? {
                return Ok(());
            }
            self.answer_line(line)?;
            self.answer_piece(input)?;
        }
        match input.skip_lines() {
            Err(ReadEnd::OutOfMemory) => Err(ReadEnd::ReadFault),
            skipped => skipped,
        }
    }
}
