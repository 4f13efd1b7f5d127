//! Answers a message with its tape number or its refusal, for callers that need no entry.
ghost use Rattle.std.specs.Prelude.{◌≡◌, ◌≢◌, Err, None, IfOk, OnErr, OnOk};
ghost use Rattle.tape_core.specs.Answers.{answer, tape_after};
ghost use Rattle.tape_core.specs.Ending.{IsKeptFor, KeepsEnd, ListsNames};
ghost use Rattle.tape_core.specs.Tape.{TapeState, refusal};
ghost use Rattle.tape_core.specs.declared.refusal.Refusal.TheVariants.{OutOfMemory};

use crate::{EndTape, Refusal, Tape};
use reports::Message;
use std::alloc::AllocError;
use summaries::Store;
use tape_types::TapeNumber;

/// The answer to a message: its tape number, or why the tape refused it, which is never `OutOfMemory`.
pub type TapeAnswer = Result<TapeNumber, Refusal>;

/// Returns the answer of a tape that has not admitted a message, or `AllocError` if that is for want of memory.
fn answer_of(refusal: Refusal) -> Result<TapeAnswer, AllocError>
    ensures answer { IfOk result (λ answered. (answered ≡ Err refusal) × (refusal ≢ OutOfMemory)) }
    ensures memory { OnErr result (refusal ≡ OutOfMemory) }
{
    if refusal.is_out_of_memory() {
        return Err(AllocError);
    }
    Ok(Err(refusal))
}

impl<S: Store> Tape<S> {
    /// Admits a message as `admit` does and returns its tape number, or its refusal, which leaves the tape unchanged.
    /// `AllocError` if memory runs out for a message that no rule refuses, and then the tape is unchanged too.
    pub fn answer(&mut self, message: Message) -> Result<TapeAnswer, AllocError>
        ensures tape { OnOk result (self.new ≡ tape_after self.old message) }
        ensures answer { IfOk result (λ answered. answered ≡ answer self.old message) }
        ensures kept { OnErr result (self.new ≡ self.old) }
        ensures memory { OnErr result (refusal self.old message ≡ None) }
    {
        match self.admit(message) {
            Ok(entry) => Ok(Ok(entry.number)),
            Err(refusal) => answer_of(refusal),
        }
    }
}

impl EndTape {
    /// Admits a message as `admit` does and returns its tape number, or its refusal, which changes nothing. `AllocError` if
    /// memory runs out for a message that no rule refuses, and then nothing is changed either.
    pub fn answer(&mut self, message: Message) -> Result<TapeAnswer, AllocError>
        requires kept { IsKeptFor self.old message }
        ensures tape { OnOk result ((t : TapeState) → KeepsEnd t self.old → ListsNames t.listing message → KeepsEnd (tape_after t message) self.new) }
        ensures answer { IfOk result (λ answered. (t : TapeState) → KeepsEnd t self.old → ListsNames t.listing message → answered ≡ answer t message) }
        ensures same { OnErr result ((t : TapeState) → KeepsEnd t self.old → ListsNames t.listing message → KeepsEnd t self.new) }
        ensures memory { OnErr result ((t : TapeState) → KeepsEnd t self.old → ListsNames t.listing message → refusal t message ≡ None) }
    {
        match self.admit(message) {
            Ok(number) => Ok(Ok(number)),
            Err(refusal) => answer_of(refusal),
        }
    }
}
