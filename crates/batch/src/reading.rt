//! Reads a whole batch: its header, and then its lines, which are answered on an empty tape.
ghost use Rattle.std.specs.Prelude.{◌≡◌, IfOk, IfErr, OnOk, IfSome, Err, false};
ghost use Rattle.batch.specs.Day.{HasAnswered};
ghost use Rattle.batch.specs.Reading.{EndsReading, Fits, GoesOn, ReadsBatch};
ghost use Rattle.batch.specs.Lines.{lines_of};
ghost use Rattle.batch.specs.declared.read_end.ReadEnd.TheVariants.{OutOfMemory};

use crate::day::BatchDay;
use crate::header::read_header;
use crate::input::Input;
use crate::read_end::ReadEnd;
use sale_matrix::Matrix;
use std::alloc::Global;
use std::io::BufRead;
use tape_core::IndexedTape;
use tape_types::{HeaderFault, ListingFault};

/// The most entries that a batch's tape has, whatever the limit of other tapes.
const BATCH_TAPE_MOST: u32 = 1_048_576;

/// What was read of a whole input.
#[derive(Drop)]
pub enum ReadInput {
    /// The day with the answers to its lines.
    Answered(BatchDay),
    /// What is wrong with its header. Its other lines were skipped.
    HeaderRefused(HeaderFault),
}

/// Why an input was not read to its end, and its day up to there, if it had begun.
#[derive(Drop)]
pub struct UnreadInput {
    /// Why it was not read to its end.
    pub end: ReadEnd,
    /// The day. If memory ran out for reading, it had not run out at one of the day's lines.
    pub day: Option<BatchDay>,
}

impl From<ReadEnd> for UnreadInput {
    ghost use Rattle.std.specs.Prelude.{◌≡◌, None};

    ghost from_gives = { λ end unread. (unread.end ≡ end) × (unread.day ≡ None) };

    fn from(end: ReadEnd) -> UnreadInput {
        UnreadInput { end, day: None }
    }
}

/// Answers the lines that are left of an input after its header, on an empty tape, and returns the day and how reading ended.
/// If memory ran out for reading, it had not run out at a line.
fn read_day<B: BufRead>(
    alloc: Global,
    tape: IndexedTape,
    input: &mut Input<B>,
    line: &mut Vec<u8>,
) -> (BatchDay, Result<(), ReadEnd>)
    ensures day { OnOk result.1 (IfSome (B.remaining input.old.left) (λ bytes. HasAnswered tape (lines_of bytes) result.0)) }
    ensures fits { OnOk result.1 (Fits (B.remaining input.old.left) input.old.taken) }
    ensures err { IfErr result.1 (EndsReading (B.remaining input.old.left) input.old.taken) }
    ensures goes_on { result.1 ≡ Err OutOfMemory → result.0.is_stopped ≡ false }
{
    let mut day = BatchDay::new(alloc, tape);
    let read = day.answer_all(input, line);
    (day, read)
}

/// Reads a whole input and answers its lines, and returns the day, or what is wrong with the header.
pub fn read_batch<B: BufRead>(
    alloc: Global,
    matrix: Matrix,
    input: &mut Input<B>,
) -> Result<ReadInput, UnreadInput>
    ensures read { IfOk result (λ read. IfSome (B.remaining input.old.left) (ReadsBatch matrix read)) }
    ensures fits { OnOk result (Fits (B.remaining input.old.left) input.old.taken) }
    ensures err { IfErr result (λ unread. EndsReading (B.remaining input.old.left) input.old.taken unread.end) }
    ensures goes_on { IfErr result GoesOn }
{
    let mut first = Vec::new(alloc);
    let mut second = Vec::new(alloc);
    input.next_line(&mut first)?;
    input.next_line(&mut second)?;
    match read_header(alloc, &first, &second) {
        Ok(listing) => {
            let Ok(tape) = IndexedTape::new(alloc, listing, BATCH_TAPE_MOST, matrix) else {
                return Err(UnreadInput::from(ReadEnd::OutOfMemory));
            };
            // The first line's memory is used again for lines between two pieces.
            let (day, read) = read_day(alloc, tape, input, &mut first);
            match read {
                Ok(()) => Ok(ReadInput::Answered(day)),
                Err(end) => Err(UnreadInput {
                    end,
                    day: Some(day),
                }),
            }
        }
        Err(HeaderFault::BadListing(ListingFault::OutOfMemory)) => {
            Err(UnreadInput::from(ReadEnd::OutOfMemory))
        }
        Err(fault) => {
            input.skip_lines()?;
            Ok(ReadInput::HeaderRefused(fault))
        }
    }
}
