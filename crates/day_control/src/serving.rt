//! Answers commands as they come: each line makes its call, and its answer is written and flushed.
ghost use Rattle.std.specs.Prelude.{◌≡◌, ◌≢◌, ◌<◌, ◌∷◌, [], IfErr, OnOk, Some};
ghost use Rattle.std.specs.Io.KnownBytes.{Appends};
ghost use Rattle.whole_io.specs.Writing.{WritesPrefix};
ghost use Rattle.day_control.specs.Answers.{AnswersTo, AnswerFails, UNKNOWN_LINE};
ghost use Rattle.day_control.specs.Lines.{answer_text};
ghost use Rattle.day_control.specs.Serving.{Serves, ServesTo};
ghost use Rattle.day_control.specs.declared.command.ControlCommand.TheVariants.{Status, End};
ghost use Rattle.day_control.specs.declared.serve_end.ControlOutcome.TheVariants.{TooMany, WriteFault};

use crate::answer::{ending, put_answer, unknown};
use crate::line::{LINE_ROOM, LineRead, read_line};
use crate::{ControlCommand, ControlEnd, ControlOutcome, Operator};
use std::alloc::Global;
use std::io::{Read, Write};
use whole_io::send;

/// The buffers that all answers of a connection share.
#[derive(Drop)]
struct Room {
    /// The status of the day.
    told: Vec<u8>,
    /// An answer.
    text: Vec<u8>,
}

/// Answers the lines that come, one after the other and at most this many: each is read whole, makes its call, and its answer
/// is written in one write if the writer takes it whole, and flushed. A line that is no command makes no call. Only the answer
/// to a status allocates.
pub fn serve_commands<O: Operator, R: Read, W: Write>(
    alloc: Global,
    most: u32,
    operator: &mut O,
    reader: &mut R,
    writer: &mut W,
) -> ControlEnd
    // What was read, called and written.
    ensures serves { ServesTo result.ended (O.calls operator.old) (O.calls operator.new) (R.remaining reader.old) (R.remaining reader.new)
        (W.contents writer.old) (W.contents writer.new) result.served }
    // It goes on up to the most lines.
    ensures many { result.ended ≡ TooMany → result.served ≡ most }
    ensures few { result.ended ≢ TooMany → result.served < most }
{
    let mut room = Room {
        told: Vec::new(alloc),
        text: Vec::new(alloc),
    };
    for served in 0..most {
        if let Err(ended) = serve_next(operator, reader, writer, &mut room) {
            return ControlEnd { served, ended };
        }
    }
    ControlEnd {
        served: most,
        ended: ControlOutcome::TooMany,
    }
}

/// Answers the next line, or returns why there is none or no answer.
fn serve_next<O: Operator, R: Read, W: Write>(
    operator: &mut O,
    reader: &mut R,
    writer: &mut W,
    room: &mut Room,
) -> Result<(), ControlOutcome>
    ensures ok { OnOk result (Serves (O.calls operator.old) (O.calls operator.new) (R.remaining reader.old) (R.remaining reader.new)
        (W.contents writer.old) (W.contents writer.new) 1) }
    ensures err { IfErr result (λ ended. ServesTo ended (O.calls operator.old) (O.calls operator.new) (R.remaining reader.old) (R.remaining reader.new)
        (W.contents writer.old) (W.contents writer.new) 0) }
    ensures goes_on { IfErr result (λ ended. ended ≢ TooMany) }
{
    let mut row = [0; LINE_ROOM];
    match read_line(reader, &mut row) {
        LineRead::Line(len) => answer(operator, ControlCommand::of_line(&row[..len]), writer, room),
        LineRead::TooLong => {
            answer_unknown(writer)?;
            Err(ControlOutcome::TooLong)
        }
        LineRead::Nothing => Err(ControlOutcome::Clean),
        LineRead::Part => Err(ControlOutcome::Truncated),
        LineRead::Fault => Err(ControlOutcome::ReadFault),
    }
}

/// Makes a command's call and answers it.
fn answer<O: Operator, W: Write>(
    operator: &mut O,
    command: Option<ControlCommand>,
    writer: &mut W,
    room: &mut Room,
) -> Result<(), ControlOutcome>
    ensures ok { OnOk result (AnswersTo command (O.calls operator.old) (O.calls operator.new) (W.contents writer.old) (W.contents writer.new)) }
    ensures err { IfErr result (λ ended. AnswerFails ended command (O.calls operator.old) (O.calls operator.new) (W.contents writer.old) (W.contents writer.new)) }
{
    match command {
        Some(ControlCommand::Status) => answer_status(operator, writer, room),
        Some(ControlCommand::End) => answer_end(operator, writer),
        None => answer_unknown(writer),
    }
}

/// Answers with the status of what is operated.
fn answer_status<O: Operator, W: Write>(
    operator: &mut O,
    writer: &mut W,
    room: &mut Room,
) -> Result<(), ControlOutcome>
    ensures ok { OnOk result (AnswersTo (Some Status) (O.calls operator.old) (O.calls operator.new) (W.contents writer.old) (W.contents writer.new)) }
    ensures err { IfErr result (λ ended. AnswerFails ended (Some Status) (O.calls operator.old) (O.calls operator.new) (W.contents writer.old) (W.contents writer.new)) }
{
    room.told.clear();
    let Ok(()) = operator.put_status(&mut room.told) else {
        return Err(ControlOutcome::OutOfMemory);
    };
    let Ok(()) = put_answer(&room.told, &mut room.text) else {
        return Err(ControlOutcome::OutOfMemory);
    };
    if !send(writer, &room.text) {
        return Err(ControlOutcome::WriteFault);
    }
    Ok(())
}

/// Ends what is operated, and answers.
fn answer_end<O: Operator, W: Write>(operator: &mut O, writer: &mut W) -> Result<(), ControlOutcome>
    ensures ok { OnOk result (AnswersTo (Some End) (O.calls operator.old) (O.calls operator.new) (W.contents writer.old) (W.contents writer.new)) }
    ensures err { IfErr result (λ ended. AnswerFails ended (Some End) (O.calls operator.old) (O.calls operator.new) (W.contents writer.old) (W.contents writer.new)) }
{
    let is_first = operator.end();
    if !send(writer, ending(is_first)) {
        return Err(ControlOutcome::WriteFault);
    }
    Ok(())
}

/// Answers a line that is no command.
fn answer_unknown<W: Write>(writer: &mut W) -> Result<(), ControlOutcome>
    ensures ok { OnOk result (Appends (W.contents writer.old) (W.contents writer.new) (answer_text (UNKNOWN_LINE ∷ []))) }
    ensures err { IfErr result (λ ended. (ended ≡ WriteFault) × WritesPrefix (answer_text (UNKNOWN_LINE ∷ [])) (W.contents writer.old) (W.contents writer.new)) }
{
    if !send(writer, unknown()) {
        return Err(ControlOutcome::WriteFault);
    }
    Ok(())
}
