//! Sends a command to a peer, reads its answer up to the empty line, and writes the answer's lines.
ghost use Rattle.std.specs.Prelude.{◌≡◌, ◌≢◌, [], OnOk, IfErr, Err};
ghost use Rattle.std.specs.Io.KnownBytes.{Appends};
ghost use Rattle.whole_io.specs.Writing.{WritesPrefix};
ghost use Rattle.day_control.specs.Asking.{AnswerRead, Told};
ghost use Rattle.day_control.specs.Commands.{command_name};
ghost use Rattle.day_control.specs.Lines.{line_text};
ghost use Rattle.day_control.specs.declared.control_fault.ControlFault.TheVariants.{CutOff, OutOfMemory, Unanswered, WriteFault};

use crate::line::{FailedRead, LINE_FEED, next_byte};
use crate::{ControlCommand, ControlFault};
use std::alloc::Global;
use std::io::{Read, Write};
use whole_io::send;

/// How many bytes of an answer are read at most.
pub const ANSWER_MOST: u32 = 1_048_576;

/// Sends a command to a peer, reads the answer, writes its lines and flushes the writer. Errors, the first that applies:
/// `Unanswered` if the command can't be sent, `CutOff` or `OutOfMemory` while the answer is read, and `WriteFault`; before that
/// nothing was written. No byte after the answer is read.
pub fn ask_over<R: Read, P: Write, W: Write>(
    alloc: Global,
    command: ControlCommand,
    reader: &mut R,
    peer: &mut P,
    writer: &mut W,
) -> Result<(), ControlFault>
    // The command was sent, or a prefix of it if it couldn't be sent, and nothing else.
    ensures asked { result ≢ Err Unanswered → Appends (P.contents peer.old) (P.contents peer.new) (line_text (command_name command)) }
    ensures part { WritesPrefix (line_text (command_name command)) (P.contents peer.old) (P.contents peer.new) }
    // The lines of the answer were written, and nothing else.
    ensures told { OnOk result (Told (R.remaining reader.old) (R.remaining reader.new) (W.contents writer.old) (W.contents writer.new)) }
    ensures untold { IfErr result (λ fault. fault ≢ WriteFault → writer.new ≡ writer.old) }
{
    if !send(peer, command.line()) {
        return Err(ControlFault::Unanswered);
    }
    let mut text = Vec::new(alloc);
    read_answer(reader, &mut text)?;
    if !send(writer, &text) {
        return Err(ControlFault::WriteFault);
    }
    Ok(())
}

/// Reads the lines of an answer into a text that is empty, up to the empty line, which is read too.
fn read_answer<R: Read>(reader: &mut R, text: &mut Vec<u8>) -> Result<(), ControlFault>
    requires { text.old.items ≡ [] }
    ensures ok { OnOk result (AnswerRead (R.remaining reader.old) (R.remaining reader.new) text.new.items) }
    ensures err { IfErr result (λ fault. (fault ≢ Unanswered) × (fault ≢ WriteFault)) }
{
    let mut is_begun = false;
    for _ in 0..ANSWER_MOST {
        match next_byte(reader) {
            Ok(Some(byte)) => {
                if byte == LINE_FEED && !is_begun {
                    return Ok(());
                }
                if text.push(byte).is_err() {
                    return Err(ControlFault::OutOfMemory);
                }
                is_begun = byte != LINE_FEED;
            }
            Ok(None) | Err(FailedRead) => return Err(ControlFault::CutOff),
        }
    }
    Err(ControlFault::CutOff)
}
