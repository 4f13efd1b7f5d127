//! Tells by its first bytes whether a word's input is a journal or a table, and runs the word on it.
ghost use Rattle.std.specs.Prelude.{◌≡◌, IfSome};
ghost use Rattle.journal_days.specs.Days.{begins_journal};
ghost use Rattle.command_line.specs.Statuses.{status_code};
ghost use Rattle.desk_words.specs.Outputs.{IsQuietIfGone};
ghost use Rattle.desk_words.specs.Program.{AnswersCommand};

use crate::Output;
use crate::journal_words::run_journal;
use crate::program::run_rows;
use crate::saying::say_status;
use command_line::{Command, Status};
use journal_days::is_journal;
use std::alloc::Global;
use std::io::{Read, Write};
use whole_io::fill;

/// How many bytes it takes to tell a journal from a table.
const TELLING: usize = 8;

/// Returns whether an input begins as a journal does, or `None` if a read failed. It reads no more than the first eight bytes.
pub fn begins_journal<R: Read>(reader: &mut R) -> Option<bool>
    ensures { IfSome result (λ journal. IfSome (R.remaining reader.old) (λ bytes. journal ≡ begins_journal bytes)) }
{
    let mut row = [0; TELLING];
    let len = fill(reader, &mut row)?;
    Some(is_journal(&row[..len]))
}

/// Writes a text of a journal or a table to `writer` and returns how that ended. An input that begins as a journal is read
/// whole. Any other is a table, or the batch's text for `decode`, and is read as it comes.
///
/// `Report` writes the day's report, `Tape` its readable tape, `Explain` what became of its reports, and `Verify` whether a
/// recorded tape or a journal stands as it is written.
///
/// A journal's own matrix has to be the one that is asked for, if any. The other words say that they take no journal. A last
/// group that is cut off is left out, and `errors` gets a line about it.
///
/// A table goes by Matrix One unless another is asked for. `Check` writes every fault of the table, and `Convert` its messages
/// in another form. `errors` gets a line for each reason for which `Report`, `Tape` and `Explain` refused rows.
///
/// `errors` also gets a line for what goes wrong, but none for a write fault if whoever read what was written is gone. The
/// status is `Done` if all is done, `Differs` if a recorded tape or a journal is not as it is written, `Bad` for a bad table,
/// also one that is checked, a bad text or a journal that has no day, `ReadFault`, `WriteFault`, or `OutOfMemory`.
pub fn run_command<R: Read, W: Output, E: Write>(
    alloc: Global,
    command: Command,
    reader: &mut R,
    writer: &mut W,
    errors: &mut E,
) -> Status
    ensures answers { AnswersCommand command (status_code result) (R.remaining reader.old) writer.old writer.new
        (W.contents writer.old) (W.contents writer.new) errors.old errors.new (E.contents errors.old) (E.contents errors.new) }
    ensures gone { IsQuietIfGone (W.reader_gone writer.new) result errors.old errors.new }
{
    let mut row = [0; TELLING];
    let Some(len) = fill(reader, &mut row) else {
        say_status(errors, Status::ReadFault);
        return Status::ReadFault;
    };
    let front = &row[..len];
    let mut input = front.chain(reader);
    if is_journal(front) {
        run_journal(alloc, command, &mut input, writer, errors)
    } else {
        run_rows(alloc, command, &mut input, writer, errors)
    }
}
