//! Writes the texts of a journal, which is read whole, and turns their ends into statuses and lines on standard error.
ghost use Rattle.std.specs.Prelude.{◌≡◌, ◌≢◌, ◌⊎◌, Err, IsOk, None, OnErr, OnOk};
ghost use Rattle.std.specs.Io.KnownBytes.{Appends};
ghost use Rattle.whole_io.specs.Lines.{WritesLines};
ghost use Rattle.whole_io.specs.Writing.{WritesPrefix};
ghost use Rattle.whole_io.specs.declared.writing_fault.WritingFault.TheVariants.{OutOfMemory as NoMemory};
ghost use Rattle.command_line.specs.Statuses.{status_code};
ghost use Rattle.command_line.specs.declared.status.Status.TheVariants.{Bad, OutOfMemory, ReadFault as Unreadable, WriteFault};
ghost use Rattle.whole_io.specs.declared.reading.ReadFault.TheVariants.{Failed, OutOfMemory as NoRoom};
ghost use Rattle.desk_words.specs.JournalStatuses.{no_day_status, verdict_status, written_status};
ghost use Rattle.desk_words.specs.JournalRuns.{AnswersJournal, Reads, RunsDay, RunsFound, TellsDay, TellsFound, day_text};
ghost use Rattle.desk_words.specs.Outputs.{IsQuietIfGone};

use crate::Output;
use crate::saying::{say_ended, say_line, say_status};
use command_line::{Command, Status};
use csv_days::DayText;
use journal_days::{
    JournalDay, JournalFault, JournalVerdict, fault_text, read_day, verdict_text, verify_journal,
    write_journal_explained, write_journal_report, write_journal_tape,
};
use sale_matrix::Matrix;
use std::alloc::{AllocError, Global};
use std::fmt;
use std::io::{Read, Write};
use whole_io::{ReadFault, WritingFault, read_all, write_text};

/// Returns the status of a journal that could not be read.
fn read_status(fault: ReadFault) -> Status
    ensures one { (result ≡ Unreadable) ⊎ (result ≡ OutOfMemory) }
    ensures failed { fault ≡ Failed → result ≡ Unreadable }
    ensures memory { fault ≡ NoRoom → result ≡ OutOfMemory }
{
    match fault {
        ReadFault::Failed => Status::ReadFault,
        ReadFault::OutOfMemory => Status::OutOfMemory,
    }
}

/// Writes a text of a journal's day, and flushes it.
fn write_journal_text<W: Write>(
    alloc: Global,
    text: DayText,
    day: &JournalDay,
    writer: &mut W,
) -> Result<(), WritingFault>
    ensures written { OnOk result (Appends (W.contents writer.old) (W.contents writer.new) (day_text text day.now)) }
    ensures memory { text ≡ DayText.Report → result ≡ Err NoMemory → writer.new ≡ writer.old }
    ensures prefix { OnErr result (WritesPrefix (day_text text day.now) (W.contents writer.old) (W.contents writer.new)) }
{
    match text {
        DayText::Report => write_journal_report(alloc, day, writer),
        DayText::Tape => write_journal_tape(alloc, day, writer),
        DayText::Explanation => write_journal_explained(alloc, day, writer),
    }
}

/// A last group that is cut off behind so many bytes, as it is printed.
#[derive(Drop)]
struct TornGroup(usize);

impl fmt::Display for TornGroup {
    fn fmt<W: fmt::Write>(&self, f: &mut fmt::Formatter<W>) -> fmt::Result {
        write!(f, "a group is cut off behind byte {}, and left out", self.0)
    }
}

/// Says that a group is cut off behind a day's bytes, if so.
#[tactic(auto, using(crate::proofs::LineLemmas::no_lines))]
fn say_torn<E: Write>(alloc: Global, errors: &mut E, torn: Option<usize>)
    ensures quiet { torn ≡ None → errors.new ≡ errors.old }
    ensures said { WritesLines (E.contents errors.old) (E.contents errors.new) }
{
    if let Some(from) = torn {
        say_line(alloc, errors, &TornGroup(from));
    }
}

/// Says where a group is cut off, or why a day's text is not whole, and returns the status.
fn end_day<E: Write>(
    alloc: Global,
    errors: &mut E,
    reader_gone: bool,
    torn: Option<usize>,
    run: Result<(), WritingFault>,
) -> Status
    ensures status { status_code result ≡ status_code (written_status run) }
    ensures gone { IsQuietIfGone reader_gone result errors.old errors.new }
    ensures quiet { IsOk run → torn ≡ None → errors.new ≡ errors.old }
    ensures said { WritesLines (E.contents errors.old) (E.contents errors.new) }
{
    match run {
        Ok(()) => {
            say_torn(alloc, errors, torn);
            Status::Done
        }
        Err(WritingFault::OutOfMemory) => {
            say_status(errors, Status::OutOfMemory);
            Status::OutOfMemory
        }
        Err(WritingFault::WriteFault) => {
            say_ended(errors, Status::WriteFault, reader_gone);
            Status::WriteFault
        }
    }
}

/// Writes a text of a journal's day, says what was left out or why the text is not whole, and returns the status.
fn tell_day<W: Output, E: Write>(
    alloc: Global,
    text: DayText,
    day: &JournalDay,
    writer: &mut W,
    errors: &mut E,
) -> Status
    ensures tells { TellsDay text day.now (status_code result) writer.old writer.new (W.contents writer.old) (W.contents writer.new)
        errors.old errors.new (E.contents errors.old) (E.contents errors.new) }
    ensures gone { IsQuietIfGone (W.reader_gone writer.new) result errors.old errors.new }
{
    let run = write_journal_text(alloc, text, day, writer);
    end_day(alloc, errors, writer.reader_is_gone(), day.torn, run)
}

/// Says why a journal has no day, unless there is no memory for the line, and returns the status.
#[tactic(auto, using(crate::proofs::LineLemmas::no_lines))]
fn say_no_day<E: Write>(alloc: Global, errors: &mut E, fault: &JournalFault) -> Status
    ensures status { result ≡ no_day_status fault.now }
    ensures no_fault { result ≢ WriteFault }
    ensures said { WritesLines (E.contents errors.old) (E.contents errors.new) }
{
    if matches!(fault, JournalFault::OutOfMemory) {
        say_status(errors, Status::OutOfMemory);
        return Status::OutOfMemory;
    }
    if let Ok(text) = fault_text(alloc, fault) {
        say_line(alloc, errors, &text);
    }
    Status::Bad
}

/// Writes a text of the day of a journal's bytes, says what was left out or why there is no day, and returns the status.
fn run_bytes<W: Output, E: Write>(
    alloc: Global,
    text: DayText,
    asked: Option<Matrix>,
    bytes: &[u8],
    writer: &mut W,
    errors: &mut E,
) -> Status
    ensures runs { RunsDay text asked bytes.now (status_code result) writer.old writer.new (W.contents writer.old) (W.contents writer.new)
        errors.old errors.new (E.contents errors.old) (E.contents errors.new) }
    ensures gone { IsQuietIfGone (W.reader_gone writer.new) result errors.old errors.new }
{
    match read_day(alloc, asked, bytes) {
        Ok(day) => tell_day(alloc, text, &day, writer, errors),
        Err(fault) => say_no_day(alloc, errors, &fault),
    }
}

/// Writes a text of a journal's day, says what was left out or why there is no day, and returns the status.
fn run_day<R: Read, W: Output, E: Write>(
    alloc: Global,
    text: DayText,
    asked: Option<Matrix>,
    reader: &mut R,
    writer: &mut W,
    errors: &mut E,
) -> Status
    ensures runs { Reads (λ bytes. RunsDay text asked bytes (status_code result) writer.old writer.new (W.contents writer.old) (W.contents writer.new)
        errors.old errors.new (E.contents errors.old) (E.contents errors.new))
        (R.remaining reader.old) (status_code result) writer.old writer.new (E.contents errors.old) (E.contents errors.new) }
    ensures gone { IsQuietIfGone (W.reader_gone writer.new) result errors.old errors.new }
{
    match read_all(alloc, reader) {
        Ok(bytes) => run_bytes(alloc, text, asked, &bytes, writer, errors),
        Err(fault) => {
            let status = read_status(fault);
            say_ended(errors, status, writer.reader_is_gone());
            status
        }
    }
}

/// Returns the line of a journal's verdict.
fn verdict_line(alloc: Global, found: &JournalVerdict) -> Result<String, AllocError> {
    let mut line = verdict_text(alloc, found)?;
    line.push_str("\n")?;
    Ok(line)
}

/// Returns the status of a journal's verdict. A group that is cut off is no difference.
fn verdict_status(found: &JournalVerdict) -> Status
    ensures status { result ≡ verdict_status found.now }
    ensures no_fault { result ≢ WriteFault }
{
    match found {
        JournalVerdict::Recorded { .. } | JournalVerdict::CutOff { .. } => Status::Done,
        JournalVerdict::Differs(_) | JournalVerdict::Damaged { .. } => Status::Differs,
    }
}

/// Writes the line of a journal's verdict, or says why it is not whole, and returns the status.
#[tactic(auto, using(crate::proofs::LineLemmas::grown, crate::proofs::LineLemmas::grows))]
fn tell_found<W: Output, E: Write>(
    alloc: Global,
    found: &JournalVerdict,
    writer: &mut W,
    errors: &mut E,
) -> Status
    ensures tells { TellsFound found.now (status_code result) writer.old writer.new (W.contents writer.old) (W.contents writer.new)
        errors.old errors.new (E.contents errors.old) (E.contents errors.new) }
    ensures gone { IsQuietIfGone (W.reader_gone writer.new) result errors.old errors.new }
{
    let Ok(line) = verdict_line(alloc, found) else {
        say_status(errors, Status::OutOfMemory);
        return Status::OutOfMemory;
    };
    match write_text(writer, line.as_bytes()) {
        Ok(()) => verdict_status(found),
        Err(_) => {
            say_ended(errors, Status::WriteFault, writer.reader_is_gone());
            Status::WriteFault
        }
    }
}

/// Writes the verdict on a journal's bytes, or says why there is none, and returns the status.
fn verify_bytes<W: Output, E: Write>(
    alloc: Global,
    asked: Option<Matrix>,
    bytes: &[u8],
    writer: &mut W,
    errors: &mut E,
) -> Status
    ensures runs { RunsFound asked bytes.now (status_code result) writer.old writer.new (W.contents writer.old) (W.contents writer.new)
        errors.old errors.new (E.contents errors.old) (E.contents errors.new) }
    ensures gone { IsQuietIfGone (W.reader_gone writer.new) result errors.old errors.new }
{
    match verify_journal(alloc, asked, bytes) {
        Ok(found) => tell_found(alloc, &found, writer, errors),
        Err(fault) => say_no_day(alloc, errors, &fault),
    }
}

/// Writes the verdict on a journal, or says why there is none, and returns the status.
fn run_found<R: Read, W: Output, E: Write>(
    alloc: Global,
    asked: Option<Matrix>,
    reader: &mut R,
    writer: &mut W,
    errors: &mut E,
) -> Status
    ensures runs { Reads (λ bytes. RunsFound asked bytes (status_code result) writer.old writer.new (W.contents writer.old) (W.contents writer.new)
        errors.old errors.new (E.contents errors.old) (E.contents errors.new))
        (R.remaining reader.old) (status_code result) writer.old writer.new (E.contents errors.old) (E.contents errors.new) }
    ensures gone { IsQuietIfGone (W.reader_gone writer.new) result errors.old errors.new }
{
    match read_all(alloc, reader) {
        Ok(bytes) => verify_bytes(alloc, asked, &bytes, writer, errors),
        Err(fault) => {
            let status = read_status(fault);
            say_ended(errors, status, writer.reader_is_gone());
            status
        }
    }
}

/// Says that a word takes no journal, and returns the status.
fn say_no_table<E: Write>(alloc: Global, errors: &mut E) -> Status
    ensures status { result ≡ Bad }
    ensures said { WritesLines (E.contents errors.old) (E.contents errors.new) }
{
    let words = "this is a journal, which report, tape, explain and verify take";
    say_line(alloc, errors, &words);
    Status::Bad
}

/// Writes a text of a journal to `writer` and returns how that ended. The journal is read whole from `reader` before anything
/// is written.
///
/// `Report` writes the day's report, `Tape` its readable tape, `Explain` what became of its reports, and `Verify` whether all
/// stands as it is written; the other words say that they take no journal. The journal's own matrix has to be the one that is
/// asked for, if any. `errors` gets one line if a last group is cut off, or for what goes wrong, but none for a write fault if
/// whoever read what was written is gone. The status is `Done` if all is done, `Differs` if a journal is not as it is written,
/// `Bad` for one that has no day or another matrix, `ReadFault`, `WriteFault`, or `OutOfMemory`.
pub(crate) fn run_journal<R: Read, W: Output, E: Write>(
    alloc: Global,
    command: Command,
    reader: &mut R,
    writer: &mut W,
    errors: &mut E,
) -> Status
    ensures answers { AnswersJournal command (status_code result) (R.remaining reader.old) writer.old writer.new
        (W.contents writer.old) (W.contents writer.new) errors.old errors.new (E.contents errors.old) (E.contents errors.new) }
    ensures gone { IsQuietIfGone (W.reader_gone writer.new) result errors.old errors.new }
{
    match command {
        Command::Report(asked, _) => run_day(alloc, DayText::Report, asked, reader, writer, errors),
        Command::Tape(asked, _) => run_day(alloc, DayText::Tape, asked, reader, writer, errors),
        Command::Explain(asked, _) => {
            run_day(alloc, DayText::Explanation, asked, reader, writer, errors)
        }
        Command::Verify(asked) => run_found(alloc, asked, reader, writer, errors),
        Command::Check | Command::Convert(_) => say_no_table(alloc, errors),
    }
}
