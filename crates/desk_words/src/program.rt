//! Writes the texts of a table, which is read as it comes, and turns their ends into statuses and lines on standard error.
ghost use Rattle.std.specs.Prelude.{◌≡◌, ◌≢◌, ◌⊎◌, Err, IfErr, IfOk, IfSome, OnErr, OnOk, true};
ghost use Rattle.csv_days.specs.DayTexts.{text_named};
ghost use Rattle.csv_days.specs.Refusals.{RefusesNone};
ghost use Rattle.csv_days.specs.Strict.{IsListed};
ghost use Rattle.csv_days.specs.TableEnds.{IsTableEnd, WritesTable, WritesTablePart};
ghost use Rattle.csv_days.specs.declared.table_end.TableEnd.TheVariants.{OutOfMemory, WriteFault};
ghost use Rattle.command_line.specs.Statuses.{status_code};
ghost use Rattle.desk_words.specs.Outputs.{IsQuietIfGone};
ghost use Rattle.desk_words.specs.Program.{AnswersTable, RunsCheck, RunsTable, table_matrix, text_by};
ghost use Rattle.desk_words.specs.VerifyRuns.{RunsVerify};
ghost use Rattle.desk_words.specs.TextRuns.{RunsText, decoded, encoded, kind_of, line_of};

use crate::Output;
use crate::saying::{end_check, end_decoded, end_run, end_text, say_end};
use crate::verdict_line::write_verdict;
use command_line::{Command, Conversion, Status};
use csv_days::{
    DayText, Refusals, TableEnd, check_over, explain_over, explain_strict_over, report_over,
    report_strict_over, tape_over, tape_strict_over,
};
use message_texts::{decode_over, encode_over, line_over};
use recorded_tapes::verify_over;
use sale_matrix::Matrix;
use std::alloc::Global;
use std::io::{Read, Write};
use tape_types::Participant;

/// Returns the matrix of a table: the one that is asked for, else Matrix One.
fn table_matrix(asked: Option<Matrix>) -> Matrix
    ensures { result ≡ table_matrix asked }
{
    asked.unwrap_or(Matrix::One)
}

/// Writes a text of a table's day, but nothing if refused rows are faults and there are any.
fn write_table_text<R: Read, W: Write>(
    alloc: Global,
    text: DayText,
    asked: Option<Matrix>,
    strict: bool,
    reader: &mut R,
    writer: &mut W,
) -> Result<Refusals, TableEnd>
    ensures written { IfSome (R.remaining reader.old) (λ input. IfOk result (λ refusals.
        WritesTable (text_by strict (text_named text)) (table_matrix asked) input refusals (W.contents writer.old) (W.contents writer.new))) }
    ensures listed { strict ≡ true → IfSome (R.remaining reader.old) (λ input. OnOk result (IsListed input)) }
    ensures unwritten { strict ≡ true → IfOk result (λ refusals. RefusesNone refusals ⊎ (writer.new ≡ writer.old)) }
    ensures end { IfSome (R.remaining reader.old) (λ input. IfErr result (IsTableEnd input)) }
    ensures silent { result ≢ Err WriteFault → result ≢ Err OutOfMemory → OnErr result (writer.new ≡ writer.old) }
    ensures report { text ≡ DayText.Report → result ≡ Err OutOfMemory → writer.new ≡ writer.old }
    ensures memory { text ≢ DayText.Report → result ≡ Err OutOfMemory
        → IfSome (R.remaining reader.old) (λ input. WritesTablePart (text_by strict (text_named text)) (table_matrix asked) input (W.contents writer.old) (W.contents writer.new)) }
    ensures prefix { result ≡ Err WriteFault
        → IfSome (R.remaining reader.old) (λ input. WritesTablePart (text_by strict (text_named text)) (table_matrix asked) input (W.contents writer.old) (W.contents writer.new)) }
{
    let matrix = table_matrix(asked);
    match (text, strict) {
        (DayText::Report, false) => report_over(alloc, matrix, reader, writer),
        (DayText::Report, true) => report_strict_over(alloc, matrix, reader, writer),
        (DayText::Tape, false) => tape_over(alloc, matrix, reader, writer),
        (DayText::Tape, true) => tape_strict_over(alloc, matrix, reader, writer),
        (DayText::Explanation, false) => explain_over(alloc, matrix, reader, writer),
        (DayText::Explanation, true) => explain_strict_over(alloc, matrix, reader, writer),
    }
}

/// Writes a text of a table's day, says which rows were refused or why the text is not whole, and returns the status.
fn run_day<R: Read, W: Output, E: Write>(
    alloc: Global,
    text: DayText,
    asked: Option<Matrix>,
    strict: bool,
    reader: &mut R,
    writer: &mut W,
    errors: &mut E,
) -> Status
    ensures memory { text ≡ DayText.Report → status_code result ≡ 5 → writer.new ≡ writer.old }
    ensures runs { RunsTable strict (text_named text) (table_matrix asked) (R.remaining reader.old) (W.contents writer.old) (W.contents writer.new) (status_code result)
        writer.old writer.new errors.old errors.new (E.contents errors.old) (E.contents errors.new) }
    ensures gone { IsQuietIfGone (W.reader_gone writer.new) result errors.old errors.new }
{
    let run = write_table_text(alloc, text, asked, strict, reader, writer);
    end_run(alloc, errors, strict, writer.reader_is_gone(), run)
}

/// Writes every fault of a table, says why they are not all written, and returns the status.
fn run_check<R: Read, W: Output, E: Write>(
    alloc: Global,
    reader: &mut R,
    writer: &mut W,
    errors: &mut E,
) -> Status
    ensures runs { RunsCheck (R.remaining reader.old) (W.contents writer.old) (W.contents writer.new) (status_code result)
        writer.old writer.new errors.old errors.new (E.contents errors.old) (E.contents errors.new) }
    ensures gone { IsQuietIfGone (W.reader_gone writer.new) result errors.old errors.new }
{
    let run = check_over(alloc, reader, writer);
    end_check(alloc, errors, writer.reader_is_gone(), run)
}

/// Writes whether a recorded tape stands as it is written, or says why that is not known, and returns the status.
fn run_verify<R: Read, W: Output, E: Write>(
    alloc: Global,
    matrix: Matrix,
    reader: &mut R,
    writer: &mut W,
    errors: &mut E,
) -> Status
    ensures runs { RunsVerify matrix (R.remaining reader.old) (W.contents writer.old) (W.contents writer.new) (status_code result)
        writer.old writer.new errors.old errors.new (E.contents errors.old) (E.contents errors.new) }
    ensures gone { IsQuietIfGone (W.reader_gone writer.new) result errors.old errors.new }
{
    match verify_over(alloc, matrix, reader) {
        Ok(verdict) => write_verdict(alloc, &verdict, writer, errors),
        Err(end) => say_end(alloc, errors, writer.reader_is_gone(), &end),
    }
}

/// Writes the batch text of a table, says why it is not whole, and returns the status.
fn run_encode<R: Read, W: Output, E: Write>(
    alloc: Global,
    reader: &mut R,
    writer: &mut W,
    errors: &mut E,
) -> Status
    ensures runs { RunsText encoded (R.remaining reader.old) (W.contents writer.old) (W.contents writer.new) (status_code result)
        writer.old writer.new errors.old errors.new (E.contents errors.old) (E.contents errors.new) }
    ensures gone { IsQuietIfGone (W.reader_gone writer.new) result errors.old errors.new }
{
    let run = encode_over(alloc, reader, writer);
    end_text(alloc, errors, writer.reader_is_gone(), run)
}

/// Writes the table of a batch's text, says why it is not whole, and returns the status.
fn run_decode<R: Read, W: Output, E: Write>(
    alloc: Global,
    reader: &mut R,
    writer: &mut W,
    errors: &mut E,
) -> Status
    ensures runs { RunsText decoded (R.remaining reader.old) (W.contents writer.old) (W.contents writer.new) (status_code result)
        writer.old writer.new errors.old errors.new (E.contents errors.old) (E.contents errors.new) }
    ensures gone { IsQuietIfGone (W.reader_gone writer.new) result errors.old errors.new }
{
    let run = decode_over(alloc, reader, writer);
    end_decoded(alloc, errors, writer.reader_is_gone(), run)
}

/// Writes the bytes of a participant's messages, says why they are not whole, and returns the status.
fn run_line<R: Read, W: Output, E: Write>(
    alloc: Global,
    participant: Participant,
    reader: &mut R,
    writer: &mut W,
    errors: &mut E,
) -> Status
    ensures runs { RunsText (line_of participant) (R.remaining reader.old) (W.contents writer.old) (W.contents writer.new) (status_code result)
        writer.old writer.new errors.old errors.new (E.contents errors.old) (E.contents errors.new) }
    ensures gone { IsQuietIfGone (W.reader_gone writer.new) result errors.old errors.new }
{
    let run = line_over(alloc, participant, reader, writer);
    end_text(alloc, errors, writer.reader_is_gone(), run)
}

/// Writes messages in another form, says why they are not whole, and returns the status.
fn run_conversion<R: Read, W: Output, E: Write>(
    alloc: Global,
    conversion: Conversion,
    reader: &mut R,
    writer: &mut W,
    errors: &mut E,
) -> Status
    ensures runs { RunsText (kind_of conversion) (R.remaining reader.old) (W.contents writer.old) (W.contents writer.new) (status_code result)
        writer.old writer.new errors.old errors.new (E.contents errors.old) (E.contents errors.new) }
    ensures gone { IsQuietIfGone (W.reader_gone writer.new) result errors.old errors.new }
{
    match conversion {
        Conversion::Encode => run_encode(alloc, reader, writer, errors),
        Conversion::Decode => run_decode(alloc, reader, writer, errors),
        Conversion::Line(participant) => run_line(alloc, participant, reader, writer, errors),
    }
}

/// Writes a text of a table to `writer` and returns how that ended. The table, or the batch's text for `decode`, is read from
/// `reader` as it comes.
///
/// `Report` writes the day's report, `Tape` its readable tape, `Explain` what became of its reports, `Check` every fault of the
/// table, `Verify` whether a recorded tape stands as it is written, and `Convert` the messages in another form. `errors` gets a
/// line for each reason for which the first three refused rows, and one for what goes wrong, but none for a write fault if
/// whoever read what was written is gone. The status is `Done` if all is done, `Differs` if a tape is not as recorded, `Bad`
/// for a bad table, also one that is checked, or a bad text, `ReadFault`, `WriteFault`, or `OutOfMemory`.
pub(crate) fn run_rows<R: Read, W: Output, E: Write>(
    alloc: Global,
    command: Command,
    reader: &mut R,
    writer: &mut W,
    errors: &mut E,
) -> Status
    ensures answers { AnswersTable command (status_code result) (R.remaining reader.old) writer.old writer.new
        (W.contents writer.old) (W.contents writer.new) errors.old errors.new (E.contents errors.old) (E.contents errors.new) }
    ensures gone { IsQuietIfGone (W.reader_gone writer.new) result errors.old errors.new }
{
    match command {
        Command::Report(by, strict) => {
            run_day(alloc, DayText::Report, by, strict, reader, writer, errors)
        }
        Command::Tape(by, strict) => {
            run_day(alloc, DayText::Tape, by, strict, reader, writer, errors)
        }
        Command::Explain(by, strict) => {
            run_day(
                alloc,
                DayText::Explanation,
                by,
                strict,
                reader,
                writer,
                errors,
            )
        }
        Command::Check => run_check(alloc, reader, writer, errors),
        Command::Verify(asked) => run_verify(alloc, table_matrix(asked), reader, writer, errors),
        Command::Convert(conversion) => run_conversion(alloc, conversion, reader, writer, errors),
    }
}
