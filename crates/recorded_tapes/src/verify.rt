//! Reads a recorded tape, writes the readable tape of its messages beside it, and finds whether the two are the same.
ghost use Rattle.std.specs.Prelude.{◌≡◌, ◌≢◌, List, IfErr, IfOk, IfSome};
ghost use Rattle.sale_matrix.specs.declared.matrix.Matrix.{Matrix};
ghost use Rattle.reports.specs.declared.message.Message.{Message};
ghost use Rattle.csv_messages.specs.Tables.{IsTable};
ghost use Rattle.csv_days.specs.TapeRows.{tape_text};
ghost use Rattle.recorded_tapes.specs.Beside.{beside_text};
ghost use Rattle.recorded_tapes.specs.Verdicts.{AreRows, IsReplay, IsVerdict, IsVerifyEnd};
ghost use Rattle.csv_days.specs.TableEnds.{IsTableEnd};
ghost use Rattle.csv_days.specs.declared.table_end.TableEnd.TheVariants.{OutOfMemory, WriteFault};

use crate::beside::Beside;
use crate::lines::split_lines;
use crate::place::TextPlace;
use crate::{Difference, Rows, Verdict};
use csv_days::{TableEnd, write_tape};
use csv_messages::read_table;
use sale_matrix::Matrix;
use std::alloc::Global;
use std::io::Read;
use whole_io::read_all;

/// Returns the rows if lines are the text that was written beside them, or the first place where they differ from it.
fn compare(alloc: Global, beside: &Beside, rows: Rows) -> Result<Result<Rows, Difference>, TableEnd>
    ensures replay { IfOk result (λ replay. (matrix : Matrix) (messages : List Message) → IsTable beside.now.recorded.now messages
        → beside_text beside.now ≡ tape_text matrix messages → AreRows matrix messages rows → IsReplay matrix beside.now.recorded.now replay) }
    ensures end { IfErr result (λ end. end ≡ OutOfMemory) }
{
    if beside.left() == beside.behind.as_slice() {
        return Ok(Ok(rows));
    }
    let difference = Difference::behind(alloc, beside.recorded, beside.same, &beside.behind)?;
    Ok(Err(difference))
}

/// Answers the messages of lines anew, and compares the readable tape of them with the lines.
fn replay(alloc: Global, matrix: Matrix, lines: &[u8]) -> Result<Result<Rows, Difference>, TableEnd>
    ensures replay { IfOk result (IsReplay matrix lines.now) }
    ensures end { IfErr result (IsTableEnd lines.now) }
    ensures read { IfErr result (λ end. end ≢ WriteFault) }
{
    let messages = read_table(alloc, lines)?;
    let mut beside = Beside::new(alloc, lines);
    match write_tape(alloc, matrix, &messages, &mut beside) {
        // A writer's contract says only what it holds, so that these are still its lines has to be checked.
        Ok(refusals) if beside.recorded == lines => {
            let count = messages.len() as u64;
            compare(alloc, &beside, Rows { count, refusals })
        }
        // The write fails only if there is no memory for what is written from the first difference on.
        Ok(_) | Err(TableEnd::WriteFault) => Err(TableEnd::OutOfMemory),
        Err(end) => Err(end),
    }
}

/// Returns what a text is found to be.
fn verdict_on(alloc: Global, matrix: Matrix, text: &[u8]) -> Result<Verdict, TableEnd>
    ensures verdict { IfOk result (IsVerdict matrix text.now) }
    ensures end { IfErr result (IsVerifyEnd text.now) }
    ensures read { IfErr result (λ end. end ≢ WriteFault) }
{
    let (lines, cut) = split_lines(text);
    match replay(alloc, matrix, lines) {
        Ok(Err(difference)) => Ok(Verdict::Differs(difference)),
        Ok(Ok(rows)) if cut.is_empty() => Ok(Verdict::Recorded(rows)),
        Ok(Ok(rows)) => Ok(Verdict::CutOff(rows, TextPlace::behind(lines).line)),
        Err(end) => Err(end),
    }
}

/// Reads a recorded tape whole, answers its messages anew as `tape_over` does, and compares each number, refusal and figure
/// with its own. Returns whether the text is the one that `tape_over` writes of its messages, byte for byte, or the first place
/// that differs. A last line that has no end is left out, and named if all lines before it are as written.
///
/// The text is held beside its messages and the tape. Errors: the lines that have an end are not a table, or have too many
/// names; or a read failed, or memory ran out.
pub fn verify_over<R: Read + Drop>(
    alloc: Global,
    matrix: Matrix,
    mut reader: R,
) -> Result<Verdict, TableEnd>
    ensures verdict { IfSome (R.remaining reader) (λ input. IfOk result (IsVerdict matrix input)) }
    ensures end { IfSome (R.remaining reader) (λ input. IfErr result (IsVerifyEnd input)) }
    ensures read { IfErr result (λ end. end ≢ WriteFault) }
{
    let text = read_all(alloc, &mut reader)?;
    verdict_on(alloc, matrix, &text)
}
