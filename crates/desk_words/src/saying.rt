//! Writes the lines on standard error, one for each fault or kind of refusal, and returns the status that goes with them.
ghost use Rattle.std.specs.Prelude.{◌≡◌, ◌≢◌, ◌↔◌, IfOk, IsOk, IsTrue, Ok, [], true};
ghost use Rattle.whole_io.specs.Lines.{WritesLines};
ghost use Rattle.whole_io.specs.Writing.{WritesPrefix};
ghost use Rattle.csv_days.specs.EndTexts.{end_status, listing_fault_status, table_fault_status};
ghost use Rattle.csv_days.specs.Refusals.{RefusesNone};
ghost use Rattle.message_texts.specs.EndTexts as text;
ghost use Rattle.command_line.specs.Statuses.{status_code, status_text};
ghost use Rattle.command_line.specs.declared.status.Status.TheVariants.{WriteFault};
ghost use Rattle.desk_words.specs.Outputs.{IsQuietIfGone};
ghost use Rattle.desk_words.specs.Program.{check_status, checked_status, refuses_any, run_status};
ghost use Rattle.desk_words.specs.Tellings.{SaysBadArguments};
ghost use Rattle.desk_words.specs.TextRuns.{table_ends, text_ends, text_status};

use crate::refusal_line::refusal_lines;
use command_line::{Hint, Status};
use csv_days::{Refusals, TableEnd};
use csv_messages::TableFault;
use message_texts::TextEnd;
use std::alloc::{AllocError, Global};
use std::fmt;
use std::io::Write;
use tape_core::ALL_REFUSALS;
use tape_types::ListingFault;
use whole_io::write_text;

/// Writes a text to standard error, or nothing if it is empty. A failed write is ignored, and the rest is left out.
pub fn say<E: Write>(errors: &mut E, text: &[u8])
    ensures quiet { text.now ≡ [] → errors.new ≡ errors.old }
    ensures said { WritesPrefix text.now (E.contents errors.old) (E.contents errors.new) }
{
    if !text.is_empty() {
        let _said = write_text(errors, text);
    }
}

/// Says these words in a line of the program's own. If memory runs out nothing is said, and a failed write is ignored.
pub(crate) fn say_line<E: Write, D: fmt::Display>(alloc: Global, errors: &mut E, words: &D)
    ensures said { WritesLines (E.contents errors.old) (E.contents errors.new) }
{
    let _said = whole_io::say(alloc, errors, words);
}

/// Says that arguments are bad, and a hint in a line behind that, unless there was no memory for the hint.
#[tactic(auto, using(crate::proofs::LineLemmas::bad_then, crate::proofs::LineLemmas::bad_part, crate::proofs::LineLemmas::bad_alone))]
pub fn say_bad_arguments<E: Write>(alloc: Global, errors: &mut E, hint: Result<Hint, AllocError>)
    ensures said { SaysBadArguments (E.contents errors.old) (E.contents errors.new) }
{
    if write_text(errors, b"tapebox: bad arguments\n").is_err() {
        return;
    }
    if let Ok(hint) = hint {
        say_line(alloc, errors, &hint);
    }
}

/// Says what there is to say of a status.
#[tactic(auto, using(crate::proofs::LineLemmas::status_lines))]
pub fn say_status<E: Write>(errors: &mut E, status: Status)
    ensures quiet { status_text status ≡ [] → errors.new ≡ errors.old }
    ensures said { WritesPrefix (status_text status) (E.contents errors.old) (E.contents errors.new) }
    ensures lines { WritesLines (E.contents errors.old) (E.contents errors.new) }
{
    say(errors, status.text().as_bytes());
}

/// Returns whether nothing is said of a status: a write fault if whoever read what was written is gone.
fn is_quiet(status: Status, reader_gone: bool) -> bool
    ensures { IsTrue result ↔ ((reader_gone ≡ true) × (status ≡ WriteFault)) }
{
    reader_gone && matches!(status, Status::WriteFault)
}

/// Says what there is to say of a status, but nothing of a write fault if whoever read what was written is gone.
#[tactic(auto, using(crate::proofs::LineLemmas::no_lines, crate::proofs::LineLemmas::nothing_said))]
pub fn say_ended<E: Write>(errors: &mut E, status: Status, reader_gone: bool)
    ensures quiet { status_text status ≡ [] → errors.new ≡ errors.old }
    ensures gone { IsQuietIfGone reader_gone status errors.old errors.new }
    ensures said { WritesPrefix (status_text status) (E.contents errors.old) (E.contents errors.new) }
    ensures lines { WritesLines (E.contents errors.old) (E.contents errors.new) }
{
    if is_quiet(status, reader_gone) {
        return;
    }
    say_status(errors, status);
}

/// Why names make no listing, as it is printed.
#[derive(Drop)]
struct ListingLine(ListingFault);

impl fmt::Display for ListingLine {
    fn fmt<W: fmt::Write>(&self, f: &mut fmt::Formatter<W>) -> fmt::Result {
        f.write_str(match self.0 {
            ListingFault::Empty => "the table has no row",
            ListingFault::TooMany => "the table has more than 4096 symbols",
            ListingFault::Repeated => "a name stands twice in the listing",
            ListingFault::OutOfMemory => "out of memory",
        })
    }
}

/// Returns the status of a table's fault.
fn fault_status(fault: &TableFault) -> Status
    ensures { status_code result ≡ table_fault_status fault.now }
{
    match fault {
        TableFault::Header(_) | TableFault::NoRow | TableFault::Row(_, _) => Status::Bad,
        TableFault::ReadFault => Status::ReadFault,
        TableFault::OutOfMemory => Status::OutOfMemory,
    }
}

/// Returns the status of names that make no listing.
fn listing_status(fault: ListingFault) -> Status
    ensures { status_code result ≡ listing_fault_status fault }
{
    match fault {
        ListingFault::Empty | ListingFault::TooMany | ListingFault::Repeated => Status::Bad,
        ListingFault::OutOfMemory => Status::OutOfMemory,
    }
}

/// Returns the status of a table's end.
fn status_of(end: &TableEnd) -> Status
    ensures { status_code result ≡ end_status end.now }
{
    match end {
        TableEnd::Table(fault) => fault_status(fault),
        TableEnd::Listing(fault) => listing_status(*fault),
        TableEnd::OutOfMemory => Status::OutOfMemory,
        TableEnd::WriteFault => Status::WriteFault,
    }
}

/// Says why a table has no text, whose end has this status. If there is no memory for the line of a bad table, nothing is said.
fn say_why<E: Write>(alloc: Global, errors: &mut E, end: &TableEnd, status: Status)
    ensures { WritesLines (E.contents errors.old) (E.contents errors.new) }
{
    match (status, end) {
        (Status::Bad, TableEnd::Table(fault)) => say_line(alloc, errors, fault),
        (Status::Bad, TableEnd::Listing(fault)) => say_line(alloc, errors, &ListingLine(*fault)),
        _ => say_status(errors, status),
    }
}

/// Says why a table has no text, but nothing of a write fault if whoever read it is gone, and returns the status.
#[tactic(auto, using(crate::proofs::LineLemmas::no_lines))]
pub fn say_end<E: Write>(alloc: Global, errors: &mut E, reader_gone: bool, end: &TableEnd) -> Status
    ensures status { status_code result ≡ end_status end.now }
    ensures gone { IsQuietIfGone reader_gone result errors.old errors.new }
    ensures said { WritesLines (E.contents errors.old) (E.contents errors.new) }
{
    let status = status_of(end);
    if is_quiet(status, reader_gone) {
        return status;
    }
    say_why(alloc, errors, end, status);
    status
}

/// Says which rows were refused, unless there is no memory for the lines. A failed write is ignored.
#[tactic(auto, using(crate::proofs::LineLemmas::no_lines))]
fn say_refusals<E: Write>(alloc: Global, errors: &mut E, refusals: &Refusals)
    ensures quiet { RefusesNone refusals.now → errors.new ≡ errors.old }
    ensures said { WritesLines (E.contents errors.old) (E.contents errors.new) }
{
    if refusals.is_empty() {
        return;
    }
    if let Ok(lines) = refusal_lines(alloc, refusals) {
        let _said = lines.write(errors);
    }
}

/// Returns whether rows were refused.
fn refuses_any(refusals: &Refusals) -> bool
    ensures { result ≡ refuses_any refusals.now }
{
    ALL_REFUSALS
        .iter()
        .any(|reason| refusals.of(*reason).is_some())
}

/// Returns the status of a table that was read whole: `Bad` if refused rows are faults and there are any, else `Done`.
fn refused_status(strict: bool, refusals: &Refusals) -> Status
    ensures code { status_code result ≡ run_status strict (Ok refusals.now) }
    ensures no_fault { result ≢ WriteFault }
{
    if strict && refuses_any(refusals) {
        Status::Bad
    } else {
        Status::Done
    }
}

/// Says which rows of a table were refused, or why its text ended, and returns the status. Refused rows are faults if `strict`.
pub fn end_run<E: Write>(
    alloc: Global,
    errors: &mut E,
    strict: bool,
    reader_gone: bool,
    run: Result<Refusals, TableEnd>,
) -> Status
    ensures status { status_code result ≡ run_status strict run }
    ensures gone { IsQuietIfGone reader_gone result errors.old errors.new }
    ensures quiet { IfOk run (λ refusals. RefusesNone refusals → errors.new ≡ errors.old) }
    ensures said { WritesLines (E.contents errors.old) (E.contents errors.new) }
{
    match run {
        Ok(refusals) => {
            say_refusals(alloc, errors, &refusals);
            refused_status(strict, &refusals)
        }
        Err(end) => say_end(alloc, errors, reader_gone, &end),
    }
}

/// Returns the status of a table that was checked.
fn checked_status(faultless: bool) -> Status
    ensures { status_code result ≡ checked_status faultless }
{
    if faultless { Status::Done } else { Status::Bad }
}

/// Says why the faults of a table are not all written, or nothing if they are, and returns the status, which is `Bad` if there
/// are any.
#[tactic(auto, using(crate::proofs::LineLemmas::no_lines))]
pub fn end_check<E: Write>(
    alloc: Global,
    errors: &mut E,
    reader_gone: bool,
    run: Result<bool, TableEnd>,
) -> Status
    ensures status { status_code result ≡ check_status run }
    ensures gone { IsQuietIfGone reader_gone result errors.old errors.new }
    ensures quiet { IsOk run → errors.new ≡ errors.old }
    ensures said { WritesLines (E.contents errors.old) (E.contents errors.new) }
{
    match run {
        Ok(faultless) => checked_status(faultless),
        Err(end) => say_end(alloc, errors, reader_gone, &end),
    }
}

/// Says why a text of a table was not written whole, or nothing if it was, and returns the status.
#[tactic(auto, using(crate::proofs::LineLemmas::no_lines))]
pub fn end_text<E: Write>(
    alloc: Global,
    errors: &mut E,
    reader_gone: bool,
    run: Result<(), TableEnd>,
) -> Status
    ensures status { status_code result ≡ text_status table_ends run }
    ensures gone { IsQuietIfGone reader_gone result errors.old errors.new }
    ensures quiet { IsOk run → errors.new ≡ errors.old }
    ensures said { WritesLines (E.contents errors.old) (E.contents errors.new) }
{
    match run {
        Ok(()) => Status::Done,
        Err(end) => say_end(alloc, errors, reader_gone, &end),
    }
}

/// Returns the status of the end of a batch's text.
fn text_status_of(end: &TextEnd) -> Status
    ensures { status_code result ≡ text.end_status end.now }
{
    match end {
        TextEnd::Line(_, _) => Status::Bad,
        TextEnd::ReadFault => Status::ReadFault,
        TextEnd::OutOfMemory => Status::OutOfMemory,
        TextEnd::WriteFault => Status::WriteFault,
    }
}

/// Says why the text of a batch has no table, whose end has this status. If there is no memory for the line of a faulty line of
/// it, nothing is said.
fn say_text_why<E: Write>(alloc: Global, errors: &mut E, end: &TextEnd, status: Status)
    ensures { WritesLines (E.contents errors.old) (E.contents errors.new) }
{
    match status {
        Status::Bad => say_line(alloc, errors, end),
        _ => say_status(errors, status),
    }
}

/// Says why the text of a batch has no table, but nothing of a write fault if whoever read the table is gone, and returns the
/// status.
#[tactic(auto, using(crate::proofs::LineLemmas::no_lines))]
fn say_text_end<E: Write>(alloc: Global, errors: &mut E, reader_gone: bool, end: &TextEnd) -> Status
    ensures status { status_code result ≡ text.end_status end.now }
    ensures gone { IsQuietIfGone reader_gone result errors.old errors.new }
    ensures said { WritesLines (E.contents errors.old) (E.contents errors.new) }
{
    let status = text_status_of(end);
    if is_quiet(status, reader_gone) {
        return status;
    }
    say_text_why(alloc, errors, end, status);
    status
}

/// Says why the text of a batch was not written whole as a table, or nothing if it was, and returns the status.
#[tactic(auto, using(crate::proofs::LineLemmas::no_lines))]
pub fn end_decoded<E: Write>(
    alloc: Global,
    errors: &mut E,
    reader_gone: bool,
    run: Result<(), TextEnd>,
) -> Status
    ensures status { status_code result ≡ text_status text_ends run }
    ensures gone { IsQuietIfGone reader_gone result errors.old errors.new }
    ensures quiet { IsOk run → errors.new ≡ errors.old }
    ensures said { WritesLines (E.contents errors.old) (E.contents errors.new) }
{
    match run {
        Ok(()) => Status::Done,
        Err(end) => say_text_end(alloc, errors, reader_gone, &end),
    }
}
