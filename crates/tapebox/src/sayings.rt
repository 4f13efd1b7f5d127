//! Says on standard error how a running day ended, and what is wrong with what has a name, such as a file.
ghost use Rattle.std.specs.Prelude.{◌≡◌, true};
ghost use Rattle.desk_words.specs.RunStatuses.{ended_status};
ghost use Rattle.command_line.specs.Statuses.{status_text};
ghost use Rattle.command_line.specs.declared.status.Status.TheVariants.{OutOfMemory};
ghost use Rattle.whole_io.specs.Lines.{WritesLines};
ghost use Rattle.whole_io.specs.Writing.{WritesPrefix};
ghost use Rattle.tapebox.specs.Outlets.{SaysDayEnd, SaysWriteFault, is_unsaid, is_unsaid_fault};

use crate::write_cause::WriteCause;
use command_line::Status;
use desk_words::{ended_status, say_status};
use feed_ends::Fault;
use std::alloc::Global;
use std::fmt;
use std::io::Write;
use whole_io::say;

/// Says that memory ran out, and returns the status.
pub fn say_no_memory<E: Write>(errors: &mut E) -> Status
    ensures status { result ≡ OutOfMemory }
    ensures said { WritesPrefix (status_text OutOfMemory) (E.contents errors.old) (E.contents errors.new) }
{
    say_status(errors, Status::OutOfMemory);
    Status::OutOfMemory
}

/// Says something of what has this name in a line, unless there is no memory for the line or standard error can't be written.
pub fn say_of<E: Write, D: fmt::Display>(alloc: Global, errors: &mut E, name: &str, what: &D)
    ensures lines { WritesLines (E.contents errors.old) (E.contents errors.new) }
{
    let _said = say(alloc, errors, &format_args!("{name}: {what}"));
}

/// Says something of the journal of this path, as `say_of` does.
pub fn say_of_journal<E: Write, D: fmt::Display>(
    alloc: Global,
    errors: &mut E,
    path: &str,
    what: &D,
)
    ensures lines { WritesLines (E.contents errors.old) (E.contents errors.new) }
{
    let _said = say(alloc, errors, &format_args!("journal {path}: {what}"));
}

/// Says that something could not be written, with the cause if it is the output, and nothing if the output's reader is gone.
#[tactic(auto, using(crate::proofs::SayingLemmas::no_lines))]
fn say_write_fault<E: Write>(
    alloc: Global,
    errors: &mut E,
    reader_gone: bool,
    cause: Option<WriteCause>,
)
    ensures quiet { is_unsaid_fault reader_gone cause ≡ true → errors.new ≡ errors.old }
    ensures said { SaysWriteFault cause (E.contents errors.old) (E.contents errors.new) }
{
    match cause {
        Some(_) if reader_gone => {}
        Some(cause) => say_of(alloc, errors, "standard output", &cause),
        None => say_status(errors, Status::WriteFault),
    }
}

/// Says what there is to say of how a day ended, and returns the status. `reader_gone` is whether the reader of its report's
/// output is gone, of which nothing is said, and `cause` the cause of that output's last error, if it had one.
pub fn say_day_end<E: Write>(
    alloc: Global,
    errors: &mut E,
    ended: Result<(), Fault>,
    reader_gone: bool,
    cause: Option<WriteCause>,
) -> Status
    ensures status { result ≡ ended_status ended }
    ensures quiet { is_unsaid ended reader_gone cause ≡ true → errors.new ≡ errors.old }
    ensures said { SaysDayEnd ended cause (E.contents errors.old) (E.contents errors.new) }
{
    let status = ended_status(ended);
    match ended {
        Err(Fault::Write) => say_write_fault(alloc, errors, reader_gone, cause),
        _ => say_status(errors, status),
    }
    status
}
