//! The reasons why a day's journal was not opened, each with its status.
ghost use Rattle.std.specs.Prelude.{◌≡◌};
ghost use Rattle.tapebox.specs.Journals.{journal_status, refusal_status, start_status, unheld_status};

use crate::journal_held::Unheld;
use crate::write_cause::WriteCause;
use command_line::Status;
use journal_start::{JournalRefusal, StartFault};
use std::fmt;

/// Why a day's journal was not opened. It prints as the reason, without a line feed.
#[derive(Clone, Copy, Debug, PartialEq, Eq)]
pub enum JournalFileFault {
    /// Its file is not held.
    Unheld(Unheld),
    /// It was not started. The cause is that of its last error.
    Unstarted(StartFault, WriteCause),
}

impl From<Unheld> for JournalFileFault {
    fn from(unheld: Unheld) -> JournalFileFault {
        JournalFileFault::Unheld(unheld)
    }
}

/// Returns the status of a file that is not held.
fn unheld_status(unheld: Unheld) -> Status
    ensures { result ≡ unheld_status unheld }
{
    match unheld {
        Unheld::Taken | Unheld::NoFile => Status::Bad,
        Unheld::Unopened(_) => Status::ReadFault,
    }
}

/// Returns the status of a journal that is refused: `Disagrees` if it is damaged, `Bad` if it is not the day's.
fn refusal_status(refusal: JournalRefusal) -> Status
    ensures { result ≡ refusal_status refusal }
{
    match refusal {
        JournalRefusal::NoJournal | JournalRefusal::OtherVersion | JournalRefusal::OtherDay(_) =>
            Status::Bad,
        JournalRefusal::HeaderDamaged | JournalRefusal::Damaged { .. } => Status::Disagrees,
    }
}

/// Returns the status of a journal that was not started.
fn start_status(fault: StartFault) -> Status
    ensures { result ≡ start_status fault }
{
    match fault {
        StartFault::Refused(refusal) => refusal_status(refusal),
        StartFault::Unread(_) => Status::ReadFault,
        StartFault::Unwritten => Status::WriteFault,
        StartFault::OutOfMemory => Status::OutOfMemory,
    }
}

impl JournalFileFault {
    /// Returns the status that the program ends with.
    pub fn status(self) -> Status
        ensures { result ≡ journal_status self }
    {
        match self {
            JournalFileFault::Unheld(unheld) => unheld_status(unheld),
            JournalFileFault::Unstarted(fault, _) => start_status(fault),
        }
    }
}

impl fmt::Display for JournalFileFault {
    fn fmt<W: fmt::Write>(&self, f: &mut fmt::Formatter<W>) -> fmt::Result {
        match self {
            JournalFileFault::Unheld(unheld) => write!(f, "{unheld}"),
            JournalFileFault::Unstarted(StartFault::Refused(refusal), _) => {
                write!(f, "{refusal}")
            }
            JournalFileFault::Unstarted(StartFault::Unread(kind), _) => write!(f, "{kind}"),
            JournalFileFault::Unstarted(StartFault::Unwritten, cause) => write!(f, "{cause}"),
            JournalFileFault::Unstarted(StartFault::OutOfMemory, _) => {
                f.write_str("out of memory")
            }
        }
    }
}
