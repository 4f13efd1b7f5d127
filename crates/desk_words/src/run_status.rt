//! Turns the end of a run over sockets into a status.
ghost use Rattle.std.specs.Prelude.{◌≡◌};
ghost use Rattle.desk_words.specs.RunStatuses.{ended_status, fault_status};

use command_line::Status;
use feed_ends::Fault;

/// Returns the status of a run's fault.
pub fn fault_status(fault: Fault) -> Status
    ensures { result ≡ fault_status fault }
{
    match fault {
        Fault::Read => Status::ReadFault,
        Fault::Write => Status::WriteFault,
        Fault::Memory => Status::OutOfMemory,
        Fault::Worker => Status::NotStarted,
        Fault::Disagrees => Status::Disagrees,
    }
}

/// Returns the status of a run: `Done`, or that of its fault.
pub fn ended_status(ended: Result<(), Fault>) -> Status
    ensures { result ≡ ended_status ended }
{
    match ended {
        Ok(()) => Status::Done,
        Err(fault) => fault_status(fault),
    }
}
