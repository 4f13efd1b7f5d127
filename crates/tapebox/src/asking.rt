//! Asks a running day at its control socket, for an operator.
ghost use Rattle.std.specs.Prelude.{◌≡◌, ◌≢◌, ◌⊎◌, ℕ, List, Option};
ghost use Rattle.day_control.specs.Asking.{Told};
ghost use Rattle.day_control.specs.Faults.{fault_status as control_code};
ghost use Rattle.command_line.specs.Statuses.{status_code};
ghost use Rattle.command_line.specs.declared.status.Status.TheVariants.{Done, WriteFault};
ghost use Rattle.whole_io.specs.Lines.{WritesLines};
ghost use Rattle.tapebox.specs.Feeds.{IsControlStatus, control_status};

use command_line::Status;
use day_control::{ControlCommand, ControlFault, ControlPlace, ask_control};
use std::alloc::Global;
use std::io::Write;
use std::net::{Net, TcpListener, TcpStream};
use whole_io::say;

/// Returns the status of a fault of a control socket.
fn control_status(fault: ControlFault) -> Status
    ensures status { result ≡ control_status fault }
    ensures code { status_code result ≡ control_code fault }
    ensures known { IsControlStatus result }
{
    match fault {
        ControlFault::OpenFolder
        | ControlFault::NoFolder
        | ControlFault::NotASocket
        | ControlFault::InUse
        | ControlFault::Unopened
        | ControlFault::Unanswered
        | ControlFault::CutOff => Status::ReadFault,
        ControlFault::WriteFault => Status::WriteFault,
        ControlFault::OutOfMemory => Status::OutOfMemory,
    }
}

/// Says why a control socket could not be opened or asked, unless there is no memory for the line, and returns the status.
pub fn say_control_fault<E: Write>(
    alloc: Global,
    errors: &mut E,
    place: &ControlPlace,
    fault: ControlFault,
) -> Status
    ensures status { result ≡ control_status fault }
    ensures code { status_code result ≡ control_code fault }
    ensures known { IsControlStatus result }
    ensures lines { WritesLines (E.contents errors.old) (E.contents errors.new) }
{
    let _said = say(alloc, errors, &format_args!("control {place}: {fault}"));
    control_status(fault)
}

/// Asks a running day at its control socket, writes the answer, and returns the status. After `Done` the lines of an answer
/// were written, and nothing else; after any other status but `WriteFault` nothing was.
pub fn ask_day<T, W, E>(
    rt: &T,
    alloc: Global,
    place: &ControlPlace,
    command: ControlCommand,
    writer: &mut W,
    errors: &mut E,
) -> Status
where
    T: Net<Listener = TcpListener, Stream = TcpStream>,
    W: Write,
    E: Write,
    ensures known { (result ≡ Done) ⊎ IsControlStatus result }
    ensures told { result ≡ Done → (had left : Option (List ℕ)) × Told had left (W.contents writer.old) (W.contents writer.new) }
    ensures quiet { result ≡ Done → errors.new ≡ errors.old }
    ensures untold { result ≢ Done → result ≢ WriteFault → writer.new ≡ writer.old }
{
    match ask_control(rt, alloc, place, command, writer) {
        Ok(()) => Status::Done,
        Err(fault) => say_control_fault(alloc, errors, place, fault),
    }
}
