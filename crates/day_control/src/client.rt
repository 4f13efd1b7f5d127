//! The client's side of a control socket: connects, sends a command and writes the lines of the answer.
ghost use Rattle.std.specs.Prelude.{◌≡◌, ◌≢◌, List, ℕ, Option, IfErr, OnOk};
ghost use Rattle.day_control.specs.Asking.{Told};
ghost use Rattle.day_control.specs.declared.control_fault.ControlFault.TheVariants.{WriteFault};

use crate::place::here;
use crate::{ControlCommand, ControlFault, ControlPlace, ask_over};
use std::alloc::Global;
use std::io;
use std::io::{BufReader, Write};
use std::net::{Net, TcpListener, TcpStream};
use std::os::fd::OwnedFd;
use std::os::unix::net::UnixStream;
use std::time::Duration;

/// How long to wait for the answer, in seconds.
const ANSWERS_WITHIN: u64 = 10;

/// Connects to a control socket, of either kind.
fn connect<R: Net<Listener = TcpListener, Stream = TcpStream>>(
    rt: &R,
    place: &ControlPlace,
) -> io::Result<UnixStream> {
    let connection = match place {
        ControlPlace::Path(path) => UnixStream::connect(rt, path)?,
        ControlPlace::Port(port) => {
            UnixStream::from(OwnedFd::from(TcpStream::connect(rt, here(*port))?))
        }
    };
    connection.set_read_timeout(Some(Duration::from_secs(ANSWERS_WITHIN)))?;
    connection.set_write_timeout(Some(Duration::from_secs(ANSWERS_WITHIN)))?;
    Ok(connection)
}

/// Sends a command to the day whose control socket this is, writes the lines of its answer, all or none, and flushes the
/// writer. An answer that does not come within ten seconds is `CutOff`.
pub fn ask_control<R: Net<Listener = TcpListener, Stream = TcpStream>, W: Write>(
    rt: &R,
    alloc: Global,
    place: &ControlPlace,
    command: ControlCommand,
    writer: &mut W,
) -> Result<(), ControlFault>
    // The lines of an answer were written, and nothing else.
    ensures told { OnOk result ((had left : Option (List ℕ)) × Told had left (W.contents writer.old) (W.contents writer.new)) }
    ensures untold { IfErr result (λ fault. fault ≢ WriteFault → writer.new ≡ writer.old) }
{
    let Ok(connection) = connect(rt, place) else {
        return Err(ControlFault::Unanswered);
    };
    let Ok(mut reader) = BufReader::new(alloc, &connection) else {
        return Err(ControlFault::OutOfMemory);
    };
    ask_over(alloc, command, &mut reader, &mut &connection, writer)
}
