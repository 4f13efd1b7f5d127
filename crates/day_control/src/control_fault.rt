//! The faults of opening a control socket and of its clients, and their statuses.
ghost use Rattle.std.specs.Prelude.{◌≡◌, ◌≤◌};
ghost use Rattle.day_control.specs.Faults.{fault_status};

use thiserror::Error;

/// Why a control socket was not opened or not asked. It prints as what is wrong, to be put after the place.
#[derive(Clone, Copy, Debug, PartialEq, Eq, Error)]
pub enum ControlFault {
    /// The folder of the path can be entered by others than its owner. Nothing was made or removed.
    #[error("others than its owner can enter its folder")]
    OpenFolder,
    /// The path has no folder, or its folder is not there and can't be made.
    #[error("its folder can't be entered or made")]
    NoFolder,
    /// A file that is no socket is at the path. It was left as it is.
    #[error("a file that is no socket stands there")]
    NotASocket,
    /// Another day answers there.
    #[error("address in use")]
    InUse,
    /// The socket can't be opened.
    #[error("can't be opened")]
    Unopened,
    /// Nobody answers there.
    #[error("connection refused")]
    Unanswered,
    /// The connection ended, or brought nothing in time, before a whole answer, or the answer was longer than `ANSWER_MOST`
    /// bytes.
    #[error("answer cut off")]
    CutOff,
    /// The answer can't be written.
    #[error("write fault")]
    WriteFault,
    /// Memory ran out.
    #[error("out of memory")]
    OutOfMemory,
}

impl ControlFault {
    /// The fault's status: 3 to 5.
    pub fn status(self) -> u8
        ensures status { result ≡ fault_status self }
        ensures range { (3 ≤ result) × (result ≤ 5) }
    {
        match self {
            ControlFault::OpenFolder
            | ControlFault::NoFolder
            | ControlFault::NotASocket
            | ControlFault::InUse
            | ControlFault::Unopened
            | ControlFault::Unanswered
            | ControlFault::CutOff => 3,
            ControlFault::WriteFault => 4,
            ControlFault::OutOfMemory => 5,
        }
    }
}
