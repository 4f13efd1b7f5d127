//! The statuses with which the program ends, each with its number and its message.
ghost use Rattle.std.specs.Prelude.{◌≡◌};
ghost use Rattle.command_line.specs.Statuses.{status_code, status_text};

/// How the program ends.
#[derive(Clone, Copy, Debug, PartialEq, Eq)]
pub enum Status {
    /// All is done.
    Done,
    /// A recorded tape is not as it is written.
    Differs,
    /// The input or the arguments are bad.
    Bad,
    /// A read failed, or a file or a socket could not be opened.
    ReadFault,
    /// A write failed.
    WriteFault,
    /// Memory ran out.
    OutOfMemory,
    /// A worker was not started.
    NotStarted,
    /// The tape disagrees with the feed.
    Disagrees,
}

impl Status {
    /// Returns the number that the program ends with, 0 to 7.
    pub fn code(self) -> u8
        ensures { result ≡ status_code self }
    {
        match self {
            Status::Done => 0,
            Status::Differs => 1,
            Status::Bad => 2,
            Status::ReadFault => 3,
            Status::WriteFault => 4,
            Status::OutOfMemory => 5,
            Status::NotStarted => 6,
            Status::Disagrees => 7,
        }
    }

    /// Returns the message of a fault that does not depend on what the input says: one line, or an empty text if there is no
    /// such fault.
    pub fn text(self) -> &'static str
        ensures { result.now ≡ status_text self }
    {
        match self {
            Status::Done | Status::Differs | Status::Bad => "",
            Status::ReadFault => "tapebox: read fault\n",
            Status::WriteFault => "tapebox: write fault\n",
            Status::OutOfMemory => "tapebox: out of memory\n",
            Status::NotStarted => "tapebox: worker not started\n",
            Status::Disagrees => "tapebox: tape disagrees\n",
        }
    }
}
