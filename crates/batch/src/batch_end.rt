//! The ends of a batch, each with the program's exit status and its line on standard error.
ghost use Rattle.std.specs.Prelude.{◌≡◌};
ghost use Rattle.batch.specs.Ends.{end_status, end_text};

/// How a batch ended.
#[derive(Clone, Copy, Debug, PartialEq, Eq)]
pub enum BatchEnd {
    /// The answers and the report were written.
    Done,
    /// The header was refused, and its refusal was written.
    BadHeader,
    /// The input is longer than `INPUT_MOST` bytes, and nothing was written.
    TooLarge,
    /// A read failed, and nothing was written.
    ReadFault,
    /// A write or the flush failed. A prefix of the output was written.
    WriteFault,
    /// Memory ran out: nothing was written, or the answers up to a refusal for it, or all answers and no report.
    OutOfMemory,
}

impl BatchEnd {
    /// The program's exit status.
    pub fn status(self) -> u8
        ensures status { result ≡ end_status self }
    {
        match self {
            BatchEnd::Done => 0,
            BatchEnd::BadHeader | BatchEnd::TooLarge => 2,
            BatchEnd::ReadFault => 3,
            BatchEnd::WriteFault => 4,
            BatchEnd::OutOfMemory => 5,
        }
    }

    /// The program's text on standard error: empty, or one line.
    pub fn text(self) -> &'static str
        ensures text { result.now ≡ end_text self }
    {
        match self {
            BatchEnd::Done | BatchEnd::BadHeader => "",
            BatchEnd::TooLarge => "tapebox: input too large\n",
            BatchEnd::ReadFault => "tapebox: read fault\n",
            BatchEnd::WriteFault => "tapebox: write fault\n",
            BatchEnd::OutOfMemory => "tapebox: out of memory\n",
        }
    }
}
