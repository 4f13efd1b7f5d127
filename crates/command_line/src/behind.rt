//! What stands behind a command besides its options.
ghost use Rattle.std.specs.Prelude.{◌≡◌};
ghost use Rattle.command_line.specs.Commands.{takes_file, takes_participant};

/// What stands behind a command besides its options.
#[derive(Clone, Copy, Debug, PartialEq, Eq)]
pub(crate) enum Behind {
    /// The name of a file, which may be left out.
    File,
    /// A participant and the name of a file, which may be left out.
    ParticipantAndFile,
    /// The arguments of a batch in a row, each known by its place.
    BatchRow,
    /// The name of a day's file.
    Day,
    /// The name of a day's file, or the arguments of a running day in a row.
    DayOrRow,
}

impl Behind {
    /// Returns whether the name of a file may stand there.
    pub(crate) fn takes_file(self) -> bool
        ensures { result ≡ takes_file self }
    {
        !matches!(self, Behind::BatchRow)
    }

    /// Returns whether a participant stands there.
    pub(crate) fn takes_participant(self) -> bool
        ensures { result ≡ takes_participant self }
    {
        matches!(self, Behind::ParticipantAndFile)
    }
}
