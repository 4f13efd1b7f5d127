//! The ways in which reading an input stops before its end.
ghost use Rattle.batch.specs.Ends.{end_of_line, end_of_reading};
ghost use Rattle.batch.specs.declared.read_end.ReadEnd.TheVariants.{OutOfMemory};

use crate::BatchEnd;
use std::alloc::AllocError;
use whole_io::ReadFault;

/// Why reading an input stopped before its end.
#[derive(Clone, Copy, Debug, PartialEq, Eq)]
pub enum ReadEnd {
    /// The input is longer than `INPUT_MOST` bytes.
    TooLarge,
    /// A read failed.
    ReadFault,
    /// Memory ran out.
    OutOfMemory,
}

impl From<AllocError> for ReadEnd {
    ghost use Rattle.std.specs.Prelude.{◌≡◌};

    ghost from_gives = { λ _ end. end ≡ OutOfMemory };

    fn from(_error: AllocError) -> ReadEnd {
        ReadEnd::OutOfMemory
    }
}

impl From<ReadFault> for ReadEnd {
    ghost use Rattle.std.specs.Prelude.{◌≡◌};

    ghost from_gives = { λ fault end. end ≡ end_of_line fault };

    fn from(fault: ReadFault) -> ReadEnd {
        match fault {
            ReadFault::Failed => ReadEnd::ReadFault,
            ReadFault::OutOfMemory => ReadEnd::OutOfMemory,
        }
    }
}

impl From<ReadEnd> for BatchEnd {
    ghost use Rattle.std.specs.Prelude.{◌≡◌};

    ghost from_gives = { λ end ended. ended ≡ end_of_reading end };

    fn from(end: ReadEnd) -> BatchEnd {
        match end {
            ReadEnd::TooLarge => BatchEnd::TooLarge,
            ReadEnd::ReadFault => BatchEnd::ReadFault,
            ReadEnd::OutOfMemory => BatchEnd::OutOfMemory,
        }
    }
}
