//! The errors of decoding a batch's text, each with the program's exit status.
ghost use Rattle.std.specs.Prelude.{◌≡◌, Some};
ghost use Rattle.message_texts.specs.EndTexts.{end_status, end_text};
ghost use Rattle.message_texts.specs.Ends.{line_end, write_end};
ghost use Rattle.message_texts.specs.declared.text_end.TextEnd.TheVariants.{WriteFault as FailedWrite};

use crate::LineFault;
use std::fmt;
use thiserror::Error;
use whole_io::{ReadFault, WriteFault, WritingFault};

/// Why a batch's text was not written as a table.
#[derive(Clone, Copy, Debug, PartialEq, Eq, Error)]
pub enum TextEnd {
    /// The line of this number, counted from 1, has this fault.
    Line(u64, LineFault),
    /// A read failed.
    ReadFault,
    /// Memory ran out.
    OutOfMemory,
    /// A write or the flush failed.
    WriteFault,
}

impl TextEnd {
    /// The program's exit status.
    pub fn status(self) -> u8
        ensures status { result ≡ end_status self }
    {
        match self {
            TextEnd::Line(_, _) => 2,
            TextEnd::ReadFault => 3,
            TextEnd::WriteFault => 4,
            TextEnd::OutOfMemory => 5,
        }
    }
}

impl From<WritingFault> for TextEnd {
    ghost use Rattle.std.specs.Prelude.{◌≡◌};

    ghost from_gives = { λ fault end. end ≡ write_end fault };

    fn from(fault: WritingFault) -> TextEnd {
        match fault {
            WritingFault::OutOfMemory => TextEnd::OutOfMemory,
            WritingFault::WriteFault => TextEnd::WriteFault,
        }
    }
}

impl From<WriteFault> for TextEnd {
    ghost use Rattle.std.specs.Prelude.{◌≡◌};

    ghost from_gives = { λ _ end. end ≡ FailedWrite };

    fn from(_fault: WriteFault) -> TextEnd {
        TextEnd::WriteFault
    }
}

impl From<ReadFault> for TextEnd {
    ghost use Rattle.std.specs.Prelude.{◌≡◌};

    ghost from_gives = { λ fault end. end ≡ line_end fault };

    fn from(fault: ReadFault) -> TextEnd {
        match fault {
            ReadFault::Failed => TextEnd::ReadFault,
            ReadFault::OutOfMemory => TextEnd::OutOfMemory,
        }
    }
}

impl fmt::Display for TextEnd {
    ghost output = { λ end. Some (end_text end) };

    fn fmt<W: fmt::Write>(&self, f: &mut fmt::Formatter<W>) -> fmt::Result {
        match self {
            TextEnd::Line(number, fault) => write!(f, "line {number}: {fault}"),
            TextEnd::ReadFault => f.write_str("a read failed"),
            TextEnd::OutOfMemory => f.write_str("out of memory"),
            TextEnd::WriteFault => f.write_str("a write failed"),
        }
    }
}
