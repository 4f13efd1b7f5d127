//! Why a text that is made while it is written was not written whole.
ghost use Rattle.std.specs.Prelude.{◌≡◌, IfErr, OnOk, Some};
ghost use Rattle.std.specs.Io.KnownBytes.{Appends};
ghost use Rattle.whole_io.specs.FaultLines.{writing_fault_text};
ghost use Rattle.whole_io.specs.Writing.{WritesPrefix};
ghost use Rattle.whole_io.specs.declared.writing_fault.WritingFault.TheVariants.{OutOfMemory, WriteFault as FailedWrite};

use crate::{WriteFault, write_text};
use std::alloc::AllocError;
use std::fmt;
use std::io::Write;
use thiserror::Error;

/// Why a text was not written whole.
#[derive(Clone, Copy, Debug, PartialEq, Eq, Error)]
pub enum WritingFault {
    /// Memory ran out.
    OutOfMemory,
    /// A write failed or took no byte, or a flush failed.
    WriteFault,
}

impl From<AllocError> for WritingFault {
    ghost from_gives = { λ _ fault. fault ≡ OutOfMemory };

    fn from(_error: AllocError) -> WritingFault {
        WritingFault::OutOfMemory
    }
}

impl From<WriteFault> for WritingFault {
    ghost from_gives = { λ _ fault. fault ≡ FailedWrite };

    fn from(_fault: WriteFault) -> WritingFault {
        WritingFault::WriteFault
    }
}

impl fmt::Display for WritingFault {
    ghost output = { λ fault. Some (writing_fault_text fault) };

    fn fmt<W: fmt::Write>(&self, f: &mut fmt::Formatter<W>) -> fmt::Result {
        match self {
            WritingFault::OutOfMemory => f.write_str("out of memory"),
            WritingFault::WriteFault => f.write_str("a write failed"),
        }
    }
}

/// Writes a part of a text. If a write fails or takes no byte, a prefix of the part has been written.
pub fn write_part<W: Write>(writer: &mut W, text: &[u8]) -> Result<(), WritingFault>
    ensures written { OnOk result (Appends (W.contents writer.old) (W.contents writer.new) text.now) }
    ensures prefix { WritesPrefix text.now (W.contents writer.old) (W.contents writer.new) }
    ensures fault { IfErr result (λ fault. fault ≡ FailedWrite) }
{
    write_text(writer, text)?;
    Ok(())
}
