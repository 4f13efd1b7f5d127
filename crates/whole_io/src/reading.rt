//! Reads all that a reader has left, and says why a read failed.
ghost use Rattle.std.specs.Prelude.{◌≡◌, ◌≢◌, IfOk, IfSome};
ghost use Rattle.std.specs.IoError.{error_kind};
ghost use Rattle.whole_io.specs.declared.reading.ReadFault.TheVariants.{Failed, OutOfMemory};

use std::alloc::Global;
use std::io::{Error, ErrorKind, Read};

/// Why what a reader has left could not be read.
#[derive(Clone, Copy, Debug, PartialEq, Eq)]
pub enum ReadFault {
    /// A read failed.
    Failed,
    /// Memory ran out.
    OutOfMemory,
}

impl ReadFault {
    /// The fault of a read that failed with this error.
    pub fn of(error: &Error) -> ReadFault
        ensures memory { error_kind error.now ≡ ErrorKind.OutOfMemory → result ≡ OutOfMemory }
        ensures fault { error_kind error.now ≢ ErrorKind.OutOfMemory → result ≡ Failed }
    {
        match error.kind() {
            ErrorKind::OutOfMemory => ReadFault::OutOfMemory,
            _ => ReadFault::Failed,
        }
    }
}

/// Reads all that a reader has left. A fault leaves unspecified how much was read.
pub fn read_all<R: Read>(alloc: Global, reader: &mut R) -> Result<Vec<u8>, ReadFault>
    ensures all { IfSome (R.remaining reader.old) (λ all. IfOk result (λ bytes. bytes.items ≡ all)) }
{
    let mut bytes = Vec::new(alloc);
    let read = reader.read_to_end(&mut bytes);
    read.map_err(|error| ReadFault::of(&error))?;
    Ok(bytes)
}
