//! Writes a text whole to a writer, by as many writes as it takes, and flushes it.
ghost use Rattle.std.specs.Prelude.{IsTrue, OnOk};
ghost use Rattle.std.specs.Io.KnownBytes.{Appends, Keeps};
ghost use Rattle.whole_io.specs.Writing.{WritesPrefix};

use std::io::{ErrorKind, Write};

/// A write failed or took no byte, or a flush failed.
#[derive(Clone, Copy, Debug, PartialEq, Eq)]
pub struct WriteFault;

/// Writes all of a text. If a write fails or takes no byte, it returns a `WriteFault`, and the writer has got a prefix of the
/// text and nothing else. An interrupted write is tried again.
pub fn write_text<W: Write>(writer: &mut W, text: &[u8]) -> Result<(), WriteFault>
    ensures written { OnOk result (Appends (W.contents writer.old) (W.contents writer.new) text.now) }
    ensures prefix { WritesPrefix text.now (W.contents writer.old) (W.contents writer.new) }
{
    let mut rest = text;
    // `write_all` would not say what was written before a write that fails.
    for _ in 0..u64::MAX {
        if rest.is_empty() {
            return Ok(());
        }
        match writer.write(rest) {
            Ok(0) => return Err(WriteFault),
            Ok(count) => rest = &rest[count..],
            Err(error) if error.kind() == ErrorKind::Interrupted => {}
            Err(_) => return Err(WriteFault),
        }
    }
    Err(WriteFault)
}

/// Flushes what was written.
pub fn flush<W: Write>(writer: &mut W) -> Result<(), WriteFault>
    ensures kept { Keeps (W.contents writer.old) (W.contents writer.new) }
{
    writer.flush().map_err(|_| WriteFault)
}

/// Writes all of a text and flushes the writer. Returns whether no write and no flush failed.
pub fn send<W: Write>(writer: &mut W, text: &[u8]) -> bool
    ensures sent { IsTrue result → Appends (W.contents writer.old) (W.contents writer.new) text.now }
    ensures part { WritesPrefix text.now (W.contents writer.old) (W.contents writer.new) }
{
    write_text(writer, text).is_ok() && writer.flush().is_ok()
}
