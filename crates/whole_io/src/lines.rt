//! Lines for an operator, gathered in memory and written by one call.
ghost use Rattle.std.specs.Prelude.{◌≡◌, ◌≢◌, ◌++◌, [], IfOk, List, OnErr, OnOk, ℕ};
ghost use Rattle.std.specs.Io.KnownBytes.{Appends};
ghost use Rattle.whole_io.specs.Lines.{AreLines, HasNoLineFeed, IsLine, WritesLines};

use crate::{WriteFault, WritingFault, write_text};
use std::alloc::{AllocError, Global};
use std::fmt;
use std::io::Write;
use std::marker::Model;

/// The text of lines for an operator. Each line begins with `tapebox: ` and has one line feed, at its end.
#[derive(Drop)]
pub struct Lines {
    text: Vec<u8>,
}

impl Model for Lines {
    ghost Value = { List ℕ };

    ghost view = { λ lines. lines.text.items };

    ghost invariant = { λ lines. AreLines lines.text.items };
}

impl Lines {
    /// Makes a text of no line. It takes no memory.
    pub fn new(alloc: Global) -> Lines
        ensures { result ≡ [] }
    {
        Lines {
            text: Vec::new(alloc),
        }
    }

    /// Appends a line of these words, in which a blank replaces each line feed. `AllocError` if memory runs out, which leaves
    /// the lines as they are.
    pub fn push<D: fmt::Display>(&mut self, words: &D) -> Result<(), AllocError>
        ensures pushed { OnOk result ((line : List ℕ) × IsLine line × (self.new ≡ self.old ++ line)) }
        ensures kept { OnErr result (self.new ≡ self.old) }
    {
        let alloc = *self.text.allocator();
        let line = line_of(alloc, words)?;
        self.text.extend_from_slice(&line)?;
        Ok(())
    }

    /// The lines as they are written.
    pub fn as_bytes(&self) -> &[u8]
        ensures { result.now ≡ self.now }
    {
        &self.text
    }

    /// Writes the lines. If a write fails or takes no byte, it returns a `WriteFault`, and the writer has got a prefix of them.
    pub fn write<W: Write>(&self, writer: &mut W) -> Result<(), WriteFault>
        ensures written { OnOk result (Appends (W.contents writer.old) (W.contents writer.new) self.now) }
        ensures lines { WritesLines (W.contents writer.old) (W.contents writer.new) }
    {
        write_text(writer, &self.text)
    }
}

/// A line of these words, in which a blank replaces each line feed.
fn line_of<D: fmt::Display>(alloc: Global, words: &D) -> Result<Vec<u8>, AllocError>
    ensures { IfOk result (λ line. IsLine line.items) }
{
    let words = format!(in alloc; "{words}")?;
    let mut line = Vec::from_slice(alloc, b"tapebox: ")?;
    push_without_line_feeds(&mut line, words.as_bytes())?;
    line.push(b'\n')?;
    Ok(line)
}

/// A byte of a line, in which a blank replaces a line feed.
fn without_line_feed(byte: u8) -> u8
    ensures { result ≢ 10 }
{
    if byte == b'\n' { b' ' } else { byte }
}

/// Appends words, in which a blank replaces each line feed.
fn push_without_line_feeds(line: &mut Vec<u8>, words: &[u8]) -> Result<(), AllocError>
    ensures { OnOk result ((words : List ℕ) × HasNoLineFeed words × (line.new.items ≡ line.old.items ++ words)) }
{
    for &byte in words {
        line.push(without_line_feed(byte))?;
    }
    Ok(())
}

/// Writes one line of these words, as `Lines` has it. If memory runs out nothing is written; if a write fails, a prefix of the
/// line.
pub fn say<W: Write, D: fmt::Display>(
    alloc: Global,
    writer: &mut W,
    words: &D,
) -> Result<(), WritingFault>
    ensures said { OnOk result ((line : List ℕ) × IsLine line × Appends (W.contents writer.old) (W.contents writer.new) line) }
    ensures lines { WritesLines (W.contents writer.old) (W.contents writer.new) }
{
    let mut lines = Lines::new(alloc);
    lines.push(words)?;
    lines.write(writer)?;
    Ok(())
}
