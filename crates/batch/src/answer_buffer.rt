//! Gathers answer lines and writes them in large pieces.
ghost use Rattle.std.specs.Prelude.{◌≡◌, ◌≤◌, ◌+◌, ◌++◌, ◌∷◌, [], length, IfOk, OnOk, OnErr};
ghost use Rattle.std.specs.Io.KnownBytes.{Appends};
ghost use Rattle.batch.specs.Batch.{answer_line, fault_line, refusal_text};
ghost use Rattle.batch.specs.AnswerBuffer.{ROOM};
ghost use Rattle.batch.specs.declared.answer_buffer.TheConstants.{LONGEST_NAME, PIECE};
ghost use Rattle.whole_io.specs.Writing.{WritesPrefix, WritesUpTo};

use crate::day::LineAnswer;
use itoa::Buffer;
use std::alloc::{AllocError, Global};
use std::io::Write;
use std::marker::Model;
use tape_types::HeaderFault;
use whole_io::{WriteFault, write_text};

/// How many bytes are gathered before they are written.
const PIECE: usize = 8_192;

/// Room for the name of a refusal.
const LONGEST_NAME: usize = 64;

/// Room for one more answer line: a refusal's name, and the word and the number before it.
const LONGEST_LINE: usize = LONGEST_NAME + 64;

/// Answer lines that wait to be written in large pieces. All memory is allocated by `new`, so adding a line allocates none.
#[derive(Drop)]
pub struct AnswerBuffer {
    bytes: Vec<u8>,
}

impl Model for AnswerBuffer {
    ghost use Rattle.std.specs.Prelude.{List, ℕ, ◌≤◌};
    ghost use Rattle.std.specs.Vec.{vec_capacity};
    ghost use Rattle.batch.specs.AnswerBuffer.{ROOM};

    ghost Value = { List ℕ };

    ghost view = { λ g. g.bytes.items };

    ghost invariant = { λ g. ROOM ≤ vec_capacity g.bytes };
}

impl AnswerBuffer {
    /// An empty buffer with room for a piece and one more line. `AllocError` if memory runs out.
    pub fn new(alloc: Global) -> Result<Self, AllocError>
        ensures { IfOk result (λ g. g ≡ []) }
    {
        let bytes = Vec::with_capacity(alloc, PIECE + LONGEST_LINE)?;
        Ok(AnswerBuffer { bytes })
    }

    /// Adds a text that fits in the room.
    fn push(&mut self, text: &[u8])
        requires { length self.old + length text.now ≤ ROOM }
        ensures { self.new ≡ self.old ++ text.now }
    {
        self.bytes.extend_from_slice(text).unwrap();
    }

    /// Adds the line of a refusal of this number and name.
    fn push_refusal(&mut self, code: u8, name: &str)
        requires { length self.old + length name.now ≤ PIECE + LONGEST_NAME }
        ensures { self.new ≡ self.old ++ (refusal_text code name.now ++ 10 ∷ []) }
    {
        let mut digits = Buffer::new();
        self.push(b"refused ");
        self.push(digits.format(code).as_bytes());
        self.push(b" ");
        self.push(name.as_bytes());
        self.push(b"\n");
    }

    /// Adds the line of an answer.
    pub fn push_answer(&mut self, answer: &LineAnswer)
        requires { length self.old ≤ PIECE }
        ensures { self.new ≡ self.old ++ answer_line answer.now }
    {
        match answer {
            Ok(number) => {
                let mut digits = Buffer::new();
                self.push(digits.format(number.value()).as_bytes());
                self.push(b"\n");
            }
            Err(refusal) => self.push_refusal(refusal.code(), refusal.name()),
        }
    }

    /// Adds the line of a refused header.
    pub fn push_fault(&mut self, fault: HeaderFault)
        requires { length self.old ≤ PIECE }
        ensures { self.new ≡ self.old ++ fault_line fault }
    {
        self.push_refusal(fault.code(), fault.name());
    }

    /// Writes all that is gathered, and empties the buffer. If a write fails, a prefix of it was written.
    pub fn write_to<W: Write>(&mut self, writer: &mut W) -> Result<(), WriteFault>
        ensures empty { OnOk result (self.new ≡ []) }
        ensures written { OnOk result (Appends (W.contents writer.old) (W.contents writer.new) self.old) }
        ensures prefix { OnErr result (WritesPrefix self.old (W.contents writer.old) (W.contents writer.new)) }
    {
        write_text(writer, &self.bytes)?;
        self.bytes.clear();
        Ok(())
    }

    /// Writes what is gathered if it is at least a piece. If a write fails, a prefix of it was written.
    pub fn write_piece<W: Write>(&mut self, writer: &mut W) -> Result<(), WriteFault>
        ensures room { OnOk result (length self.new ≤ PIECE) }
        ensures written { OnOk result (WritesUpTo self.old self.new (W.contents writer.old) (W.contents writer.new)) }
        ensures prefix { OnErr result (WritesPrefix self.old (W.contents writer.old) (W.contents writer.new)) }
    {
        if self.bytes.len() < PIECE {
            return Ok(());
        }
        self.write_to(writer)
    }
}
