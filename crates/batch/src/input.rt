//! Takes the lines of a batch's input, and counts the bytes taken against the limit.
ghost use Rattle.std.specs.Prelude.{◌≡◌, ◌≤◌, ◌<◌, ◌+◌, true, false, ℕ, List, [], ◌∷◌, IfOk, IfErr, OnOk, Ok, if◌then◌else◌};
ghost use Rattle.std.specs.Io.KnownBytes.{IsAtEnd};
ghost use Rattle.batch.specs.Batch.{INPUT_MOST};
ghost use Rattle.batch.specs.Reading.{EndsReading, Fits};
ghost use Rattle.batch.specs.Input.{TakesLines};
ghost use Rattle.batch.specs.declared.read_end.ReadEnd.TheVariants.{TooLarge};

use crate::line_reading::take_line;
use crate::read_end::ReadEnd;
use std::io::BufRead;
use whole_io::ReadFault;

/// The longest input, in bytes.
pub const INPUT_MOST: u64 = 16_777_216;

/// What is left of an input, and how many of its bytes were taken.
#[derive(Drop)]
pub struct Input<B> {
    /// What is left.
    pub left: B,
    /// How many bytes were taken.
    pub taken: u64,
}

impl<B: BufRead> Input<B> {
    /// An input of which nothing was taken.
    pub fn new(left: B) -> Self
        ensures left { result.left ≡ left }
        ensures taken { result.taken ≡ 0 }
    {
        Input { left, taken: 0 }
    }

    /// Counts bytes as taken. The error is `TooLarge` if more are taken then than an input may have; they are counted
    /// nevertheless.
    pub fn count(&mut self, len: usize) -> Result<(), ReadEnd>
        ensures left { self.new.left ≡ self.old.left }
        ensures taken { OnOk result (self.new.taken ≡ self.old.taken + len) }
        ensures fits { OnOk result (self.new.taken ≤ INPUT_MOST) }
        ensures err { IfErr result (λ end. (end ≡ TooLarge) × (INPUT_MOST < self.old.taken + len)) }
    {
        self.taken = self.taken.saturating_add(len as u64);
        if self.taken > INPUT_MOST {
            return Err(ReadEnd::TooLarge);
        }
        Ok(())
    }

    /// Takes the next line, without its line feed, and returns whether there was one. The error is `ReadFault` if a read fails,
    /// `OutOfMemory` if memory runs out, and `TooLarge` beyond the limit; how much was taken then is unspecified.
    pub fn next_line(&mut self, line: &mut Vec<u8>) -> Result<bool, ReadEnd>
        ensures took { IfOk result (λ some. TakesLines (B.remaining self.old.left) (B.remaining self.new.left) self.old.taken self.new.taken
            (if some then line.new.items ∷ [] else [])) }
        ensures end { result ≡ Ok false → IsAtEnd (B.remaining self.old.left) × (line.new.items ≡ []) }
        ensures grows { result ≡ Ok true → self.old.taken < self.new.taken }
        ensures fits { OnOk result (self.new.taken ≤ INPUT_MOST) }
        ensures err { IfErr result (EndsReading (B.remaining self.old.left) self.old.taken) }
    {
        let len = take_line(&mut self.left, line)?;
        self.count(len)?;
        Ok(len > 0)
    }

    /// Takes the next line without keeping it or allocating, and returns whether there was one. The errors are those of
    /// `next_line`; `OutOfMemory` comes only from the reader itself.
    fn skip_line(&mut self) -> Result<bool, ReadEnd>
        ensures took { OnOk result ((lines : List (List ℕ))
            × TakesLines (B.remaining self.old.left) (B.remaining self.new.left) self.old.taken self.new.taken lines) }
        ensures end { result ≡ Ok false → IsAtEnd (B.remaining self.old.left) × (self.new.taken ≡ self.old.taken) }
        ensures grows { result ≡ Ok true → self.old.taken < self.new.taken }
        ensures fits { OnOk result (self.new.taken ≤ INPUT_MOST) }
        ensures err { IfErr result (EndsReading (B.remaining self.old.left) self.old.taken) }
    {
        let skipped = self.left.skip_until(b'\n');
        let len = skipped.map_err(|error| ReadFault::of(&error))?;
        self.count(len)?;
        Ok(len > 0)
    }

    /// Takes all that is left without keeping it or allocating. The errors are those of `skip_line`.
    pub fn skip_lines(&mut self) -> Result<(), ReadEnd>
        ensures fits { OnOk result (Fits (B.remaining self.old.left) self.old.taken) }
        ensures err { IfErr result (EndsReading (B.remaining self.old.left) self.old.taken) }
    {
        while self.skip_line()? {}
        Ok(())
    }
}
