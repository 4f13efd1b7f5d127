//! Takes the lines of a text one by one from a reader.
ghost use Rattle.std.specs.Prelude.{◌≡◌, ◌⊎◌, ◌∷◌, [], false, Ok, IfErr, IfOk, if◌then◌else◌};
ghost use Rattle.std.specs.Io.KnownBytes.{IsAtEnd};
ghost use Rattle.message_texts.specs.TextLines.{TakesLines};
ghost use Rattle.message_texts.specs.declared.text_end.TextEnd.TheVariants.{OutOfMemory, ReadFault};

use crate::TextEnd;
use batch::take_line;
use std::io::BufRead;

/// Takes the next line, without its line feed, in memory that is used again, and returns whether there was one.
pub fn next_line<B: BufRead>(reader: &mut B, line: &mut Vec<u8>) -> Result<bool, TextEnd>
    ensures took { IfOk result (λ some. TakesLines (B.remaining reader.old) (B.remaining reader.new) (if some then line.new.items ∷ [] else [])) }
    ensures end { result ≡ Ok false → IsAtEnd (B.remaining reader.old) × (line.new.items ≡ []) }
    ensures fault { IfErr result (λ end. (end ≡ OutOfMemory) ⊎ (end ≡ ReadFault)) }
{
    let len = take_line(reader, line)?;
    Ok(len > 0)
}
