//! Takes the next line of a reader without its line feed, in memory that is used again, however long the line is.
ghost use Rattle.std.specs.Prelude.{◌≡◌, ◌∷◌, [], IfOk, nat_lt, if◌then◌else◌};
ghost use Rattle.std.specs.Io.BufRead.{strip_last};
ghost use Rattle.std.specs.Io.KnownBytes.{IsAtEnd};
ghost use Rattle.batch.specs.Input.{TakesLines};

use std::io::BufRead;
use whole_io::ReadFault;

/// Takes the line feed off a line's end, if there is one.
fn drop_line_feed(line: &mut Vec<u8>)
    ensures { line.new.items ≡ strip_last 10 line.old.items }
{
    if line.last() == Some(&b'\n') {
        line.pop();
    }
}

/// Takes the next line, which replaces what `line` held, and returns how many bytes were taken, the line feed among them: 0
/// only at the end of the input. An error leaves unspecified how much was taken and what `line` holds.
pub fn take_line<B: BufRead>(reader: &mut B, line: &mut Vec<u8>) -> Result<usize, ReadFault>
    ensures took { IfOk result (λ len. TakesLines (B.remaining reader.old) (B.remaining reader.new) 0 len
        (if nat_lt 0 len then line.new.items ∷ [] else [])) }
    ensures end { IfOk result (λ len. len ≡ 0 → IsAtEnd (B.remaining reader.old) × (line.new.items ≡ [])) }
{
    line.clear();
    let taken = reader.read_until(b'\n', line);
    let len = taken.map_err(|error| ReadFault::of(&error))?;
    drop_line_feed(line);
    Ok(len)
}
