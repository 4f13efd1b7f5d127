//! Finds the line and column after the bytes of a text of rows that were read, and where a field ends.
ghost use Rattle.std.specs.Prelude.{◌≡◌, ◌≤◌, ◌+◌, ◌<◌, ◌^◌, IfSome, length};
ghost use Rattle.recorded_tapes.specs.Places.{end_of_field, ends_field, rest_of_field};

use crate::parts::front;

/// A place in a text of rows: the one after the bytes that were read.
#[derive(Clone, Copy, Debug, PartialEq, Eq)]
pub struct TextPlace {
    /// The number of the line, from 1.
    pub line: u64,
    /// How many fields of the line are before this one.
    pub column: u64,
    /// How many bytes of the text are before the field.
    pub field: usize,
    /// How many bytes of the text were read.
    pub read: usize,
}

impl TextPlace {
    ghost use Rattle.recorded_tapes.specs.Places.{first_place, place_after, place_behind};

    /// The place at the start of a text.
    fn first() -> TextPlace
        ensures { result ≡ first_place }
    {
        TextPlace {
            line: 1,
            column: 0,
            field: 0,
            read: 0,
        }
    }

    /// The place after one more byte.
    fn after(self, byte: u8) -> TextPlace
        requires read { self.read + 2 < 2 ^ 64 }
        requires line { self.line ≤ self.read + 1 }
        requires column { self.column ≤ self.read }
        ensures { result ≡ place_after self byte }
    {
        let read = self.read + 1;
        match byte {
            b'\n' => TextPlace {
                line: self.line + 1,
                column: 0,
                field: read,
                read,
            },
            b',' => TextPlace {
                line: self.line,
                column: self.column + 1,
                field: read,
                read,
            },
            _ => TextPlace { read, ..self },
        }
    }

    /// The place after a text.
    pub fn behind(text: &[u8]) -> TextPlace
        ensures place { result ≡ place_behind text.now }
        ensures field { result.field ≤ length text.now }
    {
        let mut place = TextPlace::first();
        for byte in text {
            place = place.after(*byte);
        }
        place
    }
}

/// Whether a byte ends a field.
fn ends_field(byte: u8) -> bool
    ensures { result ≡ ends_field byte }
{
    byte == b'\n' || byte == b','
}

/// Where the field that a text begins in ends.
fn end_of_field(text: &[u8]) -> Option<usize>
    ensures place { result ≡ end_of_field text.now }
    ensures within { IfSome result (λ place. place < length text.now) }
{
    text.iter().position(|byte| ends_field(*byte))
}

/// The rest of the field that a text begins in.
pub fn rest_of_field(text: &[u8]) -> &[u8]
    ensures { result.now ≡ rest_of_field text.now }
{
    match end_of_field(text) {
        Some(place) => front(text, place),
        None => text,
    }
}
