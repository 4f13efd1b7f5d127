//! The text of a field that was refused.
ghost use Rattle.std.specs.Prelude.{◌≡◌, ◌<◌, false, Some, length, take};
ghost use Rattle.std.specs.Fmt.{digit_glyph};
ghost use Rattle.csv_messages.specs.FaultTexts.{FAULT_TEXT_MOST, SHOWN_MOST, has_line_end, is_line_end, line_end_text, quote_end, quoted, shown, shown_byte, stands_as_it_is};

use std::fmt;
use std::marker::Model;

/// How many bytes of a field are printed.
const SHOWN_MOST: usize = 40;

/// How many bytes of a field a fault keeps: those that are printed, and one more that says that the field is cut.
pub const FAULT_TEXT_MOST: usize = SHOWN_MOST + 1;

/// The first `FAULT_TEXT_MOST` bytes of a field that was refused.
///
/// Forty of them are printed, on one line: printable ASCII as it is, but every other byte, a quotation mark and a backslash as
/// `\x` and two hexadecimal digits.
#[derive(Clone, Copy, Debug, PartialEq, Eq)]
pub struct FaultText {
    bytes: [u8; FAULT_TEXT_MOST],
    used: usize,
}

impl Model for FaultText {
    ghost use Rattle.std.specs.Prelude.{◌≡◌, ◌≤◌, ◌-◌, ◌++◌, ℕ, List, length, replicate, take};
    ghost use Rattle.csv_messages.specs.CutTexts.{row-back};

    ghost Value = { List ℕ };

    ghost view = { λ t. take t.used t.bytes };

    // The unused bytes are zero, so that two texts are equal if their used bytes are.
    ghost invariant = { λ t. (t.used ≤ length t.bytes) × (t.bytes ≡ take t.used t.bytes ++ replicate (41 - t.used) 0) };

    ghost inverse = { λ text. record { bytes = text ++ replicate (41 - length text) 0; used = length text } };

    ghost inverse_ok = { λ t h. row-back (λ bytes used. record { bytes = bytes; used = used }) t.bytes t.used h.0 h.1 };
}

impl FaultText {
    /// Keeps the first bytes of a field.
    pub fn new(text: &[u8]) -> Self
        ensures text { result ≡ take FAULT_TEXT_MOST text.now }
    {
        let used = text.len().min(FAULT_TEXT_MOST);
        let mut bytes = [0; FAULT_TEXT_MOST];
        bytes[..used].copy_from_slice(&text[..used]);
        FaultText { bytes, used }
    }

    /// Returns the bytes that were kept.
    pub fn bytes(&self) -> &[u8]
        ensures bytes { result.now ≡ self.now }
    {
        &self.bytes[..self.used]
    }

    /// Returns the quotation mark behind the text, with two dots after it if the text is cut.
    fn quote_end(&self) -> &'static str
        ensures { result.now ≡ quote_end self.now }
    {
        if self.bytes().len() > SHOWN_MOST {
            "\".."
        } else {
            "\""
        }
    }

    /// Returns whether a line end is among the bytes that were kept.
    pub fn has_line_end(&self) -> bool
        ensures { result ≡ has_line_end self.now }
    {
        has_line_end(self.bytes())
    }
}

/// Returns the bytes of a text that are printed.
fn shown_front(text: &[u8]) -> &[u8]
    ensures { result.now ≡ take SHOWN_MOST text.now }
{
    if text.len() > SHOWN_MOST {
        &text[..SHOWN_MOST]
    } else {
        text
    }
}

/// Returns whether a field has a line end, which only a field in quotes can have.
pub fn has_line_end(text: &[u8]) -> bool
    ensures { result ≡ has_line_end text.now }
{
    text.iter().any(|byte| is_line_end(*byte))
}

/// Returns whether a byte ends a line.
pub fn is_line_end(byte: u8) -> bool
    ensures { result ≡ is_line_end byte }
{
    byte == b'\n' || byte == b'\r'
}

/// Returns whether a byte is printed as it is.
fn stands_as_it_is(byte: u8) -> bool
    ensures { result ≡ stands_as_it_is byte }
{
    byte >= b' ' && byte <= b'~' && byte != b'"' && byte != b'\\'
}

/// A hexadecimal digit.
fn hex_digit(digit: u8) -> u8
    requires { digit < 16 }
    ensures digit { result ≡ digit_glyph false digit }
    ensures ascii { result < 128 }
{
    if digit < 10 {
        b'0' + digit
    } else {
        b'a' + (digit - 10)
    }
}

/// A byte as it is printed.
#[derive(Clone, Copy)]
pub struct ShownByte(pub u8);

impl fmt::Display for ShownByte {
    ghost output = { λ b. Some (shown_byte b.0) };

    fn fmt<W: fmt::Write>(&self, f: &mut fmt::Formatter<W>) -> fmt::Result {
        let byte = self.0;
        if stands_as_it_is(byte) {
            f.write_char(char::from(byte))
        } else {
            f.write_str("\\x")?;
            f.write_char(char::from(hex_digit(byte / 16)))?;
            f.write_char(char::from(hex_digit(byte % 16)))
        }
    }
}

impl fmt::Display for FaultText {
    ghost output = { λ t. Some (shown t) };

    fn fmt<W: fmt::Write>(&self, f: &mut fmt::Formatter<W>) -> fmt::Result {
        for byte in shown_front(self.bytes()) {
            let shown = ShownByte(*byte);
            write!(f, "{shown}")?;
        }
        Ok(())
    }
}

/// A text between quotation marks, with two dots behind them if it is cut.
#[derive(Clone, Copy)]
pub struct Quoted(pub FaultText);

impl fmt::Display for Quoted {
    ghost output = { λ q. Some (quoted q.0) };

    fn fmt<W: fmt::Write>(&self, f: &mut fmt::Formatter<W>) -> fmt::Result {
        let text = self.0;
        let end = text.quote_end();
        write!(f, "\"{text}{end}")
    }
}

/// Says that a field has a line end, if it has, as behind a quotation mark that is not closed.
#[derive(Clone, Copy)]
pub struct LineEnd(pub bool);

impl fmt::Display for LineEnd {
    ghost output = { λ e. Some (line_end_text e.0) };

    fn fmt<W: fmt::Write>(&self, f: &mut fmt::Formatter<W>) -> fmt::Result {
        if self.0 {
            f.write_str("; a quote is not closed, or a field has a line end")
        } else {
            Ok(())
        }
    }
}
