//! Says what may be wrong with a table whose header row has an unknown name.
ghost use Rattle.std.specs.Prelude.{◌≡◌, Some, find};
ghost use Rattle.std.specs.List.{list_any};
ghost use Rattle.csv_messages.specs.FaultTexts.{hint_text, is_break, is_gzip, is_separator, is_utf16, name_text, separator_name};

use crate::FaultText;
use crate::fault_text::is_line_end;
use std::fmt;

/// Returns whether a file begins as gzip makes it.
fn is_gzip(name: &[u8]) -> bool
    ensures { result ≡ is_gzip name.now }
{
    match name {
        [first, second, ..] => *first == 0x1f && *second == 0x8b,
        _ => false,
    }
}

/// Returns whether a text begins as one in UTF-16: with a byte order mark, or with a character of ASCII.
fn is_utf16(name: &[u8]) -> bool
    ensures { result ≡ is_utf16 name.now }
{
    match name {
        [first, second, ..] => {
            *first == 0xff && *second == 0xfe
                || *first == 0xfe && *second == 0xff
                || *first == 0
                || *second == 0
        }
        _ => false,
    }
}

/// Returns whether other tables separate names by this byte: a semicolon, a tab or a vertical bar.
fn is_separator(byte: u8) -> bool
    ensures { result ≡ is_separator byte }
{
    byte == b';' || byte == b'\t' || byte == b'|'
}

/// Returns whether a comma or a line end is in a name, which it has only in quotes.
fn has_break(name: &[u8]) -> bool
    ensures { result ≡ list_any is_break name.now }
{
    name.iter().any(|byte| *byte == b',' || is_line_end(*byte))
}

/// A separator in words.
fn separator_name(byte: u8) -> &'static str
    ensures { result.now ≡ separator_name byte }
{
    match byte {
        b';' => "a semicolon",
        b'\t' => "a tab",
        _ => "a vertical bar",
    }
}

/// The first separator in a name.
fn separator_in(name: &[u8]) -> Option<u8>
    ensures { result ≡ find is_separator name.now }
{
    name.iter().copied().find(|byte| is_separator(*byte))
}

/// Says of an unknown name which separator is in it, that a quote may be open, or how the column would be skipped.
#[derive(Clone, Copy)]
struct NameHint(FaultText);

impl fmt::Display for NameHint {
    ghost output = { λ h. Some (name_text h.0) };

    fn fmt<W: fmt::Write>(&self, f: &mut fmt::Formatter<W>) -> fmt::Result {
        let name = self.0;
        if has_break(name.bytes()) {
            return f.write_str("; a quote is not closed, or a name has a comma or a line end");
        }
        let Some(byte) = separator_in(name.bytes()) else {
            return write!(f, "; names are in lower case, and #{name} would be skipped");
        };
        let separator = separator_name(byte);
        write!(
            f,
            "; names have commas between them, and here stands {separator}"
        )
    }
}

/// Says what an unknown name suggests: a table that is compressed or in another encoding, or as `NameHint` does.
#[derive(Clone, Copy)]
pub struct UnknownHint(pub FaultText);

impl fmt::Display for UnknownHint {
    ghost output = { λ h. Some (hint_text h.0) };

    fn fmt<W: fmt::Write>(&self, f: &mut fmt::Formatter<W>) -> fmt::Result {
        let name = self.0;
        if is_gzip(name.bytes()) {
            return f.write_str("; the table is compressed: pipe it through gzip -dc");
        }
        if is_utf16(name.bytes()) {
            return f.write_str(
                "; the table is in UTF-16: pipe it through iconv -f UTF-16 -t UTF-8",
            );
        }
        let hint = NameHint(name);
        write!(f, "{hint}")
    }
}
