//! The error of a text that is not TOML, with the line and the column at which it stops being so.
ghost use Rattle.std.specs.Prelude.{◌≡◌, ◌≤◌, length};
ghost use Rattle.std.specs.List.{count_by};
ghost use Rattle.day_terms.specs.Lines.{is_line_feed};
ghost use Rattle.day_terms.specs.Places.{begins_character, column_behind, last_length, line_behind};

use std::fmt;
use toml::de::Error;

/// The first place at which a text is not TOML, and why.
#[derive(Clone, Copy, Debug, PartialEq, Eq)]
pub struct SyntaxFault {
    /// The line, from 1.
    pub line: usize,
    /// The column in the line, from 1, in characters.
    pub column: usize,
    /// The error of the TOML reader.
    pub error: Error,
}

impl SyntaxFault {
    /// Returns the fault at the place behind these bytes.
    pub(crate) fn after(before: &[u8], error: Error) -> SyntaxFault
        ensures line { result.line ≡ line_behind before.now }
        ensures column { result.column ≡ column_behind before.now }
    {
        SyntaxFault {
            line: line_feeds(before) + 1,
            column: characters(&before[before.len() - last_length(before)..]) + 1,
            error,
        }
    }
}

/// Returns the number of line feeds in a text.
fn line_feeds(text: &[u8]) -> usize
    ensures count { result ≡ count_by is_line_feed text.now }
    ensures within { result ≤ length text.now }
{
    text.iter().filter(|byte| **byte == b'\n').count()
}

/// Returns the number of characters in a text.
fn characters(text: &[u8]) -> usize
    ensures count { result ≡ count_by begins_character text.now }
    ensures within { result ≤ length text.now }
{
    text.iter().filter(|byte| **byte & 0xC0 != 0x80).count()
}

/// Returns the number of bytes behind the last line feed.
fn last_length(text: &[u8]) -> usize
    ensures length { result ≡ last_length text.now }
    ensures within { result ≤ length text.now }
{
    text.iter().rev().take_while(|byte| **byte != b'\n').count()
}

impl fmt::Display for SyntaxFault {
    fn fmt<W: fmt::Write>(&self, f: &mut fmt::Formatter<W>) -> fmt::Result {
        let (line, column) = (self.line, self.column);
        write!(f, "line {line}, column {column}: {}", self.error.message())
    }
}
