//! Cuts a text in memory into its lines.
ghost use Rattle.std.specs.Prelude.{◌≡◌, ◌==◌, ◌≤◌, true, length, take};
ghost use Rattle.std.specs.Iterator.{YieldsFirstRef, item_count};
ghost use Rattle.std.specs.List.{list_any};
ghost use Rattle.memchr.specs.Find.{IsFirstByte, is_byte};
ghost use Rattle.batch.specs.Lines.{ends_a_line, lines_of};

use memchr::{memchr, memrchr};

/// The lines that are left of a text, without their line feeds. The last line may lack its own.
#[derive(Drop)]
pub struct WholeLines<'a> {
    rest: &'a [u8],
    /// The length of the previous line, or 0.
    former: usize,
}

impl<'a> WholeLines<'a> {
    /// All lines of the text.
    pub fn new(text: &'a [u8]) -> WholeLines<'a>
        ensures { result.rest.now ≡ text.now }
    {
        WholeLines {
            rest: text,
            former: 0,
        }
    }
}

impl<'a> Iterator for WholeLines<'a> {
    type Item = &'a [u8];

    ghost next_gives = { YieldsFirstRef (λ s. lines_of s.rest.now) };

    ghost remaining = { item_count (λ s. lines_of s.rest.now) };

    fn next(&mut self) -> Option<&'a [u8]> {
        let rest = self.rest;
        if rest.is_empty() {
            return None;
        }
        match line_end(rest, self.former) {
            None => {
                self.rest = &[];
                Some(rest)
            }
            Some(end) => {
                self.rest = &rest[end + 1..];
                self.former = end;
                Some(&rest[..end])
            }
        }
    }
}

/// Where the first line feed of a text is, if it has one.
///
/// Most message lines are as long as the previous one, so that place is tried first. Whether a line feed comes earlier is found
/// without a branch that depends on the bytes.
fn line_end(text: &[u8], former: usize) -> Option<usize>
    ensures { IsFirstByte (is_byte 10) text.now result }
{
    if text.get(former) == Some(&b'\n') && !has_line_feed(&text[..former]) {
        return Some(former);
    }
    memchr(b'\n', text)
}

/// Whether a text has a line feed.
fn has_line_feed(text: &[u8]) -> bool
    ensures { result ≡ list_any (λ byte. byte == 10) text.now }
{
    let mut found = false;
    for byte in text {
        found |= *byte == b'\n';
    }
    found
}

/// How many bytes the whole lines of a text take.
pub fn whole_lines(text: &[u8]) -> usize
    ensures within { result ≤ length text.now }
    ensures whole { ends_a_line (take result text.now) ≡ true }
{
    match memrchr(b'\n', text) {
        Some(end) => end + 1,
        None => 0,
    }
}
