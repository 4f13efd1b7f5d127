//! Splits the text of a file into its lines.
ghost use Rattle.std.specs.Prelude.{◌≡◌, position};
ghost use Rattle.std.specs.Iterator.{YieldsFirstRef, item_count};
ghost use Rattle.day_terms.specs.Lines.{is_line_feed, lines_left};

/// The lines of a file that are left. The last one may lack its line feed.
#[derive(Drop)]
pub struct TextLines<'a> {
    pub rest: &'a [u8],
}

/// Returns the index of the first line feed, or `None` if there is none.
fn end_of_line(text: &[u8]) -> Option<usize>
    ensures { result ≡ position is_line_feed text.now }
{
    text.iter().position(|byte| *byte == b'\n')
}

impl<'a> Iterator for TextLines<'a> {
    type Item = &'a [u8];

    ghost next_gives = { YieldsFirstRef lines_left };

    ghost remaining = { item_count lines_left };

    fn next(&mut self) -> Option<&'a [u8]> {
        let rest = self.rest;
        if rest.is_empty() {
            return None;
        }
        match end_of_line(rest) {
            Some(end) => {
                self.rest = &rest[end + 1..];
                Some(&rest[..end])
            }
            None => {
                self.rest = &[];
                Some(rest)
            }
        }
    }
}
