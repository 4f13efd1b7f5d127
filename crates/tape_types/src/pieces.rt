//! Cuts a text at each separator byte.
ghost use Rattle.std.specs.Prelude.{◌≡◌};
ghost use Rattle.std.specs.Iterator.{YieldsFirstRef, item_count};
ghost use Rattle.tape_types.specs.Pieces.{pieces_left};
ghost use Rattle.tape_types.specs.Header.{pieces_of};

use memchr::memchr;

/// The pieces that are left of a text, which has one more than separators.
#[derive(Drop)]
pub struct Pieces<'a> {
    separator: u8,
    rest: Option<&'a [u8]>,
}

impl<'a> Pieces<'a> {
    /// All pieces of the text.
    pub fn new(separator: u8, text: &'a [u8]) -> Pieces<'a>
        ensures { pieces_left result ≡ pieces_of separator text.now }
    {
        Pieces {
            separator,
            rest: Some(text),
        }
    }
}

impl<'a> Iterator for Pieces<'a> {
    type Item = &'a [u8];

    ghost next_gives = { YieldsFirstRef pieces_left };

    ghost remaining = { item_count pieces_left };

    fn next(&mut self) -> Option<&'a [u8]> {
        let rest = self.rest?;
        match memchr(self.separator, rest) {
            None => {
                self.rest = None;
                Some(rest)
            }
            Some(end) => {
                self.rest = Some(&rest[end + 1..]);
                Some(&rest[..end])
            }
        }
    }
}
