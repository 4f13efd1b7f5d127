//! The kinds of rows.
ghost use Rattle.std.specs.Prelude.{◌≡◌};
ghost use Rattle.csv_messages.specs.Kinds.{kind_of, kind_of_letter, kind_of_word};

/// What a row's message does.
#[derive(Clone, Copy, Debug, PartialEq, Eq)]
pub enum Kind {
    /// It reports a trade.
    Report,
    /// It cancels a report.
    Cancel,
    /// It corrects a report: price, size and condition are replaced.
    Correct,
    /// It reinstates a cancelled report.
    Reinstate,
}

/// Returns the kind of a letter, as the messages have it.
fn kind_of_letter(letter: u8) -> Option<Kind>
    ensures { result ≡ kind_of_letter letter }
{
    match letter {
        b'R' => Some(Kind::Report),
        b'X' => Some(Kind::Cancel),
        b'C' => Some(Kind::Correct),
        b'S' => Some(Kind::Reinstate),
        _ => None,
    }
}

/// Returns the kind of a word.
fn kind_of_word(word: &[u8]) -> Option<Kind>
    ensures { result ≡ kind_of_word word.now }
{
    if word == b"report".as_slice() {
        Some(Kind::Report)
    } else if word == b"cancel".as_slice() {
        Some(Kind::Cancel)
    } else if word == b"correct".as_slice() {
        Some(Kind::Correct)
    } else if word == b"reinstate".as_slice() {
        Some(Kind::Reinstate)
    } else {
        None
    }
}

impl Kind {
    /// Returns the kind that a text names by a letter, as the messages have it, or by a word.
    pub fn of_text(text: &[u8]) -> Option<Kind>
        ensures kind { result ≡ kind_of text.now }
    {
        match text {
            [letter] => kind_of_letter(*letter),
            _ => kind_of_word(text),
        }
    }
}
