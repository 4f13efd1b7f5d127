//! Reads what the program's arguments ask for: a word with its options and files, help, or the version.
ghost use Rattle.std.specs.Prelude.{◌≡◌};
ghost use Rattle.day_terms.specs.Arguments.{words_of};
ghost use Rattle.command_line.specs.Arguments.{asked_after, asked_alone, asked_by, asked_of, asked_with, follower_given};

use crate::arguments::{are_in_a_row, given};
use crate::flag::Flag;
use crate::given::{Given, Wrong};
use crate::word::Word;
use day_terms::first_argument;
use sale_matrix::Matrix;
use tape_types::Participant;

/// The argument that asks for the version.
const VERSION: &[u8] = b"--version";

/// A text of messages in another form.
#[derive(Clone, Copy, Debug, PartialEq, Eq)]
pub enum Conversion {
    /// The batch text of a table.
    Encode,
    /// The table of a batch's text.
    Decode,
    /// The bytes of a participant's messages in a table.
    Line(Participant),
}

/// A text of a table or a journal. If no matrix is given, a table is read by Matrix One, and a journal by its own matrix.
#[derive(Clone, Copy, Debug, PartialEq, Eq)]
pub enum Command {
    /// The report of a table or a journal, by a matrix if one is given, and whether refused rows are faults.
    Report(Option<Matrix>, bool),
    /// The readable tape of a table or a journal, by a matrix if one is given, and whether refused rows are faults.
    Tape(Option<Matrix>, bool),
    /// What became of the reports of a table or a journal and what each sets, by a matrix if one is given, and whether refused
    /// rows are faults.
    Explain(Option<Matrix>, bool),
    /// Every fault of a table.
    Check,
    /// Whether a recorded tape or a journal is as it is written, by a matrix if one is given.
    Verify(Option<Matrix>),
    /// The messages of a table or of a batch's text in another form.
    Convert(Conversion),
}

/// A text of a table or a journal, and the file of that. The arguments after a word are counted from 0.
#[derive(Clone, Copy, Debug, PartialEq, Eq)]
pub struct FileCommand {
    /// The text.
    pub command: Command,
    /// Which argument is the name of the file, which is standard input if it is `-` or there is none.
    pub file: Option<usize>,
}

/// What the program is asked for. The arguments after a word are counted from 0.
#[derive(Clone, Copy, Debug, PartialEq, Eq)]
pub enum Asked {
    /// A text of a table or a journal.
    Table(FileCommand),
    /// A running day, and which argument is the name of its file.
    Live(usize),
    /// The report of a running day at a follower's place, from 1, whether what is held is reported if no end comes, and which
    /// argument is the name of its file.
    Follow(u16, bool, usize),
    /// The readable tape of a running day at a follower's place, from 1, and which argument is the name of its file.
    Watch(u16, usize),
    /// How a running day stands, and which argument is the name of its file.
    Status(usize),
    /// The end of a running day, and which argument is the name of its file.
    End(usize),
    /// What the program does.
    Help,
    /// What a word does.
    HelpOn(Word),
    /// The program's version.
    Version,
    /// Nothing, since an argument of a word is wrong.
    Wrong(Word, Wrong),
}

impl Given {
    /// Returns the place of a follower, or the first if none is given.
    fn follower(&self) -> u16
        ensures { result ≡ follower_given self.now }
    {
        self.follower.unwrap_or(1)
    }
}

/// Returns what a word asks for with what is given, of which no option awaits its value and none is help.
fn asked_by(word: Word, given: &Given) -> Result<Asked, Wrong>
    ensures { result ≡ asked_by word given.now }
{
    let command = match word {
        Word::Report => Command::Report(given.matrix, given.strict),
        Word::Tape => Command::Tape(given.matrix, given.strict),
        Word::Explain => Command::Explain(given.matrix, given.strict),
        Word::Check => Command::Check,
        Word::Verify => Command::Verify(given.matrix),
        Word::Encode => Command::Convert(Conversion::Encode),
        Word::Decode => Command::Convert(Conversion::Decode),
        Word::Line => {
            let participant = given.participant.ok_or(Wrong::NoParticipant)?;
            Command::Convert(Conversion::Line(participant))
        }
        Word::Batch => return Ok(Asked::HelpOn(word)),
        Word::Live => return Ok(Asked::Live(given.file.ok_or(Wrong::NoDay)?)),
        Word::Follow => {
            let file = given.file.ok_or(Wrong::NoDay)?;
            return Ok(Asked::Follow(given.follower(), given.partial, file));
        }
        Word::Watch => {
            return Ok(Asked::Watch(given.follower(), given.file.ok_or(Wrong::NoDay)?));
        }
        Word::Status => return Ok(Asked::Status(given.file.ok_or(Wrong::NoDay)?)),
        Word::End => return Ok(Asked::End(given.file.ok_or(Wrong::NoDay)?)),
    };
    Ok(Asked::Table(FileCommand {
        command,
        file: given.file,
    }))
}

/// Returns what a word asks for with what is given.
fn asked_with(word: Word, given: &Given) -> Result<Asked, Wrong>
    ensures { result ≡ asked_with word given.now }
{
    if given.help {
        return Ok(Asked::HelpOn(word));
    }
    match given.awaits {
        Some(flag) => Err(Wrong::NoValue(flag)),
        None => asked_by(word, given),
    }
}

/// Returns what a word asks for with the arguments after it, or `None` if they stand in a row.
fn asked_after(word: Word, rest: &[u8]) -> Option<Asked>
    ensures { result ≡ asked_after (words_of rest.now) word }
{
    if are_in_a_row(word.behind(), rest) {
        return None;
    }
    let asked = given(word, rest).and_then(|given| asked_with(word, &given));
    match asked {
        Ok(asked) => Some(asked),
        Err(wrong) => Some(Asked::Wrong(word, wrong)),
    }
}

/// Returns what a single argument asks for, if that is help or the version.
fn asked_alone(first: &[u8], rest: &[u8]) -> Option<Asked>
    ensures { result ≡ asked_alone first.now (words_of rest.now) }
{
    if first_argument(rest).is_some() {
        None
    } else if first == Flag::Help.name().as_bytes() {
        Some(Asked::Help)
    } else if first == VERSION {
        Some(Asked::Version)
    } else {
        None
    }
}

/// Returns what arguments, each ended by a zero byte, ask for, or `None` if they stand in a row, as those of `live` and
/// `follow` do, or do not begin with a word.
#[tactic(auto, unfolding(crate::specs::Arguments::asked_of))]
pub fn read_arguments(words: &[u8]) -> Option<Asked>
    ensures { result ≡ asked_of (words_of words.now) }
{
    let (first, rest) = first_argument(words)?;
    if let Some(asked) = asked_alone(first, rest) {
        return Some(asked);
    }
    asked_after(Word::named(first)?, rest)
}
