//! Collects what a word's arguments give, one after another, or finds which of them is wrong.
ghost use Rattle.std.specs.Prelude.{◌≡◌, MatchOption, None, Some, option_copied, position};
ghost use Rattle.memchr.specs.Find.{is_byte};
ghost use Rattle.tape_types.specs.Header.{participant_named};
ghost use Rattle.command_line.specs.Given.{follower_named, is_given, is_option, nothing_given, option_name, option_value, with_argument, with_flag, with_option, with_plain, with_value, without_value};

use crate::flag::Flag;
use crate::word::Word;
use day_terms::{decimal, matrix_named};
use sale_matrix::Matrix;
use tape_types::Participant;

/// What arguments gave so far. The arguments after a word are counted from 0.
#[derive(Clone, Copy, Debug, PartialEq, Eq)]
pub(crate) struct Given {
    /// The matrix.
    pub matrix: Option<Matrix>,
    /// Whether refused rows are faults.
    pub strict: bool,
    /// The place of a follower.
    pub follower: Option<u16>,
    /// Whether what was held is reported if the day's end did not come.
    pub partial: bool,
    /// Whether help is asked for.
    pub help: bool,
    /// The participant.
    pub participant: Option<Participant>,
    /// Which argument is the name of a file.
    pub file: Option<usize>,
    /// The option whose value is the next argument.
    pub awaits: Option<Flag>,
}

/// Why an argument after a word is wrong, and which one it is, counted from 0.
#[derive(Clone, Copy, Debug, PartialEq, Eq)]
pub enum Wrong {
    /// The word takes no such argument, or no more of them.
    Unexpected(usize),
    /// The option was given before.
    Repeated(usize),
    /// The argument is not a value of the option.
    Value(Flag, usize),
    /// The argument is not a participant.
    Participant(usize),
    /// The option has no value.
    NoValue(Flag),
    /// The participant is missing.
    NoParticipant,
    /// The name of a day's file is missing.
    NoDay,
}

/// The name of standard input as a file.
pub const STANDARD_INPUT: &str = "-";

/// Returns whether an argument is an option, not the name of a file. `-` is standard input.
pub(crate) fn is_option(argument: &[u8]) -> bool
    ensures { result ≡ is_option argument.now }
{
    argument.starts_with(b"-") && argument != STANDARD_INPUT.as_bytes()
}

/// Returns the index at which an option's name ends, if its value stands behind it.
fn end_of_name(argument: &[u8]) -> Option<usize>
    ensures { result ≡ position (is_byte 61) argument.now }
{
    argument.iter().position(|byte| *byte == b'=')
}

/// Returns an option's name, and its value if that stands behind a `=` in the same argument.
pub(crate) fn split_option(argument: &[u8]) -> (&[u8], Option<&[u8]>)
    ensures name { result.0.now ≡ option_name argument.now }
    ensures value { MatchOption result.1 (option_value argument.now ≡ None) (λ value. option_value argument.now ≡ Some value.now) }
{
    match end_of_name(argument) {
        Some(end) => (&argument[..end], Some(&argument[end + 1..])),
        None => (argument, None),
    }
}

/// Returns the participant of a letter, or `None` if there is none.
fn participant_named(argument: &[u8]) -> Option<Participant>
    ensures { result ≡ participant_named argument.now }
{
    match argument {
        [letter] => Participant::try_new(*letter),
        _ => None,
    }
}

/// Returns the place of a follower, 1 to 65,535, or `None` if the value is no such number.
fn follower_named(value: &[u8]) -> Option<u16>
    ensures { result ≡ follower_named value.now }
{
    match u16::try_from(decimal(value)?) {
        Ok(0) | Err(_) => None,
        Ok(follower) => Some(follower),
    }
}

impl Given {
    /// Nothing is given.
    pub const NOTHING: Given = Given {
        matrix: None,
        strict: false,
        follower: None,
        partial: false,
        help: false,
        participant: None,
        file: None,
        awaits: None,
    };

    /// Returns whether an option was given.
    fn has(&self, flag: Flag) -> bool
        ensures { result ≡ is_given self.now flag }
    {
        match flag {
            Flag::Matrix => self.matrix.is_some(),
            Flag::Strict => self.strict,
            Flag::Follower => self.follower.is_some(),
            Flag::Partial => self.partial,
            Flag::Help => self.help,
        }
    }

    /// Adds an option's value, which is this argument or a part of it.
    fn with_value(self, flag: Flag, place: usize, value: &[u8]) -> Result<Given, Wrong>
        ensures { result ≡ with_value self flag place value.now }
    {
        match flag {
            Flag::Matrix => {
                let matrix = Some(matrix_named(value).ok_or(Wrong::Value(flag, place))?);
                Ok(Given {
                    matrix,
                    awaits: None,
                    ..self
                })
            }
            Flag::Follower => {
                let follower = Some(follower_named(value).ok_or(Wrong::Value(flag, place))?);
                Ok(Given {
                    follower,
                    awaits: None,
                    ..self
                })
            }
            Flag::Strict | Flag::Partial | Flag::Help => Err(Wrong::Unexpected(place)),
        }
    }

    /// Adds an option whose argument has no value.
    fn without_value(self, flag: Flag) -> Given
        ensures { result ≡ without_value self flag }
    {
        match flag {
            Flag::Matrix | Flag::Follower => Given {
                awaits: Some(flag),
                ..self
            },
            Flag::Strict => Given {
                strict: true,
                ..self
            },
            Flag::Partial => Given {
                partial: true,
                ..self
            },
            Flag::Help => Given { help: true, ..self },
        }
    }

    /// Adds an option that the word takes, which may be given once.
    fn with_flag(self, flag: Flag, place: usize, value: Option<&[u8]>) -> Result<Given, Wrong>
        ensures { result ≡ with_flag self flag place (option_copied value.entry) }
    {
        if self.has(flag) {
            return Err(Wrong::Repeated(place));
        }
        match value {
            Some(value) => self.with_value(flag, place, value),
            None => Ok(self.without_value(flag)),
        }
    }

    /// Adds an argument that begins as an option.
    fn with_option(self, word: Word, place: usize, argument: &[u8]) -> Result<Given, Wrong>
        ensures { result ≡ with_option word self place argument.now }
    {
        let (name, value) = split_option(argument);
        match word.flag_named(name) {
            Some(flag) => self.with_flag(flag, place, value),
            None => Err(Wrong::Unexpected(place)),
        }
    }

    /// Adds an argument that is not an option.
    fn with_plain(self, word: Word, place: usize, argument: &[u8]) -> Result<Given, Wrong>
        ensures { result ≡ with_plain word self place argument.now }
    {
        if word.behind().takes_participant() && self.participant.is_none() {
            let participant = Some(participant_named(argument).ok_or(Wrong::Participant(place))?);
            Ok(Given {
                participant,
                ..self
            })
        } else if word.behind().takes_file() && self.file.is_none() {
            Ok(Given {
                file: Some(place),
                ..self
            })
        } else {
            Err(Wrong::Unexpected(place))
        }
    }

    /// Adds one more argument.
    pub fn with(self, word: Word, place: usize, argument: &[u8]) -> Result<Given, Wrong>
        ensures { result ≡ with_argument word self place argument.now }
    {
        match self.awaits {
            Some(flag) => self.with_value(flag, place, argument),
            None if is_option(argument) => self.with_option(word, place, argument),
            None => self.with_plain(word, place, argument),
        }
    }
}
