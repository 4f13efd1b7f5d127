//! The options of the words, with their names and the values that they take.
ghost use Rattle.std.specs.Prelude.{◌≡◌};
ghost use Rattle.command_line.specs.Commands.{flag_name};

use std::fmt;

/// An option of a word, by its name.
#[derive(Clone, Copy, Debug, PartialEq, Eq)]
pub enum Flag {
    /// The matrix, by its number.
    Matrix,
    /// Rows that the tape refuses are faults.
    Strict,
    /// The place of a follower, from 1.
    Follower,
    /// What was held is reported if the day's end did not come.
    Partial,
    /// Help: what the word does.
    Help,
}

impl Flag {
    /// Returns the option's name.
    pub fn name(self) -> &'static str
        ensures { result.now ≡ flag_name self }
    {
        match self {
            Flag::Matrix => "--matrix",
            Flag::Strict => "--strict",
            Flag::Follower => "--follower",
            Flag::Partial => "--partial",
            Flag::Help => "--help",
        }
    }

    /// Returns the values that the option takes, in words, or an empty text if it takes none.
    pub(crate) fn values(self) -> &'static str {
        match self {
            Flag::Matrix => "1 or 2",
            Flag::Follower => "1 to 65535",
            Flag::Strict | Flag::Partial | Flag::Help => "",
        }
    }
}

impl fmt::Display for Flag {
    fn fmt<W: fmt::Write>(&self, f: &mut fmt::Formatter<W>) -> fmt::Result {
        f.write_str(self.name())
    }
}
