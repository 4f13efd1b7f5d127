//! The argument that a command does not take, with what its message names.
ghost use Rattle.std.specs.Prelude.{◌≡◌, IfOk};
ghost use Rattle.day_terms.specs.Arguments.{words_of};
ghost use Rattle.command_line.specs.Wrongs.{similar_to, wrong_argument};

use crate::arguments::argument_at;
use crate::flag::Flag;
use crate::given::Wrong;
use crate::similar::similar_flag;
use crate::word::Word;
use std::alloc::{AllocError, Global};
use std::{fmt, str};

/// An argument that a command does not take. It is printed on one line, without the program's name.
#[derive(Clone, Copy, Debug)]
pub struct WrongArgument<'a> {
    wrong: Wrong,
    argument: &'a [u8],
    similar: Option<Flag>,
}

/// Returns the argument that is wrong, or an empty one if one is missing.
fn wrong_argument(arguments: &[u8], wrong: Wrong) -> &[u8]
    ensures { result.now ≡ wrong_argument (words_of arguments.now) wrong }
{
    match wrong {
        Wrong::Unexpected(place)
        | Wrong::Repeated(place)
        | Wrong::Value(_, place)
        | Wrong::Participant(place) => argument_at(arguments, place),
        Wrong::NoValue(_) | Wrong::NoParticipant | Wrong::NoDay => b"",
    }
}

impl<'a> WrongArgument<'a> {
    /// Finds the argument after a command that is wrong, and the option that an unexpected one may have been meant for. It
    /// fails if memory runs out.
    pub fn find(
        alloc: Global,
        word: Word,
        arguments: &'a [u8],
        wrong: Wrong,
    ) -> Result<WrongArgument<'a>, AllocError>
        ensures wrong { IfOk result (λ found. found.wrong ≡ wrong) }
        ensures argument { IfOk result (λ found. found.argument.now ≡ wrong_argument (words_of arguments.now) wrong) }
        ensures similar { IfOk result (λ found. found.similar ≡ similar_to word (words_of arguments.now) wrong) }
    {
        let argument = wrong_argument(arguments, wrong);
        let similar = match wrong {
            Wrong::Unexpected(_) => similar_flag(alloc, word, argument)?,
            _ => None,
        };
        Ok(WrongArgument {
            wrong,
            argument,
            similar,
        })
    }
}

/// An argument as it is printed: as it is if it is text.
#[derive(Drop)]
struct ShownArgument<'a>(&'a [u8]);

impl fmt::Display for ShownArgument<'_> {
    fn fmt<W: fmt::Write>(&self, f: &mut fmt::Formatter<W>) -> fmt::Result {
        match str::from_utf8(self.0) {
            Ok(text) => f.write_str(text),
            Err(_) => write!(f, "{}", self.0.escape_ascii()),
        }
    }
}

impl fmt::Display for WrongArgument<'_> {
    fn fmt<W: fmt::Write>(&self, f: &mut fmt::Formatter<W>) -> fmt::Result {
        let argument = ShownArgument(self.argument);
        match self.wrong {
            Wrong::Unexpected(_) => {
                write!(f, "unexpected argument '{argument}'")?;
                match self.similar {
                    Some(flag) => write!(f, "; a similar one is '{flag}'"),
                    None => Ok(()),
                }
            }
            Wrong::Repeated(_) => write!(f, "repeated argument '{argument}'"),
            Wrong::Value(flag, _) => {
                write!(
                    f,
                    "wrong argument '{argument}'; {flag} takes {}",
                    flag.values()
                )
            }
            Wrong::Participant(_) => {
                write!(
                    f,
                    "wrong argument '{argument}'; PARTICIPANT is a letter A to Z"
                )
            }
            Wrong::NoValue(flag) => write!(f, "no value; {flag} takes {}", flag.values()),
            Wrong::NoParticipant => f.write_str("no PARTICIPANT"),
            Wrong::NoDay => f.write_str("no DAY.toml"),
        }
    }
}
