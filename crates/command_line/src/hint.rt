//! The hint about arguments that the program does not take.
ghost use Rattle.std.specs.Prelude.{◌≡◌, IfOk};
ghost use Rattle.day_terms.specs.Arguments.{words_of};
ghost use Rattle.command_line.specs.Hints.{hint_of};

use crate::help::Usage;
use crate::similar::similar_word;
use crate::word::{ALL_WORDS, Word};
use day_terms::first_argument;
use std::alloc::{AllocError, Global};
use std::fmt;

/// A hint about bad arguments. It is printed on one line, without the program's name.
#[derive(Clone, Copy, Debug, PartialEq, Eq)]
pub enum Hint {
    /// The names of all commands.
    Commands,
    /// The command whose name is similar to the first argument.
    Similar(Word),
    /// The use of the command that the first argument names.
    Use(Word),
}

/// Returns the hint about bad arguments, each ended by a zero byte. It fails if memory runs out.
#[tactic(auto, unfolding(crate::specs::Hints::hint_of))]
pub fn hint_of(alloc: Global, words: &[u8]) -> Result<Hint, AllocError>
    ensures { IfOk result (λ hint. hint ≡ hint_of (words_of words.now)) }
{
    let Some((first, _)) = first_argument(words) else {
        return Ok(Hint::Commands);
    };
    if let Some(word) = Word::named(first) {
        return Ok(Hint::Use(word));
    }
    match similar_word(alloc, first)? {
        Some(word) => Ok(Hint::Similar(word)),
        None => Ok(Hint::Commands),
    }
}

impl fmt::Display for Hint {
    fn fmt<W: fmt::Write>(&self, f: &mut fmt::Formatter<W>) -> fmt::Result {
        match self {
            Hint::Commands => {
                f.write_str("the commands are")?;
                for word in ALL_WORDS {
                    write!(f, " {}", word.name())?;
                }
                f.write_str("; tapebox --help describes them")
            }
            Hint::Similar(word) => {
                write!(
                    f,
                    "a similar command is {}; tapebox --help lists all",
                    word.name()
                )
            }
            Hint::Use(word) => {
                let usage = Usage(*word);
                write!(f, "{usage}")
            }
        }
    }
}
