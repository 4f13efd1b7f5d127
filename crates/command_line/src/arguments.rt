//! Reads the arguments after a word, one after another, each ended by a zero byte.
ghost use Rattle.std.specs.Prelude.{◌≡◌, [], get_or};
ghost use Rattle.day_terms.specs.Arguments.{words_of};
ghost use Rattle.command_line.specs.Arguments.{in_a_row};
ghost use Rattle.command_line.specs.Given.{given_with, nothing_given};

use crate::behind::Behind;
use crate::flag::Flag;
use crate::given::{Given, Wrong, is_option};
use crate::word::Word;
use day_terms::first_argument;

/// Returns the argument at a place, counted from 0, or an empty one past the last.
pub fn argument_at(bytes: &[u8], place: usize) -> &[u8]
    ensures { result.now ≡ get_or (words_of bytes.now) place [] }
{
    let mut rest = bytes;
    for _ in 0..place {
        match first_argument(rest) {
            Some((_, behind)) => rest = behind,
            None => return b"",
        }
    }
    match first_argument(rest) {
        Some((argument, _)) => argument,
        None => b"",
    }
}

/// Returns whether the arguments that stand there are in a row, each known by its place, rather than a file with its options:
/// those of a batch unless help is asked for, and those of a running day unless there is only one, or up to four of which one
/// is an option.
pub(crate) fn are_in_a_row(behind: Behind, bytes: &[u8]) -> bool
    ensures { result ≡ in_a_row behind (words_of bytes.now) }
{
    if !matches!(behind, Behind::BatchRow | Behind::DayOrRow) {
        return false;
    }
    let is_batch = behind == Behind::BatchRow;
    let Some((first, rest)) = first_argument(bytes) else {
        return true;
    };
    let Some((second, rest)) = first_argument(rest) else {
        return is_batch && first != Flag::Help.name().as_bytes();
    };
    let Some((third, rest)) = first_argument(rest) else {
        return is_batch || !(is_option(first) || is_option(second));
    };
    let Some((fourth, rest)) = first_argument(rest) else {
        return is_batch || !(is_option(first) || is_option(second) || is_option(third));
    };
    is_batch
        || first_argument(rest).is_some()
        || !(is_option(first) || is_option(second) || is_option(third) || is_option(fourth))
}

/// Returns what the arguments after a word give, or the first that is wrong.
pub(crate) fn given(word: Word, bytes: &[u8]) -> Result<Given, Wrong>
    ensures { result ≡ given_with word nothing_given 0 (words_of bytes.now) }
{
    let mut given = Given::NOTHING;
    let mut place = 0;
    let mut rest = bytes;
    while let Some((argument, behind)) = first_argument(rest) {
        given = given.with(word, place, argument)?;
        place += 1;
        rest = behind;
    }
    Ok(given)
}
