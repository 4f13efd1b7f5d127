//! Finds the option or the command that an argument may have been meant for.
ghost use Rattle.std.specs.Prelude.{◌≡◌, IfOk, find};
ghost use Rattle.command_line.specs.Similar.{are_near, is_flag_near, is_word_near, similar_flag, similar_word};

use crate::flag::Flag;
use crate::given::{is_option, split_option};
use crate::word::{ALL_WORDS, Word};
use std::alloc::{AllocError, Global};
use strsim::generic_levenshtein;

/// The greatest number of edits from a name to a similar one.
const EDITS_MOST: usize = 2;

/// Returns whether at most so many edits lead from one name to another.
fn are_near(alloc: Global, edits: usize, name: &[u8], other: &[u8]) -> Result<bool, AllocError>
    ensures { IfOk result (λ near. near ≡ are_near edits name.now other.now) }
{
    Ok(generic_levenshtein(alloc, name, other)? <= edits)
}

/// Returns the first of these options whose name is similar to this one.
fn first_flag(alloc: Global, name: &[u8], flags: &[Flag]) -> Result<Option<Flag>, AllocError>
    ensures { IfOk result (λ flag. flag ≡ find (is_flag_near name.now) flags.now) }
{
    let mut rest = flags;
    while let [flag, behind @ ..] = rest {
        if are_near(alloc, EDITS_MOST, name, flag.name().as_bytes())? {
            return Ok(Some(*flag));
        }
        rest = behind;
    }
    Ok(None)
}

/// Returns the option of a command that an argument may have been meant for: the first at two edits or fewer.
pub(crate) fn similar_flag(
    alloc: Global,
    word: Word,
    argument: &[u8],
) -> Result<Option<Flag>, AllocError>
    ensures { IfOk result (λ flag. flag ≡ similar_flag word argument.now) }
{
    if !is_option(argument) {
        return Ok(None);
    }
    first_flag(alloc, split_option(argument).0, word.flags())
}

/// Returns the first of these commands at most so many edits from a name.
fn first_word(
    alloc: Global,
    edits: usize,
    name: &[u8],
    words: &[Word],
) -> Result<Option<Word>, AllocError>
    ensures { IfOk result (λ word. word ≡ find (is_word_near edits name.now) words.now) }
{
    let mut rest = words;
    while let [word, behind @ ..] = rest {
        if are_near(alloc, edits, name, word.name().as_bytes())? {
            return Ok(Some(*word));
        }
        rest = behind;
    }
    Ok(None)
}

/// Returns the command that a name may have been meant for: the first at one edit from it, else the first at two.
pub(crate) fn similar_word(alloc: Global, name: &[u8]) -> Result<Option<Word>, AllocError>
    ensures { IfOk result (λ word. word ≡ similar_word name.now) }
{
    match first_word(alloc, 1, name, &ALL_WORDS)? {
        Some(word) => Ok(Some(word)),
        None => first_word(alloc, EDITS_MOST, name, &ALL_WORDS),
    }
}
