//! Puts together the texts of answers: lines, and then an empty one.
ghost use Rattle.std.specs.Prelude.{◌≡◌, ◌∷◌, [], OnOk};
ghost use Rattle.day_control.specs.Answers.{UNKNOWN_LINE, ending_line};
ghost use Rattle.day_control.specs.Lines.{answer_text, full_lines};

use crate::line::LINE_FEED;
use std::alloc::AllocError;

/// The answer to a line that is no command.
pub(crate) fn unknown() -> &'static [u8]
    ensures { result.now ≡ answer_text (UNKNOWN_LINE ∷ []) }
{
    b"unknown command; status or end\n\n"
}

/// The answer to an end, which was the first or not.
pub(crate) fn ending(is_first: bool) -> &'static [u8]
    ensures { result.now ≡ answer_text (ending_line is_first ∷ []) }
{
    if is_first {
        b"ending\n\n"
    } else {
        b"ending without waiting for followers\n\n"
    }
}

/// Replaces `text` with the answer of these lines. An empty line would end the answer, so empty lines are left out.
pub(crate) fn put_answer(told: &[u8], text: &mut Vec<u8>) -> Result<(), AllocError>
    ensures { OnOk result (text.new.items ≡ answer_text (full_lines told.now)) }
{
    text.clear();
    let mut is_begun = false;
    for byte in told {
        if is_begun || *byte != LINE_FEED {
            text.push(*byte)?;
        }
        is_begun = *byte != LINE_FEED;
    }
    if is_begun {
        text.push(LINE_FEED)?;
    }
    text.push(LINE_FEED)?;
    Ok(())
}
