//! Which code of a sale condition is wrong.
ghost use Rattle.std.specs.Prelude.{◌≡◌, ◌<◌, Some};
ghost use Rattle.csv_messages.specs.FaultLines.{detail_text};
ghost use Rattle.csv_messages.specs.FaultTexts.{bad_code, is_code_at, no_code_text};

use crate::condition::code_of;
use crate::fault_text::ShownByte;
use crate::{Column, FaultText};
use sale_matrix::Condition;
use std::fmt;

/// Returns whether a byte is a code of this position, from 0: a plain trade's codes with this one replaced make a condition.
#[tactic(auto, unfolding(reports::specs::Texts::is_condition))]
fn is_code_at(place: usize, byte: u8) -> bool
    requires { place < 4 }
    ensures { result ≡ is_code_at place byte }
{
    let mut codes = *b"@   ";
    codes[place] = code_of(byte);
    byte != b' ' && Condition::try_new(codes).is_some()
}

/// Returns the first of four bytes that is no code of its position, with the position from 1.
#[tactic(auto, unfolding(crate::specs::FaultTexts::bad_code))]
fn bad_code(text: &[u8]) -> Option<(usize, u8)>
    ensures { result ≡ bad_code text.now }
{
    let [a, b, c, d] = text else {
        return None;
    };
    if !is_code_at(0, *a) {
        Some((1, *a))
    } else if !is_code_at(1, *b) {
        Some((2, *b))
    } else if !is_code_at(2, *c) {
        Some((3, *c))
    } else if !is_code_at(3, *d) {
        Some((4, *d))
    } else {
        None
    }
}

/// What a fault of a column's text says besides: for a condition, which code is wrong, and its position.
#[derive(Clone, Copy)]
pub struct Detail(pub Column, pub FaultText);

impl fmt::Display for Detail {
    ghost output = { λ d. Some (detail_text d.0 d.1) };

    fn fmt<W: fmt::Write>(&self, f: &mut fmt::Formatter<W>) -> fmt::Result {
        let Column::Condition = self.0 else {
            return Ok(());
        };
        let Some((position, byte)) = bad_code(self.1.bytes()) else {
            return Ok(());
        };
        let byte = ShownByte(byte);
        write!(f, ": \"{byte}\" is no code of position {position}")
    }
}
