//! Sale conditions, with `_` for a blank.
ghost use Rattle.std.specs.Prelude.{◌≡◌};
ghost use Rattle.csv_messages.specs.Texts.{code_of, condition_of};

use sale_matrix::Condition;

/// Returns a code as a condition has it, with a space for the blank that a table writes as `_`.
pub fn code_of(byte: u8) -> u8
    ensures { result ≡ code_of byte }
{
    if byte == b'_' { b' ' } else { byte }
}

/// Returns the sale condition of four codes, with `_` for each blank and no space.
#[tactic(auto, unfolding(crate::specs::Texts::condition_of, reports::specs::Texts::is_condition))]
pub fn condition_of(text: &[u8]) -> Option<Condition>
    ensures { result ≡ condition_of text.now }
{
    match text {
        [a, b, c, d] if !text.contains(&b' ') => {
            Condition::try_new([code_of(*a), code_of(*b), code_of(*c), code_of(*d)])
        }
        _ => None,
    }
}
