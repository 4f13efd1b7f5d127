//! Numbers in decimal, alone or with a noun, added to a text in memory.
ghost use Rattle.std.specs.Prelude.{◌≡◌, ◌++◌, OnOk, decimal};
ghost use Rattle.whole_io.specs.CountedTexts.{counted};

use itoa::Buffer;
use std::alloc::AllocError;

/// Adds a number of up to 128 bits, such as a sum of counts, in decimal to a text. `AllocError` if memory runs out.
pub fn push_wide_number(text: &mut Vec<u8>, number: u128) -> Result<(), AllocError>
    ensures { OnOk result (text.new.items ≡ text.old.items ++ decimal number) }
{
    let mut digits = Buffer::new();
    text.extend_from_slice(digits.format(number).as_bytes())
}

/// Adds a number in decimal to a text. `AllocError` if memory runs out.
pub fn push_number(text: &mut Vec<u8>, number: u64) -> Result<(), AllocError>
    ensures { OnOk result (text.new.items ≡ text.old.items ++ decimal number) }
{
    push_wide_number(text, u128::from(number))
}

/// Adds a count in decimal and then its noun, which is `one` for 1 and else `more`, each with the space in front of it.
/// `AllocError` if memory runs out.
#[tactic(auto, unfolding(crate::specs::CountedTexts::counted))]
pub fn push_counted(
    text: &mut Vec<u8>,
    count: u128,
    one: &[u8],
    more: &[u8],
) -> Result<(), AllocError>
    ensures { OnOk result (text.new.items ≡ text.old.items ++ counted count one.now more.now) }
{
    push_wide_number(text, count)?;
    text.extend_from_slice(if count == 1 { one } else { more })
}
