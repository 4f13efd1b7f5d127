//! Makes the two header lines of a batch.
ghost use Rattle.std.specs.Prelude.{◌≡◌, ◌++◌, ◌∷◌, [], IfOk, OnOk, map, if◌then◌else◌};
ghost use Rattle.tape_types.specs.Ranges.{name_of};
ghost use Rattle.message_texts.specs.EncodedTexts.{header_text, names_line};

use std::alloc::{AllocError, Global};
use tape_types::{Listing, Participant, Symbol};

/// Adds a name, after a space if it is not the first of its line.
fn push_name(text: &mut Vec<u8>, first: bool, name: &[u8]) -> Result<(), AllocError>
    ensures { OnOk result (text.new.items ≡ text.old.items ++ (if first then name.now else 32 ∷ name.now)) }
{
    if !first {
        text.push(b' ')?;
    }
    text.extend_from_slice(name)
}

/// Adds a line of symbols.
fn push_symbols(text: &mut Vec<u8>, symbols: &[Symbol]) -> Result<(), AllocError>
    ensures { OnOk result (text.new.items ≡ text.old.items ++ names_line (map name_of symbols.now)) }
{
    let mut first = true;
    for symbol in symbols {
        push_name(text, first, symbol.name())?;
        first = false;
    }
    text.push(b'\n')?;
    Ok(())
}

/// Adds a line of participants.
fn push_participants(text: &mut Vec<u8>, participants: &[Participant]) -> Result<(), AllocError>
    ensures { OnOk result (text.new.items ≡ text.old.items ++ names_line (map (λ p. p ∷ []) participants.now)) }
{
    let mut first = true;
    for participant in participants {
        push_name(text, first, &[participant.value()])?;
        first = false;
    }
    text.push(b'\n')?;
    Ok(())
}

/// The two lines of a listing: the symbols, and the participants.
#[tactic(auto, unfolding(crate::specs::EncodedTexts::header_text))]
pub fn header_text(alloc: Global, listing: &Listing) -> Result<Vec<u8>, AllocError>
    ensures { IfOk result (λ text. text.items ≡ header_text listing.now) }
{
    let mut text = Vec::new(alloc);
    push_symbols(&mut text, listing.symbols().as_slice())?;
    push_participants(&mut text, listing.participants().as_slice())?;
    Ok(text)
}
