//! Writes the header of a journal: the day and its digest.
ghost use Rattle.std.specs.Prelude.{◌≡◌, ◌≤◌, ◌++◌, IfOk, OnOk, length};
ghost use Rattle.tape_types.specs.Ranges.{PARTICIPANTS_MOST, SYMBOLS_MOST};
ghost use Rattle.day_journal.specs.Headers.{day_text, header_digest, header_text, matrix_byte, participants_text, symbols_text};

use crate::limits::{DIGEST_LENGTH, MAGIC, VERSION};
use days::Day;
use sale_matrix::Matrix;
use sha2::{Digest, Sha256};
use std::alloc::AllocError;
use tape_types::{Participant, Symbol};

/// Replaces `text` with the header of a journal of this day, and returns its digest, to which the first group is chained. If
/// memory runs out, `text` may hold a part of it.
pub fn put_header(day: &Day, text: &mut Vec<u8>) -> Result<[u8; DIGEST_LENGTH], AllocError>
    ensures text { OnOk result (text.new.items ≡ header_text day.now) }
    ensures digest { IfOk result (λ digest. digest ≡ header_digest day.now) }
{
    text.clear();
    put_day(day, text)?;
    put_symbols(day.listing.symbols().as_slice(), text)?;
    put_participants(day.listing.participants().as_slice(), text)?;
    let digest = Sha256::digest(text.as_slice());
    text.extend_from_slice(&digest)?;
    Ok(digest)
}

/// Appends the fields before the listing.
fn put_day(day: &Day, text: &mut Vec<u8>) -> Result<(), AllocError>
    ensures { OnOk result (text.new.items ≡ text.old.items ++ day_text day.now.session day.now.matrix day.now.limit) }
{
    text.extend_from_slice(&MAGIC)?;
    text.extend_from_slice(&VERSION.to_be_bytes())?;
    text.extend_from_slice(&day.session.to_be_bytes())?;
    text.extend_from_slice(&matrix_byte(day.matrix).to_be_bytes())?;
    text.extend_from_slice(&day.limit.value().to_be_bytes())?;
    Ok(())
}

/// A matrix as a byte.
fn matrix_byte(matrix: Matrix) -> u8
    ensures { result ≡ matrix_byte matrix }
{
    match matrix {
        Matrix::One => 1,
        Matrix::Two => 2,
    }
}

/// Appends the symbols after their number.
fn put_symbols(symbols: &[Symbol], text: &mut Vec<u8>) -> Result<(), AllocError>
    requires { length symbols.now ≤ SYMBOLS_MOST }
    ensures { OnOk result (text.new.items ≡ text.old.items ++ symbols_text symbols.now) }
{
    text.extend_from_slice(&(symbols.len() as u16).to_be_bytes())?;
    for symbol in symbols {
        text.extend_from_slice(&symbol.value())?;
    }
    Ok(())
}

/// Appends the participants after their number.
fn put_participants(participants: &[Participant], text: &mut Vec<u8>) -> Result<(), AllocError>
    requires { length participants.now ≤ PARTICIPANTS_MOST }
    ensures { OnOk result (text.new.items ≡ text.old.items ++ participants_text participants.now) }
{
    text.extend_from_slice(&(participants.len() as u8).to_be_bytes())?;
    for participant in participants {
        text.extend_from_slice(&participant.value().to_be_bytes())?;
    }
    Ok(())
}
