//! Reads the header of a journal and checks its digest.
ghost use Rattle.std.specs.Prelude.{◌≡◌, ◌≤◌, [], IfOk, length};
ghost use Rattle.std.specs.Int.{w8};
ghost use Rattle.reports.specs.Fields.{Reads};
ghost use Rattle.day_journal.specs.Headers.{header_at, magic_at, matrix_at, matrix_of, participant_at, participants_at, symbol_at, symbols_at, terms_at, values_at, version_at};
ghost use Rattle.day_journal.specs.HeaderReads.{GivesHeader, GivesListing, GivesTerms, GivesValues};

use crate::JournalHeaderFault;
use crate::limits::{DIGEST_LENGTH, MAGIC, VERSION};
use days::Day;
use reports::Unread;
use sale_matrix::Matrix;
use sha2::{Digest, Sha256};
use std::alloc::Global;
use tape_types::{Listing, ListingFault, Participant, Symbol, TAPE_MOST, TapeNumber};

/// The day in a journal's header, its digest and its length.
#[derive(Drop)]
pub struct JournalHeader {
    /// The day.
    pub day: Day,
    /// The header's digest, to which the first group is chained.
    pub digest: [u8; DIGEST_LENGTH],
    /// How many bytes the header has.
    pub len: usize,
}

/// The fields of a header before its digest.
#[derive(Drop)]
struct Fields {
    session: u64,
    matrix: Matrix,
    limit: TapeNumber,
    symbols: Vec<Symbol>,
    participants: Vec<Participant>,
}

/// Returns the header at the front of a journal's bytes. The listing is allocated.
#[tactic(auto, unfolding(crate::specs::Headers::header_at))]
pub fn read_header(alloc: Global, bytes: &[u8]) -> Result<JournalHeader, JournalHeaderFault>
    ensures exact { GivesHeader result bytes.now (header_at bytes.now) }
    ensures within { IfOk result (λ h. h.len ≤ length bytes.now) }
{
    let mut unread = Unread::of(bytes);
    let fields = read_fields(alloc, &mut unread)?;
    let body = &bytes[..bytes.len().saturating_sub(unread.rest.len())];
    let digest: [u8; DIGEST_LENGTH] = unread.bytes(JournalHeaderFault::Short)?;
    if digest != Sha256::digest(body) {
        return Err(JournalHeaderFault::Damaged);
    }
    let listing = listed(
        alloc,
        fields.symbols.as_slice(),
        fields.participants.as_slice(),
    )?;
    let day = Day {
        listing,
        matrix: fields.matrix,
        limit: fields.limit,
        session: fields.session,
    };
    Ok(JournalHeader {
        day,
        digest,
        len: bytes.len().saturating_sub(unread.rest.len()),
    })
}

/// The fields before the digest.
#[tactic(auto, unfolding(crate::specs::Headers::terms_at, reports::specs::Fields::ranged_at))]
fn read_fields(alloc: Global, unread: &mut Unread<'_>) -> Result<Fields, JournalHeaderFault>
    ensures terms { GivesTerms result unread.new.rest.now (terms_at unread.old.rest.now) }
{
    read_magic(unread)?;
    read_version(unread)?;
    let session = unread.u64(JournalHeaderFault::Short)?;
    let matrix = read_matrix(unread)?;
    let limit = unread.tape_number(
        TAPE_MOST,
        JournalHeaderFault::Short,
        JournalHeaderFault::Damaged,
    )?;
    let symbols = read_symbols(alloc, unread)?;
    let participants = read_participants(alloc, unread)?;
    Ok(Fields {
        session,
        matrix,
        limit,
        symbols,
        participants,
    })
}

/// The first bytes, which every journal has.
#[tactic(auto, unfolding(crate::specs::Headers::magic_at))]
fn read_magic(unread: &mut Unread<'_>) -> Result<[u8; 8], JournalHeaderFault>
    ensures { Reads result unread.new.rest.now (magic_at unread.old.rest.now) }
{
    let magic: [u8; 8] = unread.bytes(JournalHeaderFault::NoJournal)?;
    if magic != MAGIC {
        return Err(JournalHeaderFault::NoJournal);
    }
    Ok(magic)
}

/// The version, which must be this one.
#[tactic(auto, unfolding(crate::specs::Headers::version_at))]
fn read_version(unread: &mut Unread<'_>) -> Result<u8, JournalHeaderFault>
    ensures { Reads result unread.new.rest.now (version_at unread.old.rest.now) }
{
    let version = unread.u8(JournalHeaderFault::Short)?;
    if version != VERSION {
        return Err(JournalHeaderFault::OtherVersion);
    }
    Ok(version)
}

/// The matrix.
#[tactic(auto, unfolding(crate::specs::Headers::matrix_at))]
fn read_matrix(unread: &mut Unread<'_>) -> Result<Matrix, JournalHeaderFault>
    ensures { Reads result unread.new.rest.now (matrix_at unread.old.rest.now) }
{
    let byte = unread.u8(JournalHeaderFault::Short)?;
    matrix_of(byte).ok_or(JournalHeaderFault::Damaged)
}

/// Returns the matrix of a byte.
fn matrix_of(byte: u8) -> Option<Matrix>
    ensures { result ≡ matrix_of byte }
{
    match byte {
        1 => Some(Matrix::One),
        2 => Some(Matrix::Two),
        _ => None,
    }
}

/// The symbols after their number.
#[tactic(auto, unfolding(crate::specs::Headers::symbols_at))]
fn read_symbols(alloc: Global, unread: &mut Unread<'_>) -> Result<Vec<Symbol>, JournalHeaderFault>
    ensures { GivesValues result unread.new.rest.now (symbols_at unread.old.rest.now) }
{
    let count = unread.u16(JournalHeaderFault::Short)?;
    read_symbol_list(alloc, unread, count)
}

/// As many symbols as the count.
fn read_symbol_list(
    alloc: Global,
    unread: &mut Unread<'_>,
    count: u16,
) -> Result<Vec<Symbol>, JournalHeaderFault>
    ensures { GivesValues result unread.new.rest.now (values_at symbol_at count [] unread.old.rest.now) }
{
    let mut symbols = Vec::new(alloc);
    for place in 0..count {
        let symbol = unread.symbol(JournalHeaderFault::Short, JournalHeaderFault::Damaged)?;
        let Ok(()) = symbols.push(symbol) else {
            return Err(JournalHeaderFault::OutOfMemory);
        };
    }
    Ok(symbols)
}

/// The participants after their number.
#[tactic(auto, unfolding(crate::specs::Headers::participants_at))]
fn read_participants(
    alloc: Global,
    unread: &mut Unread<'_>,
) -> Result<Vec<Participant>, JournalHeaderFault>
    ensures { GivesValues result unread.new.rest.now (participants_at unread.old.rest.now) }
{
    let count = unread.u8(JournalHeaderFault::Short)?;
    read_participant_list(alloc, unread, count)
}

/// As many participants as the count.
fn read_participant_list(
    alloc: Global,
    unread: &mut Unread<'_>,
    count: u8,
) -> Result<Vec<Participant>, JournalHeaderFault>
    ensures { GivesValues result unread.new.rest.now (values_at participant_at count [] unread.old.rest.now) }
{
    let mut participants = Vec::new(alloc);
    for place in 0..count {
        let participant = unread.participant(
            JournalHeaderFault::Short,
            JournalHeaderFault::Damaged,
        )?;
        let Ok(()) = participants.push(participant) else {
            return Err(JournalHeaderFault::OutOfMemory);
        };
    }
    Ok(participants)
}

/// The listing of the names.
fn listed(
    alloc: Global,
    symbols: &[Symbol],
    participants: &[Participant],
) -> Result<Listing, JournalHeaderFault>
    ensures listing { GivesListing result symbols.now participants.now }
{
    match Listing::new(alloc, symbols, participants) {
        Ok(listing) => Ok(listing),
        Err(ListingFault::OutOfMemory) => Err(JournalHeaderFault::OutOfMemory),
        Err(_) => Err(JournalHeaderFault::Damaged),
    }
}
