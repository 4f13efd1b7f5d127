//! Makes a tape and a subscriber from another language's values.
ghost use Rattle.std.specs.Prelude.{◌≡◌, Ok, IfOk, IfErr};
ghost use Rattle.batch.specs.Header.{header_listing};
ghost use Rattle.tapebox_c.specs.Opening.{IsFaultOf, is_limit, matrix_numbered, subscriber_opened, tape_opened};

use crate::fault::CallFault;
use batch::read_header;
use sale_matrix::Matrix;
use std::alloc::Global;
use subscriber::Subscriber;
use tape_core::{IndexedTape, Tape, TapeFault};
use tape_types::TAPE_MOST;

/// The matrix of a number.
pub(crate) fn matrix_numbered(number: u32) -> Option<Matrix>
    ensures { result ≡ matrix_numbered number }
{
    match number {
        1 => Some(Matrix::One),
        2 => Some(Matrix::Two),
        _ => None,
    }
}

/// Whether a tape can have this limit.
fn is_limit(limit: u32) -> bool
    ensures { result ≡ is_limit limit }
{
    1 <= limit && limit <= TAPE_MOST
}

/// Makes an empty open tape. What does not allocate is checked first, so that out of memory comes last.
pub(crate) fn open_tape(
    alloc: Global,
    symbols: &[u8],
    participants: &[u8],
    matrix: u32,
    limit: u32,
) -> Result<IndexedTape, CallFault>
    ensures ok { IfOk result (λ t. tape_opened (matrix_numbered matrix) limit (header_listing symbols.now participants.now) ≡ Ok t) }
    ensures err { IfErr result (λ f. IsFaultOf f (tape_opened (matrix_numbered matrix) limit (header_listing symbols.now participants.now))) }
{
    let Some(matrix) = matrix_numbered(matrix) else {
        return Err(CallFault::BadMatrix);
    };
    if !is_limit(limit) {
        return Err(CallFault::NotMade(TapeFault::BadLimit));
    }
    let listing = read_header(alloc, symbols, participants).map_err(CallFault::NoListing)?;
    Tape::new(alloc, listing, limit, matrix).map_err(CallFault::NotMade)
}

/// Makes a subscriber that holds nothing. Its errors are those of a tape.
pub(crate) fn open_subscriber(
    alloc: Global,
    symbols: &[u8],
    participants: &[u8],
    matrix: u32,
    limit: u32,
    session: u64,
) -> Result<Subscriber, CallFault>
    ensures ok { IfOk result (λ s. subscriber_opened (matrix_numbered matrix) limit session (header_listing symbols.now participants.now) ≡ Ok s) }
    ensures err { IfErr result (λ f. IsFaultOf f (subscriber_opened (matrix_numbered matrix) limit session (header_listing symbols.now participants.now))) }
{
    let Some(matrix) = matrix_numbered(matrix) else {
        return Err(CallFault::BadMatrix);
    };
    if !is_limit(limit) {
        return Err(CallFault::NotMade(TapeFault::BadLimit));
    }
    let listing = read_header(alloc, symbols, participants).map_err(CallFault::NoListing)?;
    Subscriber::new(alloc, listing, limit, session, matrix).map_err(CallFault::NotMade)
}
