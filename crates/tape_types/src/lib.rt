//! The small values of a trade tape, each kept in its range, the listing of a day and its reading from two texts, a sorted
//! map in one vector, and the gate between the steps of workers.
#![tactic(auto)]

mod four_bytes;
mod gate;
mod header;
mod header_fault;
mod limits;
mod listing;
mod listing_fault;
mod msg_number;
mod named;
mod participant;
mod pieces;
mod price;
mod rising_map;
mod size;
mod symbol;
mod tape_number;

pub use four_bytes::{FOUR_BYTE_NUMBERS, FourBytes};
pub use gate::{Gate, NoGate, can_start};
pub use header::read_names;
pub use header_fault::HeaderFault;
pub use limits::{PARTICIPANTS_MOST, PRICE_MOST, SIZE_MOST, SYMBOLS_MOST, TAPE_MOST};
pub use listing::Listing;
pub use listing_fault::ListingFault;
pub use msg_number::MsgNumber;
pub use named::Named;
pub use participant::Participant;
pub use pieces::Pieces;
pub use price::Price;
pub use rising_map::{NumberKey, RisingMap};
pub use size::Size;
pub use symbol::Symbol;
pub use tape_number::TapeNumber;
