//! Shares a day's tape behind one lock. It keeps a seat for each participant's line, a ledger of what the lines were told, and
//! cells beside the lock that show the published entries to anyone.
#![tactic(auto)]

mod cell_row;
mod cursor;
mod day;
mod end_fault;
mod ends;
pub mod laws;
mod line_refusal;
mod locked;
mod not_on_tape;
mod open_fault;
mod prepared;
mod publish_fault;
mod published;
mod shared;
mod sighting;
mod token;
mod told;
mod view_fault;

pub use cell_row::CellRow;
pub use day::{Day, DayName};
pub use end_fault::{Disagreement, EndFault, Unended};
pub use line_refusal::LineRefusal;
pub use locked::{LineSeat, Locked, Receipt, View};
pub use not_on_tape::NotOnTape;
pub use open_fault::OpenFault;
pub use prepared::{Prepared, prepare};
pub use publish_fault::PublishFault;
pub use published::Published;
pub use shared::SharedTape;
pub use sighting::Sighting;
pub use token::Token;
pub use told::Told;
pub use view_fault::ViewFault;
