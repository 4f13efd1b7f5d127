//! A symbol's book: its standing reports by place, with the consolidated summary and each participant's own, in stores that
//! keep them up to date.
#![tactic(auto)]

mod book;
mod participant_stores;
mod trade;

pub use book::Book;
pub use trade::Trade;
