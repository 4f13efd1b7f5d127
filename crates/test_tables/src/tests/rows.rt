//! Worked rows and texts, layer by layer.

mod books;
mod front;
mod limits;
pub(super) mod report;
mod stores;
mod tables;
