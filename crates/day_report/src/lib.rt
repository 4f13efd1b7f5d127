//! Makes the day's report: the rows of a tape, by one worker or many, and their text.
#![tactic(auto)]

mod ends;
mod pieces;
mod report_fault;
mod row;
mod text;

pub use ends::end_rows;
pub use pieces::{WORKERS_MOST, rows};
pub use report_fault::ReportFault;
pub use row::Row;
pub use text::write_report;
