//! Reads a table of trade messages and writes its report, its readable tape, what became of its reports, or all its faults.
#![tactic(auto)]

mod account;
mod check;
mod day;
mod day_names;
mod day_reading;
mod day_text;
mod end_day;
mod entry_rows;
mod explain;
mod explained;
mod fault_counts;
mod fault_kind;
mod messages_report;
mod refusals;
mod report;
mod stale_row;
mod strict;
mod table_check;
mod table_end;
mod tape;
mod tape_row;
mod told_fault;

pub use check::check_over;
pub use day_names::listing_of;
pub use day_text::{DayText, write_day_text};
pub use entry_rows::{EntryRows, rows_of_entries, write_head};
pub use explain::{
    explain_over, rows_add_up, rows_of_figures, rows_of_reports, write_explained,
    write_explained_head,
};
pub use refusals::{Refusals, RefusedRows};
pub use report::report_over;
pub use stale_row::StaleRow;
pub use strict::{explain_strict_over, report_strict_over, tape_strict_over};
pub use table_end::TableEnd;
pub use tape::{tape_over, write_tape};
pub use tape_row::refusal_text;
