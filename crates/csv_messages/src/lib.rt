//! Reads tables of trade messages, whole or row by row, and writes messages as a table.
#![tactic(auto)]

mod column;
mod column_fault;
mod columns;
mod condition;
mod fault_text;
mod kind;
mod line_reader;
mod named;
mod number;
mod price;
mod reading;
mod records;
mod row_fault;
mod row_reader;
mod spelling;
mod table_fault;
mod table_row;
mod table_text;
mod tape_column;
mod unknown_hint;
mod writing;
mod wrong_code;

pub use column::Column;
pub use column_fault::ColumnFault;
pub use columns::{Columns, first_place};
pub use fault_text::{FAULT_TEXT_MOST, FaultText};
pub use kind::Kind;
pub use line_reader::LineReader;
pub use reading::read_row;
pub use row_fault::RowFault;
pub use row_reader::{FIRST_ROW, RowReader, TablePiece, read_table};
pub use spelling::{
    condition_is_spelled, kind_is_spelled, moment_is_spelled, number_is_spelled,
    participant_is_spelled, price_is_spelled, symbol_is_spelled,
};
pub use table_fault::TableFault;
pub use table_row::TableRow;
pub use table_text::{put_message, table_round_trip, write_table};
pub use tape_column::TAPE_COLUMNS;
pub use writing::{push_content, push_price, push_row, row_round_trip, write_row};
