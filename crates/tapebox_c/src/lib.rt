//! A static library for other languages: a tape, a subscriber, a table's texts and the messages' bytes.
#![tactic(auto)]

mod asked;
mod coder;
mod ends;
mod fault;
mod handle;
mod held;
mod inside;
mod listed;
mod loose;
mod many;
mod matrices;
mod opening;
mod packets;
mod readings;
mod rows;
mod sending;
mod subscribers;
mod table;
mod tables;
mod tapes;

pub use asked::{tapebox_answer_packet, tapebox_read_answer, tapebox_read_request};
pub use coder::{tapebox_decode, tapebox_encode};
pub use fault::CallFault;
pub use handle::Handle;
pub use held::Held;
pub use inside::Inside;
pub use listed::{tapebox_participant, tapebox_symbol, tapebox_totals};
pub use many::tapebox_admit_many;
pub use matrices::tapebox_cells;
pub use packets::{tapebox_packet_entry, tapebox_read_packet};
pub use rows::{
    AnswerRow, CellsRow, EntryRow, FieldsRow, ManyRow, MarkRow, MessageRow, NameRow, NewsRow,
    PacketFieldsRow, PacketRow, ReplyRow, RequestFieldsRow, RequestRow, SummaryRow, TakenRow,
    TotalsRow,
};
pub use sending::{tapebox_beat, tapebox_cut, tapebox_end, tapebox_serve};
pub use subscribers::{
    tapebox_deliver, tapebox_drain, tapebox_missing, tapebox_news_of, tapebox_subscribe,
};
pub use table::Table;
pub use tables::{
    tapebox_explain, tapebox_read_table, tapebox_report, tapebox_tape, tapebox_text_copy,
    tapebox_text_length,
};
pub use tapes::{
    tapebox_admit, tapebox_close, tapebox_count, tapebox_entry, tapebox_free, tapebox_open,
    tapebox_summary, tapebox_summary_of,
};
