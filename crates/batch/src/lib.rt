//! Reads a batch of message lines, and writes their answers and the report of the resulting tape.
#![tactic(auto)]

mod answer_buffer;
mod batch;
mod batch_end;
mod batch_refusal;
mod day;
mod digits;
mod header;
mod input;
mod line_reading;
mod lines;
mod message_line;
mod read_end;
mod reading;

pub use batch::{batch_kept, batch_over, last_batch};
pub use batch_end::BatchEnd;
pub use batch_refusal::BatchRefusal;
pub use day::{BatchDay, LineAnswer};
pub use header::read_header;
pub use line_reading::take_line;
pub use message_line::read_message;
pub use reading::ReadInput;
