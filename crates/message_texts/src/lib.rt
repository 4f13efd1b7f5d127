//! A table of trade messages to and from the text of a batch, and to the bytes of one participant's messages.
#![tactic(auto)]

mod decode;
mod encode;
mod form;
mod header;
mod header_text;
mod laws;
mod line;
mod line_fault;
mod text_end;
mod text_lines;
mod writing;

pub use decode::decode_over;
pub use encode::encode_over;
pub use laws::encoded_reads_back;
pub use line::line_over;
pub use line_fault::LineFault;
pub use text_end::TextEnd;
