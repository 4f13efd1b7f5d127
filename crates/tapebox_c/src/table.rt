//! A table that was read, and the text that was last made of it.
ghost use Rattle.std.specs.Prelude.{◌≡◌};
ghost use Rattle.csv_days.specs.DayTexts.{text_named};
ghost use Rattle.tapebox_c.specs.Tables.{ComesTo, Tells, Writes, end_fault, run_of};

use crate::ends::end_text;
use crate::fault::CallFault;
use csv_days::{DayText, TableEnd, write_day_text};
use reports::Message;
use sale_matrix::Matrix;
use std::alloc::Global;

/// The status of an end for which memory ran out.
const OUT_OF_MEMORY: u8 = 5;

/// A table that was read.
#[derive(Drop)]
pub struct Table {
    /// Its messages.
    pub messages: Vec<Message>,
    /// The text that was last made of them, or why there is none, in words. Empty if none was made.
    pub text: Vec<u8>,
}

/// The fault of an end: out of memory, or another.
pub(crate) fn end_fault(end: &TableEnd) -> CallFault
    ensures { result ≡ end_fault end.now }
{
    if end.status() == OUT_OF_MEMORY {
        CallFault::OutOfMemory
    } else {
        CallFault::BadTable
    }
}

/// Returns a text of messages, or why they have none. A write into memory fails only if memory runs out.
fn text_of(
    alloc: Global,
    text: DayText,
    matrix: Matrix,
    messages: &[Message],
) -> Result<Vec<u8>, TableEnd>
    ensures { ComesTo (text_named text) matrix messages.now (run_of result) }
{
    let mut writer = Vec::new(alloc);
    match write_day_text(text, alloc, matrix, messages, &mut writer) {
        Ok(_) => Ok(writer),
        Err(TableEnd::WriteFault) => Err(TableEnd::OutOfMemory),
        Err(end) => Err(end),
    }
}

/// Returns the text of a run and 0, or why there is none, in words, and the number of that; no words if memory runs out for
/// them.
fn told(alloc: Global, run: Result<Vec<u8>, TableEnd>) -> (u32, Vec<u8>)
    ensures { Tells (run_of run) result.0 result.1.items }
{
    let end = match run {
        Ok(text) => return (0, text),
        Err(end) => end,
    };
    match end_text(alloc, &end) {
        Ok(words) => (end_fault(&end).code(), words),
        Err(_) => (CallFault::OutOfMemory.code(), Vec::new(alloc)),
    }
}

impl Table {
    /// Makes a text of the table, in place of the one before, and returns 0, or the number of the reason why there is none.
    pub(crate) fn write(&mut self, alloc: Global, text: DayText, matrix: Matrix) -> u32
        ensures { Writes (text_named text) matrix self.old result self.new }
    {
        // The former text is dropped first, so that two are never held.
        self.text = Vec::new(alloc);
        let run = text_of(alloc, text, matrix, &self.messages);
        let (code, told) = told(alloc, run);
        self.text = told;
        code
    }
}
