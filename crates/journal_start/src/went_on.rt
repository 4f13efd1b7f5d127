//! What an operator reads of a journal that is continued.

use crate::PastLine;
use crate::comma_numbers::WithCommas;
use std::fmt;

/// The bytes of an incomplete group that were cut off a journal. It prints without a line feed.
#[derive(Clone, Copy, Debug, PartialEq, Eq)]
pub struct CutOff {
    /// How many bytes were cut off.
    pub bytes: usize,
}

/// Where a day is continued. It prints without a line feed, and names only the participants that have an entry.
#[derive(Clone, Copy, Debug)]
pub struct WentOn<'a> {
    /// How many entries its journal has.
    pub held: u32,
    /// How far the participants' lines had come, in listing order.
    pub lines: &'a [PastLine],
}

impl fmt::Display for CutOff {
    fn fmt<W: fmt::Write>(&self, f: &mut fmt::Formatter<W>) -> fmt::Result {
        let bytes = WithCommas(self.bytes as u64);
        write!(f, "cut off {bytes} bytes of a group that was not whole")
    }
}

/// Prints a participant's last number. The first participant says what the number is.
fn print_line<W: fmt::Write>(
    f: &mut fmt::Formatter<W>,
    is_first: bool,
    line: &PastLine,
) -> fmt::Result {
    let (who, last) = (
        char::from(line.who.value()),
        WithCommas(u64::from(line.last)),
    );
    if is_first {
        write!(f, "{who}: last number {last}")
    } else {
        write!(f, "; {who}: {last}")
    }
}

impl fmt::Display for WentOn<'_> {
    fn fmt<W: fmt::Write>(&self, f: &mut fmt::Formatter<W>) -> fmt::Result {
        let held = WithCommas(u64::from(self.held));
        write!(f, "went on at {held} (")?;
        let mut is_first = true;
        for line in self.lines {
            if line.admitted > 0 {
                print_line(f, is_first, line)?;
                is_first = false;
            }
        }
        f.write_str(")")
    }
}
