//! The texts of help: for the program and for each command.

use crate::word::{ALL_WORDS, Word};
use std::fmt;

/// The text before the commands.
const HEAD: &str = "\
tapebox WORD .. reads a FILE or standard input and writes to standard output.\n\
tapebox WORD --help is about one word, and tapebox --version tells the version.\n\n";

/// What help prints of the program: its form of use, and each command. It ends with a line feed.
#[derive(Clone, Copy, Debug)]
pub struct Help;

/// What help prints of a command: a line with its form of use, and one with what it does.
#[derive(Clone, Copy, Debug)]
pub struct WordHelp(pub Word);

/// How a command is used, for the line behind the one that names a wrong argument.
#[derive(Clone, Copy, Debug)]
pub struct Usage(pub Word);

impl fmt::Display for Help {
    fn fmt<W: fmt::Write>(&self, f: &mut fmt::Formatter<W>) -> fmt::Result {
        f.write_str(HEAD)?;
        for word in ALL_WORDS {
            let help = WordHelp(word);
            write!(f, "{help}")?;
        }
        Ok(())
    }
}

impl fmt::Display for WordHelp {
    fn fmt<W: fmt::Write>(&self, f: &mut fmt::Formatter<W>) -> fmt::Result {
        let row = self.0.row();
        write!(f, "tapebox {}\n{}\n", row.form, row.sentence)
    }
}

impl fmt::Display for Usage {
    fn fmt<W: fmt::Write>(&self, f: &mut fmt::Formatter<W>) -> fmt::Result {
        write!(f, "usage: tapebox {}", self.0.row().form)
    }
}
