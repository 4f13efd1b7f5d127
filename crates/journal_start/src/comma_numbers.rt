//! Prints numbers in decimal, with a comma before each three digits behind others.

use std::fmt;

/// A number that prints with commas.
#[derive(Clone, Copy, Debug)]
pub(crate) struct WithCommas(pub(crate) u64);

impl fmt::Display for WithCommas {
    fn fmt<W: fmt::Write>(&self, f: &mut fmt::Formatter<W>) -> fmt::Result {
        let number = self.0;
        let (millions, thousands, ones) = (
            number / 1_000_000,
            number / 1_000 % 1_000,
            number % 1_000,
        );
        if millions >= 1_000 {
            let billions = millions / 1_000;
            let millions = millions % 1_000;
            write!(f, "{billions},{millions:03},{thousands:03},{ones:03}")
        } else if millions > 0 {
            write!(f, "{millions},{thousands:03},{ones:03}")
        } else if thousands > 0 {
            write!(f, "{thousands},{ones:03}")
        } else {
            write!(f, "{ones}")
        }
    }
}
