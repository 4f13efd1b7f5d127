//! The lines that packets come by, and a count of the fresh entries that each has brought.
ghost use Rattle.std.specs.Prelude.{◌≡◌, ◌+◌, ◌<◌, ◌^◌};
ghost use Rattle.arbitration.specs.Counts.{brought_by, brought_with};

/// The line that a packet came by.
#[derive(Clone, Copy, Debug, PartialEq, Eq)]
pub enum Line {
    /// The first of the two lines that carry the whole tape.
    A,
    /// The second of the two lines that carry the whole tape.
    B,
    /// Retransmission: the answers to requests for lost entries.
    R,
}

/// How many fresh entries each line has brought: those that were put into the window and were not there before.
#[derive(Clone, Copy, Debug, PartialEq, Eq)]
pub struct Brought {
    /// Entries that came by line A.
    pub a: u32,
    /// Entries that came by line B.
    pub b: u32,
    /// Entries that came by retransmission.
    pub r: u32,
}

impl Brought {
    /// How many fresh entries one line has brought.
    pub fn by(self, line: Line) -> u32
        ensures count { result ≡ brought_by self line }
    {
        match line {
            Line::A => self.a,
            Line::B => self.b,
            Line::R => self.r,
        }
    }

    /// Adds the fresh entries of one packet to the count of its line.
    pub(crate) fn add(&mut self, line: Line, fresh: u32)
        requires { self.old.a + self.old.b + self.old.r + fresh < 2 ^ 32 }
        ensures { self.new ≡ brought_with self.old line fresh }
    {
        match line {
            Line::A => self.a += fresh,
            Line::B => self.b += fresh,
            Line::R => self.r += fresh,
        }
    }
}
