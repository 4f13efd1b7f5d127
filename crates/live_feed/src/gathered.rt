//! A source of packets: what is published, and after it what was gathered to be published next.
ghost use Rattle.std.specs.Prelude.{◌≡◌, ◌++◌, OnErr, OnOk, slice_get};
ghost use Rattle.line_ledger.specs.Cells.{shown};
ghost use Rattle.tape_frames.specs.Sources.{BeginsWith, IsPublished};

use line_ledger::{DayName, Published};
use std::alloc::AllocError;
use std::marker::Model;
use tape_core::Entry;
use tape_frames::Source;

/// A source of what is published, and after it of what was gathered to be published next: a journal's group is cut from it.
#[derive(Drop)]
pub(crate) struct Gathered<'a, 'b, D: DayName> {
    published: &'a Published<'b, D>,
    next: &'a [Entry],
}

impl<'a, 'b, D: DayName> Model for Gathered<'a, 'b, D> {
    ghost use Rattle.std.specs.Prelude.{◌++◌, List};
    ghost use Rattle.tape_core.specs.declared.entry.Entry.{Entry};
    ghost use Rattle.tape_frames.specs.Sources.{IsPublished};
    ghost use Rattle.line_ledger.specs.Cells.{shown};

    ghost Value = { List Entry };

    ghost view = { λ g. shown g.published.now.tokens ++ g.next.now };

    ghost invariant = { λ g. IsPublished (shown g.published.now.tokens ++ g.next.now) };
}

impl<'a, 'b, D: DayName> Gathered<'a, 'b, D> {
    /// The source of what is published and of these entries, which follow it.
    pub(crate) fn new(published: &'a Published<'b, D>, next: &'a [Entry]) -> Gathered<'a, 'b, D>
        requires { IsPublished (shown published.now.tokens ++ next.now) }
        ensures { result ≡ shown published.now.tokens ++ next.now }
    {
        Gathered { published, next }
    }
}

/// The entry at this place, if there is one.
fn entry_at(entries: &[Entry], at: usize) -> Option<Entry>
    ensures { result ≡ slice_get entries.now at }
{
    entries.get(at).copied()
}

impl<D: DayName> Source for Gathered<'_, '_, D> {
    ghost list = { λ g. g };

    /// Changes nothing, and allocates nothing.
    fn refresh(&mut self) -> Result<(), AllocError>
        ensures ok { OnOk result (BeginsWith self.old self.new) }
        ensures err { OnErr result (self.new ≡ self.old) }
        ensures nothing { self.new ≡ self.old }
    {
        Ok(())
    }

    fn published(&self) -> u32 {
        match self.next.last() {
            None => self.published.published(),
            Some(last) => last.number.value(),
        }
    }

    fn entry(&self, number: u32) -> Option<Entry> {
        let before = self.published.published();
        if number <= before {
            return self.published.entry(number);
        }
        entry_at(self.next, (number - before) as usize - 1)
    }
}
