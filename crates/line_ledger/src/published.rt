//! Reads the published entries from the cells, as a source of packets that takes no lock.
ghost use Rattle.std.specs.Prelude.{◌≡◌, ◌≤◌, ◌↔◌, [], take, length, OnOk, OnErr, IsTrue};
ghost use Rattle.scratch_fold.specs.Places.{HasPlacesUpTo, IsPlacedUpTo};
ghost use Rattle.tape_frames.specs.PacketEntries.{Carries, HasNoLaterPlaces};
ghost use Rattle.tape_frames.specs.Sources.{BeginsWith, IsPublished};
ghost use Rattle.line_ledger.specs.Cells.{FirstTokens, shown};
ghost use Rattle.line_ledger.specs.Publishing.{GoesOn};

use crate::{DayName, SharedTape, Sighting};
use scratch_fold::{Mark, Summary};
use std::alloc::AllocError;
use std::marker::Model;
use tape_core::Entry;
use tape_frames::Source;
use tape_types::TapeNumber;

/// The entries that were found in a shared tape's cells, from the first on, as a source. It takes no lock, so it never waits
/// for the lines. It keeps what was seen, which takes no bytes, and the number of entries, and reads an entry in its cell
/// again.
#[derive(Drop)]
pub struct Published<'a, D: DayName> {
    shared: &'a SharedTape<D>,
    found: Vec<Sighting>,
    count: u32,
}

impl<'a, D: DayName> Model for Published<'a, D> {
    ghost use Rattle.std.specs.Prelude.{◌≡◌, length};
    ghost use Rattle.tape_frames.specs.Sources.{IsPublished};
    ghost use Rattle.line_ledger.specs.Cells.{FirstTokens, shown};
    ghost use Rattle.line_ledger.specs.Publishing.{PublishedState};

    ghost Value = { PublishedState };

    ghost view = { λ p. record { names = p.shared.now; tokens = p.found.items } };

    ghost invariant = { λ p. (length p.found.items ≡ p.count) × FirstTokens p.shared.now p.found.items × IsPublished (shown p.found.items) };
}

impl<'a, D: DayName> Published<'a, D> {
    /// Makes a source that has found no entry yet. It does not allocate.
    pub fn new(shared: &'a SharedTape<D>) -> Published<'a, D>
        ensures cells { result.names ≡ shared.now }
        ensures none { result.tokens ≡ [] }
    {
        Published {
            shared,
            found: Vec::new(shared.alloc()),
            count: 0,
        }
    }

    /// Returns what was seen of each entry, in order.
    pub fn into_sightings(self) -> Vec<Sighting>
        ensures tokens { result.items ≡ self.entry.tokens }
        ensures first { FirstTokens self.entry.names result.items }
        ensures published { IsPublished (shown result.items) }
    {
        let Published {
            shared: _,
            found,
            count: _,
        } = self;
        found
    }

    /// Looks at the next cell, and returns whether it had one more entry.
    #[tactic(auto, using(crate::proofs::Pushes::goes_on_none, crate::proofs::Pushes::goes_on_push))]
    fn look_on(&mut self) -> Result<bool, AllocError>
        ensures cells { self.new.names ≡ self.old.names }
        ensures ok { OnOk result (GoesOn self.old.tokens self.new.tokens) }
        ensures err { OnErr result (self.new ≡ self.old) }
    {
        if self.count == u32::MAX {
            return Ok(false);
        }
        let Some(token) = self.shared.look(self.count + 1) else {
            return Ok(false);
        };
        if !can_follow(&token.entry(), token.number()) {
            return Ok(false);
        }
        self.found.push(token.into_sighting())?;
        self.count += 1;
        Ok(true)
    }

    /// Keeps only the first `count` entries.
    fn keep_first(&mut self, count: u32)
        requires { count ≤ length self.old.tokens }
        ensures { self.new ≡ record self.old { tokens = take count self.old.tokens } }
    {
        self.found.truncate(count as usize);
        self.count = count;
    }
}

/// Returns whether a source may have the entry under this number: it has that number, carries what its kind does, and names no
/// place after its own. No proof of this comes with what a cell holds, so it is checked.
fn can_follow(entry: &Entry, number: u32) -> bool
    ensures { IsTrue result ↔ ((entry.now.number ≡ number) × Carries entry.now × HasNoLaterPlaces entry.now) }
{
    entry.number.value() == number && carries(entry) && has_no_later_places(entry)
}

/// Returns whether the entry carries a summary exactly if its kind does.
fn carries(entry: &Entry) -> bool
    ensures { IsTrue result ↔ Carries entry.now }
{
    entry.message.target().is_some() == entry.after.is_some()
}

/// Returns whether no mark of what the entry carries has a place above the entry's number.
fn has_no_later_places(entry: &Entry) -> bool
    ensures { IsTrue result ↔ HasNoLaterPlaces entry.now }
{
    match &entry.after {
        None => true,
        Some(summary) => has_places_up_to(summary, entry.number),
    }
}

/// Returns whether no mark of the summary has a place above this one.
fn has_places_up_to(summary: &Summary, most: TapeNumber) -> bool
    ensures { IsTrue result ↔ HasPlacesUpTo most summary.now }
{
    is_placed_up_to(&summary.opening, most)
        && is_placed_up_to(&summary.high, most)
        && is_placed_up_to(&summary.low, most)
        && is_placed_up_to(&summary.last, most)
}

/// Returns whether a mark, if there is one, has no place above this one.
fn is_placed_up_to(figure: &Option<Mark>, most: TapeNumber) -> bool
    ensures { IsTrue result ↔ IsPlacedUpTo most figure.now }
{
    match figure {
        None => true,
        Some(mark) => mark.place.value() <= most.value(),
    }
}

impl<D: DayName> Source for Published<'_, D> {
    ghost list = { λ p. shown p.tokens };

    /// Looks on from its own count, up to the first cell without an entry that can follow. If memory runs out, the source is
    /// unchanged.
    #[tactic(auto, using(crate::proofs::Pushes::shown_goes_on))]
    fn refresh(&mut self) -> Result<(), AllocError>
        ensures cells { self.new.names ≡ self.old.names }
        ensures tokens { OnOk result (GoesOn self.old.tokens self.new.tokens) }
        ensures ok { OnOk result (BeginsWith (shown self.old.tokens) (shown self.new.tokens)) }
        ensures err { OnErr result (shown self.new.tokens ≡ shown self.old.tokens) }
        ensures unchanged { OnErr result (self.new ≡ self.old) }
    {
        let before = self.count;
        for _ in before..self.shared.cells() {
            match self.look_on() {
                Ok(true) => {}
                Ok(false) => break,
                Err(refused) => {
                    self.keep_first(before);
                    return Err(refused);
                }
            }
        }
        Ok(())
    }

    fn published(&self) -> u32 {
        self.count
    }

    fn entry(&self, number: u32) -> Option<Entry> {
        if number == 0 || self.count < number {
            return None;
        }
        let seen = &self.found[number as usize - 1];
        Some(self.shared.show(number, seen).entry())
    }
}
