//! Keeps the cells beside the lock. Each is set once, and anyone can read it.
ghost use Rattle.std.specs.Prelude.{◌≡◌, ◌↔◌, ◌+◌, ◌-◌, ◌<◌, ◌≤◌, [], length, slice_get, IfErr, IfOk, IfSome, IsTrue, Some};
ghost use Rattle.std.specs.Vec.{vec_capacity};
ghost use Rattle.line_ledger.specs.Cells.{IsTokenOf, TokenAt, FirstTokens, NextTokens, HaveAll, SeenAt, FirstSeen, NextSeen};
ghost use Rattle.tape_types.specs.Ranges.{TAPE_MOST};

use crate::{Sighting, Token};
use once_cell::race::OnceBox;
use seen_cells::Seen;
use std::alloc::{AllocError, Global};
use std::marker::Model;
use tape_core::Entry;

/// A row of cells, one for each number from 1 up to a tape's limit. A contract sees the names of the cells. An empty cell takes
/// 8 bytes; one that is set also takes the memory of its entry.
#[derive(Drop)]
pub struct CellRow {
    alloc: Global,
    many: u32,
    cells: Vec<OnceBox<Entry>>,
}

impl Model for CellRow {
    ghost use Rattle.std.specs.Prelude.{◌≡◌, List, ℕ, length, map};
    ghost use Rattle.once_cell.specs.Once.{cell_name};

    ghost Value = { List ℕ };

    ghost view = { λ r. map cell_name r.cells.items };

    ghost invariant = { λ r. length r.cells.items ≡ r.many };
}

impl CellRow {
    /// Makes `many` empty cells.
    pub(crate) fn new(alloc: Global, many: u32) -> Result<CellRow, AllocError>
        ensures { IfOk result (λ row. length row ≡ many) }
    {
        let mut cells = Vec::with_capacity(alloc, many as usize)?;
        for made in 0..many {
            let _ = made;
            cells.push_reserved(OnceBox::new(alloc));
        }
        Ok(CellRow { alloc, many, cells })
    }

    /// Returns the number of cells.
    pub(crate) fn many(&self) -> u32
        ensures { result ≡ length self.now }
    {
        self.many
    }

    /// Returns the allocator of the cells.
    pub(crate) fn alloc(&self) -> Global {
        self.alloc
    }

    /// Reads the cell of a number, and returns `None` if it is empty or there is no such cell. It takes no lock, never waits,
    /// and takes the same few steps at each number.
    pub fn look(&self, number: u32) -> Option<Token>
        ensures token { IfSome result (λ token. (token.number ≡ number) × IsTokenOf self.now token) }
    {
        let at = (number as usize).checked_sub(1)?;
        let cell = self.cells.get(at)?;
        let mut note = cell.note();
        let entry = *cell.get_as(&mut note)?;
        Some(Token {
            number,
            entry,
            seen: Seen::of(&mut note),
        })
    }

    /// Returns whether there is a cell of this number and it is empty. It does not allocate.
    pub(crate) fn is_vacant(&self, number: u32) -> bool
        ensures { IsTrue result → (1 ≤ number) × (number ≤ length self.now) }
    {
        number > 0 && number <= self.many && self.cells[number as usize - 1].get().is_none()
    }

    /// Sets the cell of a number, and returns what was seen in it, or `Ok(None)` if it was set before or there is no such cell.
    /// It does not allocate if the cell is seen to be set or does not exist. If memory runs out, the cell is unchanged.
    pub(crate) fn set(&self, number: u32, entry: &Entry) -> Result<Option<Seen<Entry>>, AllocError>
        ensures known { IfOk result (λ set. IfSome set (λ seen. seen.known ≡ Some entry.now)) }
        ensures cell { IfOk result (λ set. IfSome set (λ seen. (1 ≤ number) × (slice_get self.now (number - 1) ≡ Some seen.cell))) }
        ensures memory { IfErr result (λ _. number ≤ length self.now) }
    {
        if !self.is_vacant(number) {
            return Ok(None);
        }
        let cell = &self.cells[number as usize - 1];
        let held = Box::new(self.alloc, *entry)?;
        let mut note = cell.note();
        if cell.set_as(held, &mut note).is_err() {
            return Ok(None);
        }
        Ok(Some(Seen::of(&mut note)))
    }

    /// Returns the token of a cell that was seen to hold its entry, both at this position, from 0.
    fn token_of(&self, at: u32, entries: &[Entry], seen: Seen<Entry>) -> Token
        requires within { at < length entries.now }
        requires most { length entries.now ≤ TAPE_MOST }
        requires seen { SeenAt self.now entries.now at seen }
        ensures token { TokenAt self.now entries.now (at + 1) result }
    {
        let entry = entries[at as usize];
        Token {
            number: at + 1,
            entry,
            seen,
        }
    }

    /// Returns a token of each cell that was seen to hold its entry, in order. The first cell is the one after `set` cells. The
    /// tokens are put into `room`, which has room for them.
    pub(crate) fn tokens_of(
        &self,
        set: u32,
        entries: &[Entry],
        seen: Vec<Seen<Entry>>,
        room: Vec<Token>,
    ) -> Vec<Token>
        requires within { set + length seen.items ≤ length entries.now }
        requires most { length entries.now ≤ TAPE_MOST }
        requires seen { NextSeen self.now entries.now set seen.items }
        requires empty { room.items ≡ [] }
        requires roomy { length seen.items ≤ vec_capacity room }
        ensures many { length result.items ≡ length seen.items }
        ensures next { NextTokens self.now entries.now set result.items }
    {
        let mut tokens = room;
        let mut at = set;
        let mut left = seen.into_iter();
        while let Some(one) = left.next() {
            tokens.push_reserved(self.token_of(at, entries, one));
            at += 1;
        }
        tokens
    }

    /// Returns what shows that the cell at this position, from 0, holds the entry at this position, or `None` if it was not
    /// seen to.
    fn seen_at(&self, at: usize, entries: &[Entry]) -> Option<Seen<Entry>>
        ensures { IfSome result (SeenAt self.now entries.now at) }
    {
        let cell = self.cells.get(at)?;
        let entry = entries.get(at)?;
        let mut note = cell.note();
        if !cell.get_as(&mut note)?.is_same(entry) {
            return None;
        }
        Some(Seen::of(&mut note))
    }

    /// Reads the cells from the first on, as far as each holds the entry of its number. What was seen is put into `room`.
    pub(crate) fn first_seen(&self, entries: &[Entry], room: Vec<Seen<Entry>>) -> Vec<Seen<Entry>>
        requires empty { room.items ≡ [] }
        requires roomy { length entries.now ≤ vec_capacity room }
        ensures seen { FirstSeen self.now entries.now result.items }
        ensures within { length result.items ≤ length entries.now }
    {
        let mut seen = room;
        for at in 0..entries.len() {
            let Some(found) = self.seen_at(at, entries) else {
                break;
            };
            seen.push_reserved(found);
        }
        seen
    }

    /// Returns a token of the same cell with the same entry.
    pub(crate) fn again(&self, token: &Token) -> Token
        ensures { result ≡ token.now }
    {
        Token {
            number: token.number,
            entry: token.entry,
            seen: token.seen.again(),
        }
    }

    /// Returns the token of a cell that was seen to hold its entry, which is read there again. It takes no lock, never waits,
    /// and takes the same few steps at each number.
    pub(crate) fn show(&self, number: u32, sighting: &Sighting) -> Token
        requires cell { IsTokenOf self.now sighting.now }
        requires number { sighting.now.number ≡ number }
        ensures { result ≡ sighting.now }
    {
        let cell = &self.cells[number as usize - 1];
        let mut note = cell.note();
        sighting.seen.tell(&mut note);
        match cell.get_as(&mut note) {
            Some(entry) => Token {
                number,
                entry: *entry,
                seen: sighting.seen.again(),
            },
            None => unreachable!(),
        }
    }

    /// Returns whether the entries have at this number what was seen in the cell of the number, which is read there again.
    fn has_seen(&self, entries: &[Entry], number: u32, sighting: &Sighting) -> bool
        requires cell { IsTokenOf self.now sighting.now }
        requires number { sighting.now.number ≡ number }
        ensures { IsTrue result ↔ (slice_get entries.now (number - 1) ≡ Some sighting.now.entry) }
    {
        let token = self.show(number, sighting);
        match entries.get(number as usize - 1) {
            Some(entry) => entry.is_same(&token.entry),
            None => false,
        }
    }

    /// Returns whether the entries have what was seen in each of the first `many` cells.
    pub(crate) fn have_all_seen(
        &self,
        entries: &[Entry],
        sightings: &Vec<Sighting>,
        many: u32,
    ) -> bool
        requires cells { FirstTokens self.now sightings.now.items }
        requires many { length sightings.now.items ≡ many }
        ensures { IsTrue result ↔ HaveAll entries.now sightings.now.items }
    {
        for at in 0..many {
            if !self.has_seen(entries, at + 1, &sightings[at as usize]) {
                return false;
            }
        }
        true
    }

    /// Shows that two tokens of one cell have the same entry.
    pub(crate) fn compare(&self, one: &Token, other: &Token)
        requires one { IsTokenOf self.now one.now }
        requires other { IsTokenOf self.now other.now }
        requires number { one.now.number ≡ other.now.number }
        ensures { one.now.entry ≡ other.now.entry }
    {
        one.seen.agrees(&other.seen);
    }
}
