//! Publishes under the lock: sets the next cells to the tape's next entries and counts them.
ghost use Rattle.std.specs.Prelude.{◌≡◌, ◌+◌, ◌<◌, ◌≤◌, [], min, length, IfOk, IfErr, Err};
ghost use Rattle.std.specs.Vec.{vec_capacity};
ghost use Rattle.line_ledger.specs.declared.publish_fault.PublishFault.TheVariants.{Unpublished, OutOfMemory as NoMemory};
ghost use Rattle.line_ledger.specs.Cells.{SeenAt};
ghost use Rattle.line_ledger.specs.Publishing.{Publishes, Sets, Stops, unset};

use super::Locked;
use crate::{CellRow, DayName, PublishFault, Token};
use seen_cells::Seen;
use tape_core::Entry;

impl<D: DayName> Locked<D> {
    /// Publishes the tape's next entries, at most `most`: sets the next cells to them, and returns a token of each, in order.
    /// If nothing is left to publish, it returns an empty vector and does not allocate. The row must be the one that `start`
    /// returned.
    ///
    /// Errors: 81 Unpublished if the cell of the next number was set before or does not exist, which is checked for the first
    /// number before it allocates, and 82 OutOfMemory if memory runs out. The cells that were set before the error stay set and
    /// are counted.
    #[tactic(auto, using(crate::proofs::Publications::next_kept, crate::proofs::Publications::within_kept, crate::proofs::Publications::publishes))]
    pub fn publish(&mut self, row: &CellRow, most: u32) -> Result<Vec<Token>, PublishFault>
        ensures ok { IfOk result (λ tokens. Publishes self.old row.now most tokens.items self.new) }
        ensures err { IfErr result (λ _. Stops self.old row.now most self.new) }
        ensures unpublished { (n : _) → result ≡ Err (Unpublished n) → n ≡ self.new.set + 1 }
        ensures memory { result ≡ Err NoMemory → self.new.set < length row.now }
    {
        let (_, room) = self.room_for::<Token>(row, most)?;
        let before = self.set;
        let seen = self.set_next(row, most)?;
        Ok(row.tokens_of(before, self.tape.entries(), seen, room))
    }

    /// Sets the next cells as `publish` does, with its errors, and returns what was seen in each, which takes no bytes: it
    /// allocates only the memory of the cells.
    pub(crate) fn set_next(
        &mut self,
        row: &CellRow,
        most: u32,
    ) -> Result<Vec<Seen<Entry>>, PublishFault>
        ensures ok { IfOk result (λ seen. Sets self.old row.now most seen.items self.new) }
        ensures err { IfErr result (λ _. Stops self.old row.now most self.new) }
        ensures unpublished { (n : _) → result ≡ Err (Unpublished n) → n ≡ self.new.set + 1 }
        ensures memory { result ≡ Err NoMemory → self.new.set < length row.now }
    {
        let (many, mut seen) = self.room_for::<Seen<Entry>>(row, most)?;
        for done in 0..many {
            let _ = done;
            seen.push_reserved(self.set_one(row)?);
        }
        Ok(seen)
    }

    /// Returns how many entries a publication of at most `most` has to set, and a vector with room for something of each. It
    /// checks the cell of the first before it allocates.
    fn room_for<T>(&self, row: &CellRow, most: u32) -> Result<(u32, Vec<T>), PublishFault>
        ensures many { IfOk result (λ r. r.0 ≡ min most (unset self.now)) }
        ensures empty { IfOk result (λ r. r.1.items ≡ []) }
        ensures roomy { IfOk result (λ r. r.0 ≤ vec_capacity r.1) }
        ensures err { IfErr result (λ _. Stops self.now row.now most self.now) }
        ensures unpublished { (n : _) → result ≡ Err (Unpublished n) → n ≡ self.now.set + 1 }
        ensures memory { result ≡ Err NoMemory → self.now.set < length row.now }
    {
        let waiting = self.tape.entries().len() as u32 - self.set;
        let many = waiting.min(most);
        if many == 0 {
            return Ok((0, Vec::new(self.alloc)));
        }
        let next = self.set + 1;
        if !row.is_vacant(next) {
            return Err(PublishFault::Unpublished(next));
        }
        let room = Vec::with_capacity(self.alloc, many as usize);
        Ok((many, room.map_err(|_| PublishFault::OutOfMemory)?))
    }

    /// Sets the next cell to the tape's next entry, and counts it.
    fn set_one(&mut self, row: &CellRow) -> Result<Seen<Entry>, PublishFault>
        requires { self.old.set < length self.old.tape.entries }
        ensures seen { IfOk result (SeenAt row.now self.old.tape.entries self.old.set) }
        ensures counted { IfOk result (λ _. self.new ≡ record self.old { set = self.old.set + 1 }) }
        ensures err { IfErr result (λ _. self.new ≡ self.old) }
        ensures unpublished { (n : _) → result ≡ Err (Unpublished n) → n ≡ self.old.set + 1 }
        ensures memory { result ≡ Err NoMemory → self.old.set < length row.now }
    {
        let entry = &self.tape.entries()[self.set as usize];
        let number = self.set + 1;
        match row.set(number, entry) {
            Ok(Some(seen)) => {
                self.set = number;
                Ok(seen)
            }
            Ok(None) => Err(PublishFault::Unpublished(number)),
            Err(_) => Err(PublishFault::OutOfMemory),
        }
    }
}
