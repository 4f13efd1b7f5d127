//! Collects the names of messages in the order in which they first appear, as far as a listing takes them, and makes the listing.
ghost use Rattle.std.specs.Prelude.{◌≡◌, ◌∷◌, ◌++◌, [], ℕ, List, IfErr, IfOk, OnOk};
ghost use Rattle.indexmap.specs.IndexSet.{insert_key};
ghost use Rattle.reports.specs.declared.message.Message.{Message as Sent};
ghost use Rattle.csv_days.specs.Checks.{names_wrong};
ghost use Rattle.csv_days.specs.Days.{IsListingFault, MakeListing, names_of};
ghost use Rattle.csv_days.specs.EndDays.{AreAllOrTooMany, AreNames};
ghost use Rattle.tape_types.specs.Names.{symbol_eq};

use indexmap::IndexSet;
use reports::Message;
use std::alloc::{AllocError, Global};
use tape_types::{Listing, ListingFault, Participant, SYMBOLS_MOST, Symbol};

/// The names in messages, each once, in the order in which they first appear. No symbol is kept after the first that is too many
/// for a listing.
#[derive(Drop)]
pub struct DayNames {
    symbols: IndexSet<Symbol>,
    participants: IndexSet<Participant>,
}

/// Adds a symbol, unless there are too many already.
fn add_symbol(symbols: &mut IndexSet<Symbol>, symbol: Symbol) -> Result<(), AllocError>
    ensures { OnOk result ((all : List (List ℕ)) → AreAllOrTooMany symbols.old.keys all
        → AreAllOrTooMany symbols.new.keys (insert_key symbol_eq all symbol)) }
{
    if symbols.len() > SYMBOLS_MOST {
        return Ok(());
    }
    symbols.insert(symbol)?;
    Ok(())
}

impl DayNames {
    /// Creates a collection of no name. It does not allocate.
    pub fn new(alloc: Global) -> DayNames
        ensures { AreNames [] result }
    {
        DayNames {
            symbols: IndexSet::new(alloc),
            participants: IndexSet::new(alloc),
        }
    }

    /// Collects the names of messages.
    fn of_messages(alloc: Global, messages: &[Message]) -> Result<DayNames, AllocError>
        ensures { IfOk result (AreNames messages.now) }
    {
        let mut names = DayNames::new(alloc);
        for message in messages {
            names.add(message)?;
        }
        Ok(names)
    }

    /// Adds the names of a message.
    pub fn add(&mut self, message: &Message) -> Result<(), AllocError>
        ensures { OnOk result ((messages : List Sent) → AreNames messages self.old → AreNames (messages ++ message.now ∷ []) self.new) }
    {
        let header = message.header();
        add_symbol(&mut self.symbols, header.symbol)?;
        self.participants.insert(header.participant)?;
        Ok(())
    }

    /// Returns the listing of the names.
    pub fn listing(&self, alloc: Global) -> Result<Listing, ListingFault>
        ensures names { IfOk result (λ listing. (messages : List Sent) → AreNames messages self.now → listing ≡ names_of messages) }
        ensures ok { OnOk result ((messages : List Sent) → AreNames messages self.now → MakeListing messages) }
        ensures fault { IfErr result (λ fault. (messages : List Sent) → AreNames messages self.now → IsListingFault messages fault) }
    {
        Listing::new(alloc, self.symbols.as_slice(), self.participants.as_slice())
    }

    /// Returns what is wrong with the names, if anything, or `None` if there are no names.
    pub fn wrong(&self, alloc: Global) -> Result<Option<ListingFault>, AllocError>
        ensures { IfOk result (λ wrong. (messages : List Sent) → AreNames messages self.now → wrong ≡ names_wrong messages) }
    {
        if self.symbols.is_empty() {
            return Ok(None);
        }
        match Listing::new(alloc, self.symbols.as_slice(), self.participants.as_slice()) {
            Ok(_) => Ok(None),
            Err(ListingFault::OutOfMemory) => Err(AllocError),
            Err(fault) => Ok(Some(fault)),
        }
    }
}

/// Returns the listing of the names in messages, in the order in which they first appear.
pub fn listing_of(alloc: Global, messages: &[Message]) -> Result<Listing, ListingFault>
    ensures names { IfOk result (λ listing. listing ≡ names_of messages.now) }
    ensures fault { IfErr result (IsListingFault messages.now) }
{
    let Ok(names) = DayNames::of_messages(alloc, messages) else {
        return Err(ListingFault::OutOfMemory);
    };
    names.listing(alloc)
}
