//! The tape over ordered indexes.

use crate::Tape;
use summaries::IndexStore;

/// A tape over ordered indexes: each message makes a bounded number of searches, however many reports its symbol has.
pub type IndexedTape = Tape<IndexStore>;
