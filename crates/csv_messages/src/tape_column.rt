//! The columns of the readable tape: those of its messages, and those that it has besides.
ghost use Rattle.std.specs.Prelude.{◌≡◌};
ghost use Rattle.csv_messages.specs.TapeColumns.{is_tape_column};

/// The names of the readable tape's columns in their order: those of the tape's answer, those of a table of messages, and those
/// of the figures of the message's symbol.
pub const TAPE_COLUMNS: [&[u8]; 17] = [
    b"tape",
    b"refused",
    b"kind",
    b"participant",
    b"number",
    b"moment",
    b"symbol",
    b"target",
    b"price",
    b"size",
    b"condition",
    b"open",
    b"high",
    b"low",
    b"last",
    b"volume",
    b"trades",
];

/// Returns whether only a readable tape has a column of this name. It is skipped if the tape is read as a table.
#[tactic(auto, unfolding(crate::specs::TapeColumns::is_tape_column))]
pub fn is_tape_column(name: &[u8]) -> bool
    ensures column { result ≡ is_tape_column name.now }
{
    name == b"tape".as_slice()
        || name == b"refused".as_slice()
        || name == b"open".as_slice()
        || name == b"high".as_slice()
        || name == b"low".as_slice()
        || name == b"last".as_slice()
        || name == b"volume".as_slice()
        || name == b"trades".as_slice()
}
