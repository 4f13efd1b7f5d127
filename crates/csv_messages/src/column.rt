//! The columns of a table: their names, and what a field of each has to be.
ghost use Rattle.std.specs.Prelude.{◌≡◌, Some};
ghost use Rattle.csv_messages.specs.ColumnNames.{column_named, column_name, column_rule};

use std::fmt;

/// A column of a table, in the order in which a row's fields are read.
#[derive(Clone, Copy, Debug, PartialEq, Eq)]
pub enum Column {
    /// What the message does.
    Kind,
    /// Who sent it.
    Participant,
    /// The number that the participant gave it.
    Number,
    /// When it was sent, as the participant says.
    Moment,
    /// The symbol that was traded.
    Symbol,
    /// The number of the report that a cancel, correction or reinstatement names.
    Target,
    /// The price, in dollars.
    Price,
    /// How many shares.
    Size,
    /// The sale condition.
    Condition,
}

impl Column {
    /// Returns the column of a name, or `None` if no column has it.
    #[tactic(auto, unfolding(crate::specs::ColumnNames::column_named))]
    pub fn of_name(name: &[u8]) -> Option<Column>
        ensures column { result ≡ column_named name.now }
    {
        if name == b"kind".as_slice() {
            Some(Column::Kind)
        } else if name == b"participant".as_slice() {
            Some(Column::Participant)
        } else if name == b"number".as_slice() {
            Some(Column::Number)
        } else if name == b"moment".as_slice() {
            Some(Column::Moment)
        } else if name == b"symbol".as_slice() {
            Some(Column::Symbol)
        } else if name == b"target".as_slice() {
            Some(Column::Target)
        } else if name == b"price".as_slice() {
            Some(Column::Price)
        } else if name == b"size".as_slice() {
            Some(Column::Size)
        } else if name == b"condition".as_slice() {
            Some(Column::Condition)
        } else {
            None
        }
    }

    /// The name of the column in a header row.
    pub fn name(self) -> &'static str
        ensures name { result.now ≡ column_name self }
    {
        match self {
            Column::Kind => "kind",
            Column::Participant => "participant",
            Column::Number => "number",
            Column::Moment => "moment",
            Column::Symbol => "symbol",
            Column::Target => "target",
            Column::Price => "price",
            Column::Size => "size",
            Column::Condition => "condition",
        }
    }

    /// What a field of the column has to be, in words.
    pub fn rule(self) -> &'static str
        ensures rule { result.now ≡ column_rule self }
    {
        match self {
            Column::Kind => "report, cancel, correct or reinstate, or R, X, C or S",
            Column::Participant => "A to Z",
            Column::Number => "1 to 4294967295 in at most 20 digits",
            Column::Moment => "0 to 18446744073709551615 in at most 20 digits",
            Column::Symbol => "1 to 8 of A to Z, 0 to 9 and .",
            Column::Target => "1 to 4294967295 in at most 20 digits",
            Column::Price => "0.0001 to 99999999.9999 with at most 20 digits and four decimals",
            Column::Size => "1 to 99999999 in at most 20 digits",
            Column::Condition => "the four codes of a sale condition, with _ for a blank",
        }
    }
}

impl fmt::Display for Column {
    ghost output = { λ c. Some (column_name c) };

    fn fmt<W: fmt::Write>(&self, f: &mut fmt::Formatter<W>) -> fmt::Result {
        f.write_str(self.name())
    }
}
