//! The kinds of a TOML value, each with its name.
ghost use Rattle.std.specs.Prelude.{◌≡◌, Some};
ghost use Rattle.toml.specs.View.{view};
ghost use Rattle.day_terms.specs.Kinds.{kind_of, kind_text};

use std::fmt;
use toml::Value;

/// The kind of a TOML value.
#[derive(Clone, Copy, Debug, PartialEq, Eq)]
pub enum ValueKind {
    /// Text between quotes.
    Text,
    /// A whole number.
    Number,
    /// A number with a point or an exponent.
    Fraction,
    /// `true` or `false`.
    Boolean,
    /// A date, a time or both.
    Date,
    /// A list.
    List,
    /// A table.
    Table,
}

impl ValueKind {
    /// Returns the kind of this value.
    pub(crate) fn of(value: &Value) -> ValueKind
        ensures { result ≡ kind_of (view value.now) }
    {
        match value {
            Value::String(_) => ValueKind::Text,
            Value::Integer(_) => ValueKind::Number,
            Value::Float(_) => ValueKind::Fraction,
            Value::Boolean(_) => ValueKind::Boolean,
            Value::Datetime(_) => ValueKind::Date,
            Value::Array(_) => ValueKind::List,
            Value::Table(_) => ValueKind::Table,
        }
    }

    /// Returns the name of the kind, with an article.
    fn name(self) -> &'static str
        ensures { result.now ≡ kind_text self }
    {
        match self {
            ValueKind::Text => "a string",
            ValueKind::Number => "a number",
            ValueKind::Fraction => "a fraction",
            ValueKind::Boolean => "a boolean",
            ValueKind::Date => "a date",
            ValueKind::List => "a list",
            ValueKind::Table => "a table",
        }
    }
}

impl fmt::Display for ValueKind {
    ghost output = { λ kind. Some (kind_text kind) };

    fn fmt<W: fmt::Write>(&self, f: &mut fmt::Formatter<W>) -> fmt::Result {
        f.write_str(self.name())
    }
}
