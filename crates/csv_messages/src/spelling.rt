//! The laws of the spellings: each value is read from a text exactly if the text spells it and the value is in its range.
ghost use Rattle.csv_messages.specs.Spellings.{ConditionIsSpelled, KindIsSpelled, MomentIsSpelled, NumberIsSpelled, ParticipantIsSpelled, PriceIsSpelled, SymbolIsSpelled};

/// A number is spelled by any zeros and then its decimal digits, at most `DIGITS_MOST` in all.
pub fn number_is_spelled()
    ensures holds { NumberIsSpelled }
{}

/// A price is spelled by its dollars, and after a point by one to four decimals.
pub fn price_is_spelled()
    ensures holds { PriceIsSpelled }
{}

/// A moment is spelled as a number; 0 may also be spelled by an empty text.
pub fn moment_is_spelled()
    ensures holds { MomentIsSpelled }
{}

/// A kind is spelled by its word or by its letter.
pub fn kind_is_spelled()
    ensures holds { KindIsSpelled }
{}

/// A participant is spelled by its letter.
pub fn participant_is_spelled()
    ensures holds { ParticipantIsSpelled }
{}

/// A symbol is spelled by its name, without the spaces that pad it.
pub fn symbol_is_spelled()
    ensures holds { SymbolIsSpelled }
{}

/// A sale condition is spelled by its four codes, with `_` for a blank.
pub fn condition_is_spelled()
    ensures holds { ConditionIsSpelled }
{}
