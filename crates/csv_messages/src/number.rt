//! Numbers in decimal digits.
ghost use Rattle.std.specs.Prelude.{◌≡◌, ◌≤◌, ◌<◌, ◌^◌, true, length, IfSome};
ghost use Rattle.std.specs.Char.{is_ascii_digit};
ghost use Rattle.std.specs.List.{list_all};
ghost use Rattle.std.specs.Str.Parse.{digits_value};
ghost use Rattle.csv_messages.specs.Numbers.{DIGITS_MOST, are_digits, is_numeral, number_of, number_within};

/// The most digits that a number has, including leading zeros.
pub const DIGITS_MOST: usize = 20;

/// Returns whether all bytes are decimal digits.
fn are_digits(text: &[u8]) -> bool
    ensures { result ≡ are_digits text.now }
{
    text.iter().all(|byte| byte.is_ascii_digit())
}

/// Returns whether a text is one to `most` decimal digits.
#[tactic(auto, unfolding(crate::specs::Numbers::is_numeral))]
pub fn is_numeral(most: usize, text: &[u8]) -> bool
    ensures value { result ≡ is_numeral most text.now }
    ensures digits { result ≡ true → are_digits text.now ≡ true }
    ensures some { result ≡ true → 1 ≤ length text.now }
    ensures few { result ≡ true → length text.now ≤ most }
{
    !text.is_empty() && text.len() <= most && are_digits(text)
}

/// Returns the number that decimal digits write.
pub fn digits_value(digits: &[u8]) -> u128
    requires digits { are_digits digits.now ≡ true }
    requires few { length digits.now ≤ DIGITS_MOST }
    ensures value { result ≡ digits_value 10 digits.now }
    ensures fits { result < 10 ^ length digits.now }
    ensures small { result < 10 ^ DIGITS_MOST }
{
    let mut value = 0;
    for digit in digits {
        value = value * 10 + u128::from(*digit - b'0');
    }
    value
}

/// Returns the number that a text of at most `DIGITS_MOST` decimal digits writes.
#[tactic(auto, unfolding(crate::specs::Numbers::number_of))]
pub fn number_of(text: &[u8]) -> Option<u128>
    ensures value { result ≡ number_of text.now }
    ensures fits { IfSome result (λ number. number < 10 ^ DIGITS_MOST) }
{
    if is_numeral(DIGITS_MOST, text) {
        Some(digits_value(text))
    } else {
        None
    }
}

/// Returns the number that a text writes, if it is from `least` to `most`.
#[tactic(auto, unfolding(crate::specs::Numbers::number_within))]
pub fn number_within(least: u64, most: u64, text: &[u8]) -> Option<u64>
    ensures { result ≡ number_within least most text.now }
{
    let number = number_of(text)?;
    if number >= u128::from(least) && number <= u128::from(most) {
        Some(number as u64)
    } else {
        None
    }
}
