//! Prices in dollars.
ghost use Rattle.std.specs.Prelude.{◌≡◌, ◌<◌, ◌*◌, ◌^◌, length, IfSome};
ghost use Rattle.csv_messages.specs.Numbers.{DIGITS_MOST, DOLLAR, amount_of, decimals_of, dollars_and_decimals, point_of, price_of, whole_dollars};

use crate::number::{digits_value, is_numeral, number_of};
use tape_types::{PRICE_MOST, Price};

/// How many ten-thousandths a dollar has.
pub const DOLLAR: u64 = 10_000;

/// Returns the ten-thousandths of a dollar that one to four digits after a point write.
#[tactic(auto, unfolding(crate::specs::Numbers::decimals_of))]
fn decimals_of(text: &[u8]) -> Option<u128>
    ensures value { result ≡ decimals_of text.now }
    ensures part { IfSome result (λ decimals. decimals < DOLLAR) }
{
    if !is_numeral(4, text) {
        return None;
    }
    let decimals = digits_value(text);
    match text.len() {
        1 => Some(decimals * 1000),
        2 => Some(decimals * 100),
        3 => Some(decimals * 10),
        _ => Some(decimals),
    }
}

/// Returns the ten-thousandths of whole dollars.
fn whole_dollars(text: &[u8]) -> Option<u128>
    ensures value { result ≡ whole_dollars text.now }
    ensures fits { IfSome result (λ dollars. dollars < 10 ^ DIGITS_MOST * DOLLAR) }
{
    match number_of(text) {
        Some(dollars) => Some(dollars * u128::from(DOLLAR)),
        None => None,
    }
}

/// Returns the ten-thousandths of dollars and of decimals after a point.
#[tactic(auto, unfolding(crate::specs::Numbers::dollars_and_decimals))]
fn dollars_and_decimals(dollars: &[u8], decimals: &[u8]) -> Option<u128>
    ensures { result ≡ dollars_and_decimals dollars.now decimals.now }
{
    let whole = whole_dollars(dollars)?;
    let part = decimals_of(decimals)?;
    Some(whole + part)
}

/// Returns the place of the first point of a text.
fn point_of(text: &[u8]) -> Option<usize>
    ensures place { result ≡ point_of text.now }
    ensures within { IfSome result (λ point. point < length text.now) }
{
    text.iter().position(|byte| *byte == b'.')
}

/// Returns the ten-thousandths of a dollar that a text writes: dollars, and after a point one to four decimals.
fn amount_of(text: &[u8]) -> Option<u128>
    ensures { result ≡ amount_of text.now }
{
    match point_of(text) {
        None => whole_dollars(text),
        Some(point) => dollars_and_decimals(&text[..point], &text[point + 1..]),
    }
}

/// Returns the price that a text writes, if it is in range.
#[tactic(auto, unfolding(crate::specs::Numbers::price_of))]
pub fn price_of(text: &[u8]) -> Option<Price>
    ensures { result ≡ price_of text.now }
{
    let amount = amount_of(text)?;
    if amount > u128::from(PRICE_MOST) {
        return None;
    }
    Price::try_new(amount as u64)
}
