//! Decodes hexadecimal digits, sixteen at a time without a branch on a single digit.
ghost use Rattle.std.specs.Prelude.{◌≡◌, ◌≤◌, ◌<◌, ◌*◌, ◌%◌, length, IfSome, take};
ghost use Rattle.std.specs.List.{list_all};
ghost use Rattle.std.specs.Option.{option_map};
ghost use Rattle.hex.specs.Hex.{hex_digit_value, is_hex_digit};
ghost use Rattle.reports.specs.Reading.{LONGEST_FRAME};
ghost use Rattle.batch.specs.MessageLine.{hex_bytes};

use reports::LONGEST_FRAME;

/// Whether a byte is a hexadecimal digit, in either case. It has no `&&` or `||`, whose branches would keep the compiler from
/// testing several bytes at once.
fn is_digit(byte: u8) -> bool
    ensures { result ≡ is_hex_digit byte }
{
    let is_number = (b'0' <= byte) & (byte <= b'9');
    let is_upper = (b'A' <= byte) & (byte <= b'F');
    let is_lower = (b'a' <= byte) & (byte <= b'f');
    is_number | is_upper | is_lower
}

/// Whether all bytes are hexadecimal digits, found without a branch that depends on the bytes.
pub fn are_digits(bytes: &[u8]) -> bool
    ensures { result ≡ list_all is_hex_digit bytes.now }
{
    let mut all = true;
    for byte in bytes {
        all &= is_digit(*byte);
    }
    all
}

/// The value of a digit. It is unspecified if the byte is no digit.
fn digit_value(byte: u8) -> u8
    ensures value { IfSome (hex_digit_value byte) (λ value. result ≡ value) }
    ensures below { result < 16 }
{
    // The low four bits of a letter in either case count from 1 at `a`, and those of a decimal digit are its value.
    (byte % 16 + byte / 64 * 9) % 16
}

/// The bytes that sixteen digits spell, or `None` if one of them is no digit. No branch depends on a single digit, so they are
/// decoded side by side, in the lanes of a register.
fn spelled(digits: &[u8; 16]) -> Option<[u8; 8]>
    ensures bytes { option_map (λ bytes. bytes) result ≡ hex_bytes digits.now }
{
    if !are_digits(digits) {
        return None;
    }
    let mut bytes = [0; 8];
    for at in 0..8 {
        bytes[at] = digit_value(digits[2 * at]) * 16 + digit_value(digits[2 * at + 1]);
    }
    Some(bytes)
}

/// Decodes digits to the front of the row, and returns how many bytes they spell, or `None` if one of them is no digit. The
/// rest of the row is unspecified, and so is all of it after `None`.
pub fn decode_digits(digits: &[u8], row: &mut [u8; LONGEST_FRAME]) -> Option<usize>
    requires fits { length digits.now ≤ 2 * LONGEST_FRAME }
    requires even { length digits.now % 2 ≡ 0 }
    ensures bytes { option_map (λ n. take n row.new) result ≡ hex_bytes digits.now }
    ensures len { IfSome result (λ n. 2 * n ≡ length digits.now) }
{
    let mut rest = digits;
    let mut at = 0;
    while let Some((sixteen, behind)) = rest.split_first_chunk::<16>() {
        let bytes = spelled(sixteen)?;
        row[at..at + 8].copy_from_slice(&bytes);
        rest = behind;
        at += 8;
    }
    let len = at + rest.len() / 2;
    match hex::decode_to_slice(rest, &mut row[at..len]) {
        Ok(()) => Some(len),
        Err(_) => None,
    }
}
