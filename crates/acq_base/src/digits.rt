//! Numbers as texts write them. Nothing here takes memory.

ghost use Rattle.std.specs.Prelude.{◌≡◌};
ghost use Rattle.std.specs.Char.{is_ascii_digit};
ghost use Rattle.std.specs.List.{list_all};
ghost use Rattle.acq_base.specs.Digits.{number_of_digits};

use std::str;

/// As many digits as the greatest number below 2^64 has.
const MOST_DIGITS: usize = 20;

/// The number that 1 to 20 decimal digits write, leading zeros included. `None` for any other text, a sign or a blank
/// among them, and where the number isn't below 2^64.
pub fn read_digits(text: &[u8]) -> Option<u64>
    ensures value { result ≡ number_of_digits text.now }
{
    if text.len() > MOST_DIGITS || !is_digits(text) {
        return None;
    }
    match str::from_utf8(text) {
        Ok(digits) => digits.parse::<u64>().ok(),
        Err(_) => None,
    }
}

/// Whether every byte is a decimal digit. `parse` alone would also take a sign.
fn is_digits(text: &[u8]) -> bool
    ensures { result ≡ list_all is_ascii_digit text.now }
{
    text.iter().all(|c| c.is_ascii_digit())
}
