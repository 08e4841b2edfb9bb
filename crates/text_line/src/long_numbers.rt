//! Long numbers of a text, such as seeds.

ghost use Rattle.std.specs.Prelude.{◌≡◌, ◌+◌, ◌*◌, ◌-◌, ◌<◌, ◌^◌, IsTrue, SomeIff};
ghost use Rattle.std.specs.List.{list_all};
ghost use Rattle.std.specs.Char.{is_ascii_digit};
ghost use Rattle.text_line.specs.LongNumbers.{long_number_of, value_below};

use crate::numbers::are_digits;

/// The number that the word spells; some exactly for 1 to 20 decimal digits with a value below 2^64,
/// leading zeros included.
#[tactic(auto, unfolding(crate::specs::LongNumbers::long_number_of))]
pub fn long_number(word: &[u8]) -> Option<u64>
    ensures { result ≡ long_number_of word.now }
{
    if word.is_empty() || word.len() > 20 || !are_digits(word) {
        return None;
    }
    long_value(word)
}

/// The number that the digits spell, if it is below 2^64.
fn long_value(digits: &[u8]) -> Option<u64>
    requires { IsTrue (list_all is_ascii_digit digits.now) }
    ensures { result ≡ value_below digits.now }
{
    let mut value = 0;
    for digit in digits {
        value = with_digit(value, *digit - b'0')?;
    }
    Some(value)
}

/// The number with one more digit at its end, if it is below 2^64.
fn with_digit(value: u64, digit: u8) -> Option<u64>
    ensures { SomeIff result (value * 10 + digit < 2 ^ 64) (value * 10 + digit) }
{
    value.checked_mul(10)?.checked_add(digit as u64)
}
