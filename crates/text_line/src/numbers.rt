//! Numbers of a text.

ghost use Rattle.std.specs.Prelude.{◌≡◌, ◌<◌, ◌^◌, IsTrue};
ghost use Rattle.std.specs.List.{list_all};
ghost use Rattle.std.specs.Char.{is_ascii_digit};
ghost use Rattle.std.specs.Str.Parse.{digits_value_after};
ghost use Rattle.text_line.specs.Numbers.{is_number as number_word, number_of};

/// The number that the word spells; some exactly for 1 to 9 decimal digits, leading zeros included.
#[tactic(auto, unfolding(crate::specs::Numbers::number_of))]
pub fn number(word: &[u8]) -> Option<u32>
    ensures { result ≡ number_of word.now }
{
    if is_number(word, 9) {
        Some(digits_after(0, word) as u32)
    } else {
        None
    }
}

/// Whether the word has 1 to `most` decimal digits and nothing else.
pub fn is_number(word: &[u8], most: usize) -> bool
    ensures { result ≡ number_word most word.now }
{
    1 <= word.len() && word.len() <= most && are_digits(word)
}

/// Whether each byte is a decimal digit.
pub(crate) fn are_digits(word: &[u8]) -> bool
    ensures { result ≡ list_all is_ascii_digit word.now }
{
    word.iter().all(|byte| byte.is_ascii_digit())
}

/// The number that the digits spell when they follow those of another number.
pub fn digits_after(number: u64, digits: &[u8]) -> u64
    requires digits { IsTrue (list_all is_ascii_digit digits.now) }
    requires fits { digits_value_after 10 number digits.now < 2 ^ 64 }
    ensures { result ≡ digits_value_after 10 number digits.now }
{
    let mut value = number;
    for digit in digits {
        value = value * 10 + (*digit - b'0') as u64;
    }
    value
}
