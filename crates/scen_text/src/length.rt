//! Lengths in decimals.

ghost use Rattle.std.specs.Prelude.{◌≡◌, IsTrue, position};
ghost use Rattle.std.specs.List.{list_all};
ghost use Rattle.std.specs.Char.{is_ascii_digit};
ghost use Rattle.text_line.specs.Numbers.{is_number as number_word};
ghost use Rattle.scen_text.specs.Lengths.{length_of, decimal_of, is_point};

use root2_cost::Decimal;
use text_line::{digits_after, is_number};

/// The most decimals that are kept.
const KEPT: usize = 10;

/// The length that the word spells; some exactly for 1 to 8 digits, with a point and 1 to 20 digits
/// behind them or without. Decimals after the tenth are dropped.
#[tactic(auto, unfolding(crate::specs::Lengths::length_of))]
pub(crate) fn length(word: &[u8]) -> Option<Decimal>
    ensures { result ≡ length_of word.now }
{
    let Some(point) = place_of_point(word) else {
        return if is_number(word, 8) {
            Some(decimal(word, &[]))
        } else {
            None
        };
    };
    let whole = &word[..point];
    let decimals = &word[point + 1..];
    if is_number(whole, 8) && is_number(decimals, 20) {
        Some(decimal(whole, decimals))
    } else {
        None
    }
}

/// Where the first point of a word stands, if it has one.
fn place_of_point(word: &[u8]) -> Option<usize>
    ensures { result ≡ position is_point word.now }
{
    word.iter().position(|byte| *byte == b'.')
}

/// The number with these digits before the point and these behind it, of which ten are kept.
fn decimal(whole: &[u8], decimals: &[u8]) -> Decimal
    requires whole { IsTrue (number_word 8 whole.now) }
    requires decimals { IsTrue (list_all is_ascii_digit decimals.now) }
    ensures { result ≡ decimal_of whole.now decimals.now }
{
    let kept = &decimals[..decimals.len().min(KEPT)];
    Decimal {
        digits: digits_after(digits_after(0, whole), kept),
        places: kept.len() as u8,
    }
}
