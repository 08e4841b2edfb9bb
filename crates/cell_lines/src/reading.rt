//! Numbers and cells, read from words that one byte parts.

ghost use Rattle.std.specs.Prelude.{◌≡◌, ◌<◌, ◌≤◌, ◌^◌, MatchOption, IfSome, Some, None, false};
ghost use Rattle.std.specs.Char.{is_ascii_digit};
ghost use Rattle.cell_lines.specs.Parts as spec;
ghost use Rattle.cell_lines.specs.Parts.{parts, parts_behind};

use grid_moves::Cell;

/// The number of 1 to `most` digits that the first word of a text spells, which is cut at each such byte,
/// and what stands behind that word and its byte, if anything does. Each digit is read once.
#[inline(always)]
pub fn first_number(byte: u8, most: usize, text: &[u8]) -> Option<(u32, Option<&[u8]>)>
    requires most { most ≤ 9 }
    requires byte { is_ascii_digit byte ≡ false }
    ensures number { MatchOption result
        (spec.first_number most (parts byte text.now) ≡ None)
        (λ cut. spec.first_number most (parts byte text.now) ≡ Some (cut.0, parts_behind byte cut.1)) }
    ensures bound { IfSome result (λ cut. cut.0 < 10 ^ most) }
{
    let mut value = 0;
    for count in 0..text.len() {
        let next = text[count];
        if next == byte {
            return if count == 0 {
                None
            } else {
                Some((value, Some(&text[count + 1..])))
            };
        }
        if count == most || !next.is_ascii_digit() {
            return None;
        }
        value = value * 10 + u32::from(next - b'0');
    }
    let all = text.len();
    if all == 0 { None } else { Some((value, None)) }
}

/// The numbers that the first two words spell, and what stands behind them.
#[inline(always)]
pub fn first_two(byte: u8, most: usize, text: &[u8]) -> Option<((u32, u32), Option<&[u8]>)>
    requires most { most ≤ 9 }
    requires byte { is_ascii_digit byte ≡ false }
    ensures numbers { MatchOption result
        (spec.first_two most (parts byte text.now) ≡ None)
        (λ cut. spec.first_two most (parts byte text.now) ≡ Some (cut.0, parts_behind byte cut.1)) }
    ensures first { IfSome result (λ cut. cut.0.0 < 10 ^ most) }
    ensures second { IfSome result (λ cut. cut.0.1 < 10 ^ most) }
{
    let (m, rest) = first_number(byte, most, text)?;
    let (n, rest) = first_number(byte, most, rest?)?;
    Some(((m, n), rest))
}

/// The numbers that the two words of a text spell, if it has no other.
#[inline(always)]
pub fn two_numbers(byte: u8, most: usize, text: &[u8]) -> Option<(u32, u32)>
    requires most { most ≤ 9 }
    requires byte { is_ascii_digit byte ≡ false }
    ensures numbers { result ≡ spec.two_numbers most (parts byte text.now) }
    ensures first { IfSome result (λ two. two.0 < 10 ^ most) }
    ensures second { IfSome result (λ two. two.1 < 10 ^ most) }
{
    let (two, rest) = first_two(byte, most, text)?;
    match rest {
        Some(_) => None,
        None => Some(two),
    }
}

/// The cell that a word `X,Y` spells; some exactly for column and row of 1 to 4 digits.
#[inline(always)]
#[tactic(auto, unfolding(crate::specs::Parts::point_of))]
pub fn point(word: &[u8]) -> Option<Cell>
    ensures cell { result ≡ spec.point_of word.now }
    ensures column { IfSome result (λ c. c.x < 10 ^ 4) }
    ensures row { IfSome result (λ c. c.y < 10 ^ 4) }
{
    let (x, y) = two_numbers(b',', 4, word)?;
    Some(Cell {
        x: x as u16,
        y: y as u16,
    })
}
