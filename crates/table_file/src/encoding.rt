//! The bytes of single numbers, and of the head.

ghost use Rattle.std.specs.Prelude.{◌≡◌};
ghost use Rattle.table_file.specs.Encoding as spec;

use grid_moves::Corner;

/// The length of the head, in bytes.
pub(crate) const HEAD_SIZE: usize = 13;

// How many of the two cells beside a diagonal move may be blocked: 0, 1 or 2.
fn corner_byte(corner: Corner) -> u8
    ensures { result ≡ spec.corner_byte corner }
{
    match corner {
        Corner::Never => 0,
        Corner::One => 1,
        Corner::Both => 2,
    }
}

// A side in two bytes.
fn two_bytes(side: u16) -> [u8; 2]
    ensures { result ≡ spec.two_bytes side }
{
    side.to_le_bytes()
}

/// The two bytes of an entry.
#[inline(always)]
pub(crate) fn entry_bytes(entry: i16) -> [u8; 2]
    ensures { result ≡ spec.entry_bytes entry }
{
    entry.to_le_bytes()
}

/// The first bytes of a file: its name, the corner rule and the sides.
pub fn head_bytes(corner: Corner, width: u16, height: u16) -> [u8; 13]
    ensures { result ≡ spec.head_bytes corner width height }
{
    let rule = corner_byte(corner);
    let [w, wide] = two_bytes(width);
    let [h, high] = two_bytes(height);
    [
        b'J', b'P', b'S', b'P', b'L', b'U', b'S', b'1', rule, w, wide, h, high,
    ]
}
