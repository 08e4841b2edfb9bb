//! Single bits of words.

ghost use Rattle.std.specs.Prelude.{◌≡◌, ◌<◌};
ghost use Rattle.grid_moves.specs.Bits.{is_set};

/// Whether a bit is set.
#[inline(always)]
pub fn is_set(word: u64, place: u32) -> bool
    requires { place < 64 }
    ensures { result ≡ is_set word place }
{
    word >> place & 1 == 1
}
