//! Which way a sweep heads, and what follows from it.

ghost use Rattle.std.specs.Prelude.{◌≡◌, ℕ, ◌<◌, true};
ghost use Rattle.grid_moves.specs.Move.{row_ahead};
ghost use Rattle.plus_tables.specs.Rows as spec;
ghost use Rattle.plus_tables.specs.Rows.{IsRowAt};
ghost use Rattle.plus_tables.specs.Sweep as sweeps;

use grid_moves::{Dir, before};

/// Where the row lies that was swept last: above the one that is swept now, or below it.
#[derive(Clone, Copy)]
pub enum Heading {
    Upwards,
    Downwards,
}

/// What a direction is on the map. A sweep that heads down sees the map upside down.
#[inline(always)]
pub fn dir_seen(heading: Heading, d: Dir) -> Dir
    ensures { result ≡ spec.dir_seen heading d }
{
    match heading {
        Heading::Upwards => d,
        Heading::Downwards => flipped(d),
    }
}

// A direction on a map that is turned upside down.
#[inline(always)]
fn flipped(d: Dir) -> Dir
    ensures { result ≡ spec.flipped d }
{
    match d {
        Dir::N => Dir::S,
        Dir::NE => Dir::SE,
        Dir::SE => Dir::NE,
        Dir::S => Dir::N,
        Dir::SW => Dir::NW,
        Dir::NW => Dir::SW,
        Dir::E | Dir::W => d,
    }
}

/// The row that is swept after so many.
pub fn nth_row(heading: Heading, height: u16, n: u16) -> u16
    requires { n < height }
    ensures { result ≡ sweeps.nth_row heading height n }
{
    match heading {
        Heading::Upwards => n,
        Heading::Downwards => height - (n + 1),
    }
}

/// The row behind this one, which is swept next, if it lies on the map.
pub fn behind(heading: Heading, y: u16) -> u16
    requires { y < 4096 }
    ensures lies { IsRowAt (row_ahead (spec.dir_seen heading Dir.S) y) result }
    ensures next { (n : ℕ) → sweeps.IsNext heading y n → result ≡ n }
{
    match heading {
        Heading::Upwards => y + 1,
        Heading::Downwards => before(y),
    }
}

/// Whether the row ahead of this one, which was swept last, lies on the map.
pub fn has_ahead(heading: Heading, y: u16, height: u16) -> bool
    requires { y < height }
    ensures { result ≡ true → (m : ℕ) → IsRowAt (row_ahead (spec.dir_seen heading Dir.N) y) m → m < height }
{
    match heading {
        Heading::Upwards => 0 < y,
        Heading::Downwards => y + 1 < height,
    }
}
