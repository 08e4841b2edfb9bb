//! Entries of a scenario.

ghost use Rattle.std.specs.Prelude.{◌≡◌, ◌≤◌, length};
ghost use Rattle.scen_text.specs.Names.{bytes_at};

use root2_cost::Decimal;

/// The bytes of a text from place `start`, counted from 0, up to but without place `end`.
#[derive(Clone, Copy, Debug, PartialEq, Eq)]
pub struct ByteRange {
    pub start: u32,
    pub end: u32,
}

impl ByteRange {
    /// The bytes of the text in this range. A name that was read from the text stands in it
    /// (`names::names_stand`).
    pub fn of(self, text: &[u8]) -> &[u8]
        requires order { self.start ≤ self.end }
        requires inside { self.end ≤ length text.now }
        ensures { result.now ≡ bytes_at text.now self }
    {
        &text[self.start as usize..self.end as usize]
    }
}

/// A query that a scenario lists, with its length.
#[derive(Clone, Copy, Debug, PartialEq, Eq)]
pub struct Entry {
    /// The number of its line, from 1.
    pub line: u32,
    /// The group of the benchmark that it belongs to.
    pub bucket: u32,
    /// Where the map's name stands in the text.
    pub name: ByteRange,
    /// The map's width in cells.
    pub w: u32,
    /// The map's height in cells.
    pub h: u32,
    /// The start's column, from 0.
    pub sx: u32,
    /// The start's row, from 0.
    pub sy: u32,
    /// The goal's column, from 0.
    pub gx: u32,
    /// The goal's row, from 0.
    pub gy: u32,
    /// The listed length of a shortest path.
    pub length: Decimal,
}
