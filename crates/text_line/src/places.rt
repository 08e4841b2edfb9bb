//! Lines and fields with the places in the text at which they begin.

ghost use Rattle.std.specs.Prelude.{◌≡◌, ◌+◌, ◌≤◌, ◌^◌, length, map};
ghost use Rattle.text_line.specs.Lines.{lines_of};
ghost use Rattle.text_line.specs.Fields.{fields_of};
ghost use Rattle.text_line.specs.Places.{fields_from, lines_at};

use crate::fields::first_field;
use crate::lines::{Line, Pieces, without_cr};
use std::marker::Model;

/// A line of a text and where it begins.
#[derive(Clone, Copy, Debug)]
pub struct PlacedLine<'a> {
    /// Its number, from 1.
    pub number: u32,
    /// The place of its first byte in the text, from 0.
    pub place: u32,
    /// Its bytes, without the line feed and the carriage return before it.
    pub bytes: &'a [u8],
}

/// The lines of a text in order, each with its number and its place.
#[derive(Drop)]
pub struct LinesAt<'a> {
    pieces: Pieces<'a>,
    place: u32,
}

impl<'a> Model for LinesAt<'a> {
    ghost use Rattle.std.specs.Prelude.{List, ◌+◌, ◌^◌, ◌≤◌};
    ghost use Rattle.text_line.specs.Places.{LineAt, lines_from, room_of};

    ghost Value = { List LineAt };

    ghost view = { λ l. lines_from l.pieces.number l.place l.pieces.lines };

    ghost invariant = { λ l. l.place + room_of l.pieces.lines ≤ 2 ^ 30 + 1 };
}

impl<'a> LinesAt<'a> {
    /// The lines of the text, from number 1 and place 0 on.
    pub fn of(text: &'a [u8]) -> LinesAt<'a>
        requires { length text.now ≤ 2 ^ 30 }
        ensures lines { result ≡ lines_at text.now }
        ensures bytes { map (λ line. line.bytes) result ≡ lines_of text.now }
    {
        LinesAt {
            pieces: Pieces::of(text),
            place: 0,
        }
    }
}

impl<'a> Iterator for LinesAt<'a> {
    ghost use Rattle.std.specs.Iterator.{item_count};
    ghost use Rattle.text_line.specs.Places.{GivesLine};

    type Item = PlacedLine<'a>;

    ghost next_gives = { GivesLine };

    ghost remaining = { item_count (λ lines. lines) };

    fn next(&mut self) -> Option<PlacedLine<'a>> {
        let Line { number, bytes } = self.pieces.next()?;
        let place = self.place;
        self.place += bytes.len() as u32 + 1;
        Some(PlacedLine {
            number,
            place,
            bytes: without_cr(bytes),
        })
    }
}

/// A field of a line and where it stands in the text.
#[derive(Clone, Copy, Debug)]
pub struct PlacedField<'a> {
    /// The place of its first byte in the text, from 0.
    pub start: u32,
    /// The place behind its last byte.
    pub end: u32,
    /// Its bytes.
    pub bytes: &'a [u8],
}

/// The fields of a line in order, each with its places.
#[derive(Drop)]
pub struct FieldsAt<'a> {
    line: &'a [u8],
    place: u32,
}

impl<'a> Model for FieldsAt<'a> {
    ghost use Rattle.std.specs.Prelude.{List, ◌+◌, ◌^◌, ◌≤◌, length};
    ghost use Rattle.text_line.specs.Places.{Placed, fields_from};

    ghost Value = { List Placed };

    ghost view = { λ f. fields_from f.place f.line.now };

    ghost invariant = { λ f. f.place + length f.line.now ≤ 2 ^ 31 };
}

impl<'a> FieldsAt<'a> {
    /// The fields of the line.
    pub fn of(line: PlacedLine<'a>) -> FieldsAt<'a>
        requires { line.place + length line.bytes.now ≤ 2 ^ 31 }
        ensures fields { result ≡ fields_from line.entry.place line.entry.bytes.now }
        ensures bytes { map (λ field. field.bytes) result ≡ fields_of line.entry.bytes.now }
    {
        FieldsAt {
            line: line.bytes,
            place: line.place,
        }
    }
}

impl<'a> Iterator for FieldsAt<'a> {
    ghost use Rattle.std.specs.Iterator.{item_count};
    ghost use Rattle.text_line.specs.Places.{GivesField};

    type Item = PlacedField<'a>;

    ghost next_gives = { GivesField };

    ghost remaining = { item_count (λ fields. fields) };

    fn next(&mut self) -> Option<PlacedField<'a>> {
        let (from, count) = first_field(self.line)?;
        let (bytes, rest) = self.line[from..].split_at(count);
        let start = self.place + from as u32;
        let end = start + count as u32;
        self.line = rest;
        self.place = end;
        Some(PlacedField { start, end, bytes })
    }
}
