//! The lines of a text, one after another.

ghost use Rattle.std.specs.Prelude.{◌≡◌, ◌^◌, ◌≤◌, ◌<◌, ◌∷◌, length};
ghost use Rattle.text_line.specs.Lines.{pieces_of, lines_of, without_cr as line_of};

use memchr::memchr;
use std::marker::Model;

/// A line or a piece of a text.
#[derive(Clone, Copy, Debug)]
pub struct Line<'a> {
    /// Its number, from 1.
    pub number: u32,
    /// Its bytes, without the line feed.
    pub bytes: &'a [u8],
}

/// The pieces of a text in order: its lines with the carriage return that a line may end with.
#[derive(Drop)]
pub struct Pieces<'a> {
    text: &'a [u8],
    number: u32,
}

impl<'a> Model for Pieces<'a> {
    ghost use Rattle.std.specs.Prelude.{◌+◌, ◌^◌, ◌≤◌, length};
    ghost use Rattle.text_line.specs.Left.{Left};
    ghost use Rattle.text_line.specs.Lines.{pieces_of};

    ghost Value = { Left };

    ghost view = { λ p. record { lines = pieces_of p.text.now; number = p.number } };

    ghost invariant = { λ p. p.number + length p.text.now ≤ 2 ^ 30 + 1 };
}

impl<'a> Pieces<'a> {
    /// The pieces of the text, from number 1 on.
    pub fn of(text: &'a [u8]) -> Pieces<'a>
        requires { length text.now ≤ 2 ^ 30 }
        ensures { result ≡ record { lines = pieces_of text.now; number = 1 } }
    {
        Pieces { text, number: 1 }
    }
}

impl<'a> Iterator for Pieces<'a> {
    ghost use Rattle.std.specs.Iterator.{item_count};
    ghost use Rattle.text_line.specs.Left.{GivesNext};

    type Item = Line<'a>;

    ghost next_gives = { GivesNext };

    ghost remaining = { item_count (λ p. p.lines) };

    fn next(&mut self) -> Option<Line<'a>> {
        if self.text.is_empty() {
            return None;
        }
        let (bytes, rest) = first_piece(self.text);
        let number = self.number;
        self.text = rest;
        self.number += 1;
        Some(Line { number, bytes })
    }
}

/// The lines of a text in order: its pieces without the carriage return that one may end with.
#[derive(Drop)]
pub struct Lines<'a> {
    pieces: Pieces<'a>,
}

impl<'a> Model for Lines<'a> {
    ghost use Rattle.std.specs.Prelude.{map};
    ghost use Rattle.text_line.specs.Left.{Left};
    ghost use Rattle.text_line.specs.Lines.{without_cr};

    ghost Value = { Left };

    ghost view = { λ l. record { lines = map without_cr l.pieces.lines; number = l.pieces.number } };
}

impl<'a> Lines<'a> {
    /// The lines of the text, from number 1 on.
    pub fn of(text: &'a [u8]) -> Lines<'a>
        requires { length text.now ≤ 2 ^ 30 }
        ensures { result ≡ record { lines = lines_of text.now; number = 1 } }
    {
        Lines {
            pieces: Pieces::of(text),
        }
    }
}

impl<'a> Iterator for Lines<'a> {
    ghost use Rattle.std.specs.Iterator.{item_count};
    ghost use Rattle.text_line.specs.Left.{GivesNext};

    type Item = Line<'a>;

    ghost next_gives = { GivesNext };

    ghost remaining = { item_count (λ l. l.lines) };

    fn next(&mut self) -> Option<Line<'a>> {
        let Line { number, bytes } = self.pieces.next()?;
        Some(Line {
            number,
            bytes: without_cr(bytes),
        })
    }
}

/// The first piece of a text that is not empty, and the text after it.
fn first_piece(text: &[u8]) -> (&[u8], &[u8])
    requires { 0 < length text.now }
    ensures cut { pieces_of text.now ≡ result.0.now ∷ pieces_of result.1.now }
    ensures shorter { length result.1.now < length text.now }
{
    match memchr(b'\n', text) {
        Some(end) => (&text[..end], &text[end + 1..]),
        None => text.split_at(text.len()),
    }
}

/// The piece without the one carriage return at its end, if it has one.
pub fn without_cr(piece: &[u8]) -> &[u8]
    ensures { result.now ≡ line_of piece.now }
{
    match piece {
        [bytes @ .., b'\r'] => bytes,
        _ => piece,
    }
}
