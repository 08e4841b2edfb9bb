//! The fields of a line, one after another.

ghost use Rattle.std.specs.Prelude.{◌≡◌, ℕ, [], MatchOption, not, position};
ghost use Rattle.text_line.specs.Fields.{fields_of, is_blank_byte as blank_byte};
ghost use Rattle.text_line.specs.Places.{fields_from, IsFirstField};

use std::marker::Model;

/// The fields of a line in order: its longest pieces without space and tab.
#[derive(Drop)]
pub struct Fields<'a> {
    line: &'a [u8],
}

impl<'a> Model for Fields<'a> {
    ghost use Rattle.std.specs.Prelude.{List, ℕ};
    ghost use Rattle.text_line.specs.Fields.{fields_of};

    ghost Value = { List (List ℕ) };

    ghost view = { λ f. fields_of f.line.now };
}

impl<'a> Fields<'a> {
    /// The fields of the line.
    pub fn of(line: &'a [u8]) -> Fields<'a>
        ensures { result ≡ fields_of line.now }
    {
        Fields { line }
    }
}

impl<'a> Iterator for Fields<'a> {
    ghost use Rattle.std.specs.Iterator.{YieldsFirstRef, item_count};

    type Item = &'a [u8];

    ghost next_gives = { YieldsFirstRef (λ fields. fields) };

    ghost remaining = { item_count (λ fields. fields) };

    fn next(&mut self) -> Option<&'a [u8]> {
        let (from, count) = first_field(self.line)?;
        let (field, rest) = self.line[from..].split_at(count);
        self.line = rest;
        Some(field)
    }
}

/// Where the first field of a line begins and how many bytes it has, if the line has one.
pub(crate) fn first_field(line: &[u8]) -> Option<(usize, usize)>
    ensures { MatchOption result
        ((place : ℕ) → fields_from place line.now ≡ [])
        (λ cut. IsFirstField line.now cut.0 cut.1) }
{
    let from = place_of_field(line)?;
    let field = &line[from..];
    match place_of_blank(field) {
        Some(count) => Some((from, count)),
        None => Some((from, field.len())),
    }
}

/// Where the first field of a line begins, if it has one.
fn place_of_field(line: &[u8]) -> Option<usize>
    ensures { result ≡ position (λ byte. not (blank_byte byte)) line.now }
{
    line.iter().position(|byte| !is_blank_byte(*byte))
}

/// Where the first space or tab of a line stands, if it has one.
fn place_of_blank(line: &[u8]) -> Option<usize>
    ensures { result ≡ position blank_byte line.now }
{
    line.iter().position(|byte| is_blank_byte(*byte))
}

/// Whether the byte parts fields: a space or a tab.
fn is_blank_byte(byte: u8) -> bool
    ensures { result ≡ blank_byte byte }
{
    byte == b' ' || byte == b'\t'
}
