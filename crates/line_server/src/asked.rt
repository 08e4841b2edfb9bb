//! What a line asks for.

ghost use Rattle.std.specs.Prelude.{◌≡◌, ◌∷◌};
ghost use Rattle.line_server.specs.Asked as spec;
ghost use Rattle.line_server.specs.Asked.{asked_in};

use grid_moves::Ground;
use line_feed::FedLine;
use script_text::{ScriptCommand, command_of, four_numbers, two_numbers};
use text_line::Fields;

/// What a line asks for. Columns and rows count from 0, and may lie outside the map.
#[derive(Clone, Copy, Debug, PartialEq, Eq)]
pub enum Asked {
    /// Nothing: the line has blanks alone.
    Nothing,
    /// Nothing that is known.
    Refused,
    /// The line is longer than a line may be.
    TooLong,
    /// To make the cell in column `x` and row `y` blocked, land or water.
    Edit { x: u32, y: u32, to: Ground },
    /// A least walk from column `sx` and row `sy` to column `gx` and row `gy`.
    Query { sx: u32, sy: u32, gx: u32, gy: u32 },
    /// A least walk to the nearest cell that one leads to.
    Near { sx: u32, sy: u32, gx: u32, gy: u32 },
    /// The first move from each cell to the cell in column `x` and row `y`.
    Field { x: u32, y: u32 },
    /// The least cost from the cell in column `x` and row `y` to each cell.
    Costs { x: u32, y: u32 },
}

// What a command of a script asks for.
fn scripted(command: ScriptCommand) -> Asked
    ensures { result ≡ spec.scripted command }
{
    match command {
        ScriptCommand::Block { x, y } => Asked::Edit {
            x,
            y,
            to: Ground::Blocked,
        },
        ScriptCommand::Free { x, y } => Asked::Edit {
            x,
            y,
            to: Ground::Land,
        },
        ScriptCommand::Flood { x, y } => Asked::Edit {
            x,
            y,
            to: Ground::Water,
        },
        ScriptCommand::Query { sx, sy, gx, gy } => Asked::Query { sx, sy, gx, gy },
    }
}

// What a word and the fields after it ask for.
fn asked_of(word: &[u8], fields: Fields<'_>) -> Asked
    ensures { result ≡ asked_in (word.now ∷ fields.entry) }
{
    if word == b"near".as_slice() {
        match four_numbers(fields) {
            Some((sx, sy, gx, gy)) => Asked::Near { sx, sy, gx, gy },
            None => Asked::Refused,
        }
    } else if word == b"field".as_slice() {
        match two_numbers(fields) {
            Some((x, y)) => Asked::Field { x, y },
            None => Asked::Refused,
        }
    } else if word == b"costs".as_slice() {
        match two_numbers(fields) {
            Some((x, y)) => Asked::Costs { x, y },
            None => Asked::Refused,
        }
    } else {
        match command_of(word, fields) {
            Some(command) => scripted(command),
            None => Asked::Refused,
        }
    }
}

impl Asked {
    /// What the line asks for.
    pub fn by(line: &FedLine) -> Asked
        ensures { result ≡ spec.asked_by line.now }
    {
        match line {
            FedLine::TooLong => Asked::TooLong,
            FedLine::Bytes(bytes) => {
                let mut fields = Fields::of(bytes.as_slice());
                match fields.next() {
                    Some(word) => asked_of(word, fields),
                    None => Asked::Nothing,
                }
            }
        }
    }
}
