//! The table of commands, and what the words of a call are.

ghost use Rattle.std.specs.Prelude.{◌≡◌, ◌≤◌, true, length, map, string_bytes, Some, IfSome, slice_get};
ghost use Rattle.std.specs.Option.{option_copied, option_map};
ghost use Rattle.word_list.specs.Request.{engine_of, row_data, row_in, row_of, rows, stored_row};
ghost use Rattle.word_list.specs.Steps.{is_one_of};
ghost use Rattle.word_list.specs.Kinds.{is_of, word_at, number_at as spelled_at, seed_at as spelled_seed_at};
ghost use Rattle.word_list.specs.Kinds.{side_of as spelled_side, side_at as spelled_side_at};
ghost use Rattle.word_list.specs.Kinds.{percent_of as spelled_percent, percent_at as spelled_percent_at};
ghost use Rattle.word_list.specs.Kinds.{count_of as spelled_count, count_at as spelled_count_at};

use crate::request::SessionEngine;
use crate::settings::Family;
use Family::{Counts, Drawing, Engine, Rule, Show, SmallMap, TableFile, Walks};
use WordKind::{Count, File, Number, Percent, Seed, Side};
use text_line::long_number;

/// A command; its row says what it does.
#[derive(Clone, Copy, Debug)]
pub enum Command {
    Query,
    Solve,
    Live,
    Serve,
    Scen,
    Judge,
    Lengths,
    Problems,
    Prove,
    Check,
    Make,
    Drill,
    Draw,
    Costs,
    Tables,
    Boxes,
    Moves,
    Help,
    Version,
}

impl Command {
    /// The engine that answers where none is named.
    pub fn engine(self) -> SessionEngine
        ensures { result ≡ engine_of self }
    {
        match self {
            Command::Serve => SessionEngine::Block,
            _ => SessionEngine::Plain,
        }
    }
}

/// What a call asks for: a command, the words that it takes, and the name of a table file, where one is
/// named: the session then begins with the tables of that file. As `read_words` gives it, each word is of the
/// kind that the command's row has there.
#[derive(Clone, Copy)]
pub struct Request<'a> {
    pub command: Command,
    pub words: &'a [String],
    pub tables: Option<&'a str>,
}

impl<'a> Request<'a> {
    /// The word at the place, from 0; the empty one past the end.
    pub fn name(self, place: usize) -> &'a str
        ensures { result.now ≡ word_at (map string_bytes self.entry.words.now) place }
    {
        match self.words.get(place) {
            Some(word) => word.as_str(),
            None => "",
        }
    }

    /// The number at the place, from 0; 0 where there is none.
    pub fn number(self, place: usize) -> u32
        ensures { result ≡ spelled_at (map string_bytes self.entry.words.now) place }
    {
        text_line::number(self.name(place).as_bytes()).unwrap_or(0)
    }

    /// The seed at the place, from 0; 0 where there is none.
    pub fn seed(self, place: usize) -> u64
        ensures { result ≡ spelled_seed_at (map string_bytes self.entry.words.now) place }
    {
        long_number(self.name(place).as_bytes()).unwrap_or(0)
    }

    /// The side of a map at the place, from 0; 1 where there is none.
    pub fn side(self, place: usize) -> u16
        ensures spelled { result ≡ spelled_side_at (map string_bytes self.entry.words.now) place }
        ensures some { 1 ≤ result }
        ensures most { result ≤ 4096 }
    {
        side_of(self.name(place)).unwrap_or(1)
    }

    /// The percentage at the place, from 0; 0 where there is none.
    pub fn percent(self, place: usize) -> u8
        ensures { result ≡ spelled_percent_at (map string_bytes self.entry.words.now) place }
    {
        percent_of(self.name(place)).unwrap_or(0)
    }

    /// The number of entries at the place, from 0; 1 where there is none.
    pub fn count(self, place: usize) -> u32
        ensures spelled { result ≡ spelled_count_at (map string_bytes self.entry.words.now) place }
        ensures some { 1 ≤ result }
        ensures most { result ≤ 100000 }
    {
        count_of(self.name(place)).unwrap_or(1)
    }
}

/// The side of a map that the word spells, if it is one: a number from 1 to 4096.
fn side_of(word: &str) -> Option<u16>
    ensures { result ≡ spelled_side word.now }
{
    match text_line::number(word.as_bytes()) {
        Some(n) if 1 <= n && n <= 4096 => Some(n as u16),
        _ => None,
    }
}

/// The percentage that the word spells, if it is one: a number from 0 to 100.
fn percent_of(word: &str) -> Option<u8>
    ensures { result ≡ spelled_percent word.now }
{
    match text_line::number(word.as_bytes()) {
        Some(n) if n <= 100 => Some(n as u8),
        _ => None,
    }
}

/// The number of entries that the word spells, if it is one: a number from 1 to 100000.
fn count_of(word: &str) -> Option<u32>
    ensures { result ≡ spelled_count word.now }
{
    match text_line::number(word.as_bytes()) {
        Some(n) if 1 <= n && n <= 100_000 => Some(n),
        _ => None,
    }
}

/// What a word that a command takes has to be.
#[derive(Clone, Copy)]
pub enum WordKind {
    /// The name of a file, which may be any word.
    File,
    /// A number of 1 to 9 decimal digits.
    Number,
    /// A number of 1 to 20 decimal digits below 2^64.
    Seed,
    /// A number from 1 to 4096.
    Side,
    /// A number from 0 to 100.
    Percent,
    /// A number from 1 to 100000.
    Count,
}

impl WordKind {
    /// Whether the word is of this kind.
    fn has(self, word: &str) -> bool
        ensures { result ≡ is_of self word.now }
    {
        match self {
            WordKind::File => true,
            WordKind::Number => text_line::number(word.as_bytes()).is_some(),
            WordKind::Seed => long_number(word.as_bytes()).is_some(),
            WordKind::Side => side_of(word).is_some(),
            WordKind::Percent => percent_of(word).is_some(),
            WordKind::Count => count_of(word).is_some(),
        }
    }

    /// Whether the words have one of this kind at the place, from 0.
    pub fn is_at(self, words: &[String], place: usize) -> bool
        ensures { result ≡ is_one_of (Some self) (slice_get (map string_bytes words.now) place) }
    {
        match words.get(place) {
            Some(word) => self.has(word.as_str()),
            None => false,
        }
    }
}

/// What the table of commands tells of one: its name, what it names, the kinds of the words that it takes,
/// the settings that it allows behind these, and how help calls its words and says what it does, line by
/// line.
type Stored = (
    &'static str,
    Command,
    &'static [WordKind],
    &'static [Family],
    &'static str,
    &'static [&'static str],
);

/// The commands, in the order of help.
static ROWS: [Stored; 19] = [
    (
        "query",
        Command::Query,
        &[File, Number, Number, Number, Number],
        &[Engine, SmallMap, TableFile, Show, Rule],
        "MAP SX SY GX GY",
        &["a least walk from the cell (SX,SY) to the cell (GX,GY) on the map"],
    ),
    (
        "solve",
        Command::Solve,
        &[File, File],
        &[Engine, TableFile, Show, Rule],
        "MAP SCRIPT",
        &["one line for each command of the script: edits of the map, and queries"],
    ),
    (
        "live",
        Command::Live,
        &[File],
        &[Engine, TableFile, Show, Rule],
        "MAP",
        &["the same for a script on standard input, each command answered as it comes"],
    ),
    (
        "serve",
        Command::Serve,
        &[File],
        &[Engine, TableFile, Walks, Rule],
        "MAP",
        &[
            "for games and robots, without end: each line on standard input is answered as it comes: edits, queries,",
            "walks to the nearest cell that can be reached, the first move and the least cost from each cell to one",
        ],
    ),
    (
        "scen",
        Command::Scen,
        &[File, File],
        &[Engine, SmallMap, TableFile, Counts, Rule],
        "MAP SCEN",
        &[
            "a row for each entry of the scenario, its length judged by the least cost, and their sum; with show=taken",
            "also how many states each search took",
        ],
    ),
    (
        "judge",
        Command::Judge,
        &[File, File, File],
        &[Rule],
        "MAP SCEN WALKS",
        &[
            "a row for each entry: the walk that another program tells of it accepted, or why not, and their sum",
        ],
    ),
    (
        "lengths",
        Command::Lengths,
        &[File, File],
        &[Rule],
        "MAP SCEN",
        &["the scenario again, with the least length of each entry that has a walk"],
    ),
    (
        "problems",
        Command::Problems,
        &[File, Seed, Count],
        &[Rule],
        "MAP SEED N",
        &[
            "a scenario of N entries between free cells of the map that a walk joins, made from the number SEED",
        ],
    ),
    (
        "prove",
        Command::Prove,
        &[File, Number, Number, Number, Number],
        &[Rule],
        "MAP SX SY GX GY",
        &["a certificate that the cost of a least walk is least, or that there is no walk"],
    ),
    (
        "check",
        Command::Check,
        &[File, File],
        &[Rule],
        "MAP CERT",
        &["whether the certificate proves what it claims on the map; nothing is searched"],
    ),
    (
        "make",
        Command::Make,
        &[Seed, Side, Side, Percent],
        &[],
        "SEED W H P",
        &["a map of W by H cells, P percent of them blocked, made from the number SEED"],
    ),
    (
        "drill",
        Command::Drill,
        &[Seed],
        &[Engine, Rule],
        "SEED",
        &[
            "150 edits and queries on the map of SEED, summed up in one line that is the same by each engine",
        ],
    ),
    (
        "draw",
        Command::Draw,
        &[File, Number, Number, Number, Number],
        &[Engine, Drawing, Rule],
        "MAP SX SY GX GY",
        &[
            "a picture (SVG) of the map and of a least walk, and with show=trace of the cells of the taken states",
        ],
    ),
    (
        "costs",
        Command::Costs,
        &[File, Number, Number],
        &[Rule],
        "MAP X Y",
        &[
            "the least cost from the cell (X,Y) to each cell, a line for each row: `A,B`, or `-` where no walk leads",
        ],
    ),
    (
        "tables",
        Command::Tables,
        &[File],
        &[Rule],
        "MAP",
        &["the tables of the engine plus as bytes, for other programs"],
    ),
    (
        "boxes",
        Command::Boxes,
        &[File, Number, Number],
        &[Rule],
        "MAP X Y",
        &[
            "for each direction the least box of cells to which some least walk from the cell (X,Y) begins so",
        ],
    ),
    (
        "moves",
        Command::Moves,
        &[File, Number, Number],
        &[Rule],
        "MAP X Y",
        &[
            "the first move from the cell (X,Y) to each cell, a line for each run of cells with one first move",
        ],
    ),
    ("--help", Command::Help, &[], &[], "", &["this text"]),
    (
        "--version",
        Command::Version,
        &[],
        &[],
        "",
        &["the version"],
    ),
];

/// The rows of all commands; by its clause the proofs of what reads it need not spell the table out.
fn all_rows() -> &'static [Stored]
    ensures { map stored_row result.now ≡ rows }
{
    &ROWS
}

/// The name of the command whose row stands at the place in the table, from 0; none past the last row.
pub fn command_name(place: usize) -> Option<&'static str>
    ensures { option_copied result ≡ option_map (λ row. row.name) (slice_get rows place) }
{
    name_among(all_rows(), place)
}

/// The name of the row at the place among some.
fn name_among(rows: &[Stored], place: usize) -> Option<&'static str>
    ensures { option_copied result
        ≡ option_map (λ row. row.name) (slice_get (map stored_row rows.now) place) }
{
    Some(rows.get(place)?.0)
}

/// A command, the kinds of the words that it takes after its name, and the settings that it allows
/// after these.
#[derive(Clone, Copy)]
pub struct Row {
    pub command: Command,
    pub takes: &'static [WordKind],
    pub allows: &'static [Family],
}

/// The row of the command of this name, if there is one.
pub fn row_named(name: &str) -> Option<Row>
    ensures row { option_map row_data result ≡ row_of name.now }
    ensures few { IfSome result (λ row. length row.takes.now ≤ 8) }
{
    row_among(all_rows(), name)
}

/// The first row of this name among some.
fn row_among(rows: &[Stored], name: &str) -> Option<Row>
    ensures { option_map row_data result ≡ row_in (map stored_row rows.now) name.now }
{
    for (known, command, takes, allows, _, _) in rows {
        if name == *known {
            return Some(Row {
                command: *command,
                takes,
                allows,
            });
        }
    }
    None
}
