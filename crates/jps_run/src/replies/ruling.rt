//! The rows that judge claimed walks, and the line that sums them up.

ghost use Rattle.std.specs.Prelude.{◌≡◌, ◌<◌, ◌+◌, ◌^◌, ◌++◌, ◌∷◌, [], List, OnOk};
ghost use Rattle.jps_run.specs.Judging.{IsCounts, counts_of, sum_text};
ghost use Rattle.jps_run.specs.Rulings as spec;

use crate::NoMemory;
use root2_cost::Cost;
use text_line::{put, put_number};
use walk_judge::Judged;

/// What becomes of what is claimed of a scenario's entry.
#[derive(Clone, Copy)]
pub enum Ruling {
    /// The entry is meant for a map of another size.
    Scale,
    /// An end lies outside the map.
    Outside,
    /// An end is blocked.
    Blocked,
    /// How what is claimed is judged.
    Judged(Judged),
}

// Appends a cost, each number after a blank.
fn put_pair(out: &mut Vec<u8>, cost: Cost) -> Result<(), NoMemory>
    ensures { OnOk result (out.new.items ≡ out.old.items ++ spec.pair_text cost) }
{
    put(out, b" ")?;
    put_number(out, u64::from(cost.a))?;
    put(out, b" ")?;
    put_number(out, u64::from(cost.b))
}

// Appends the number that tells the first bad point.
fn put_bad(out: &mut Vec<u8>, bad: u32) -> Result<(), NoMemory>
    ensures { OnOk result (out.new.items ≡ out.old.items ++ spec.bad_text bad) }
{
    put(out, b"refused walk ")?;
    put_number(out, u64::from(bad))
}

// Appends how what is claimed is judged.
fn put_judged(out: &mut Vec<u8>, judged: Judged) -> Result<(), NoMemory>
    ensures { OnOk result (out.new.items ≡ out.old.items ++ spec.judged_text judged) }
{
    match judged {
        Judged::NoWalk => put(out, b"accepted none"),
        Judged::Least(cost) => {
            put(out, b"accepted")?;
            put_pair(out, cost)
        }
        Judged::Exists(least) => {
            put(out, b"refused none")?;
            put_pair(out, least)
        }
        Judged::BadWalk(bad) => put_bad(out, bad),
        Judged::Longer(paid, least) => {
            put(out, b"refused longer")?;
            put_pair(out, paid)?;
            put_pair(out, least)
        }
    }
}

// Appends what a row says behind its number.
fn put_ruling_text(out: &mut Vec<u8>, ruling: Ruling) -> Result<(), NoMemory>
    ensures { OnOk result (out.new.items ≡ out.old.items ++ spec.ruling_text ruling) }
{
    match ruling {
        Ruling::Scale => put(out, b"scale"),
        Ruling::Outside => put(out, b"outside"),
        Ruling::Blocked => put(out, b"blocked"),
        Ruling::Judged(judged) => put_judged(out, judged),
    }
}

/// Appends the line of the row with this number.
pub fn put_ruling(out: &mut Vec<u8>, number: u64, ruling: Ruling) -> Result<(), NoMemory>
    ensures { OnOk result (out.new.items ≡ out.old.items ++ spec.ruling_line number ruling) }
{
    put(out, b"row ")?;
    put_number(out, number)?;
    put(out, b" ")?;
    put_ruling_text(out, ruling)?;
    put(out, b"\n")
}

/// How many rows there are, and how many of each kind.
#[derive(Clone, Copy)]
pub struct Counts {
    pub rows: u64,
    pub accepted: u64,
    pub refused: u64,
    /// Those where nothing is judged.
    pub other: u64,
}

impl Counts {
    /// The counts before the first row.
    pub fn new() -> Counts
        ensures { result ≡ counts_of [] }
    {
        Counts {
            rows: 0,
            accepted: 0,
            refused: 0,
            other: 0,
        }
    }

    /// Counts one row more.
    pub fn count(&mut self, ruling: Ruling)
        requires counts { IsCounts self.old }
        requires few { self.old.rows + 1 < 2 ^ 64 }
        ensures { (all : List Ruling) → self.old ≡ counts_of all → self.new ≡ counts_of (all ++ ruling ∷ []) }
    {
        self.rows += 1;
        match ruling {
            Ruling::Judged(Judged::NoWalk) => self.accepted += 1,
            Ruling::Judged(Judged::Least(_)) => self.accepted += 1,
            Ruling::Judged(Judged::Exists(_)) => self.refused += 1,
            Ruling::Judged(Judged::BadWalk(_)) => self.refused += 1,
            Ruling::Judged(Judged::Longer(_, _)) => self.refused += 1,
            Ruling::Scale | Ruling::Outside | Ruling::Blocked => self.other += 1,
        }
    }

    /// The status: 1 where a row is refused, else 0.
    pub fn status(&self) -> u8
        ensures { (all : List Ruling) → self.now ≡ counts_of all → result ≡ spec.judge_status all }
    {
        if self.refused == 0 { 0 } else { 1 }
    }

    /// Appends the last line.
    pub fn put(&self, out: &mut Vec<u8>) -> Result<(), NoMemory>
        ensures { OnOk result (out.new.items ≡ out.old.items ++ sum_text self.now) }
    {
        put(out, b"sum ")?;
        put_number(out, self.rows)?;
        put(out, b" accepted ")?;
        put_number(out, self.accepted)?;
        put(out, b" refused ")?;
        put_number(out, self.refused)?;
        put(out, b" other ")?;
        put_number(out, self.other)?;
        put(out, b"\n")
    }
}
