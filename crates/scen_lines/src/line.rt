//! One line of a scenario.

ghost use Rattle.std.specs.Prelude.{◌≡◌, ◌++◌, OnOk, OnErr, codes};
ghost use Rattle.scen_lines.specs.Line as spec;
ghost use Rattle.text_line.specs.Writing.{Begins};

use crate::NoMemory;
use root2_cost::{Cost, bucket, nearest_length};
use text_line::{put, put_number, whole_or_nothing};

/// A query on a map: the map's sides in cells, and the start and the goal, each by its column and its row
/// from 0.
#[derive(Clone, Copy, Debug, PartialEq, Eq)]
pub struct Problem {
    pub w: u32,
    pub h: u32,
    pub sx: u32,
    pub sy: u32,
    pub gx: u32,
    pub gy: u32,
}

/// What a line says besides the map's name.
#[derive(Clone, Copy, Debug, PartialEq, Eq)]
pub struct Listed {
    pub problem: Problem,
    /// The group of the benchmark that the entry belongs to.
    pub bucket: u32,
    /// The length of a least walk, in units of the eighth decimal.
    pub units: u64,
}

impl Problem {
    /// The problem with the bucket and the length of the cost of its least walks.
    pub fn with_cost(self, cost: Cost) -> Listed
        ensures { result ≡ spec.listed_of self cost }
    {
        Listed {
            problem: self,
            bucket: bucket(cost),
            units: nearest_length(cost).digits,
        }
    }
}

/// Appends the first line.
pub fn put_version(out: &mut Vec<u8>) -> Result<(), NoMemory>
    ensures ok { OnOk result (out.new.items ≡ out.old.items ++ spec.version_line) }
    ensures err { OnErr result (out.new.items ≡ out.old.items) }
{
    put(out, b"version 1\n")
}

/// Appends the line of an entry on the map of this name.
pub fn put_entry(out: &mut Vec<u8>, name: &[u8], listed: Listed) -> Result<(), NoMemory>
    ensures ok { OnOk result (out.new.items ≡ out.old.items ++ spec.entry_line name.now listed) }
    // For want of memory nothing is appended.
    ensures err { OnErr result (out.new.items ≡ out.old.items) }
{
    let before = out.len();
    let written = put_line(out, name, listed);
    whole_or_nothing(out, before, written)
}

/// Appends the line, or a first part of it where memory runs out.
fn put_line(out: &mut Vec<u8>, name: &[u8], listed: Listed) -> Result<(), NoMemory>
    ensures ok { OnOk result (out.new.items ≡ out.old.items ++ spec.entry_line name.now listed) }
    ensures err { OnErr result (Begins out.old.items out.new.items) }
{
    put_number(out, u64::from(listed.bucket))?;
    put(out, b"\t")?;
    put(out, name)?;
    put_problem(out, listed.problem)?;
    put_length(out, listed.units)
}

/// Appends the sides of the map, the start and the goal, each number behind a tab.
fn put_problem(out: &mut Vec<u8>, problem: Problem) -> Result<(), NoMemory>
    ensures ok { OnOk result (out.new.items ≡ out.old.items ++ spec.problem_text problem) }
    ensures err { OnErr result (Begins out.old.items out.new.items) }
{
    put_two(out, problem.w, problem.h)?;
    put_two(out, problem.sx, problem.sy)?;
    put_two(out, problem.gx, problem.gy)
}

/// Appends two numbers, each behind a tab.
fn put_two(out: &mut Vec<u8>, m: u32, n: u32) -> Result<(), NoMemory>
    ensures ok { OnOk result (out.new.items ≡ out.old.items ++ (spec.tabbed m ++ spec.tabbed n)) }
    ensures err { OnErr result (Begins out.old.items out.new.items) }
{
    put(out, b"\t")?;
    put_number(out, u64::from(m))?;
    put(out, b"\t")?;
    put_number(out, u64::from(n))
}

/// Appends the length behind a tab, and ends the line.
fn put_length(out: &mut Vec<u8>, units: u64) -> Result<(), NoMemory>
    ensures ok { OnOk result (out.new.items
        ≡ out.old.items ++ (codes "\t" ++ spec.length_text units ++ codes "\n")) }
    ensures err { OnErr result (Begins out.old.items out.new.items) }
{
    put(out, b"\t")?;
    put_number(out, units / UNITS)?;
    put(out, b".")?;
    put(out, &last_eight(units))?;
    put(out, b"\n")
}

/// How many units of the eighth decimal are one.
const UNITS: u64 = 100_000_000;

/// The last eight digits of a number, zeros where it has fewer.
fn last_eight(n: u64) -> [u8; 8]
    ensures { result ≡ spec.last_eight n }
{
    [
        last_digit(n / 10_000_000),
        last_digit(n / 1_000_000),
        last_digit(n / 100_000),
        last_digit(n / 10_000),
        last_digit(n / 1_000),
        last_digit(n / 100),
        last_digit(n / 10),
        last_digit(n),
    ]
}

/// The last digit of a number.
fn last_digit(n: u64) -> u8
    ensures { result ≡ spec.last_digit n }
{
    b'0' + (n % 10) as u8
}
