//! The rows that judge a scenario, and the line that sums them up.

ghost use Rattle.std.specs.Prelude.{◌≡◌, ◌<◌, ◌+◌, ◌^◌, ◌++◌, ◌∷◌, [], List, OnOk};
ghost use Rattle.root2_cost.specs.declared.lengths.Verdict.TheVariants as verdict;
ghost use Rattle.jps_run.specs.Rows as spec;
ghost use Rattle.jps_run.specs.Tally.{tally_of, sum_end, sum_text, IsSmall, IsTally};

use crate::NoMemory;
use itoa::Buffer;
use root2_cost::{Cost, Verdict};
use text_line::{put, put_number};
use word_list::Show;

/// What becomes of a scenario's entry.
#[derive(Clone, Copy)]
pub enum Row {
    /// The entry is meant for a map of another size, and isn't searched.
    Scale,
    /// An end lies outside the map.
    Outside,
    /// An end is blocked.
    Blocked,
    /// No walk exists; so many states were taken.
    None {
        taken: u64,
    },
    /// The listed length against the least cost; so many states were taken.
    Judged {
        verdict: Verdict,
        cost: Cost,
        taken: u64,
    },
}

// The word of a verdict.
fn verdict_text(verdict: Verdict) -> &'static [u8]
    ensures { result.now ≡ spec.verdict_text verdict }
{
    match verdict {
        Verdict::Agree => b"agree",
        Verdict::Near => b"near",
        Verdict::Off => b"off",
    }
}

// Appends how many states were taken, where this is shown.
fn put_count(out: &mut Vec<u8>, show: Show, count: u128) -> Result<(), NoMemory>
    ensures { OnOk result (out.new.items ≡ out.old.items ++ spec.count_text show count) }
{
    match show {
        Show::Points | Show::Cells | Show::Trace => Ok(()),
        Show::Taken => {
            let mut buffer = Buffer::new();
            put(out, b" taken ")?;
            put(out, buffer.format(count).as_bytes())
        }
    }
}

// Appends what a verdict's row says behind its number.
fn put_verdict(
    out: &mut Vec<u8>,
    show: Show,
    verdict: Verdict,
    cost: Cost,
    taken: u64,
) -> Result<(), NoMemory>
    ensures { OnOk result
        (out.new.items ≡ out.old.items ++ spec.row_text show (Row.Judged verdict cost taken)) }
{
    put(out, verdict_text(verdict))?;
    put(out, b" ")?;
    put_number(out, u64::from(cost.a))?;
    put(out, b" ")?;
    put_number(out, u64::from(cost.b))?;
    put_count(out, show, u128::from(taken))
}

// Appends what a row says behind its number.
fn put_row_text(out: &mut Vec<u8>, show: Show, row: Row) -> Result<(), NoMemory>
    ensures { OnOk result (out.new.items ≡ out.old.items ++ spec.row_text show row) }
{
    match row {
        Row::Scale => put(out, b"scale"),
        Row::Outside => put(out, b"outside"),
        Row::Blocked => put(out, b"blocked"),
        Row::None { taken } => {
            put(out, b"none")?;
            put_count(out, show, u128::from(taken))
        }
        Row::Judged {
            verdict,
            cost,
            taken,
        } => put_verdict(out, show, verdict, cost, taken),
    }
}

/// Appends the line of the row with this number, and how many states were taken where this is shown.
pub fn put_row(out: &mut Vec<u8>, show: Show, number: u64, row: Row) -> Result<(), NoMemory>
    ensures { OnOk result (out.new.items ≡ out.old.items ++ spec.row_line show number row) }
{
    put(out, b"row ")?;
    put_number(out, number)?;
    put(out, b" ")?;
    put_row_text(out, show, row)?;
    put(out, b"\n")
}

// How many states were taken for the row.
fn states_in(row: Row) -> u64
    ensures { result ≡ spec.states_in row }
{
    match row {
        Row::None { taken } | Row::Judged { taken, .. } => taken,
        Row::Scale | Row::Outside | Row::Blocked => 0,
    }
}

/// How many rows there are, how many of each kind, and how many states were taken for them.
#[derive(Clone, Copy)]
pub struct Tally {
    pub rows: u64,
    pub agree: u64,
    pub near: u64,
    pub off: u64,
    /// Those without a verdict.
    pub other: u64,
    /// The taken states: fewer than 2^64 for each row, of which there are fewer than 2^64.
    pub taken: u128,
}

impl Tally {
    /// The counts before the first row.
    pub fn new() -> Tally
        ensures { result ≡ tally_of [] }
    {
        Tally {
            rows: 0,
            agree: 0,
            near: 0,
            off: 0,
            other: 0,
            taken: 0,
        }
    }

    /// Counts one row more.
    pub fn count(&mut self, row: Row)
        requires counts { IsTally self.old }
        requires few { self.old.rows + 1 < 2 ^ 64 }
        requires small { IsSmall self.old }
        ensures counted { (rows : List Row) → self.old ≡ tally_of rows
            → self.new ≡ tally_of (rows ++ row ∷ []) }
        ensures small { IsSmall self.new }
    {
        self.rows += 1;
        self.taken += u128::from(states_in(row));
        match row {
            Row::Judged {
                verdict: Verdict::Agree,
                ..
            } => self.agree += 1,
            Row::Judged {
                verdict: Verdict::Near,
                ..
            } => self.near += 1,
            Row::Judged {
                verdict: Verdict::Off,
                ..
            } => self.off += 1,
            Row::Scale | Row::Outside | Row::Blocked | Row::None { .. } => self.other += 1,
        }
    }

    /// The status: 0 where each row agrees or is near, else 1.
    pub fn status(&self) -> u8
        ensures { (rows : List Row) → self.now ≡ tally_of rows → result ≡ spec.scen_status rows }
    {
        if self.off == 0 && self.other == 0 {
            0
        } else {
            1
        }
    }

    /// Appends the last line, and how many states were taken where this is shown.
    pub fn put(&self, out: &mut Vec<u8>, show: Show) -> Result<(), NoMemory>
        ensures { OnOk result (out.new.items ≡ out.old.items ++ sum_text show self.now) }
    {
        put(out, b"sum ")?;
        put_number(out, self.rows)?;
        put(out, b" agree ")?;
        put_number(out, self.agree)?;
        put(out, b" near ")?;
        put_number(out, self.near)?;
        self.put_end(out, show)
    }

    // Appends its end, behind the rows that are agree or near.
    fn put_end(&self, out: &mut Vec<u8>, show: Show) -> Result<(), NoMemory>
        ensures { OnOk result (out.new.items ≡ out.old.items ++ sum_end show self.now) }
    {
        put(out, b" off ")?;
        put_number(out, self.off)?;
        put(out, b" other ")?;
        put_number(out, self.other)?;
        put_count(out, show, self.taken)?;
        put(out, b"\n")
    }
}
