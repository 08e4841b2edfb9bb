//! A scenario again, with the least lengths.

ghost use Rattle.std.specs.Prelude.{◌≡◌, ◌&&◌, ◌++◌, true, is_some, OnOk};
ghost use Rattle.line_work.specs.Sending.{HasHead, SendsWhole};
ghost use Rattle.scen_lines.specs.Line.{version_line};
ghost use Rattle.scen_text.specs.Names.{bytes_at};
ghost use Rattle.scen_maker.specs.Lengths as spec;
ghost use Rattle.scen_maker.specs.Listing.{AreListed};

use crate::NoMemory;
use crate::costs::LeastCosts;
use io_edge::Sink;
use line_work::{Job, Stop, work_below};
use root2_cost::Cost;
use scen_lines::{Problem, put_entry};
use scen_text::{ByteRange, Entry};
use std::alloc::Global;
use std::sync::ledger::Ledger;
use steps::Steps;

/// What writes a scenario's entries again in order: the least costs on the map, the scenario's text, where
/// their names stand, and whether all entries so far have walks.
#[derive(Drop)]
pub struct Lengths {
    pub costs: LeastCosts,
    pub text: Vec<u8>,
    pub all: bool,
}

impl Job for Lengths {
    ghost use Rattle.std.specs.Prelude.{⊤, false};
    ghost use Rattle.scen_maker.specs.Listing.{AreListed, HaveListed};

    type Item = Entry;

    ghost can_work = { λ _. ⊤ };

    ghost has_room = { λ _ _. ⊤ };

    ghost has_worked = { HaveListed };

    ghost closes = { false };

    ghost is_whole = { AreListed };

    ghost has_counted = { λ _ _ _ _ _. ⊤ };

    fn answer<L: Ledger>(
        &mut self,
        alloc: Global,
        item: Entry,
        lines: &mut Vec<u8>,
        steps: &mut Steps<L>,
    ) -> Result<(), NoMemory> {
        let least = self.costs.settle(alloc, item, steps)?.least();
        self.all = are_some(self.all, least);
        put_listed(lines, self.text.as_slice(), item, least)
    }

    fn close(&self, _lines: &mut Vec<u8>) -> Result<u8, NoMemory> {
        Ok(if self.all { 0 } else { 1 })
    }
}

// Whether there is a cost too.
fn are_some(all: bool, least: Option<Cost>) -> bool
    ensures { result ≡ (all && is_some least) }
{
    all && least.is_some()
}

// The bytes of a text in a range, as far as they are there.
fn name_in(text: &[u8], name: ByteRange) -> &[u8]
    ensures { result.now ≡ bytes_at text.now name }
{
    let behind = &text[text.len().min(name.start as usize)..];
    let long = name.end.saturating_sub(name.start);
    &behind[..behind.len().min(long as usize)]
}

// The query of an entry.
fn problem_of(entry: Entry) -> Problem
    ensures { result ≡ spec.problem_of entry }
{
    Problem {
        w: entry.w,
        h: entry.h,
        sx: entry.sx,
        sy: entry.sy,
        gx: entry.gx,
        gy: entry.gy,
    }
}

// Appends the line of an entry with this least cost, nothing where it has none.
fn put_listed(
    out: &mut Vec<u8>,
    text: &[u8],
    entry: Entry,
    least: Option<Cost>,
) -> Result<(), NoMemory>
    ensures { OnOk result (out.new.items ≡ out.old.items ++ spec.line_with text.now entry least) }
{
    match least {
        Some(cost) => put_entry(
            out,
            name_in(text, entry.name),
            problem_of(entry).with_cost(cost),
        ),
        None => Ok(()),
    }
}

/// Writes the first line of a scenario, and below it the entries that have a walk, in order.
pub fn write_lengths<O: Sink, L: Ledger>(
    alloc: Global,
    mut job: Lengths,
    entries: Vec<Entry>,
    out: &mut O,
    steps: &mut Steps<L>,
) -> Result<u8, Stop>
    requires new { job.all ≡ true }
    ensures { SendsWhole (HasHead version_line (AreListed job entries.items)) (O.outflow out.old)
        (O.outflow out.new) result }
{
    work_below(
        alloc,
        b"version 1\n",
        &mut job,
        entries.as_slice(),
        out,
        steps,
    )
}
