//! The rows of claimed walks, entry by entry.

ghost use Rattle.std.specs.Prelude.{◌≡◌, length, IfOk};
ghost use Rattle.walk_judge.specs.Claims.{IsFit};
ghost use Rattle.scen_maker.specs.Settling.{settled_of};
ghost use Rattle.jps_run.specs.Judging.{IsReady, IsJudged};
ghost use Rattle.jps_run.specs.Rulings as spec;
ghost use Rattle.line_work.specs.Sending.{SendsWhole};

use crate::NoMemory;
use crate::replies::ruling::{Counts, Ruling, put_ruling};
use io_edge::Sink;
use line_work::{Job, Stop, work_items};
use scen_maker::{LeastCosts, Settled};
use scen_text::Entry;
use std::alloc::Global;
use std::sync::ledger::Ledger;
use steps::Steps;
use walk_judge::{Claimed, judge_claimed};

/// What judges a scenario's entries in order: the least costs on the map, what is claimed of each, one walk
/// for each, and the counts of the rows so far.
#[derive(Drop)]
pub struct Judge {
    pub costs: LeastCosts,
    pub walks: Vec<Claimed>,
    pub counts: Counts,
}

impl Job for Judge {
    ghost use Rattle.std.specs.Prelude.{⊤, true};
    ghost use Rattle.jps_run.specs.Judging.{CanGoOn, HasJudged, IsJudged};

    type Item = Entry;

    ghost can_work = { λ _. ⊤ };

    ghost has_room = { CanGoOn };

    ghost has_worked = { HasJudged };

    ghost closes = { true };

    ghost is_whole = { IsJudged };

    ghost has_counted = { λ _ _ _ _ _. ⊤ };

    fn answer<L: Ledger>(
        &mut self,
        alloc: Global,
        item: Entry,
        lines: &mut Vec<u8>,
        steps: &mut Steps<L>,
    ) -> Result<(), NoMemory> {
        let claimed = &self.walks[self.counts.rows as usize];
        let ruling = ruling_on(alloc, &mut self.costs, item, claimed, steps)?;
        self.counts.count(ruling);
        put_ruling(lines, self.counts.rows, ruling)
    }

    fn close(&self, lines: &mut Vec<u8>) -> Result<u8, NoMemory> {
        self.counts.put(lines)?;
        Ok(self.counts.status())
    }
}

// The row of an entry whose query was settled so, by what is claimed of it.
fn ruling_by(costs: &LeastCosts, entry: Entry, claimed: &Claimed, settled: Settled) -> Ruling
    requires fit { IsFit claimed.now }
    requires settled { settled ≡ settled_of costs.now entry }
    ensures { result ≡ spec.ruling_by claimed.now costs.now settled }
{
    match settled {
        Settled::Scale => Ruling::Scale,
        Settled::Outside => Ruling::Outside,
        Settled::Blocked => Ruling::Blocked,
        Settled::Searched { from, to, least } => {
            Ruling::Judged(judge_claimed(costs.query_grid(from), from, to, claimed, least))
        }
    }
}

// The row of an entry, by what is claimed of it.
fn ruling_on<L: Ledger>(
    alloc: Global,
    costs: &mut LeastCosts,
    entry: Entry,
    claimed: &Claimed,
    steps: &mut Steps<L>,
) -> Result<Ruling, NoMemory>
    requires { IsFit claimed.now }
    ensures ruling { IfOk result (λ ruling. ruling ≡ spec.ruling_of costs.old (entry, claimed.now)) }
    ensures unchanged { costs.new ≡ costs.old }
{
    let settled = costs.settle(alloc, entry, steps)?;
    Ok(ruling_by(costs, entry, claimed, settled))
}

/// Judges what is claimed of the entries in order, and sums the rows up.
pub fn write_rulings<O: Sink, L: Ledger>(
    alloc: Global,
    mut job: Judge,
    entries: Vec<Entry>,
    out: &mut O,
    steps: &mut Steps<L>,
) -> Result<u8, Stop>
    requires ready { IsReady job (length entries.items) }
    ensures { SendsWhole (IsJudged job entries.items) (O.outflow out.old) (O.outflow out.new) result }
{
    work_items(alloc, &mut job, entries.as_slice(), out, steps)
}
