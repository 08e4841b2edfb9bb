//! The rows that judge a scenario.

ghost use Rattle.std.specs.Prelude.{◌≡◌, [], IfOk, OnOk};
ghost use Rattle.scen_text.specs.Lengths.{IsKept};
ghost use Rattle.edit_replay.specs.Replies.{IsShort, answer_of};
ghost use Rattle.jps_run.specs.Answerers.{CanAnswer, who_of};
ghost use Rattle.jps_run.specs.Rising.{RoseForEntries, RoseForEntry};
ghost use Rattle.jps_run.specs.ScenRows.{AreAllRows};
ghost use Rattle.jps_run.specs.Rows as rows;
ghost use Rattle.jps_run.specs.Who.{replies_by};
ghost use Rattle.line_work.specs.Sending.{SendsWhole};
ghost use Rattle.call_files.specs.Reading.{AreKept};
ghost use Rattle.jps_run.specs.Tally.{tally_of};

use crate::NoMemory;
use crate::replies::Answerer;
use crate::replies::row::{Row, Tally, put_row};
use cell_lines::AskedEnds;
use edit_replay::Reply;
use io_edge::Sink;
use line_work::{Job, Stop, work_items};
use root2_cost::{Decimal, judge};
use scen_maker::has_sides;
use scen_text::Entry;
use std::alloc::Global;
use std::sync::ledger::Ledger;
use steps::Steps;
use word_list::Show;

/// What judges a scenario's entries in order by the one who answers, and the counts of their rows.
#[derive(Drop)]
pub struct Scen {
    pub answerer: Answerer,
    pub show: Show,
    pub tally: Tally,
}

impl Job for Scen {
    ghost use Rattle.std.specs.Prelude.{true};
    ghost use Rattle.scen_text.specs.Lengths.{IsKept};
    ghost use Rattle.jps_run.specs.ScenRows.{HasRows, HasRoom, HaveCounted, AreAllRows};

    type Item = Entry;

    ghost can_work = { λ entry. IsKept entry.length };

    ghost has_room = { HasRoom };

    ghost has_worked = { HasRows };

    ghost closes = { true };

    ghost is_whole = { AreAllRows };

    ghost has_counted = { HaveCounted };

    fn answer<L: Ledger>(
        &mut self,
        alloc: Global,
        item: Entry,
        lines: &mut Vec<u8>,
        steps: &mut Steps<L>,
    ) -> Result<(), NoMemory> {
        let row = row_of(alloc, &mut self.answerer, item, steps)?;
        self.tally.count(row);
        put_row(lines, self.show, self.tally.rows, row)
    }

    fn close(&self, lines: &mut Vec<u8>) -> Result<u8, NoMemory> {
        self.tally.put(lines, self.show)?;
        Ok(self.tally.status())
    }
}

// What the reply makes of an entry with this length.
fn row_of_reply(listed: Decimal, reply: &Reply) -> Row
    requires kept { IsKept listed }
    requires short { IsShort (answer_of reply.now) }
    ensures { result ≡ rows.row_of listed reply.now }
{
    match reply {
        Reply::Outside => Row::Outside,
        Reply::Blocked => Row::Blocked,
        Reply::None { taken } => Row::None {
            taken: taken.as_slice().len() as u64,
        },
        Reply::Walk { cost, taken, .. } => Row::Judged {
            verdict: judge(listed, *cost),
            cost: *cost,
            taken: taken.as_slice().len() as u64,
        },
    }
}

// The row of an entry, by the one who answers.
fn row_of<L: Ledger>(
    alloc: Global,
    answerer: &mut Answerer,
    entry: Entry,
    steps: &mut Steps<L>,
) -> Result<Row, NoMemory>
    requires kept { IsKept entry.length }
    requires ready { CanAnswer answerer.old }
    ensures row { IfOk result (λ row. row ≡ rows.row_for (replies_by (who_of answerer.old).by)
        (who_of answerer.old).layers entry) }
    ensures same { answerer.new ≡ answerer.old }
    ensures counted { OnOk result (RoseForEntry (who_of answerer.old) entry steps.old steps.new) }
{
    if !has_sides(answerer.width(), answerer.height(), entry) {
        return Ok(Row::Scale);
    }
    let ends = AskedEnds {
        sx: entry.sx,
        sy: entry.sy,
        gx: entry.gx,
        gy: entry.gy,
    };
    let reply = answerer.query(alloc, ends, steps)?;
    Ok(row_of_reply(entry.length, &reply))
}

/// Judges the lengths of the entries in order, where none is judged yet, and sums their rows up.
pub fn write_rows<O: Sink, L: Ledger>(
    alloc: Global,
    mut job: Scen,
    entries: Vec<Entry>,
    out: &mut O,
    steps: &mut Steps<L>,
) -> Result<u8, Stop>
    requires ready { CanAnswer job.answerer }
    requires new { job.tally ≡ tally_of [] }
    requires kept { AreKept entries.items }
    ensures sent { SendsWhole (AreAllRows job entries.items) (O.outflow out.old) (O.outflow out.new) result }
    ensures counted { OnOk result (RoseForEntries (who_of job.answerer) entries.items steps.old steps.new) }
{
    work_items(alloc, &mut job, entries.as_slice(), out, steps)
}
