//! What commands come to, in one line of sums that is the same whatever the engine.

ghost use Rattle.std.specs.Prelude.{◌≡◌, ◌≤◌, ◌^◌, ◌++◌, ◌∷◌, [], List, OnOk, IfOk, length};
ghost use Rattle.edit_replay.specs.Replies.{IsShort, answer_of};
ghost use Rattle.jps_run.specs.Answering.{GoesOn};
ghost use Rattle.jps_run.specs.Rising.{RoseForCommand, RoseForCommands};
ghost use Rattle.jps_run.specs.Drill as spec;
ghost use Rattle.jps_run.specs.Drill.{IsShortFinding, finding_on};
ghost use Rattle.jps_run.specs.Drilling.{HasRoom, IsDrilled, sums_of, sums_text};
ghost use Rattle.jps_run.specs.Session.{session_replies};
ghost use Rattle.line_work.specs.Sending.{SendsWhole};

use crate::NoMemory;
use edit_replay::{EditReply, Reply, Session};
use grid_moves::Ground;
use io_edge::Sink;
use line_work::{Job, Stop, work_items};
use root2_cost::Cost;
use script_text::ScriptCommand;
use std::alloc::Global;
use std::sync::ledger::Ledger;
use steps::Steps;
use text_line::{put, put_number};

/// What a command comes to.
#[derive(Clone, Copy)]
pub enum Finding {
    /// A walk of this cost.
    Walk(Cost),
    /// No walk exists.
    None,
    /// An end of a query is blocked.
    Blocked,
    /// A cell lies outside the map.
    Outside,
    /// An edit changed its cell.
    Done,
    /// An edit's cell was already as asked.
    Same,
}

/// How many findings there are of each kind, and the sums of the walks' moves.
#[derive(Clone, Copy)]
pub struct Sums {
    pub walks: u64,
    pub none: u64,
    pub blocked: u64,
    pub done: u64,
    pub same: u64,
    pub straight: u64,
    pub diagonal: u64,
}

/// A session that works the commands of a drill in order, and the sums of what they come to.
#[derive(Drop)]
pub struct Summary {
    pub session: Session,
    pub sums: Sums,
}

impl Job for Summary {
    ghost use Rattle.std.specs.Prelude.{⊤, true};
    ghost use Rattle.jps_run.specs.Drilling.{HasDrilled, HaveCounted, IsDrilled, LeavesRoom};

    type Item = ScriptCommand;

    ghost can_work = { λ _. ⊤ };

    ghost has_room = { LeavesRoom };

    ghost has_worked = { HasDrilled };

    ghost closes = { true };

    ghost is_whole = { IsDrilled };

    ghost has_counted = { HaveCounted };

    fn answer<L: Ledger>(
        &mut self,
        alloc: Global,
        item: ScriptCommand,
        _lines: &mut Vec<u8>,
        steps: &mut Steps<L>,
    ) -> Result<(), NoMemory> {
        let found = find(alloc, &mut self.session, item, steps)?;
        self.sums.count(found);
        Ok(())
    }

    fn close(&self, lines: &mut Vec<u8>) -> Result<u8, NoMemory> {
        self.sums.put(lines)?;
        Ok(0)
    }
}

impl Sums {
    /// The sums before the first finding.
    pub fn new() -> Sums
        ensures { result ≡ sums_of [] }
    {
        Sums {
            walks: 0,
            none: 0,
            blocked: 0,
            done: 0,
            same: 0,
            straight: 0,
            diagonal: 0,
        }
    }

    // Counts one finding more.
    fn count(&mut self, found: Finding)
        requires room { HasRoom self.old }
        requires short { IsShortFinding found }
        ensures { (all : List Finding) → self.old ≡ sums_of all → self.new ≡ sums_of (all ++ found ∷ []) }
    {
        match found {
            Finding::Walk(cost) => {
                self.walks += 1;
                self.straight += u64::from(cost.a);
                self.diagonal += u64::from(cost.b);
            }
            Finding::None => self.none += 1,
            Finding::Blocked => self.blocked += 1,
            Finding::Outside => {}
            Finding::Done => self.done += 1,
            Finding::Same => self.same += 1,
        }
    }

    // Appends the counts of queries.
    fn put_queries(&self, out: &mut Vec<u8>) -> Result<(), NoMemory>
        ensures { OnOk result (out.new.items ≡ out.old.items
            ++ spec.queries_text self.now.walks self.now.none self.now.blocked) }
    {
        put_counted(out, b"drill walks ", self.walks)?;
        put_counted(out, b" none ", self.none)?;
        put_counted(out, b" blocked ", self.blocked)
    }

    // Appends the counts of edits.
    fn put_edits(&self, out: &mut Vec<u8>) -> Result<(), NoMemory>
        ensures { OnOk result (out.new.items ≡ out.old.items
            ++ spec.edits_text self.now.done self.now.same) }
    {
        put_counted(out, b" ok ", self.done)?;
        put_counted(out, b" same ", self.same)
    }

    // Appends the sums of costs.
    fn put_costs(&self, out: &mut Vec<u8>) -> Result<(), NoMemory>
        ensures { OnOk result (out.new.items ≡ out.old.items
            ++ spec.costs_text self.now.straight self.now.diagonal) }
    {
        put_counted(out, b" cost ", self.straight)?;
        put_counted(out, b" ", self.diagonal)?;
        put(out, b"\n")
    }

    // Appends the line.
    fn put(&self, out: &mut Vec<u8>) -> Result<(), NoMemory>
        ensures { OnOk result (out.new.items ≡ out.old.items ++ sums_text self.now) }
    {
        self.put_queries(out)?;
        self.put_edits(out)?;
        self.put_costs(out)
    }
}

// Appends a text and a number.
fn put_counted(out: &mut Vec<u8>, text: &[u8], n: u64) -> Result<(), NoMemory>
    ensures { OnOk result (out.new.items ≡ out.old.items ++ spec.counted text.now n) }
{
    put(out, text)?;
    put_number(out, n)
}

// What the reply to a query comes to.
fn finding_of(reply: &Reply) -> Finding
    requires { IsShort (answer_of reply.now) }
    ensures is { result ≡ spec.finding_of reply.now }
    ensures short { IsShortFinding result }
{
    match reply {
        Reply::Walk { cost, .. } => Finding::Walk(*cost),
        Reply::None { .. } => Finding::None,
        Reply::Outside => Finding::Outside,
        Reply::Blocked => Finding::Blocked,
    }
}

// What the reply to an edit comes to.
fn finding_of_edit(reply: EditReply) -> Finding
    ensures is { result ≡ spec.finding_of_edit reply }
    ensures short { IsShortFinding result }
{
    match reply {
        EditReply::Done => Finding::Done,
        EditReply::Same => Finding::Same,
        EditReply::Outside => Finding::Outside,
    }
}

// What a command comes to.
fn find<L: Ledger>(
    alloc: Global,
    session: &mut Session,
    command: ScriptCommand,
    steps: &mut Steps<L>,
) -> Result<Finding, NoMemory>
    ensures found { IfOk result
        (λ found. found ≡ finding_on (session_replies session.old) session.old.layers command) }
    ensures short { IfOk result (λ found. IsShortFinding found) }
    ensures edited { OnOk result (GoesOn session.old command session.new) }
    ensures counted { OnOk result (RoseForCommand session.old session.new command steps.old steps.new) }
{
    match command {
        ScriptCommand::Block { x, y } => Ok(finding_of_edit(session.edit(
            x,
            y,
            Ground::Blocked,
            steps,
        ))),
        ScriptCommand::Free { x, y } => Ok(finding_of_edit(session.edit(
            x,
            y,
            Ground::Land,
            steps,
        ))),
        ScriptCommand::Flood { x, y } => Ok(finding_of_edit(session.edit(
            x,
            y,
            Ground::Water,
            steps,
        ))),
        ScriptCommand::Query { sx, sy, gx, gy } => {
            let reply = session.query(alloc, sx, sy, gx, gy, steps)?;
            Ok(finding_of(&reply))
        }
    }
}

/// Sums up what the commands come to, in order, where none is summed up yet.
pub fn write_sums<O: Sink, L: Ledger>(
    alloc: Global,
    mut job: Summary,
    commands: Vec<ScriptCommand>,
    out: &mut O,
    steps: &mut Steps<L>,
) -> Result<u8, Stop>
    requires new { job.sums ≡ sums_of [] }
    requires few { length commands.items ≤ 2 ^ 32 }
    ensures sent { SendsWhole (IsDrilled job commands.items) (O.outflow out.old) (O.outflow out.new) result }
    ensures counted { OnOk result (RoseForCommands job.session commands.items steps.old steps.new) }
{
    work_items(alloc, &mut job, commands.as_slice(), out, steps)
}
