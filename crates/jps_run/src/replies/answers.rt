//! The answers to commands: edits and queries of a session.

ghost use Rattle.std.specs.Prelude.{◌≡◌, ◌++◌, OnOk};
ghost use Rattle.jps_run.specs.Answering.{GoesOn, IsSolved};
ghost use Rattle.jps_run.specs.Answers.{answer_line};
ghost use Rattle.jps_run.specs.Session.{session_replies};
ghost use Rattle.jps_run.specs.Rising.{RoseForCommand, RoseForCommands};
ghost use Rattle.line_work.specs.Sending.{SendsWhole};

use crate::NoMemory;
use crate::replies::session_on;
use call_files::{Extent, OfMap};
use edit_replay::Session;
use grid_moves::Ground;
use io_edge::Sink;
use line_work::{Job, Stop, work_items};
use map_text::MapText;
use reply_lines::{put_edit_reply, put_reply};
use script_text::ScriptCommand;
use std::alloc::Global;
use std::sync::ledger::Ledger;
use steps::Steps;
use word_list::{Settings, Show};

/// A session that answers commands in order, and what its lines show.
#[derive(Drop)]
pub struct Answers {
    pub session: Session,
    pub show: Show,
}

impl OfMap for Answers {
    ghost use Rattle.call_files.specs.Kinds.{extent_for};
    ghost use Rattle.jps_run.specs.Answering.{AreAnswersOn};

    ghost extent_of = { λ set. extent_for set.pick };

    ghost is_of_map = { AreAnswersOn };

    fn extent(settings: Settings) -> Extent {
        Extent::of(settings.pick)
    }

    fn of_map(alloc: Global, map: MapText, settings: Settings) -> Result<Answers, NoMemory> {
        let session = session_on(alloc, &map, settings)?;
        let show = settings.show;
        Ok(Answers { session, show })
    }
}

impl Job for Answers {
    ghost use Rattle.std.specs.Prelude.{⊤, false};
    ghost use Rattle.jps_run.specs.Answering.{HasAnswered, HaveCounted, IsSolved};

    type Item = ScriptCommand;

    ghost can_work = { λ _. ⊤ };

    ghost has_room = { λ _ _. ⊤ };

    ghost has_worked = { HasAnswered };

    ghost closes = { false };

    ghost is_whole = { IsSolved };

    ghost has_counted = { HaveCounted };

    fn answer<L: Ledger>(
        &mut self,
        alloc: Global,
        item: ScriptCommand,
        lines: &mut Vec<u8>,
        steps: &mut Steps<L>,
    ) -> Result<(), NoMemory> {
        put_answer(alloc, &mut self.session, self.show, item, lines, steps)
    }

    fn close(&self, _lines: &mut Vec<u8>) -> Result<u8, NoMemory> {
        Ok(0)
    }
}

// Answers one command, and appends its line.
fn put_answer<L: Ledger>(
    alloc: Global,
    session: &mut Session,
    show: Show,
    command: ScriptCommand,
    lines: &mut Vec<u8>,
    steps: &mut Steps<L>,
) -> Result<(), NoMemory>
    ensures answered { OnOk result (lines.new.items ≡ lines.old.items
        ++ answer_line (session_replies session.old) show session.old.layers command) }
    ensures edited { OnOk result (GoesOn session.old command session.new) }
    ensures counted { OnOk result (RoseForCommand session.old session.new command steps.old steps.new) }
{
    match command {
        ScriptCommand::Block { x, y } => put_edit_reply(
            lines,
            session.edit(x, y, Ground::Blocked, steps),
        ),
        ScriptCommand::Free { x, y } => put_edit_reply(
            lines,
            session.edit(x, y, Ground::Land, steps),
        ),
        ScriptCommand::Flood { x, y } => put_edit_reply(
            lines,
            session.edit(x, y, Ground::Water, steps),
        ),
        ScriptCommand::Query { sx, sy, gx, gy } => {
            let reply = session.query(alloc, sx, sy, gx, gy, steps)?;
            put_reply(alloc, lines, &reply, session.width(), show)
        }
    }
}

/// Answers the commands in order, each by the session as the edits before it leave it.
pub fn write_answers<O: Sink, L: Ledger>(
    alloc: Global,
    mut job: Answers,
    commands: Vec<ScriptCommand>,
    out: &mut O,
    steps: &mut Steps<L>,
) -> Result<u8, Stop>
    ensures sent { SendsWhole (IsSolved job commands.items) (O.outflow out.old) (O.outflow out.new) result }
    ensures counted { OnOk result (RoseForCommands job.session commands.items steps.old steps.new) }
{
    work_items(alloc, &mut job, commands.as_slice(), out, steps)
}
