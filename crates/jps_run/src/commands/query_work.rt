//! The work on one query. A session answers it as a script of one command; by boxes or first moves the reply
//! is made at once, with no more than it asks for.

ghost use Rattle.std.specs.Prelude.{◌≡◌, ◌<◌, [], ◌∷◌, IfOk};
ghost use Rattle.script_text.specs.declared.command.ScriptCommand.TheVariants.{Query};
ghost use Rattle.jps_run.specs.Answerers.{who_from};
ghost use Rattle.reply_lines.specs.Lines.{Unfolds, reply_line};
ghost use Rattle.jps_run.specs.Querying.{IsQueryWork};
ghost use Rattle.jps_run.specs.Who as spec;
ghost use Rattle.jps_run.specs.Who.{who_is};

use crate::NoMemory;
use crate::replies::{Answers, Basis, small_reply};
use crate::work::Work;
use cell_lines::AskedEnds;
use edit_replay::{Reply, Session};
use grid_moves::{Layers, Terrain};
use reply_lines::put_reply;
use script_text::ScriptCommand;
use std::alloc::Global;
use word_list::{Show, SmallEngine};

// The query as the commands of a script.
fn commands_of(alloc: Global, ends: AskedEnds) -> Result<Vec<ScriptCommand>, NoMemory>
    ensures { IfOk result (λ commands. commands.items ≡ Query ends.sx ends.sy ends.gx ends.gy ∷ []) }
{
    let AskedEnds { sx, sy, gx, gy } = ends;
    let mut commands = Vec::new(alloc);
    commands.push(ScriptCommand::Query { sx, sy, gx, gy })?;
    Ok(commands)
}

// The line of a reply, on a map of this width.
fn line_of(alloc: Global, reply: &Reply, width: u16, show: Show) -> Result<Vec<u8>, NoMemory>
    requires unfolds { Unfolds reply.now }
    requires some { 0 < width }
    ensures { IfOk result (λ text. text.items ≡ reply_line width show reply.now) }
{
    let mut line = Vec::new(alloc);
    put_reply(alloc, &mut line, reply, width, show)?;
    Ok(line)
}

// The work of a session on one query.
fn by_session(
    alloc: Global,
    session: Session,
    ends: AskedEnds,
    show: Show,
) -> Result<Work, NoMemory>
    ensures { IfOk result (IsQueryWork (who_is session) show
        (record { x = ends.sx; y = ends.sy }) (record { x = ends.gx; y = ends.gy })) }
{
    let commands = commands_of(alloc, ends)?;
    let job = Answers { session, show };
    Ok(Work::Answer { job, commands })
}

// The line of the reply by an engine for small maps.
fn by_small(
    alloc: Global,
    layers: &Layers,
    engine: SmallEngine,
    ends: AskedEnds,
    show: Show,
) -> Result<Work, NoMemory>
    ensures { IfOk result (IsQueryWork (record { layers = layers.now; by = spec.by_small engine }) show
        (record { x = ends.sx; y = ends.sy }) (record { x = ends.gx; y = ends.gy })) }
{
    let reply = small_reply(alloc, layers, engine, ends)?;
    let text = line_of(alloc, &reply, layers.land().width(), show)?;
    Ok(Work::Print { text, status: 0 })
}

/// The work on one query, by what was made of a map.
pub fn work_on(alloc: Global, basis: Basis, ends: AskedEnds, show: Show) -> Result<Work, NoMemory>
    ensures { IfOk result (IsQueryWork (who_from basis) show
        (record { x = ends.sx; y = ends.sy }) (record { x = ends.gx; y = ends.gy })) }
{
    match basis {
        Basis::Session(session) => by_session(alloc, session, ends, show),
        Basis::Small { layers, engine } => by_small(alloc, &layers, engine, ends, show),
    }
}
