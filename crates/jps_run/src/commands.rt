//! The commands: a small module each, which opens it and promises one thing.

ghost use Rattle.std.specs.Prelude.{◌≡◌, map, string_bytes};
ghost use Rattle.word_list.specs.Kinds.{number_at};
ghost use Rattle.word_list.specs.Request.{IsSound, called};
ghost use Rattle.jps_run.specs.Opened.{Opens, opened_as};

mod boxes;
mod check;
mod costs;
mod draw;
mod drill;
mod judge;
mod lengths;
mod live;
mod make;
mod moves;
mod problems;
mod prove;
mod query;
mod query_work;
mod scen;
mod serve;
mod solve;
mod tables;

use crate::replies::Answers;
use crate::texts::{help_text, version_text};
use crate::work::Work;
use boxes::boxes;
use cell_lines::AskedEnds;
use check::check;
use costs::costs;
use draw::draw;
use drill::drill;
use io_edge::Files;
use judge::judge;
use lengths::lengths;
use line_server::LineServer;
use line_work::Stop;
use live::live;
use make::make;
use moves::moves;
use problems::problems;
use prove::prove;
use query::query;
use scen::scen;
use serve::serve;
use solve::solve;
use std::alloc::Global;
use tables::tables;
use word_list::{Command, Request, Settings};

/// A call whose files are read: what its command made of them.
#[derive(Drop)]
pub(crate) enum Opened {
    /// Work whose output is settled by what was read.
    Work(Work),
    /// A session that answers what comes in.
    Listener(Answers),
    /// A server of the lines that come in.
    Server(LineServer),
}

/// Reads the files of what is asked for, and makes what is to be done with them.
pub(crate) fn open<F: Files>(
    alloc: Global,
    request: Request<'_>,
    settings: Settings,
    files: &mut F,
) -> Result<Opened, Stop>
    requires { IsSound request settings }
    ensures opened { Opens (called request.entry settings) (F.disk files.old) (F.disk files.new) result }
    ensures unchanged { (F.disk files.new).holds ≡ (F.disk files.old).holds }
{
    match request.command {
        Command::Query => as_work(query(alloc, request, settings, files)),
        Command::Solve => as_work(solve(alloc, request, settings, files)),
        Command::Scen => as_work(scen(alloc, request, settings, files)),
        Command::Judge => as_work(judge(alloc, request, settings, files)),
        Command::Lengths => as_work(lengths(alloc, request, settings, files)),
        Command::Problems => as_work(problems(alloc, request, settings, files)),
        Command::Prove => as_work(prove(alloc, request, settings, files)),
        Command::Check => as_work(check(alloc, request, settings, files)),
        Command::Make => Ok(Opened::Work(make(alloc, request, settings)?)),
        Command::Drill => Ok(Opened::Work(drill(alloc, request, settings)?)),
        Command::Draw => as_work(draw(alloc, request, settings, files)),
        Command::Costs => as_work(costs(alloc, request, settings, files)),
        Command::Tables => as_work(tables(alloc, request, settings, files)),
        Command::Boxes => as_work(boxes(alloc, request, settings, files)),
        Command::Moves => as_work(moves(alloc, request, settings, files)),
        Command::Live => Ok(Opened::Listener(live(alloc, request, settings, files)?)),
        Command::Serve => Ok(Opened::Server(serve(alloc, request, settings, files)?)),
        Command::Help => Ok(Opened::Work(Work::Say(help_text()))),
        Command::Version => Ok(Opened::Work(Work::Say(version_text()))),
    }
}

// What a call is opened as, where that is work.
fn as_work(work: Result<Work, Stop>) -> Result<Opened, Stop>
    ensures { result ≡ opened_as work }
{
    Ok(Opened::Work(work?))
}

/// The ends of a query that the words tell from the second one on.
fn ends_of(request: Request<'_>) -> AskedEnds
    ensures sx { result.sx ≡ number_at (map string_bytes request.entry.words.now) 1 }
    ensures sy { result.sy ≡ number_at (map string_bytes request.entry.words.now) 2 }
    ensures gx { result.gx ≡ number_at (map string_bytes request.entry.words.now) 3 }
    ensures gy { result.gy ≡ number_at (map string_bytes request.entry.words.now) 4 }
{
    AskedEnds {
        sx: request.number(1),
        sy: request.number(2),
        gx: request.number(3),
        gy: request.number(4),
    }
}
