//! The command `serve`: the answers to lines that come in, without end.

ghost use Rattle.std.specs.Prelude.{◌≡◌};
ghost use Rattle.word_list.specs.Request.{IsSound, asking};
ghost use Rattle.word_list.specs.declared.rows.Command.TheVariants as command;
ghost use Rattle.jps_run.specs.Calls.{call_with};
ghost use Rattle.jps_run.specs.Opened.{OpensServer};

use crate::replies::{Answers, open_answers};
use io_edge::Files;
use line_server::LineServer;
use line_work::Stop;
use std::alloc::Global;
use word_list::{Request, Settings};

/// Opens a server of the lines that come in, with all memory that it keeps.
pub(crate) fn serve<F: Files>(
    alloc: Global,
    request: Request<'_>,
    settings: Settings,
    files: &mut F,
) -> Result<LineServer, Stop>
    requires { IsSound request settings }
    ensures opened { OpensServer (call_with (asking command.Serve request.entry) settings)
        (F.disk files.old) (F.disk files.new) result }
    ensures unchanged { (F.disk files.new).holds ≡ (F.disk files.old).holds }
{
    let job = open_answers(alloc, files, request.name(0), request.tables, settings)?;
    let Answers { session, show } = job;
    let server = LineServer::new(alloc, session, show)?;
    Ok(server)
}
