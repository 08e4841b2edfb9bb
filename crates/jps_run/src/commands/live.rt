//! The command `live`: the answers to a script that comes in.

ghost use Rattle.std.specs.Prelude.{◌≡◌};
ghost use Rattle.word_list.specs.Request.{IsSound, asking};
ghost use Rattle.word_list.specs.declared.rows.Command.TheVariants as command;
ghost use Rattle.jps_run.specs.Calls.{call_with};
ghost use Rattle.jps_run.specs.Opened.{OpensListener};

use crate::replies::{Answers, open_answers};
use io_edge::Files;
use line_work::Stop;
use std::alloc::Global;
use word_list::{Request, Settings};

/// Opens a session that answers what comes in.
pub(crate) fn live<F: Files>(
    alloc: Global,
    request: Request<'_>,
    settings: Settings,
    files: &mut F,
) -> Result<Answers, Stop>
    requires { IsSound request settings }
    ensures opened { OpensListener (call_with (asking command.Live request.entry) settings)
        (F.disk files.old) (F.disk files.new) result }
    ensures unchanged { (F.disk files.new).holds ≡ (F.disk files.old).holds }
{
    open_answers(alloc, files, request.name(0), request.tables, settings)
}
