//! The command `query`: one reply.

ghost use Rattle.std.specs.Prelude.{◌≡◌};
ghost use Rattle.word_list.specs.Request.{IsSound, asking};
ghost use Rattle.word_list.specs.declared.rows.Command.TheVariants as command;
ghost use Rattle.jps_run.specs.Calls.{call_with};
ghost use Rattle.jps_run.specs.Opened.{Opens, opened_as};

use crate::commands::ends_of;
use crate::commands::query_work::work_on;
use crate::replies::open_basis;
use crate::work::Work;
use io_edge::Files;
use line_work::Stop;
use std::alloc::Global;
use word_list::{Request, Settings};

/// Opens one query.
pub(crate) fn query<F: Files>(
    alloc: Global,
    request: Request<'_>,
    settings: Settings,
    files: &mut F,
) -> Result<Work, Stop>
    requires { IsSound request settings }
    ensures opened { Opens (call_with (asking command.Query request.entry) settings)
        (F.disk files.old) (F.disk files.new) (opened_as result) }
    ensures unchanged { (F.disk files.new).holds ≡ (F.disk files.old).holds }
{
    let map = request.name(0);
    let ends = ends_of(request);
    let basis = open_basis(alloc, files, map, request.tables, settings)?;
    let work = work_on(alloc, basis, ends, settings.show)?;
    Ok(work)
}
