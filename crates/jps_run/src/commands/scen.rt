//! The command `scen`: the rows that judge a scenario, and their sum.

ghost use Rattle.std.specs.Prelude.{◌≡◌};
ghost use Rattle.word_list.specs.Request.{IsSound, asking};
ghost use Rattle.word_list.specs.declared.rows.Command.TheVariants as command;
ghost use Rattle.jps_run.specs.Opened.{Opens, opened_as};
ghost use Rattle.jps_run.specs.Calls.{call_with};

use crate::replies::{Answerer, Scen, Tally, open_basis};
use crate::work::Work;
use call_files::read_file;
use io_edge::Files;
use line_work::Stop;
use scen_text::Entry;
use std::alloc::Global;
use word_list::{Request, Settings};

/// Opens a scenario. By an engine for small maps all boxes or first moves are made once, behind both files.
pub(crate) fn scen<F: Files>(
    alloc: Global,
    request: Request<'_>,
    settings: Settings,
    files: &mut F,
) -> Result<Work, Stop>
    requires { IsSound request settings }
    ensures opened { Opens (call_with (asking command.Scen request.entry) settings)
        (F.disk files.old) (F.disk files.new) (opened_as result) }
    ensures unchanged { (F.disk files.new).holds ≡ (F.disk files.old).holds }
{
    let map = request.name(0);
    let name = request.name(1);
    let basis = open_basis(alloc, files, map, request.tables, settings)?;
    let entries: Vec<Entry> = read_file(alloc, files, name, &())?;
    let answerer = Answerer::new(alloc, basis)?;
    let job = Scen {
        answerer,
        show: settings.show,
        tally: Tally::new(),
    };
    Ok(Work::Scen { job, entries })
}
