//! The command `judge`: what another program tells for a scenario, judged.

ghost use Rattle.std.specs.Prelude.{◌≡◌};
ghost use Rattle.word_list.specs.Request.{asking};
ghost use Rattle.word_list.specs.declared.rows.Command.TheVariants as command;
ghost use Rattle.jps_run.specs.Calls.{call_with};
ghost use Rattle.jps_run.specs.Opened.{Opens, opened_as};

use crate::replies::{Case, Counts, Judge, read_case};
use crate::work::Work;
use io_edge::Files;
use line_work::Stop;
use std::alloc::Global;
use word_list::{Request, Settings};

/// Opens a scenario and what is claimed of its entries.
pub(crate) fn judge<F: Files>(
    alloc: Global,
    request: Request<'_>,
    settings: Settings,
    files: &mut F,
) -> Result<Work, Stop>
    ensures opened { Opens (call_with (asking command.Judge request.entry) settings)
        (F.disk files.old) (F.disk files.new) (opened_as result) }
    ensures unchanged { (F.disk files.new).holds ≡ (F.disk files.old).holds }
{
    let map = request.name(0);
    let scen = request.name(1);
    let walks = request.name(2);
    let Case {
        costs,
        entries,
        walks,
    } = read_case(alloc, files, map, scen, walks, settings)?;
    let job = Judge {
        costs,
        walks,
        counts: Counts::new(),
    };
    Ok(Work::Judge { job, entries })
}
