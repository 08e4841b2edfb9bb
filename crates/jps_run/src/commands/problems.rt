//! The command `problems`: a scenario from a number.

ghost use Rattle.std.specs.Prelude.{◌≡◌};
ghost use Rattle.word_list.specs.Request.{asking};
ghost use Rattle.word_list.specs.declared.rows.Command.TheVariants as command;
ghost use Rattle.jps_run.specs.Calls.{call_with};
ghost use Rattle.jps_run.specs.Opened.{Opens, opened_as};

use crate::work::Work;
use call_files::open_one;
use io_edge::Files;
use line_work::{Printed, Stop};
use scen_maker::{LeastCosts, problems_text};
use std::alloc::Global;
use word_list::{Request, Settings};

/// Makes so many problems on the map. Each is searched before the first byte is written.
pub(crate) fn problems<F: Files>(
    alloc: Global,
    request: Request<'_>,
    settings: Settings,
    files: &mut F,
) -> Result<Work, Stop>
    ensures opened { Opens (call_with (asking command.Problems request.entry) settings)
        (F.disk files.old) (F.disk files.new) (opened_as result) }
    ensures unchanged { (F.disk files.new).holds ≡ (F.disk files.old).holds }
{
    let map = request.name(0);
    let seed = request.seed(1);
    let count = request.count(2);
    let mut costs: LeastCosts = open_one(alloc, files, map, settings)?;
    let printed = problems_text(alloc, &mut costs, map.as_bytes(), seed, count)?;
    let Printed { text, status } = printed;
    Ok(Work::Print { text, status })
}
