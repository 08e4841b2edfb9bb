//! The command `lengths`: a scenario again, with the least lengths.

ghost use Rattle.std.specs.Prelude.{◌≡◌};
ghost use Rattle.word_list.specs.Request.{asking};
ghost use Rattle.word_list.specs.declared.rows.Command.TheVariants as command;
ghost use Rattle.jps_run.specs.Calls.{call_with};
ghost use Rattle.jps_run.specs.Opened.{Opens, opened_as};

use crate::work::Work;
use call_files::{Scenario, open_two};
use io_edge::Files;
use line_work::Stop;
use scen_maker::{LeastCosts, Lengths};
use std::alloc::Global;
use word_list::{Request, Settings};

/// Opens a scenario, whose text is kept: there the names of its entries stand.
pub(crate) fn lengths<F: Files>(
    alloc: Global,
    request: Request<'_>,
    settings: Settings,
    files: &mut F,
) -> Result<Work, Stop>
    ensures opened { Opens (call_with (asking command.Lengths request.entry) settings)
        (F.disk files.old) (F.disk files.new) (opened_as result) }
    ensures unchanged { (F.disk files.new).holds ≡ (F.disk files.old).holds }
{
    let map = request.name(0);
    let scen = request.name(1);
    let both: (LeastCosts, Scenario) = open_two(alloc, files, map, settings, scen, &())?;
    let (costs, Scenario { text, entries }) = both;
    let job = Lengths {
        costs,
        text,
        all: true,
    };
    Ok(Work::Lengths { job, entries })
}
