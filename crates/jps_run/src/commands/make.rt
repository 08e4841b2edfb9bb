//! The command `make`: the map of a seed.

ghost use Rattle.std.specs.Prelude.{[], IfOk};
ghost use Rattle.word_list.specs.Request.{asking};
ghost use Rattle.word_list.specs.declared.rows.Command.TheVariants as command;
ghost use Rattle.jps_run.specs.Opened.{IsWorkOf};
ghost use Rattle.jps_run.specs.Calls.{call_with};

use crate::NoMemory;
use crate::work::Work;
use map_text::write_map;
use std::alloc::Global;
use word_list::{Request, Settings};

/// Makes the map of a seed, with so many percent of its cells blocked.
pub(crate) fn make(
    alloc: Global,
    request: Request<'_>,
    settings: Settings,
) -> Result<Work, NoMemory>
    ensures { IfOk result (IsWorkOf (call_with (asking command.Make request.entry) settings) []) }
{
    let seed = request.seed(0);
    let w = request.side(1);
    let h = request.side(2);
    let percent = request.percent(3);
    let map = map_maker::make(alloc, seed, w, h, percent)?;
    let mut text = Vec::new(alloc);
    write_map(&map, &mut text)?;
    Ok(Work::Print { text, status: 0 })
}
