//! The command `drill`: what the commands of a seed come to on the map of the seed, in one line of
//! sums that is the same whatever the engine.

ghost use Rattle.std.specs.Prelude.{[], IfOk};
ghost use Rattle.word_list.specs.Request.{asking};
ghost use Rattle.word_list.specs.declared.rows.Command.TheVariants as command;
ghost use Rattle.jps_run.specs.Calls.{call_with};
ghost use Rattle.jps_run.specs.Opened.{IsWorkOf};

use crate::NoMemory;
use crate::replies::{Summary, Sums, session_on};
use crate::work::Work;
use map_maker::drill_script;
use std::alloc::Global;
use word_list::{Request, Settings};

/// The side of a drill's map, in cells.
const SIDE: u16 = 256;

/// How many percent of its cells are blocked.
const PERCENT: u8 = 25;

/// Makes the session and the commands of a seed.
pub(crate) fn drill(
    alloc: Global,
    request: Request<'_>,
    settings: Settings,
) -> Result<Work, NoMemory>
    ensures { IfOk result (IsWorkOf (call_with (asking command.Drill request.entry) settings) []) }
{
    let seed = request.seed(0);
    let map = map_maker::make(alloc, seed, SIDE, SIDE, PERCENT)?;
    let session = session_on(alloc, &map, settings)?;
    let commands = drill_script(alloc, seed)?;
    let job = Summary {
        session,
        sums: Sums::new(),
    };
    Ok(Work::Drill { job, commands })
}
