//! The command `solve`: the answers to a script.

ghost use Rattle.std.specs.Prelude.{◌≡◌};
ghost use Rattle.word_list.specs.Request.{IsSound, asking};
ghost use Rattle.word_list.specs.declared.rows.Command.TheVariants as command;
ghost use Rattle.jps_run.specs.Opened.{Opens, opened_as};
ghost use Rattle.jps_run.specs.Calls.{call_with};

use crate::replies::open_answers;
use crate::work::Work;
use call_files::read_file;
use io_edge::Files;
use line_work::Stop;
use script_text::ScriptCommand;
use std::alloc::Global;
use word_list::{Request, Settings};

/// Opens a script, which is read behind the files of its session.
pub(crate) fn solve<F: Files>(
    alloc: Global,
    request: Request<'_>,
    settings: Settings,
    files: &mut F,
) -> Result<Work, Stop>
    requires { IsSound request settings }
    ensures opened { Opens (call_with (asking command.Solve request.entry) settings)
        (F.disk files.old) (F.disk files.new) (opened_as result) }
    ensures unchanged { (F.disk files.new).holds ≡ (F.disk files.old).holds }
{
    let map = request.name(0);
    let script = request.name(1);
    let job = open_answers(alloc, files, map, request.tables, settings)?;
    let commands: Vec<ScriptCommand> = read_file(alloc, files, script, &())?;
    Ok(Work::Answer { job, commands })
}
