//! The command `tables`: the tables of a map as bytes, for other programs.

ghost use Rattle.std.specs.Prelude.{◌≡◌};
ghost use Rattle.word_list.specs.Request.{asking};
ghost use Rattle.word_list.specs.declared.rows.Command.TheVariants as command;
ghost use Rattle.jps_run.specs.Calls.{call_with};
ghost use Rattle.jps_run.specs.Opened.{Opens, opened_as};

use crate::work::Work;
use call_files::open_one;
use grid_answers::file_of;
use grid_moves::Layers;
use io_edge::Files;
use line_work::Stop;
use std::alloc::Global;
use word_list::{Request, Settings};

/// Makes the tables of a map, and opens their file.
pub(crate) fn tables<F: Files>(
    alloc: Global,
    request: Request<'_>,
    settings: Settings,
    files: &mut F,
) -> Result<Work, Stop>
    ensures opened { Opens (call_with (asking command.Tables request.entry) settings)
        (F.disk files.old) (F.disk files.new) (opened_as result) }
    ensures unchanged { (F.disk files.new).holds ≡ (F.disk files.old).holds }
{
    let map = request.name(0);
    let layers: Layers = open_one(alloc, files, map, settings)?;
    let file = file_of(alloc, &layers)?;
    Ok(Work::Tables(file))
}
