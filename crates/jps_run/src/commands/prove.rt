//! The command `prove`: a certificate of the least cost, or that no walk exists.

ghost use Rattle.std.specs.Prelude.{◌≡◌};
ghost use Rattle.word_list.specs.Request.{asking};
ghost use Rattle.word_list.specs.declared.rows.Command.TheVariants as command;
ghost use Rattle.jps_run.specs.Calls.{call_with};
ghost use Rattle.jps_run.specs.Opened.{Opens, opened_as};

use crate::commands::ends_of;
use crate::work::Work;
use call_files::open_one;
use grid_answers::proof_of;
use grid_moves::Layers;
use io_edge::Files;
use line_work::{Printed, Stop};
use std::alloc::Global;
use word_list::{Request, Settings};

/// Makes the certificate of a query, or the line that says why there is none.
pub(crate) fn prove<F: Files>(
    alloc: Global,
    request: Request<'_>,
    settings: Settings,
    files: &mut F,
) -> Result<Work, Stop>
    ensures opened { Opens (call_with (asking command.Prove request.entry) settings)
        (F.disk files.old) (F.disk files.new) (opened_as result) }
    ensures unchanged { (F.disk files.new).holds ≡ (F.disk files.old).holds }
{
    let map = request.name(0);
    let ends = ends_of(request);
    let layers: Layers = open_one(alloc, files, map, settings)?;
    let Printed { text, status } = proof_of(alloc, &layers, ends)?;
    Ok(Work::Print { text, status })
}
