//! The command `check`: whether a certificate proves what it claims.

ghost use Rattle.std.specs.Prelude.{◌≡◌};
ghost use Rattle.word_list.specs.Request.{asking};
ghost use Rattle.word_list.specs.declared.rows.Command.TheVariants as command;
ghost use Rattle.jps_run.specs.Calls.{call_with};
ghost use Rattle.jps_run.specs.Opened.{Opens, opened_as};

use crate::work::Work;
use call_files::open_two;
use grid_answers::verdict;
use grid_moves::Layers;
use io_edge::Files;
use line_work::{Printed, Stop};
use potential_check::Certificate;
use std::alloc::Global;
use word_list::{Request, Settings};

/// Makes the line that says whether the certificate is accepted on its grid of the map, or the
/// first clause that it fails.
pub(crate) fn check<F: Files>(
    alloc: Global,
    request: Request<'_>,
    settings: Settings,
    files: &mut F,
) -> Result<Work, Stop>
    ensures opened { Opens (call_with (asking command.Check request.entry) settings)
        (F.disk files.old) (F.disk files.new) (opened_as result) }
    ensures unchanged { (F.disk files.new).holds ≡ (F.disk files.old).holds }
{
    let map = request.name(0);
    let cert = request.name(1);
    let both: (Layers, Certificate) = open_two(alloc, files, map, settings, cert, &())?;
    let (layers, certificate) = both;
    let grid = layers.query_grid(certificate.start);
    let Printed { text, status } = verdict(alloc, grid, &certificate)?;
    Ok(Work::Print { text, status })
}
