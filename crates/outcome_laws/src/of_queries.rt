//! What `run` promises of a plain query, for who reads little.

ghost use Rattle.std.specs.Prelude.{◌≡◌, map, string_bytes};
ghost use Rattle.outcome_laws.specs.Query.{PrintsQuery};

use io_edge::{Files, Sink, Source};
use jps_run::run;
use std::alloc::Global;
use std::sync::ledger::Ledger;
use steps::Steps;

/// `run` itself: where its words are `query`, a name and four numbers, the file of that name holds a text
/// that spells a map, and it answers the status 0, `out` got the line of a right answer.
pub fn run_query<F: Files, I: Source, O: Sink, E: Sink, L: Ledger>(
    alloc: Global,
    words: &[String],
    files: &mut F,
    input: &mut I,
    out: &mut O,
    err: &mut E,
    steps: &mut Steps<L>,
) -> u8
    ensures prints { result ≡ 0 → PrintsQuery (map string_bytes words.now) (F.disk files.old).holds
        (O.outflow out.old) (O.outflow out.new) }
{
    run(alloc, words, files, input, out, err, steps)
}
