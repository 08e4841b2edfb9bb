//! What is to be judged, as it is read from files.

ghost use Rattle.std.specs.Prelude.{◌≡◌, ◌∷◌, []};
ghost use Rattle.call_files.specs.Files.{file_of};
ghost use Rattle.call_files.specs.Reading.{open_stops};
ghost use Rattle.call_files.specs.declared.kind.TextKind.TheVariants as kinds;
ghost use Rattle.line_work.specs.Stops.{EndsOrStops};
ghost use Rattle.jps_run.specs.Cases.{IsCaseOf};

use call_files::{read_file, read_map_file};
use io_edge::Files;
use line_work::Stop;
use scen_maker::LeastCosts;
use scen_text::Entry;
use std::alloc::Global;
use walk_judge::Claimed;
use word_list::Settings;

/// What is to be judged: a map, the entries of a scenario, and what is claimed of each.
#[derive(Drop)]
pub struct Case {
    pub costs: LeastCosts,
    pub entries: Vec<Entry>,
    pub walks: Vec<Claimed>,
}

/// Reads the map, the scenario, and then the walks, of which there has to be one for each entry.
pub fn read_case<F: Files>(
    alloc: Global,
    files: &mut F,
    map: &str,
    scen: &str,
    walks: &str,
    settings: Settings,
) -> Result<Case, Stop>
    ensures read { EndsOrStops (IsCaseOf settings (F.disk files.old).holds map.now scen.now walks.now)
        (open_stops (F.disk files.old) (F.disk files.new) (file_of kinds.Map map.now
        ∷ file_of kinds.Scen scen.now ∷ file_of kinds.Walks walks.now ∷ [])) result }
    ensures unchanged { (F.disk files.new).holds ≡ (F.disk files.old).holds }
{
    let costs: LeastCosts = read_map_file(alloc, files, map, settings)?;
    let entries: Vec<Entry> = read_file(alloc, files, scen, &())?;
    let count = entries.len() as u32;
    let walks: Vec<Claimed> = read_file(alloc, files, walks, &count)?;
    Ok(Case {
        costs,
        entries,
        walks,
    })
}
