//! What answers begin with: what is made of a map for the picked engine. The tables of a session are built,
//! or loaded from a file where one is named.
//!
//! A table file is read behind the map and before all other files. Its text is given back as soon as it is
//! judged, before the session's own memory is taken.

ghost use Rattle.std.specs.Prelude.{◌≡◌, ◌∷◌, [], true, IfOk};
ghost use Rattle.std.specs.Option.{option_copied};
ghost use Rattle.io_edge.specs.Causes.{NoneFell};
ghost use Rattle.map_text.specs.Faults.{plain};
ghost use Rattle.word_list.specs.Settings as words;
ghost use Rattle.jps_run.specs.Answerers.{IsBasisOn};
ghost use Rattle.jps_run.specs.Answering.{AreAnswersOn};
ghost use Rattle.call_files.specs.MapFiles.{map_files};
ghost use Rattle.call_files.specs.Files.{file_of};
ghost use Rattle.call_files.specs.Reading.{AreMapTables, IsMadeOf, open_stops};
ghost use Rattle.jps_run.specs.Session as spec;
ghost use Rattle.line_work.specs.Stops.{EndsOrStops};
ghost use Rattle.call_files.specs.declared.kind.TextKind.TheVariants as kinds;

use crate::NoMemory;
use crate::replies::answerer::Basis;
use crate::replies::answers::Answers;
use crate::replies::session::layout_for;
use call_files::{Extent, MapTables, open_one, read_file, read_tables};
use edit_replay::Session;
use io_edge::Files;
use line_work::Stop;
use map_text::MapText;
use std::alloc::Global;
use word_list::Settings;

// The session on a map with tables of it, where the settings pick the engine for them.
#[tactic(auto, using(crate::proofs::Loading::by_tables))]
fn session_with(
    alloc: Global,
    map: &MapText,
    tables: MapTables,
    settings: Settings,
) -> Result<Session, NoMemory>
    requires plus { words.has_tables settings.pick ≡ true }
    requires tables { AreMapTables settings.rule (plain map.now) tables }
    ensures { IfOk result (spec.IsSessionOn settings (plain map.now)) }
{
    let MapTables { land, water } = tables;
    let layout = layout_for(settings.states);
    Session::with_tables(alloc, map, settings.rule, layout, land, water)
}

// The session on the map of the first file, with the tables of the second one.
fn open_loaded<F: Files>(
    alloc: Global,
    files: &mut F,
    map: &str,
    name: &str,
    settings: Settings,
) -> Result<Session, Stop>
    requires { words.has_tables settings.pick ≡ true }
    ensures read { EndsOrStops (IsMadeOf (spec.IsSessionOn settings) (F.disk files.old).holds
        (file_of kinds.Map map.now ∷ file_of (kinds.Tables settings.rule) name.now ∷ []))
        (open_stops (F.disk files.old) (F.disk files.new)
        (file_of kinds.Map map.now ∷ file_of (kinds.Tables settings.rule) name.now ∷ [])) result }
    ensures unchanged { (F.disk files.new).holds ≡ (F.disk files.old).holds }
    ensures later { NoneFell (F.disk files.old).faults (F.disk files.new).faults }
{
    let map: MapText = read_file(alloc, files, map, &Extent::Any)?;
    let tables = read_tables(alloc, files, name, &map, settings)?;
    let session = session_with(alloc, &map, tables, settings)?;
    Ok(session)
}

/// What a call begins with, made of the map of the first file, for a call with this file and, where one is
/// named, with a table file behind it.
#[tactic(auto, using(crate::proofs::Loading::session_answers, crate::proofs::Loading::large_tables))]
pub fn open_basis<F: Files>(
    alloc: Global,
    files: &mut F,
    map: &str,
    tables: Option<&str>,
    settings: Settings,
) -> Result<Basis, Stop>
    requires { words.can_load (option_copied tables) settings ≡ true }
    ensures read { EndsOrStops (IsMadeOf (IsBasisOn settings) (F.disk files.old).holds
        (map_files settings map.now (option_copied tables.entry)))
        (open_stops (F.disk files.old) (F.disk files.new)
        (map_files settings map.now (option_copied tables.entry))) result }
    ensures unchanged { (F.disk files.new).holds ≡ (F.disk files.old).holds }
    ensures later { NoneFell (F.disk files.old).faults (F.disk files.new).faults }
{
    match tables {
        None => open_one(alloc, files, map, settings),
        Some(name) => {
            let session = open_loaded(alloc, files, map, name, settings)?;
            Ok(Basis::Session(session))
        }
    }
}

/// The same where a session answers, for a call that gives it commands.
pub fn open_answers<F: Files>(
    alloc: Global,
    files: &mut F,
    map: &str,
    tables: Option<&str>,
    settings: Settings,
) -> Result<Answers, Stop>
    requires { words.can_load (option_copied tables) settings ≡ true }
    ensures read { EndsOrStops (IsMadeOf (AreAnswersOn settings) (F.disk files.old).holds
        (map_files settings map.now (option_copied tables.entry)))
        (open_stops (F.disk files.old) (F.disk files.new)
        (map_files settings map.now (option_copied tables.entry))) result }
    ensures unchanged { (F.disk files.new).holds ≡ (F.disk files.old).holds }
    ensures later { NoneFell (F.disk files.old).faults (F.disk files.new).faults }
{
    match tables {
        None => open_one(alloc, files, map, settings),
        Some(name) => {
            let session = open_loaded(alloc, files, map, name, settings)?;
            let show = settings.show;
            Ok(Answers { session, show })
        }
    }
}
