//! The texts that files hold, and what is made of maps.

ghost use Rattle.std.specs.Prelude.{true, ◌≡◌, ◌≤◌, ℕ, List, [], ◌∷◌, Ok, IfOk, length};
ghost use Rattle.io_edge.specs.Causes.{NoneFell};
ghost use Rattle.io_edge.specs.Whole.{IsWhole, IsLonger};
ghost use Rattle.call_files.specs.FaultLines.{long_line as line_of_long};
ghost use Rattle.call_files.specs.Reading.{AreBothRead, IsFirst, IsMade, IsRead, Reads, ReadsText};
ghost use Rattle.call_files.specs.Reading.{open_stops, read_stops};
ghost use Rattle.call_files.specs.Kinds.{kind_for, kind_word, limit_of};
ghost use Rattle.call_files.specs.Files.{file_of};
ghost use Rattle.map_text.specs.Faults.{plain};
ghost use Rattle.line_work.specs.Stops.{EndsOrStops};

use crate::NoMemory;
use crate::faults::{
    cert_line, large_line, long_line, map_line, scen_line, script_line, walks_line,
};
use crate::kind::{Extent, TextKind};
use io_edge::{Files, ReadStop, read_whole};
use line_work::Stop;
use map_text::{MapText, read_map};
use potential_check::{Certificate, read_certificate};
use scen_text::{Entry, read_scen};
use script_text::{ScriptCommand, read_script};
use std::alloc::Global;
use walk_judge::{Claimed, read_walks};
use word_list::Settings;

/// What a text is read as.
pub trait Text: Drop + Sized {
    ghost use Rattle.std.specs.Prelude.{ℕ, List};
    ghost use Rattle.call_files.specs.declared.kind.TextKind.{TextKind};

    /// What these texts are judged by: what the call asks of them, and what was read before them.
    type Context;

    /// The kind of these texts, by their context.
    ghost kind_of_text: { Self.Context → TextKind };

    /// The context tells what these texts before say.
    ghost is_behind: { Self.Context → List (List ℕ) → Type 0 };

    /// The text spells the value, under the context.
    ghost spells: { Self.Context → List ℕ → Self → Type 0 };

    /// The kind of these texts.
    fn kind(context: &Self::Context) -> TextKind
        ensures { result ≡ kind_of_text context.now };

    /// The value that the text spells.
    fn of_text(alloc: Global, text: Vec<u8>, context: &Self::Context) -> Result<Self, Stop>
        requires { length text.items ≤ limit_of (kind_of_text context.now) }
        ensures { ReadsText (is_behind context.now) (spells context.now) (kind_of_text context.now)
            text.items result };
}

impl Text for MapText {
    ghost use Rattle.call_files.specs.Kinds.{kind_for};
    ghost use Rattle.call_files.specs.Reading.{SpellsWithin};

    /// Which maps are taken.
    type Context = Extent;

    ghost kind_of_text = { kind_for };

    ghost is_behind = { λ _ _. Unit {0} };

    ghost spells = { SpellsWithin };

    fn kind(context: &Extent) -> TextKind {
        context.kind()
    }

    fn of_text(alloc: Global, text: Vec<u8>, context: &Extent) -> Result<MapText, Stop> {
        match read_map(alloc, text.as_slice()) {
            Ok(map) => {
                if context.takes(&map) {
                    Ok(map)
                } else {
                    Err(Stop::Text(large_line(alloc)?))
                }
            }
            Err(fault) => Err(Stop::Text(map_line(alloc, fault)?)),
        }
    }
}

impl Text for Vec<ScriptCommand> {
    ghost use Rattle.call_files.specs.Reading.{SpellsScript};
    ghost use Rattle.call_files.specs.declared.kind.TextKind.TheVariants.{Script};

    type Context = ();

    ghost kind_of_text = { λ _. Script };

    ghost is_behind = { λ _ _. Unit {0} };

    ghost spells = { λ _. SpellsScript };

    fn kind(_context: &()) -> TextKind {
        TextKind::Script
    }

    fn of_text(alloc: Global, text: Vec<u8>, _context: &()) -> Result<Vec<ScriptCommand>, Stop> {
        match read_script(alloc, text.as_slice()) {
            Ok(commands) => Ok(commands),
            Err(fault) => Err(Stop::Text(script_line(alloc, fault)?)),
        }
    }
}

impl Text for Vec<Entry> {
    ghost use Rattle.call_files.specs.Reading.{SpellsScen};
    ghost use Rattle.call_files.specs.declared.kind.TextKind.TheVariants.{Scen};

    type Context = ();

    ghost kind_of_text = { λ _. Scen };

    ghost is_behind = { λ _ _. Unit {0} };

    ghost spells = { λ _. SpellsScen };

    fn kind(_context: &()) -> TextKind {
        TextKind::Scen
    }

    fn of_text(alloc: Global, text: Vec<u8>, _context: &()) -> Result<Vec<Entry>, Stop> {
        match read_scen(alloc, text.as_slice()) {
            Ok(entries) => Ok(entries),
            Err(fault) => Err(Stop::Text(scen_line(alloc, fault)?)),
        }
    }
}

/// The entries of a scenario, and its text, where the names of their maps stand.
#[derive(Drop)]
pub struct Scenario {
    pub text: Vec<u8>,
    pub entries: Vec<Entry>,
}

impl Text for Scenario {
    ghost use Rattle.call_files.specs.Reading.{SpellsScenario};
    ghost use Rattle.call_files.specs.declared.kind.TextKind.TheVariants.{Scen};

    type Context = ();

    ghost kind_of_text = { λ _. Scen };

    ghost is_behind = { λ _ _. Unit {0} };

    ghost spells = { λ _. SpellsScenario };

    fn kind(_context: &()) -> TextKind {
        TextKind::Scen
    }

    fn of_text(alloc: Global, text: Vec<u8>, _context: &()) -> Result<Scenario, Stop> {
        match read_scen(alloc, text.as_slice()) {
            Ok(entries) => Ok(Scenario { text, entries }),
            Err(fault) => Err(Stop::Text(scen_line(alloc, fault)?)),
        }
    }
}

impl Text for Certificate {
    ghost use Rattle.call_files.specs.Reading.{SpellsCert};
    ghost use Rattle.call_files.specs.declared.kind.TextKind.TheVariants.{Cert};

    type Context = ();

    ghost kind_of_text = { λ _. Cert };

    ghost is_behind = { λ _ _. Unit {0} };

    ghost spells = { λ _. SpellsCert };

    fn kind(_context: &()) -> TextKind {
        TextKind::Cert
    }

    fn of_text(alloc: Global, text: Vec<u8>, _context: &()) -> Result<Certificate, Stop> {
        match read_certificate(alloc, text.as_slice()) {
            Ok(certificate) => Ok(certificate),
            Err(fault) => Err(Stop::Text(cert_line(alloc, fault)?)),
        }
    }
}

impl Text for Vec<Claimed> {
    ghost use Rattle.std.specs.Prelude.{◌≡◌};
    ghost use Rattle.call_files.specs.Kinds.{entries_in};
    ghost use Rattle.call_files.specs.Reading.{SpellsWalks};
    ghost use Rattle.call_files.specs.declared.kind.TextKind.TheVariants.{Walks};

    // how many entries the scenario has
    type Context = u32;

    ghost kind_of_text = { λ _. Walks };

    ghost is_behind = { λ entries earlier. entries ≡ entries_in earlier };

    ghost spells = { SpellsWalks };

    fn kind(_context: &u32) -> TextKind {
        TextKind::Walks
    }

    fn of_text(alloc: Global, text: Vec<u8>, context: &u32) -> Result<Vec<Claimed>, Stop> {
        match read_walks(alloc, text.as_slice(), *context) {
            Ok(walks) => Ok(walks),
            Err(fault) => Err(Stop::Text(walks_line(alloc, fault)?)),
        }
    }
}

// The text of a file.
fn read_text<F: Files>(
    alloc: Global,
    files: &mut F,
    kind: TextKind,
    name: &str,
) -> Result<Vec<u8>, Stop>
    ensures read { EndsOrStops (λ text. IsWhole ((F.disk files.old).holds name.now)
        (limit_of kind) text.items)
        (read_stops (λ line. IsLonger ((F.disk files.old).holds name.now) (limit_of kind)
        × (line ≡ line_of_long (kind_word kind))) ((F.disk files.old).faults name.now) ((F.disk files.new).faults name.now))
        result }
    ensures unchanged { (F.disk files.new).holds ≡ (F.disk files.old).holds }
    ensures later { NoneFell (F.disk files.old).faults (F.disk files.new).faults }
{
    match read_whole(alloc, files, name, kind.limit()) {
        Ok(text) => Ok(text),
        Err(ReadStop::Fault) => Err(Stop::Read),
        Err(ReadStop::NoMemory) => Err(Stop::Memory),
        Err(ReadStop::TooLong) => Err(Stop::Text(long_line(alloc, kind.word())?)),
    }
}

/// What the file of this name is read as. It stops where a read fails, where memory is refused, and where the
/// text is refused, with the line that says so.
pub fn read_file<F: Files, T: Text>(
    alloc: Global,
    files: &mut F,
    name: &str,
    context: &T::Context,
) -> Result<T, Stop>
    ensures read { Reads (T.is_behind context.now) (T.spells context.now) (T.kind_of_text context.now)
        ((F.disk files.old).holds name.now) ((F.disk files.old).faults name.now)
        ((F.disk files.new).faults name.now) result }
    ensures unchanged { (F.disk files.new).holds ≡ (F.disk files.old).holds }
    ensures later { NoneFell (F.disk files.old).faults (F.disk files.new).faults }
{
    let text = read_text(alloc, files, T::kind(context), name)?;
    T::of_text(alloc, text, context)
}

/// What is made of a map, as the settings ask.
pub trait OfMap: Drop + Sized {
    ghost use Rattle.map_text.specs.Map.{Map};
    ghost use Rattle.word_list.specs.declared.request.Settings.{Settings};
    ghost use Rattle.call_files.specs.Kinds.{takes};
    ghost use Rattle.call_files.specs.declared.kind.Extent.{Extent};

    /// The maps of which it is made.
    ghost extent_of: { Settings → Extent };

    /// It is what the settings ask to be made of the map.
    ghost is_of_map: { Settings → Map → Self → Type 0 };

    /// The maps of which it is made, as the settings ask.
    fn extent(settings: Settings) -> Extent
        ensures { result ≡ extent_of settings };

    /// The value of the map.
    fn of_map(alloc: Global, map: MapText, settings: Settings) -> Result<Self, NoMemory>
        requires { takes (extent_of settings) (plain map) ≡ true }
        ensures { IfOk result (is_of_map settings (plain map)) };
}

/// What is made of the map that a file holds. The bytes of the map are given back before it is made.
pub fn read_map_file<F: Files, M: OfMap>(
    alloc: Global,
    files: &mut F,
    name: &str,
    settings: Settings,
) -> Result<M, Stop>
    ensures read { Reads IsFirst (IsMade (M.is_of_map settings)) (kind_for (M.extent_of settings))
        ((F.disk files.old).holds name.now)
        ((F.disk files.old).faults name.now) ((F.disk files.new).faults name.now) result }
    ensures unchanged { (F.disk files.new).holds ≡ (F.disk files.old).holds }
    ensures later { NoneFell (F.disk files.old).faults (F.disk files.new).faults }
{
    let extent = M::extent(settings);
    let map: MapText = read_file(alloc, files, name, &extent)?;
    let made = M::of_map(alloc, map, settings)?;
    Ok(made)
}

/// What is made of the map that the first file holds, for a call with this file alone.
pub fn open_one<F: Files, M: OfMap>(
    alloc: Global,
    files: &mut F,
    map: &str,
    settings: Settings,
) -> Result<M, Stop>
    ensures read { EndsOrStops (IsRead (IsMade (M.is_of_map settings)) [] (kind_for (M.extent_of settings))
        ((F.disk files.old).holds map.now))
        (open_stops (F.disk files.old) (F.disk files.new)
        (file_of (kind_for (M.extent_of settings)) map.now ∷ []))
        result }
    ensures unchanged { (F.disk files.new).holds ≡ (F.disk files.old).holds }
    ensures later { NoneFell (F.disk files.old).faults (F.disk files.new).faults }
{
    read_map_file(alloc, files, map, settings)
}

/// What is made of the map that the first file holds, and what the second file is read as, for a
/// call with these two files. The second one is read only where the first is accepted; `context` says what it
/// is judged by.
pub fn open_two<F: Files, M: OfMap, T: Text>(
    alloc: Global,
    files: &mut F,
    map: &str,
    settings: Settings,
    second: &str,
    context: &T::Context,
) -> Result<(M, T), Stop>
    requires { (text : List ℕ) → T.is_behind context.now (text ∷ []) }
    ensures read { EndsOrStops (AreBothRead (IsMade (M.is_of_map settings)) (T.spells context.now)
        (F.disk files.old).holds
        (file_of (kind_for (M.extent_of settings)) map.now) (file_of (T.kind_of_text context.now) second.now))
        (open_stops (F.disk files.old) (F.disk files.new)
        (file_of (kind_for (M.extent_of settings)) map.now
        ∷ file_of (T.kind_of_text context.now) second.now ∷ [])) result }
    ensures unchanged { (F.disk files.new).holds ≡ (F.disk files.old).holds }
{
    let made: M = read_map_file(alloc, files, map, settings)?;
    let text: T = read_file(alloc, files, second, context)?;
    Ok((made, text))
}
