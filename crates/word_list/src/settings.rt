//! The settings that may follow a command's other words.

ghost use Rattle.std.specs.Prelude.{◌≡◌, ◌≤◌, [], take, slice_get, map, string_bytes, Some};
ghost use Rattle.std.specs.List.{list_any};
ghost use Rattle.std.specs.Option.{option_copied};
ghost use Rattle.word_list.specs.Settings.{setting_of, choice_of, has as member, has_tables, jumps};
ghost use Rattle.word_list.specs.Settings.{takes_states, is_allowed, is_for_small_maps, is_served};
ghost use Rattle.word_list.specs.Settings.{is_word_served, are_served, excludes, is_clash, are_clashing};
ghost use Rattle.word_list.specs.Settings.{may_follow, settings_with, settings_of, tables_in, tables_of};
ghost use Rattle.word_list.specs.Steps.{AreSettled, one_follows};

use crate::request::{Pick, SessionEngine, Settings, Show, SmallEngine, States};
use grid_moves::Corner;

/// A setting.
#[derive(Clone, Copy)]
pub enum Setting {
    Engine(Pick),
    Show(Show),
    /// What a diagonal move asks of the two cells beside it.
    Rule(Corner),
    /// From which file the tables are loaded; its name stands in the word.
    TableFile,
    /// How many states the search has of a cell.
    States(States),
}

/// What a setting chooses. No choice is made twice.
#[derive(Clone, Copy, PartialEq, Eq)]
enum Choice {
    /// Which engine searches.
    Engine,
    /// What an answer shows.
    Show,
    /// Whether walks may pass corners.
    Rule,
    /// From which file the tables are loaded.
    TableFile,
    /// How many states the search has of a cell.
    States,
}

/// Settings that a command allows, all of them or none.
#[derive(Clone, Copy)]
pub enum Family {
    /// An engine that serves maps of any size, and edits; and how many states the search has of a cell.
    Engine,
    /// An engine that serves small maps, without edits.
    SmallMap,
    /// What an answer shows.
    Show,
    /// What a walk's line shows of it: the points, or its cells.
    Walks,
    /// What a picture shows: the points, and the states that the search took.
    Drawing,
    /// What rows count: the states that the searches took.
    Counts,
    /// Whether walks may pass corners.
    Rule,
    /// From which file the tables are loaded, and the engine that searches by them.
    TableFile,
}

impl Family {
    /// Whether the setting is one of these.
    fn has(self, setting: Setting) -> bool
        ensures { result ≡ member self setting }
    {
        match (self, setting) {
            (Family::Engine, Setting::Engine(pick)) => !pick.is_for_small_maps(),
            (Family::Engine, Setting::States(_)) => true,
            (Family::SmallMap, Setting::Engine(pick)) => pick.is_for_small_maps(),
            (Family::Show, Setting::Show(Show::Points)) => true,
            (Family::Show, Setting::Show(Show::Cells)) => true,
            (Family::Show, Setting::Show(Show::Trace)) => true,
            (Family::Walks, Setting::Show(Show::Points)) => true,
            (Family::Walks, Setting::Show(Show::Cells)) => true,
            (Family::Drawing, Setting::Show(Show::Points)) => true,
            (Family::Drawing, Setting::Show(Show::Trace)) => true,
            (Family::Counts, Setting::Show(Show::Taken)) => true,
            (Family::Rule, Setting::Rule(_)) => true,
            (Family::TableFile, Setting::TableFile) => true,
            (Family::TableFile, Setting::Engine(pick)) => pick.has_tables(),
            _ => false,
        }
    }
}

impl Pick {
    /// Whether the engine serves small maps alone.
    fn is_for_small_maps(self) -> bool
        ensures { result ≡ is_for_small_maps self }
    {
        match self {
            Pick::Session(_) => false,
            Pick::Small(_) => true,
        }
    }

    /// Whether the engine searches by tables.
    fn has_tables(self) -> bool
        ensures { result ≡ has_tables self }
    {
        match self {
            Pick::Session(SessionEngine::Plus) => true,
            _ => false,
        }
    }

    /// Whether the engine searches by jumps.
    fn jumps(self) -> bool
        ensures { result ≡ jumps self }
    {
        match self {
            Pick::Session(SessionEngine::Jps) => true,
            Pick::Session(SessionEngine::Block) => true,
            Pick::Session(SessionEngine::Plus) => true,
            _ => false,
        }
    }

    /// Whether the engine takes states: one that follows first moves searches nothing.
    fn takes_states(self) -> bool
        ensures { result ≡ takes_states self }
    {
        match self {
            Pick::Small(SmallEngine::Moves) => false,
            _ => true,
        }
    }
}

impl Setting {
    /// The setting that the word spells, if it spells one.
    fn spelled(word: &str) -> Option<Setting>
        ensures { result ≡ setting_of word.now }
    {
        if table_file_in(word).is_some() {
            return Some(Setting::TableFile);
        }
        match word {
            "engine=plain" => Some(Setting::Engine(Pick::Session(SessionEngine::Plain))),
            "engine=jps" => Some(Setting::Engine(Pick::Session(SessionEngine::Jps))),
            "engine=block" => Some(Setting::Engine(Pick::Session(SessionEngine::Block))),
            "engine=plus" => Some(Setting::Engine(Pick::Session(SessionEngine::Plus))),
            "engine=boxes" => Some(Setting::Engine(Pick::Small(SmallEngine::Boxes))),
            "engine=moves" => Some(Setting::Engine(Pick::Small(SmallEngine::Moves))),
            "show=points" => Some(Setting::Show(Show::Points)),
            "show=cells" => Some(Setting::Show(Show::Cells)),
            "show=trace" => Some(Setting::Show(Show::Trace)),
            "show=taken" => Some(Setting::Show(Show::Taken)),
            "rule=none" => Some(Setting::Rule(Corner::Never)),
            "rule=one" => Some(Setting::Rule(Corner::One)),
            "rule=both" => Some(Setting::Rule(Corner::Both)),
            "states=arrival" => Some(Setting::States(States::Arrival)),
            "states=cell" => Some(Setting::States(States::Cell)),
            _ => None,
        }
    }

    /// What the setting chooses.
    fn choice(self) -> Choice
        ensures { result ≡ choice_of self }
    {
        match self {
            Setting::Engine(_) => Choice::Engine,
            Setting::Show(_) => Choice::Show,
            Setting::Rule(_) => Choice::Rule,
            Setting::TableFile => Choice::TableFile,
            Setting::States(_) => Choice::States,
        }
    }

    /// Whether it is of one of these families.
    fn is_allowed(self, allows: &[Family]) -> bool
        ensures { result ≡ is_allowed allows.now (Some self) }
    {
        allows.iter().any(|family| family.has(self))
    }

    /// Whether this engine serves it: a trace lists the states that a search took, and a row counts them;
    /// tables serve one engine alone; how many states a search has of a cell is asked of engines that jump.
    fn is_served(self, pick: Pick) -> bool
        ensures { result ≡ is_served self pick }
    {
        match self {
            Setting::Show(Show::Trace) => pick.takes_states(),
            Setting::Show(Show::Taken) => pick.takes_states(),
            Setting::TableFile => pick.has_tables(),
            Setting::States(_) => pick.jumps(),
            _ => true,
        }
    }

    /// Whether it can't stand beside this setting, which is an engine that doesn't serve it.
    fn excludes(self, other: Setting) -> bool
        ensures { result ≡ excludes self other }
    {
        match other {
            Setting::Engine(pick) => !self.is_served(pick),
            _ => false,
        }
    }

    /// Whether it can't stand together with another.
    fn clashes(self, other: Setting) -> bool
        ensures { result ≡ is_clash self other }
    {
        self.choice() == other.choice() || self.excludes(other) || other.excludes(self)
    }
}

/// What the words choose, where a call that names no engine begins with this one.
pub fn chosen(engine: SessionEngine, words: &[String]) -> Settings
    ensures { result ≡ settings_of engine (map string_bytes words.now) }
{
    let mut settings = Settings::silent_on(engine);
    for word in words {
        settings = with_word(settings, word.as_str());
    }
    settings
}

/// The settings with one more word.
fn with_word(settings: Settings, word: &str) -> Settings
    ensures { result ≡ settings_with settings (setting_of word.now) }
{
    match Setting::spelled(word) {
        Some(Setting::Engine(pick)) => Settings { pick, ..settings },
        Some(Setting::Show(show)) => Settings { show, ..settings },
        Some(Setting::Rule(rule)) => Settings { rule, ..settings },
        Some(Setting::TableFile) => settings,
        Some(Setting::States(states)) => Settings { states, ..settings },
        None => settings,
    }
}

/// The name of the table file that the word tells, if it tells one.
#[tactic(auto, unfolding(crate::specs::Settings::tables_in))]
fn table_file_in(word: &str) -> Option<&str>
    ensures { option_copied result ≡ tables_in word.now }
{
    match word.strip_prefix("tables=") {
        Some(name) if !name.is_empty() => Some(name),
        _ => None,
    }
}

/// The name of the table file that the words tell, if one does.
pub fn table_file(words: &[String]) -> Option<&str>
    ensures { option_copied result ≡ tables_of (map string_bytes words.now) }
{
    for word in words {
        if let Some(name) = table_file_in(word.as_str()) {
            return Some(name);
        }
    }
    None
}

/// Whether this engine serves each of the words that is a setting.
pub fn serves(pick: Pick, words: &[String]) -> bool
    ensures { result ≡ are_served pick (map string_bytes words.now) }
{
    for word in words {
        if !serves_at(pick, word.as_str()) {
            return false;
        }
    }
    true
}

/// Whether this engine serves the word, where it is a setting.
fn serves_at(pick: Pick, word: &str) -> bool
    ensures { result ≡ is_word_served pick (setting_of word.now) }
{
    match Setting::spelled(word) {
        Some(setting) => setting.is_served(pick),
        None => true,
    }
}

/// How many of the words, from the first on, are settings that are allowed and clash with none of
/// the words before them.
pub fn settled(allows: &[Family], words: &[String]) -> usize
    ensures count { AreSettled allows.now [] (map string_bytes words.now) result }
    ensures few { result ≤ 5 }
{
    count_settled(allows, words)
}

/// The same, without how many there may be at most.
fn count_settled(allows: &[Family], words: &[String]) -> usize
    ensures { AreSettled allows.now [] (map string_bytes words.now) result }
{
    for place in 0..words.len() {
        if !follows_at(allows, words, place) {
            return place;
        }
    }
    words.len()
}

/// Whether there is a word at the place, from 0, and it may follow the words before it.
fn follows_at(allows: &[Family], words: &[String], place: usize) -> bool
    ensures { result ≡ one_follows allows.now (take place (map string_bytes words.now))
        (slice_get (map string_bytes words.now) place) }
{
    match words.get(place) {
        Some(word) => follows(allows, &words[..place], word.as_str()),
        None => false,
    }
}

/// Whether the word is a setting that is allowed and clashes with none of the words before it.
fn follows(allows: &[Family], before: &[String], word: &str) -> bool
    ensures { result ≡ may_follow allows.now (map string_bytes before.now) word.now }
{
    match Setting::spelled(word) {
        Some(setting) => setting.is_allowed(allows) && !clashes_with(setting, before),
        None => false,
    }
}

/// Whether one of the words is a setting that can't stand together with this one.
fn clashes_with(setting: Setting, before: &[String]) -> bool
    ensures { result ≡ list_any (λ word. are_clashing (setting_of word) (Some setting))
        (map string_bytes before.now) }
{
    for word in before {
        if clashes_at(word.as_str(), setting) {
            return true;
        }
    }
    false
}

/// Whether the word is a setting that can't stand together with this one.
fn clashes_at(word: &str, setting: Setting) -> bool
    ensures { result ≡ are_clashing (setting_of word.now) (Some setting) }
{
    Setting::spelled(word).is_some_and(|other| other.clashes(setting))
}
