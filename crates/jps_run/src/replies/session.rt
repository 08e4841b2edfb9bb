//! Sessions on maps.

ghost use Rattle.std.specs.Prelude.{◌≡◌, IfOk};
ghost use Rattle.map_text.specs.Faults.{plain};
ghost use Rattle.jps_run.specs.Manner as manner;
ghost use Rattle.jps_run.specs.Session as spec;

use crate::NoMemory;
use best_first::Layout;
use edit_replay::{Engine, Session};
use map_text::MapText;
use std::alloc::Global;
use word_list::{SessionEngine, Settings, States};

/// The states of a cell, by the word for how many there are.
pub fn layout_for(states: States) -> Layout
    ensures { result ≡ manner.layout_for states }
{
    match states {
        States::Arrival => Layout::ByArrival,
        States::Cell => Layout::ByCell,
    }
}

// The engine of a session by its word; how many states a cell has is asked of one that jumps.
fn engine_for(states: States, engine: SessionEngine) -> Engine
    ensures { result ≡ manner.engine_for states engine }
{
    let layout = layout_for(states);
    match engine {
        SessionEngine::Plain => Engine::Plain,
        SessionEngine::Jps => Engine::Jps(layout),
        SessionEngine::Block => Engine::Block(layout),
        SessionEngine::Plus => Engine::Plus(layout),
    }
}

/// The session on a map, as the settings ask.
pub fn session_on(alloc: Global, map: &MapText, settings: Settings) -> Result<Session, NoMemory>
    ensures { IfOk result (spec.IsSessionOn settings (plain map.now)) }
{
    let engine = engine_for(settings.states, settings.pick.session_engine());
    Session::new(alloc, map, engine, settings.rule)
}
