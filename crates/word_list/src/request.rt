//! How a request is to be done, and which word is named where the words make none.

ghost use Rattle.std.specs.Prelude.{◌≡◌};
ghost use Rattle.word_list.specs.Settings as spec;

use grid_moves::Corner;
use thiserror::Error;

/// How a request is to be done. A setting that the words don't have stands at its default.
#[derive(Clone, Copy, Default)]
pub struct Settings {
    pub pick: Pick,
    pub show: Show,
    /// What a diagonal move asks of the two cells beside it.
    pub rule: Corner,
    /// How many states the search has of a cell, where its engine jumps; other engines don't look at it.
    pub states: States,
}

/// Which engine answers.
#[derive(Clone, Copy, Debug, PartialEq, Eq)]
pub enum Pick {
    /// One by which a session answers, on a map of any size and through its edits.
    Session(SessionEngine),
    /// One for small maps, which answers without a session.
    Small(SmallEngine),
}

impl Default for Pick {
    ghost use Rattle.std.specs.Prelude.{◌≡◌};
    ghost use Rattle.word_list.specs.Settings.{default_pick};

    ghost is_default = { λ pick. pick ≡ default_pick };

    fn default() -> Pick {
        Pick::Session(SessionEngine::Plain)
    }
}

impl Settings {
    /// The settings of a call that names none and begins with this engine: where that jumps,
    /// a cell has one state.
    pub fn silent_on(engine: SessionEngine) -> Settings
        ensures { result ≡ spec.silent_on engine }
    {
        match engine {
            SessionEngine::Plain => Settings::default(),
            SessionEngine::Jps | SessionEngine::Block | SessionEngine::Plus => Settings {
                pick: Pick::Session(engine),
                states: States::Cell,
                ..Settings::default()
            },
        }
    }
}

impl Pick {
    /// The engine of a session: an engine for small maps is none, and leaves a session as it is where no word
    /// picks an engine.
    pub fn session_engine(self) -> SessionEngine
        ensures { result ≡ spec.session_engine self }
    {
        match self {
            Pick::Session(engine) => engine,
            Pick::Small(_) => SessionEngine::Plain,
        }
    }
}

/// The engines of sessions.
#[derive(Clone, Copy, Debug, PartialEq, Eq)]
pub enum SessionEngine {
    /// The one that goes on by every legal move, less those that the parent has offered as cheaply.
    Plain,
    /// The one that jumps, cell by cell.
    Jps,
    /// The one that jumps, by blocks of bits.
    Block,
    /// The one that jumps, by tables.
    Plus,
}

/// The engines for small maps.
#[derive(Clone, Copy, Debug, PartialEq, Eq)]
pub enum SmallEngine {
    /// The one that leaves out the moves whose boxes of goals don't hold the goal.
    Boxes,
    /// The one that follows first moves.
    Moves,
}

/// What an answer shows of a walk.
#[derive(Clone, Copy, Debug, Default, PartialEq, Eq)]
pub enum Show {
    /// Points that stand for a walk: by `plain`, `boxes` and `moves` the ends of its straight pieces, by the
    /// engines that jump the cells where the search stopped on the way, of which several may lie on one line.
    #[default]
    Points,
    /// Each cell of the walk.
    Cells,
    /// The points, and then each state that the search took.
    Trace,
    /// How many states the search took.
    Taken,
}

/// How many states a search has of a cell.
#[derive(Clone, Copy, Debug, Default, PartialEq, Eq)]
pub enum States {
    /// One for each direction of arrival.
    #[default]
    Arrival,
    /// One alone, with the arrival that was offered first at its least cost.
    Cell,
}

/// The number of the word, from 1, with which no call begins; one more than there are words where
/// words are missing at the end.
#[derive(Clone, Copy, Debug, PartialEq, Eq, Error)]
#[error("word {0}")]
pub struct BadWord(pub u32);
