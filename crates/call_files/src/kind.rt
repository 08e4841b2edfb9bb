//! The kinds of texts that a request reads.

ghost use Rattle.std.specs.Prelude.{◌≡◌};
ghost use Rattle.map_text.specs.Faults.{plain};
ghost use Rattle.call_files.specs.Kinds.{extent_for, kind_for, kind_word, limit_of, takes};

use grid_moves::Corner;
use map_text::MapText;
use word_list::Pick;

/// The longest map, script or scenario, in bytes.
pub const LONGEST: u32 = 1 << 26;

/// The longest certificate, walks file or table file, in bytes.
const LONGEST_MADE: u32 = 1 << 30;

/// A kind of text.
#[derive(Clone, Copy, Debug)]
pub enum TextKind {
    /// A map of any size.
    Map,
    /// A map of at most 2^14 cells.
    SmallMap,
    /// A script of edits and queries.
    Script,
    /// A scenario.
    Scen,
    /// A certificate.
    Cert,
    /// The walks that another program tells of the scenario before it.
    Walks,
    /// A table file of the map before it, under this corner rule.
    Tables(Corner),
}

/// Which maps a call takes.
#[derive(Clone, Copy, Debug)]
pub enum Extent {
    /// All maps.
    Any,
    /// Maps of at most 2^14 cells.
    Small,
}

impl Extent {
    /// The maps that the picked engine takes.
    pub fn of(pick: Pick) -> Extent
        ensures { result ≡ extent_for pick }
    {
        match pick {
            Pick::Session(_) => Extent::Any,
            Pick::Small(_) => Extent::Small,
        }
    }

    /// The kind of these maps.
    pub fn kind(self) -> TextKind
        ensures { result ≡ kind_for self }
    {
        match self {
            Extent::Any => TextKind::Map,
            Extent::Small => TextKind::SmallMap,
        }
    }

    /// Whether a map is one of them.
    pub fn takes(self, map: &MapText) -> bool
        ensures { result ≡ takes self (plain map.now) }
    {
        match self {
            Extent::Any => true,
            Extent::Small => u32::from(map.height) * u32::from(map.width) <= 1 << 14,
        }
    }
}

impl TextKind {
    /// Its word in fault lines.
    pub fn word(self) -> &'static [u8]
        ensures { result.now ≡ kind_word self }
    {
        match self {
            TextKind::Map | TextKind::SmallMap => b"map",
            TextKind::Script => b"script",
            TextKind::Scen => b"scen",
            TextKind::Cert => b"cert",
            TextKind::Walks => b"walks",
            TextKind::Tables(_) => b"tables",
        }
    }

    /// Its longest text, in bytes.
    pub fn limit(self) -> u32
        ensures { result ≡ limit_of self }
    {
        match self {
            TextKind::Map | TextKind::SmallMap | TextKind::Script | TextKind::Scen => LONGEST,
            TextKind::Cert | TextKind::Walks | TextKind::Tables(_) => LONGEST_MADE,
        }
    }
}
