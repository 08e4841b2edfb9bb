//! Maps.

ghost use Rattle.map_text.specs.Map.{IsMap};

use crate::bytes::Bytes;

/// A map: its sides in cells, and a byte of terrain for each cell.
///
/// Both sides are 1 to 4096. The cells are listed row by row from the top, each row from the left,
/// `width * height` of them, and each is one of `.`, `G`, `S`, `@`, `O`, `T` and `W`.
#[derive(Debug, Drop)]
pub struct MapText {
    pub width: u16,
    pub height: u16,
    pub cells: Bytes,
    pub ghost whole: { IsMap width height cells },
}
