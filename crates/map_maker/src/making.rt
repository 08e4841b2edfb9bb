//! Maps from a seed.

ghost use Rattle.std.specs.Prelude.{◌≡◌, ◌≤◌, ◌<◌, IfOk, length, map};
ghost use Rattle.map_text.specs.Faults.{plain};
ghost use Rattle.map_maker.specs.Words.{words_from};
ghost use Rattle.map_maker.specs.Making.{made_map, cell_of};
ghost use Rattle.map_maker.specs.Drawing.{AreKinds, cell_by};

use crate::NoMemory;
use map_text::{Bytes, MapText};
use rand_core::SeedableRng;
use rand_core::utils::NextWord;
use rand_pcg::Lcg64Xsh32;
use std::alloc::Global;

/// The map of a seed, of `w` columns and `h` rows, 1 to 4096 each: a cell is blocked (`@`) where its
/// word modulo 100 is below `percent`, else free (`.`).
///
/// Memory is taken once, one byte for each cell.
pub fn make(alloc: Global, seed: u64, w: u16, h: u16, percent: u8) -> Result<MapText, NoMemory>
    requires width { (1 ≤ w) × (w ≤ 4096) }
    requires height { (1 ≤ h) × (h ≤ 4096) }
    ensures { IfOk result (λ made. plain made ≡ made_map seed w h percent) }
{
    let kinds = kinds_of(percent);
    let mut generator = Lcg64Xsh32::seed_from_u64(seed);
    let cells = draw_cells(alloc, &mut generator, h as usize * w as usize, &kinds)?;
    Ok(MapText {
        width: w,
        height: h,
        cells: Bytes::of(cells),
    })
}

/// The cell of each word below 100. To look it up takes less than half the time of a test for each
/// word, which no processor foresees.
fn kinds_of(percent: u8) -> [u8; 100]
    ensures { AreKinds percent result }
{
    let mut kinds = [b'.'; 100];
    for (rest, kind) in kinds.iter_mut().enumerate() {
        *kind = cell(rest as u32, percent);
    }
    kinds
}

/// The cell of a word below 100.
fn cell(rest: u32, percent: u8) -> u8
    requires { rest < 100 }
    ensures { result ≡ cell_of percent rest }
{
    if rest < percent as u32 { b'@' } else { b'.' }
}

/// So many cells, each by the next word of the generator.
fn draw_cells(
    alloc: Global,
    generator: &mut Lcg64Xsh32,
    count: usize,
    kinds: &[u8],
) -> Result<Vec<u8>, NoMemory>
    requires { 100 ≤ length kinds.now }
    ensures { IfOk result (λ cells. cells.items ≡ map (cell_by kinds.now) (words_from count generator.old)) }
{
    let mut cells = Vec::with_capacity(alloc, count)?;
    for _done in 0..count {
        let word = generator.next_word();
        cells.push(kinds[(word % 100) as usize])?;
    }
    Ok(cells)
}
