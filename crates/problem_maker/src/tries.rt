//! Tries from a seed.

ghost use Rattle.std.specs.Prelude.{◌≡◌, ◌+◌, ◌*◌, ◌<◌, ◌≤◌, IfOk, length, take};
ghost use Rattle.std.specs.List.{All, filter};
ghost use Rattle.joined_cells.specs.Both.{HasWalk, are_joined_in};
ghost use Rattle.map_maker.specs.Words.{words_from};
ghost use Rattle.problem_maker.specs.Drawing.{Draws, DrawsCell};
ghost use Rattle.problem_maker.specs.Tries as spec;
ghost use Rattle.problem_maker.specs.Tries.{kept_of, most_tries, tries_by};

use crate::NoMemory;
use crate::free::free_cells;
use grid_moves::{Cell, Ends, Layers};
use joined_cells::JoinedLayers;
use rand_core::SeedableRng;
use rand_core::utils::NextWord;
use rand_pcg::Lcg64Xsh32;
use std::alloc::Global;

/// The ends of `count` problems on a map, from a seed, in the order of their tries; fewer where so many are
/// not found among ten times as many tries and a hundred.
///
/// Two passes over the map tell first which cells are joined. Up to twelve bytes for each cell are taken, and
/// given back, and eight for each problem.
pub fn make_ends(
    alloc: Global,
    layers: &Layers,
    seed: u64,
    count: u32,
) -> Result<Vec<Ends>, NoMemory>
    ensures kept { IfOk result (λ kept. kept.items ≡ kept_of layers.now seed count) }
    ensures walks { IfOk result (λ kept. All (λ ends. HasWalk layers.now ends.from ends.to) kept.items) }
    ensures few { IfOk result (λ kept. length kept.items ≤ count) }
{
    let joined = JoinedLayers::of(alloc, layers)?;
    let cells = free_cells(alloc, layers)?;
    kept_ends(alloc, seed, count, &cells, &joined)
}

// The ends among these cells.
fn kept_ends(
    alloc: Global,
    seed: u64,
    count: u32,
    cells: &[Cell],
    joined: &JoinedLayers,
) -> Result<Vec<Ends>, NoMemory>
    ensures { IfOk result (λ kept. kept.items
        ≡ spec.kept_ends (are_joined_in joined.now) cells.now seed count) }
{
    if cells.is_empty() {
        return Ok(Vec::new(alloc));
    }
    let mut generator = Lcg64Xsh32::seed_from_u64(seed ^ 2);
    draw_kept(alloc, &mut generator, count, cells, joined)
}

// The kept ones of the generator's tries.
fn draw_kept(
    alloc: Global,
    generator: &mut Lcg64Xsh32,
    count: u32,
    cells: &[Cell],
    joined: &JoinedLayers,
) -> Result<Vec<Ends>, NoMemory>
    requires { 0 < length cells.now }
    ensures { let words = words_from (2 * most_tries count) generator.old in
        IfOk result (λ kept. kept.items
        ≡ take count (filter (spec.is_kept (are_joined_in joined.now)) (tries_by cells.now words))) }
{
    let mut kept = Vec::new(alloc);
    for _tried in 0..10 * u64::from(count) + 100 {
        if kept.len() >= count as usize {
            return Ok(kept);
        }
        let ends = draw_ends(generator, cells);
        if is_kept(ends, joined) {
            kept.push(ends)?;
        }
    }
    Ok(kept)
}

// Whether the try is kept.
fn is_kept(ends: Ends, joined: &JoinedLayers) -> bool
    ensures { result ≡ spec.is_kept (are_joined_in joined.now) ends }
{
    ends.from != ends.to && joined.joined(ends.from, ends.to)
}

// The ends that the next two words tell.
fn draw_ends(generator: &mut Lcg64Xsh32, cells: &[Cell]) -> Ends
    requires { 0 < length cells.now }
    ensures { Draws cells.now generator.old result generator.new }
{
    let from = draw_cell(generator, cells);
    let to = draw_cell(generator, cells);
    Ends { from, to }
}

// The cell that the next word tells.
fn draw_cell(generator: &mut Lcg64Xsh32, cells: &[Cell]) -> Cell
    requires { 0 < length cells.now }
    ensures { DrawsCell cells.now generator.old result generator.new }
{
    let word = generator.next_word();
    cells[word as usize % cells.len()]
}
