//! Certificates of small maps with each byte changed in turn: what is still accepted is true.
//!
//! The truth is found here by trying all moves round after round until each cell has its least cost
//! (Bellman, 1958), with costs compared through squares of whole numbers, on the rows of the map. It
//! shares nothing with the searches.

use grid_moves::{Cell, Corner, Grid, Terrain};
use potential_check::{CertFault, Proof, check, read_certificate};
use potential_make::certificate;
use root2_cost::Cost;
use std::alloc::{AllocError, Global};
use std::test::Fail;

// The bytes that take the place of another.
const OTHERS: &[u8] = b"0123456789 ,\nnx";

// Rows of at most 8 cells, and the corner rule.
#[derive(Drop)]
struct Map {
    width: usize,
    height: usize,
    cells: Vec<u8>,
    corner: Corner,
}

// How a text was judged: its claim is accepted and true, or accepted and false, or it is refused.
#[derive(Clone, Copy, Debug, PartialEq, Eq)]
enum Verdict {
    TrueLeast,
    TrueNone,
    False,
    Refused,
}

// How many changed texts were judged so.
#[derive(Clone, Copy)]
struct Counts {
    least: u32,
    none: u32,
    wrong: u32,
    refused: u32,
}

impl Counts {
    fn add(&mut self, verdict: Verdict) {
        match verdict {
            Verdict::TrueLeast => self.least = self.least.wrapping_add(1),
            Verdict::TrueNone => self.none = self.none.wrapping_add(1),
            Verdict::False => self.wrong = self.wrong.wrapping_add(1),
            Verdict::Refused => self.refused = self.refused.wrapping_add(1),
        }
    }
}

// The next of the numbers that are drawn, by a linear congruence (Knuth, The Art of Computer
// Programming, volume 2).
fn draw(state: &mut u64) -> u64 {
    *state = state
        .wrapping_mul(6364136223846793005)
        .wrapping_add(1442695040888963407);
    *state >> 33
}

// A map with about a quarter of its cells blocked.
fn drawn(alloc: Global, state: &mut u64, corner: Corner) -> Result<Map, AllocError> {
    let width = if draw(state) % 2 == 0 { 3 } else { 4 };
    let height = if draw(state) % 2 == 0 { 2 } else { 3 };
    let mut cells = Vec::new(alloc);
    for _ in 0..width * height {
        cells.push(if draw(state) % 4 == 0 { b'@' } else { b'.' })?;
    }
    Ok(Map {
        width,
        height,
        cells,
        corner,
    })
}

// Whether there is such a cell, and it is free.
fn is_open(map: &Map, x: usize, y: usize) -> bool {
    let place = y.wrapping_mul(map.width).wrapping_add(x);
    x < map.width && y < map.height && map.cells.get(place) == Some(&b'.')
}

// Whether a step aside and down, each 0, 1 or usize::MAX for −1, is a legal move from a free cell.
fn may_step(map: &Map, x: usize, y: usize, aside: usize, down: usize) -> bool {
    let (to_x, to_y) = (x.wrapping_add(aside), y.wrapping_add(down));
    if aside == 0 || down == 0 {
        return is_open(map, to_x, to_y);
    }
    let (beside, below) = (is_open(map, to_x, y), is_open(map, x, to_y));
    let passes = match map.corner {
        Corner::Never => beside && below,
        Corner::One => beside || below,
        Corner::Both => true,
    };
    passes && is_open(map, to_x, to_y)
}

// Whether a + b√2 of p is less than that of q.
fn is_less(p: Cost, q: Cost) -> bool {
    let straight = square(p.a.abs_diff(q.a));
    let diagonal = square(p.b.abs_diff(q.b)).wrapping_mul(2);
    match (p.a < q.a, p.b < q.b) {
        (true, true) => true,
        (true, false) => diagonal < straight,
        (false, true) => straight < diagonal,
        (false, false) => false,
    }
}

fn square(n: u32) -> u64 {
    u64::from(n).wrapping_mul(u64::from(n))
}

// The lesser of a cost and one that may be known.
fn lesser(known: Option<Cost>, paid: Cost) -> Option<Cost> {
    match known {
        Some(cost) if !is_less(paid, cost) => Some(cost),
        _ => Some(paid),
    }
}

// What a cell costs from the costs of those around it that are known.
fn improved(map: &Map, known: &[Option<Cost>], x: usize, y: usize) -> Option<Cost> {
    let mut best = at(map, known, x, y);
    for aside in [usize::MAX, 0, 1] {
        for down in [usize::MAX, 0, 1] {
            let from = at(map, known, x.wrapping_add(aside), y.wrapping_add(down));
            if let Some(cost) = from {
                if may_step(map, x, y, aside, down) {
                    best = lesser(best, added(cost, aside != 0 && down != 0));
                }
            }
        }
    }
    best
}

// The cost with one more move.
fn added(cost: Cost, diagonal: bool) -> Cost {
    let (a, b) = if diagonal { (0, 1) } else { (1, 0) };
    Cost {
        a: cost.a.wrapping_add(a),
        b: cost.b.wrapping_add(b),
    }
}

// The known cost of a cell, where there is such a cell.
fn at(map: &Map, known: &[Option<Cost>], x: usize, y: usize) -> Option<Cost> {
    if x < map.width && y < map.height {
        let place = y.wrapping_mul(map.width).wrapping_add(x);
        known.get(place).copied().flatten()
    } else {
        None
    }
}

// The costs after a round in which each free cell was looked at once.
fn after_round(
    alloc: Global,
    map: &Map,
    known: &[Option<Cost>],
) -> Result<Vec<Option<Cost>>, AllocError> {
    let mut costs = Vec::new(alloc);
    for y in 0..map.height {
        for x in 0..map.width {
            let cost = if is_open(map, x, y) {
                improved(map, known, x, y)
            } else {
                None
            };
            costs.push(cost)?;
        }
    }
    Ok(costs)
}

// The costs before the first round: that of the start is known.
fn at_first(
    alloc: Global,
    map: &Map,
    from: (usize, usize),
) -> Result<Vec<Option<Cost>>, AllocError> {
    let mut costs = Vec::new(alloc);
    for y in 0..map.height {
        for x in 0..map.width {
            let is_start = x == from.0 && y == from.1;
            costs.push(if is_start {
                Some(Cost { a: 0, b: 0 })
            } else {
                None
            })?;
        }
    }
    Ok(costs)
}

// The least cost of the walks between two free cells, if there is one. A least walk passes no cell twice,
// so there are as many rounds as cells.
fn least_cost(
    alloc: Global,
    map: &Map,
    from: (usize, usize),
    to: (usize, usize),
) -> Result<Option<Cost>, AllocError> {
    let mut known = at_first(alloc, map, from)?;
    for _ in 0..map.cells.len() {
        known = after_round(alloc, map, known.as_slice())?;
    }
    Ok(at(map, known.as_slice(), to.0, to.1))
}

// The number at this place, from 0, of those that stand in a text.
fn number_in(text: &[u8], place: u32) -> usize {
    let (mut passed, mut value, mut inside) = (0u32, 0usize, false);
    for byte in text {
        if byte.is_ascii_digit() {
            value = value.wrapping_mul(10).wrapping_add((*byte - b'0') as usize);
            inside = true;
        } else if inside {
            if passed == place {
                return value;
            }
            passed = passed.wrapping_add(1);
            value = 0;
            inside = false;
        }
    }
    value
}

// Whether what was accepted is true of the ends that the text states, after its version and its sides.
fn truth(alloc: Global, map: &Map, text: &[u8], proof: Proof) -> Result<Verdict, AllocError> {
    let from = (number_in(text, 3), number_in(text, 4));
    let to = (number_in(text, 5), number_in(text, 6));
    let (a, b) = (number_in(text, 7), number_in(text, 8));
    Ok(match (proof, least_cost(alloc, map, from, to)?) {
        (Proof::NoWalk, None) => Verdict::TrueNone,
        (Proof::Least(proved), Some(cost))
            if proved == cost && cost.a as usize == a && cost.b as usize == b => {
            Verdict::TrueLeast
        }
        _ => Verdict::False,
    })
}

// How a text is judged.
fn judged(alloc: Global, grid: &Grid, map: &Map, text: &[u8]) -> Result<Verdict, AllocError> {
    if text.len() > 10_000 {
        return Ok(Verdict::False);
    }
    let read = match read_certificate(alloc, text) {
        Ok(read) => read,
        Err(CertFault::NoMemory) => return Err(AllocError),
        Err(_) => return Ok(Verdict::Refused),
    };
    match check(grid, &read) {
        Ok(proof) => truth(alloc, map, text, proof),
        Err(_) => Ok(Verdict::Refused),
    }
}

// The text with another byte, or none, in place of one.
fn changed(
    alloc: Global,
    text: &[u8],
    place: usize,
    byte: Option<u8>,
) -> Result<Vec<u8>, AllocError> {
    let mut out = Vec::new(alloc);
    for at in 0..text.len() {
        if at != place {
            out.push(text[at])?;
        } else if let Some(new) = byte {
            out.push(new)?;
        }
    }
    Ok(out)
}

// Judges the texts with one byte changed or left out.
fn judge_changes(
    alloc: Global,
    grid: &Grid,
    map: &Map,
    text: &[u8],
    counts: &mut Counts,
) -> Result<(), AllocError> {
    for place in 0..text.len() {
        let without = changed(alloc, text, place, None)?;
        counts.add(judged(alloc, grid, map, without.as_slice())?);
        for byte in OTHERS {
            if text[place] != *byte {
                let other = changed(alloc, text, place, Some(*byte))?;
                counts.add(judged(alloc, grid, map, other.as_slice())?);
            }
        }
    }
    Ok(())
}

// The grid of a map of 1 to 4 by 1 to 3 cells.
fn grid_of(alloc: Global, map: &Map) -> Result<Option<Grid>, AllocError> {
    let (width, height) = (map.width, map.height);
    if width < 1 || width > 4 || height < 1 || height > 3 || map.cells.len() != height * width {
        return Ok(None);
    }
    let cells = map.cells.as_slice();
    let grid = Grid::of_cells(alloc, width as u16, height as u16, cells, map.corner)?;
    Ok(Some(grid))
}

// A cell of the first 4 columns and 3 rows.
fn drawn_cell(state: &mut u64) -> Cell {
    Cell {
        x: (draw(state) % 4) as u16,
        y: (draw(state) % 3) as u16,
    }
}

// Judges the certificate between two cells, if both are free, and those with a byte changed.
fn judge_map(
    alloc: Global,
    map: &Map,
    state: &mut u64,
    counts: &mut Counts,
) -> Result<(), AllocError> {
    let Some(grid) = grid_of(alloc, map)? else {
        return Ok(());
    };
    let (from, to) = (drawn_cell(state), drawn_cell(state));
    if !grid.free(from) || !grid.free(to) {
        return Ok(());
    }
    let text = certificate(alloc, &grid, from, to)?;
    let as_written = judged(alloc, &grid, map, text.as_slice())?;
    if as_written != Verdict::TrueLeast && as_written != Verdict::TrueNone {
        counts.add(Verdict::False);
    }
    judge_changes(alloc, &grid, map, text.as_slice(), counts)
}

#[test]
fn what_is_accepted_is_true(rt: HostRuntime) -> Result<(), Fail> {
    let mut state = 1;
    let mut counts = Counts {
        least: 0,
        none: 0,
        wrong: 0,
        refused: 0,
    };
    for _round in 0..140 {
        for corner in [Corner::Never, Corner::One, Corner::Both] {
            let map = drawn(rt.alloc(), &mut state, corner)?;
            judge_map(rt.alloc(), &map, &mut state, &mut counts)?;
        }
    }
    let Counts {
        least,
        none,
        wrong,
        refused,
    } = counts;
    assert_eq!(rt;
        wrong,
        0,
        "of {least} and {none} accepted and {refused} refused"
    );
    assert!(rt;
        least > 100 && none > 10 && refused > 10_000,
        "{least}, {none} and {refused}"
    );
    Ok(())
}
