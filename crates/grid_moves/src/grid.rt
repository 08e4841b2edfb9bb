//! A grid in memory.

ghost use Rattle.std.specs.Prelude.{◌≡◌, ◌≢◌, ℕ, suc, ◌+◌, ◌*◌, ◌<◌, IfOk, IsTrue, false, length, replicate};
ghost use Rattle.std.specs.Prelude.{slice_index_or};
ghost use Rattle.grid_moves.specs.Grid as spec;
ghost use Rattle.grid_moves.specs.Padded as padded;

use crate::{Cell, Corner, Dir, Ground, NoMemory, Terrain};
use std::alloc::Global;
use std::marker::Model;

/// What a byte of a map stands for: `.`, `G` and `S` are land, `W` is water, all other bytes blocked.
pub fn ground_of(byte: u8) -> Ground
    ensures { result ≡ spec.ground_of byte }
{
    match byte {
        b'.' | b'G' | b'S' => Ground::Land,
        b'W' => Ground::Water,
        _ => Ground::Blocked,
    }
}

// Whether the byte stands for this ground.
fn is_of(kind: Ground, byte: u8) -> bool
    ensures { result ≡ spec.is_ground kind (spec.ground_of byte) }
{
    kind == ground_of(byte)
}

// The number of places that a grid of these sides has in memory, with its border.
fn places(width: u16, height: u16) -> usize
    ensures { result ≡ padded.places width height }
{
    (height as usize + 2) * (width as usize + 1) + 1
}

// The place of a cell.
#[inline(always)]
fn place_of(width: u16, c: Cell) -> usize
    ensures { result ≡ padded.place_of width (suc c.x) (suc c.y) }
{
    (c.y as usize + 1) * (width as usize + 1) + c.x as usize + 1
}

// The place of the cell ahead, which may stand on the border, given that of the cell.
#[inline(always)]
fn place_to(width: u16, place: usize, c: Cell, d: Dir) -> usize
    requires { place ≡ padded.place_of width (suc c.x) (suc c.y) }
    ensures { result ≡ padded.place_of width (padded.column_of d c.x) (padded.row_of d c.y) }
{
    let row = width as usize + 1;
    match d {
        Dir::N => place - row,
        Dir::NE => place - row + 1,
        Dir::E => place + 1,
        Dir::SE => place + row + 1,
        Dir::S => place + row,
        Dir::SW => place + row - 1,
        Dir::W => place - 1,
        Dir::NW => place - row - 1,
    }
}

// So many places, all of them blocked.
fn blocked(alloc: Global, n: usize) -> Result<Vec<bool>, NoMemory>
    ensures { IfOk result (λ cells. cells.items ≡ replicate n false) }
{
    vec![in alloc; false; n]
}

// For each byte of a row, whether it stands for this ground.
fn fill_row(kind: Ground, bytes: &[u8], row: &mut [bool])
    requires { length bytes.now ≡ length row.old }
    ensures long { length row.new ≡ length row.old }
    ensures flags { (x : ℕ) → x < length row.new → slice_index_or row.new x false
        ≡ spec.is_ground kind (spec.ground_of (slice_index_or bytes.now x 0)) }
{
    for x in 0..row.len() {
        row[x] = is_of(kind, bytes[x]);
    }
}

// The same for each row of a map, within the border.
fn fill(kind: Ground, width: u16, height: u16, bytes: &[u8], cells: &mut [bool])
    requires bytes { spec.AreCells width height bytes.now }
    requires blocked { cells.old ≡ replicate (padded.places width height) false }
    ensures long { length cells.new ≡ padded.places width height }
    ensures stored { padded.AreStored width
        (spec.is_free (spec.layer_of kind Corner.Never width height bytes.now)) cells.new }
{
    let wide = width as usize;
    for y in 0..height {
        let from = y as usize * wide;
        let to = place_of(width, Cell { x: 0, y });
        fill_row(kind, &bytes[from..from + wide], &mut cells[to..to + wide]);
    }
}

/// A grid that keeps one flag for each cell, row by row, with a border of blocked cells around them: so what
/// lies around a cell is read with no look at the border.
#[derive(Drop)]
pub struct Grid {
    width: u16,
    height: u16,
    corner: Corner,
    cells: Vec<bool>,
}

impl Model for Grid {
    ghost use Rattle.grid_moves.specs.Grid.{GridData};
    ghost use Rattle.grid_moves.specs.Padded.{IsPadded, grid_in};

    ghost Value = { GridData };

    ghost view = { λ g. grid_in g.width g.height g.corner g.cells.items };

    ghost invariant = { λ g. IsPadded (grid_in g.width g.height g.corner g.cells.items) g.cells.items };
}

impl Grid {
    ghost use Rattle.grid_moves.specs.Grid.{AreCells, grid_of, grid_with, is_free, is_ground, is_inside};
    ghost use Rattle.grid_moves.specs.Grid.{layer_of};

    /// The land grid of a map: `.`, `G` and `S` are free, all other bytes blocked.
    ///
    /// `cells` has one byte for each cell, row by row. The corner rule never changes.
    pub fn of_cells(
        alloc: Global,
        width: u16,
        height: u16,
        cells: &[u8],
        corner: Corner,
    ) -> Result<Grid, NoMemory>
        requires { AreCells width height cells.now }
        ensures { IfOk result (λ g. g ≡ grid_of width height cells.now corner) }
    {
        Grid::of_layer(alloc, width, height, cells, corner, Ground::Land)
    }

    /// The grid of a map in which the cells of one ground, land or water, are free.
    ///
    /// `cells` has one byte for each cell, row by row. The corner rule never changes.
    pub fn of_layer(
        alloc: Global,
        width: u16,
        height: u16,
        cells: &[u8],
        corner: Corner,
        kind: Ground,
    ) -> Result<Grid, NoMemory>
        requires cells { AreCells width height cells.now }
        requires layer { is_ground kind Ground.Blocked ≡ false }
        ensures { IfOk result (λ g. g ≡ layer_of kind corner width height cells.now) }
    {
        let mut places = blocked(alloc, places(width, height))?;
        fill(kind, width, height, cells, places.as_mut_slice());
        Ok(Grid {
            width,
            height,
            corner,
            cells: places,
        })
    }

    /// The cells of a row, from the left: for each column `true` where the cell is free.
    pub fn row(&self, y: u16) -> &[bool]
        requires inside { y < self.now.height }
        ensures wide { length result.now ≡ self.now.width }
        ensures flags { (x : ℕ) → x < self.now.width
            → slice_index_or result.now x false ≡ is_free self.now (record { x = x; y = y }) }
    {
        let start = place_of(self.width, Cell { x: 0, y });
        &self.cells[start..start + self.width as usize]
    }

    /// Makes a cell of the map free, or blocked; all other cells stay.
    pub fn set(&mut self, c: Cell, free: bool)
        requires { IsTrue (is_inside self.old c) }
        ensures edited { self.new ≡ grid_with self.old c free }
        ensures cell { is_free self.new c ≡ free }
        ensures others { (d : _) → d ≢ c → is_free self.new d ≡ is_free self.old d }
        ensures width { self.new.width ≡ self.old.width }
        ensures height { self.new.height ≡ self.old.height }
        ensures corner { self.new.corner ≡ self.old.corner }
    {
        let place = place_of(self.width, c);
        self.cells[place] = free;
    }
}

impl Terrain for Grid {
    ghost grid = { λ g. g };

    ghost place_of = { λ g c. padded.place_of g.width (suc c.x) (suc c.y) };

    fn width(&self) -> u16 {
        self.width
    }

    fn height(&self) -> u16 {
        self.height
    }

    fn corner(&self) -> Corner {
        self.corner
    }

    fn free(&self, c: Cell) -> bool {
        (c.x < self.width) & (c.y < self.height) && self.cells[place_of(self.width, c)]
    }

    #[inline(always)]
    fn place(&self, c: Cell) -> usize {
        place_of(self.width, c)
    }

    #[inline(always)]
    fn place_ahead(&self, place: usize, c: Cell, d: Dir) -> usize {
        place_to(self.width, place, c, d)
    }

    #[inline(always)]
    fn open_by(&self, place: usize, c: Cell, d: Dir) -> bool {
        self.cells[place_to(self.width, place, c, d)]
    }

    fn read_row(&self, y: u16, row: &mut [bool]) {
        if y < self.height {
            row.copy_from_slice(self.row(y));
        } else {
            row.fill(false);
        }
    }
}
